// The writer of one line, from values, into the last bytes of a space of 96 points.
use crate::answers::put_refusal;
use crate::text::numbers;
use lines::{EditionLine, Layout, Line, Totals};
use meter::{Card, Sample};
use quantity::Refusal;
use std::io;
use std::io::Write;

// `L,` a kind (0 opening, 1 card, 2 sample, 3 last line), the edition, the bytes lent, the position, and the line's numbers: the next position, or
// X and the refusal, then the whole space. The last line has every edition's numbers.
pub(crate) fn of_values(out: &mut impl Write, line: &[u8]) -> io::Result<()> {
    let [kind, edition, lent, at] = numbers::<4>(line, 1);
    let content = match kind {
        0 => Line::Opening(Layout::Lines),
        1 => Line::Card(Card::from(numbers(line, 5))),
        2 => Line::Sample(Sample::from(numbers(line, 5))),
        _ => Line::End(Totals::from(numbers(line, 5))),
    };
    let what = EditionLine {
        edition,
        line: content,
    };
    let mut space = [b'.'; 96];
    if let Some(buf) = last_bytes(&mut space, lent as usize) {
        put_position(out, lines::write_line(buf, at as usize, what))?;
    }
    out.write_all(b",")?;
    out.write_all(&space)
}

// As many of a space's last bytes as are to be lent; none, and so no answer, where it has fewer.
pub(crate) fn last_bytes(space: &mut [u8], lent: usize) -> Option<&mut [u8]> {
    let start = space.len().checked_sub(lent)?;
    space.get_mut(start..)
}

// The position that a writer answered, or X and the refusal.
pub(crate) fn put_position(out: &mut impl Write, next: Result<usize, Refusal>) -> io::Result<()> {
    match next {
        Ok(next) => write!(out, ",{next}"),
        Err(refusal) => put_refusal(out, refusal),
    }
}
