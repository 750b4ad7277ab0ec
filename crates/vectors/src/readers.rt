// The reader of one line, given as hexadecimal bytes: the line that it reads, and how many of the bytes it leaves.
use crate::answers::put_refusal;
use crate::archives::put_written;
use crate::hexadecimal::{MOST_BYTES, bytes_of};
use crate::text::number;
use lines::{EditionLine, Layout, MayCome};
use std::io;
use std::io::Write;

// `O,` the bytes, where the opening may come.
pub(crate) fn of_opening(out: &mut impl Write, line: &[u8]) -> io::Result<()> {
    put_read(out, line, 1, MayCome::Opening(Layout::Lines))
}

// `C,` the edition and the bytes, where the card's line may come.
pub(crate) fn of_card(out: &mut impl Write, line: &[u8]) -> io::Result<()> {
    put_read(out, line, 2, MayCome::Card(number(line, 1)))
}

// `S,` the edition and the bytes, where a sample's line or the last may come.
pub(crate) fn of_sample_or_end(out: &mut impl Write, line: &[u8]) -> io::Result<()> {
    put_read(out, line, 2, MayCome::SampleOrEnd(number(line, 1)))
}

// The bytes behind the k-th comma: the line as the writer puts it again and how many bytes follow it, or X and the refusal. The part after a
// refused line is empty: bytes in it would be shown behind the refusal.
fn put_read(out: &mut impl Write, line: &[u8], k: usize, may_come: MayCome) -> io::Result<()> {
    let mut space = [0; MOST_BYTES];
    let read = lines::read_line(bytes_of(line, k, &mut space), may_come);
    let after = read.rest.len();
    match read.front {
        Ok(front) => {
            put_again(out, front.line)?;
            write!(out, ",{after}")
        }
        Err(refusal) => {
            put_refusal(out, refusal)?;
            if after > 0 {
                write!(out, ",rest {after}")?;
            }
            Ok(())
        }
    }
}

fn put_again(out: &mut impl Write, what: EditionLine) -> io::Result<()> {
    let mut space = [0; 512];
    let next = lines::write_line(&mut space, 0, what);
    put_written(out, &space, next)
}
