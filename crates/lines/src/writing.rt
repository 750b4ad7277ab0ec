// The writer of one line. All conditions are looked at before the first byte is written, so that a refused line leaves the buffer as it was.
ghost use Rattle.std.specs.Prelude.{◌≡◌, false, ◌||◌, map, ◌≤◌, length};
ghost use Rattle.quantity.specs.Refusals.{first_number, first_of, refusal_number};
ghost use Rattle.buffer.specs.Putting.{buffer_after};
ghost use Rattle.buffer.specs.Front.{put_front};
ghost use Rattle.meter.specs.Edition.{is_other_edition};
ghost use Rattle.lines.specs.Number.{decimal, some_long, some_nonzero};
ghost use Rattle.lines.specs.Line.{after_commas, text_of, bytes_of, content_rows, has_other_pressure};
ghost use Rattle.lines.specs.Inside.Parts.{most_numbers};
ghost use Rattle.lines.specs.Writing.{own_rows, write_rows, written_of};
ghost use Rattle.lines.specs.Theorems.{WrittenExactly};

use crate::line::{EditionLine, FILE_PRESSURE, Line};
use crate::listed::{Listed, fields_length, first_field, has_from, numbers_of};
use crate::number::{LEAST_LONG, put_field};
use crate::opening::put_opening;
use buffer::put_refusal;
use meter::is_other_edition;
use quantity::{Refusal, first_refusal};

/// Puts a line with its edition into buf from the position at on, counted from 0, and answers the position behind it; all other bytes stay.
/// Refusals, in this order, which leave buf as it was: 67 if at is above the length of buf; 60 if the edition is none; 10 to 18 or 77 if a card is
/// not allowed; 78 if it has not 16 bar, the pressure of every file; 62 if a number has over 18 digits, or a total that the edition lacks is not 0;
/// 66 if there are fewer bytes from at on than the line has (docs/OPERATIONS.md, "One line: reading and writing").
#[tactic(auto, unfolding(buffer::specs::Putting::put_of, buffer::specs::Putting::buffer_after))]
pub fn write_line(buf: &mut [u8], at: usize, what: EditionLine) -> Result<usize, Refusal>
    ensures answer { result ≡ written_of (length buf.old) at what }
    ensures buffer { buf.new ≡ buffer_after buf.old at (bytes_of what) result }
    ensures number { refusal_number result ≡ first_number (write_rows (length buf.old) at what) }
    ensures written_exactly { WrittenExactly (length buf.old) at what result }
{
    put_refusal(buf.len(), at, own_refusal(what), line_length(what))?;
    Ok(at + put_line(&mut buf[at..], what))
}

// What refuses a line wherever it is to be written, in order: 60; what refuses a card; 78; 62.
#[tactic(auto, using(crate::proofs::WriterRows::stages))]
fn own_refusal(what: EditionLine) -> Result<(), Refusal>
    ensures { result ≡ first_of (own_rows what) }
{
    first_refusal(&[Refusal::Edition.when(is_other_edition(what.edition))])?;
    content_refusal(what.line)?;
    first_refusal(&[
        Refusal::FilePressure.when(has_other_pressure(what.line)),
        Refusal::Number.when(has_refused_number(&numbers_of(what))),
    ])
}

// A card's own conditions, 10 to 18 and 77. Another line has none on what it says.
#[tactic(auto, unfolding(crate::specs::Line::content_rows, quantity::specs::Refusals::first_of))]
fn content_refusal(line: Line) -> Result<(), Refusal>
    ensures { result ≡ first_of (content_rows line) }
{
    match line {
        Line::Card(card) => card.refusal(),
        Line::Opening(_) | Line::Sample(_) | Line::End(_) => Ok(()),
    }
}

// Whether the line has a card of another pressure than that of every file.
#[tactic(auto, unfolding(crate::specs::Line::has_other_pressure))]
fn has_other_pressure(line: Line) -> bool
    ensures { result ≡ has_other_pressure line }
{
    match line {
        Line::Card(card) => card.pressure != FILE_PRESSURE,
        Line::Opening(_) | Line::Sample(_) | Line::End(_) => false,
    }
}

// How many bytes a line takes.
fn line_length(what: EditionLine) -> usize
    ensures { result ≡ length (bytes_of what) }
{
    let listed = numbers_of(what);
    text_length(first_field(what.line), listed.shown())
}

// How many bytes the first field, the numbers and the line feed take.
#[tactic(auto, using(crate::proofs::Listing::text_size, crate::proofs::Listing::fields_small))]
fn text_length(first: &[u8], numbers: &[u64]) -> usize
    requires { length numbers.now ≤ most_numbers }
    ensures { result ≡ length (text_of first.now numbers.now) }
{
    first.len() + fields_length(numbers) + 1
}

// Whether a number on the line has over 18 digits, or one that its edition lacks is not 0.
fn has_refused_number(listed: &Listed) -> bool
    ensures { result ≡ (some_long listed.now.shown || some_nonzero listed.now.lacked) }
{
    has_from(listed.shown(), LEAST_LONG) || has_from(listed.lacked(), 1)
}

// Puts a line for which there is room at the front of part, and answers how many bytes it takes.
fn put_line(part: &mut [u8], what: EditionLine) -> usize
    requires { (length (bytes_of what) ≤ length part.old) × (is_other_edition what.edition ≡ false) }
    ensures { (result ≡ length (bytes_of what)) × (part.new ≡ put_front part.old (bytes_of what)) }
{
    if let Line::Opening(layout) = what.line {
        return put_opening(part, layout, what.edition);
    }
    let listed = numbers_of(what);
    put_text(part, first_field(what.line), listed.shown())
}

// Puts the first field, the numbers and the line feed at the front of part, and answers how many bytes they take.
#[tactic(auto, using(crate::proofs::Listing::fields_room, crate::proofs::Listing::end_room))]
pub(crate) fn put_text(part: &mut [u8], first: &[u8], numbers: &[u64]) -> usize
    requires { length (text_of first.now numbers.now) ≤ length part.old }
    ensures { (result ≡ length (text_of first.now numbers.now)) × (part.new ≡ put_front part.old (text_of first.now numbers.now)) }
{
    let place = first.len();
    part[..place].copy_from_slice(first);
    let end = place + put_fields(&mut part[place..], numbers);
    part[end] = b'\n';
    end + 1
}

// Puts the numbers, each after a comma. Each is put at the front of the part that is left, so that its writer touches nothing before that.
#[tactic(auto, using(crate::proofs::Listing::begun, crate::proofs::Listing::next_place))]
fn put_fields(part: &mut [u8], numbers: &[u64]) -> usize
    requires { length (after_commas (map decimal numbers.now)) ≤ length part.old }
    ensures { (result ≡ length (after_commas (map decimal numbers.now))) × (part.new ≡ put_front part.old (after_commas (map decimal numbers.now))) }
{
    let mut place: usize = 0;
    for number in numbers {
        place += put_field(&mut part[place..], *number);
    }
    place
}
