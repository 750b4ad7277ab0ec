// The reader of one line. It looks at the line at the front of the bytes alone, and copies none of them.
ghost use Rattle.std.specs.Prelude.{◌≡◌};
ghost use Rattle.quantity.specs.Refusals.{first_number, refusal_number};
ghost use Rattle.lines.specs.Line.{card, sample, totals};
ghost use Rattle.lines.specs.Reading.{edition_in, read_of, read_rows, rest_of};
ghost use Rattle.lines.specs.Theorems.{RefusedExactly, NeverForPressure, ReadWithin};
ghost use Rattle.lines.specs.Inside.Parts.{after_letter};

use crate::fields::fill_numbers;
use crate::line::{CARD_LINE_FIELDS, EditionLine, FILE_PRESSURE, Front, Line, MayCome, Totals};
use crate::listed::{MOST_LATER, totals_count};
use crate::opening::{OPENING_LENGTH, opened_edition};
use meter::{CARD_FIELDS, Card, SAMPLE_FIELDS, Sample, is_other_edition};
use quantity::Refusal;

/// What the reader hands back: the line at the front of the bytes, or the refusal; and the part of the same bytes behind the line, which is empty
/// after a refusal.
#[derive(Clone, Copy)]
pub struct ReadLine<'a> {
    /// the line and how many bytes it takes, or why it is refused: 60, 61, 62 or 10 to 18
    pub front: Result<Front, Refusal>,
    /// the bytes behind the line, a part of those that were given
    pub rest: &'a [u8],
}

/// Reads the line at the front of bytes, told which is due (docs/OPERATIONS.md, "One line: reading and writing"). Refusals, in this order: 60 if no
/// opening stands there where one is due, or the edition that is told is none; 61 if the line has not its shape; 62 if a field is no number; 10 to
/// 18 if a card is not allowed.
// `inline`, as `front_line` is, so that a caller which names the line that is due is compiled without the other cases: an audit has a call for every
// line, and without it takes a fifth more.
#[inline(always)]
#[tactic(auto, unfolding(crate::specs::Reading::rest_of))]
pub fn read_line<'a>(bytes: &'a [u8], may_come: MayCome) -> ReadLine<'a>
    ensures front { result.front ≡ read_of may_come bytes.now }
    ensures rest { result.rest.now ≡ rest_of bytes.now (read_of may_come bytes.now) }
    ensures number { refusal_number result.front ≡ first_number (read_rows may_come bytes.now) }
    ensures refused_exactly { RefusedExactly may_come bytes.now result.front }
    ensures never_for_pressure { NeverForPressure result.front }
    ensures read_within { ReadWithin bytes.now result.front }
{
    let front = front_line(bytes, may_come);
    let rest = match front {
        Ok(front) => &bytes[front.size..],
        Err(_) => &[],
    };
    ReadLine { front, rest }
}

// What stands at the front of bytes. The edition is looked at before all else.
#[inline(always)]
#[tactic(auto, using(crate::proofs::ReaderRows::by_byte), unfolding(crate::specs::Reading::edition_in))]
fn front_line(bytes: &[u8], may_come: MayCome) -> Result<Front, Refusal>
    ensures { result ≡ read_of may_come bytes.now }
{
    let edition = edition_in(bytes, may_come);
    if is_other_edition(edition) {
        return Err(Refusal::Edition);
    }
    match may_come {
        MayCome::Opening(layout) => Ok(Front {
            line: EditionLine {
                edition,
                line: Line::Opening(layout),
            },
            size: OPENING_LENGTH,
        }),
        MayCome::Card(_) => match bytes {
            [b'C', after @ ..] => front_card(after, edition),
            _ => Err(Refusal::Shape),
        },
        MayCome::SampleOrEnd(_) => match bytes {
            [b'S', after @ ..] => front_sample(after, edition),
            [b'E', after @ ..] => front_end(after, edition),
            _ => Err(Refusal::Shape),
        },
    }
}

// The edition of the line: found in an opening, told of any other line.
#[tactic(auto, unfolding(crate::specs::Reading::edition_in))]
fn edition_in(bytes: &[u8], may_come: MayCome) -> u64
    ensures { result ≡ edition_in may_come bytes.now }
{
    match may_come {
        MayCome::Opening(layout) => opened_edition(layout, bytes),
        MayCome::Card(edition) | MayCome::SampleOrEnd(edition) => edition,
    }
}

// Each letter has a function of its own, with room for the numbers of its own line: a sample's line, which is nearly every line of a file, does not
// pass through room for a card's.

// The card's line, by what follows its letter. The last place of the fields, the pressure, is not read, and keeps that of every file. The card's own
// conditions come after 61 and 62.
fn front_card(after: &[u8], edition: u64) -> Result<Front, Refusal>
    ensures { result ≡ after_letter edition card after.now }
{
    let mut fields = [FILE_PRESSURE; CARD_FIELDS];
    let size = fill_numbers(after, &mut fields[..CARD_LINE_FIELDS])?;
    let card = Card::from(fields);
    card.refusal()?;
    let line = EditionLine {
        edition,
        line: Line::Card(card),
    };
    Ok(Front { line, size })
}

// A sample's line, by what follows its letter.
fn front_sample(after: &[u8], edition: u64) -> Result<Front, Refusal>
    ensures { result ≡ after_letter edition sample after.now }
{
    let mut numbers = [0u64; SAMPLE_FIELDS];
    let size = fill_numbers(after, &mut numbers)?;
    let line = EditionLine {
        edition,
        line: Line::Sample(Sample::from(numbers)),
    };
    Ok(Front { line, size })
}

// Line E, by what follows its letter. The totals that its edition lacks are 0.
fn front_end(after: &[u8], edition: u64) -> Result<Front, Refusal>
    ensures { result ≡ after_letter edition totals after.now }
{
    let mut numbers = [0u64; MOST_LATER];
    let size = fill_numbers(after, &mut numbers[..totals_count(edition)])?;
    let line = EditionLine {
        edition,
        line: Line::End(Totals::from(numbers)),
    };
    Ok(Front { line, size })
}
