// A line's numbers as a list: those that stand on it in its edition, and those that its edition lacks. The writer writes the former and looks at
// both.
ghost use Rattle.std.specs.Prelude.{◌≡◌, ◌+◌, ◌≤◌, length, leb, sum_by};
ghost use Rattle.std.specs.List.{list_any};
ghost use Rattle.lines.specs.Number.{decimal};
ghost use Rattle.lines.specs.Line.{totals, kind_of, first_field, count_of};
ghost use Rattle.lines.specs.Inside.Parts.{parted_at, numbers_parted, most_numbers, most_later};

use crate::line::{CARD_LINE_FIELDS, EditionLine, Line, TOTALS_FIELDS};
use crate::number::width;
use crate::opening::opening_word;
use meter::{CARD_FIELDS, SAMPLE_FIELDS, counts_cold, keeps_seconds};
use std::marker::Model;

// The most numbers of any line: the card's line has them.
pub(crate) const MOST_NUMBERS: usize = CARD_LINE_FIELDS;

// The most numbers of line E, those of the newest edition; a sample's line has fewer.
pub(crate) const MOST_LATER: usize = TOTALS_FIELDS;

// The first count of the numbers are those that a line can have, and the first shown of these stand on it. Two lengths go with one array: the model
// says what they mean, and no function outside sees them.
#[derive(Debug, Drop)]
pub(crate) struct Listed {
    numbers: [u64; MOST_NUMBERS],
    count: usize,
    shown: usize,
}

impl Model for Listed {
    ghost use Rattle.std.specs.Prelude.{◌≤◌, length, take};
    ghost use Rattle.lines.specs.Inside.Parts.{Parted, parted_at};

    ghost Value = { Parted };

    ghost view = { λ l. parted_at l.shown (take l.count l.numbers) };

    ghost invariant = { λ l. (l.shown ≤ l.count) × (l.count ≤ length l.numbers) };
}

impl Listed {
    // These numbers, of which the first shown stand on the line.
    fn new(numbers: &[u64], shown: usize) -> Listed
        requires { (length numbers.now ≤ most_numbers) × (shown ≤ length numbers.now) }
        ensures { result ≡ parted_at shown numbers.now }
    {
        let count = numbers.len();
        let mut all = [0u64; MOST_NUMBERS];
        all[..count].copy_from_slice(numbers);
        Listed {
            numbers: all,
            count,
            shown,
        }
    }

    // Those that stand on the line.
    pub(crate) fn shown(&self) -> &[u64]
        ensures { result.now ≡ self.now.shown }
    {
        &self.numbers[..self.shown]
    }

    // Those that its edition lacks.
    pub(crate) fn lacked(&self) -> &[u64]
        ensures { result.now ≡ self.now.lacked }
    {
        &self.numbers[self.shown..self.count]
    }
}

// The numbers of a line in its edition, in the order in which they stand on it.
#[tactic(auto, unfolding(crate::specs::Line::kind_of, crate::specs::Line::count_of, crate::specs::Line::all_numbers_of, meter::specs::Card::fields_of, meter::specs::Sample::sample_numbers))]
pub(crate) fn numbers_of(what: EditionLine) -> Listed
    ensures { result ≡ numbers_parted what }
{
    match what.line {
        Line::Opening(_) => Listed::new(&[what.edition], 1),
        Line::Card(c) => Listed::new(
            &<[u64; CARD_FIELDS]>::from(c)[..CARD_LINE_FIELDS],
            CARD_LINE_FIELDS,
        ),
        Line::Sample(s) => Listed::new(&<[u64; SAMPLE_FIELDS]>::from(s), SAMPLE_FIELDS),
        Line::End(t) => Listed::new(&<[u64; TOTALS_FIELDS]>::from(t), totals_count(what.edition)),
    }
}

// How many numbers line E has in an edition.
#[tactic(auto, unfolding(crate::specs::Line::count_of))]
pub(crate) fn totals_count(edition: u64) -> usize
    ensures { (result ≡ count_of edition totals) × (result ≤ most_later) }
{
    if counts_cold(edition) {
        return TOTALS_FIELDS;
    }
    if keeps_seconds(edition) { 5 } else { 4 }
}

// Whether one of the numbers is least or more.
pub(crate) fn has_from(numbers: &[u64], least: u64) -> bool
    ensures { result ≡ list_any (λ n. leb least n) numbers.now }
{
    numbers.iter().any(|n| least <= *n)
}

// How many bytes the numbers take, each with the comma before it.
pub(crate) fn fields_length(numbers: &[u64]) -> usize
    requires { length numbers.now ≤ most_numbers }
    ensures { result ≡ sum_by (λ n. length (decimal n) + 1) numbers.now }
{
    numbers.iter().map(|n| width(*n) + 1).sum()
}

// A line's first field.
#[tactic(auto, unfolding(crate::specs::Line::kind_of, crate::specs::Line::first_field))]
pub(crate) fn first_field(line: Line) -> &'static [u8]
    ensures { result.now ≡ first_field (kind_of line) }
{
    match line {
        Line::Opening(layout) => opening_word(layout),
        Line::Card(_) => b"C",
        Line::Sample(_) => b"S",
        Line::End(_) => b"E",
    }
}
