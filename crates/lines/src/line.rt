// The lines of an archive as data, each with its edition, and what a reader of lines or of files answers.
use meter::{CARD_FIELDS, Card, Meter, Sample};
use quantity::Refusal;

/// The pressure of every meter that a file tells of, in bar: line C has no field for it (docs/FORMAT.md, "Line C: the meter's card").
pub const FILE_PRESSURE: u64 = 16;

// How many of the card's numbers stand on line C: all but the last, the pressure.
pub(crate) const CARD_LINE_FIELDS: usize = CARD_FIELDS - 1;

/// How many totals line E has in the newest edition, which has the most.
pub const TOTALS_FIELDS: usize = 6;

/// What line E carries, in its order (docs/FORMAT.md, "Line E: the totals"). All six totals stand here in any edition; one that the edition lacks is
/// 0 where it was read, and has to be 0 to be written.
#[derive(Clone, Copy, Debug, PartialEq, Eq)]
pub struct Totals {
    /// how many samples were accepted
    pub accepted: u64,
    /// how many samples were refused
    pub refused: u64,
    /// the heat of the accepted samples whose supply was not colder than their return, in mJ
    pub heat_register: u64,
    /// the water of all accepted samples, in mL
    pub volume: u64,
    /// the seconds of the accepted samples whose flow was above qs, in s; from edition 2 on
    pub kept_seconds: u64,
    /// the cold of the accepted samples whose supply was colder than their return, in mJ; in edition 3
    pub cold_register: u64,
}

/// The totals of these numbers, in the order of line E, whatever they are.
impl From<[u64; TOTALS_FIELDS]> for Totals {
    ghost use Rattle.std.specs.Prelude.{◌≡◌};
    ghost use Rattle.lines.specs.Line.{totals_from};

    ghost from_gives = { λ numbers t. t ≡ totals_from numbers };

    fn from(numbers: [u64; TOTALS_FIELDS]) -> Totals {
        let [
            accepted,
            refused,
            heat_register,
            volume,
            kept_seconds,
            cold_register,
        ] = numbers;
        Totals {
            accepted,
            refused,
            heat_register,
            volume,
            kept_seconds,
            cold_register,
        }
    }
}

/// The numbers of the totals, in the order of line E.
impl From<Totals> for [u64; TOTALS_FIELDS] {
    ghost use Rattle.std.specs.Prelude.{◌≡◌};
    ghost use Rattle.lines.specs.Line.{totals_numbers};

    ghost from_gives = { λ t numbers. numbers ≡ totals_numbers t };

    fn from(t: Totals) -> [u64; TOTALS_FIELDS] {
        [
            t.accepted,
            t.refused,
            t.heat_register,
            t.volume,
            t.kept_seconds,
            t.cold_register,
        ]
    }
}

/// The totals that a meter has come to.
impl From<Meter> for Totals {
    ghost use Rattle.std.specs.Prelude.{◌≡◌};
    ghost use Rattle.lines.specs.Line.{totals_of};

    ghost from_gives = { λ m t. t ≡ totals_of m };

    fn from(m: Meter) -> Totals {
        Totals {
            accepted: m.accepted,
            refused: m.refused,
            heat_register: m.heat_register,
            volume: m.volume,
            kept_seconds: m.kept_seconds,
            cold_register: m.cold_register,
        }
    }
}

/// In which order a file has its samples: line by line, as an archive, or column by column. The word of the opening tells it.
#[derive(Clone, Copy, Debug, PartialEq, Eq)]
pub enum Layout {
    /// an archive, with a line for each sample; its word is HEATARCHIVE
    Lines,
    /// a line for each of the four columns; its word is HEATCOLUMNS
    Columns,
}

/// A line, by its kind: the opening, the card's line C, a sample's line S, or line E with the totals. Any numbers
/// can stand here: whether they may be read or written is for reader and writer to say.
#[derive(Clone, Copy, Debug, PartialEq, Eq)]
pub enum Line {
    /// the first line of a file, which names its layout and its edition
    Opening(Layout),
    /// line C, which has no field for the card's pressure: a card that was read has 16 bar, and one of another pressure is not written
    Card(Card),
    /// line S
    Sample(Sample),
    /// line E
    End(Totals),
}

/// What is read and written: a line with its edition, 1, 2 or 3. The opening names the edition in its bytes; the other lines stand in that of their
/// opening.
#[derive(Clone, Copy, Debug, PartialEq, Eq)]
pub struct EditionLine {
    /// the edition; another number than 1, 2 and 3 is not written (60)
    pub edition: u64,
    /// the line, of which the edition decides which totals stand on it
    pub line: Line,
}

/// Which line is due, as the reader is told: the opening, whose edition is found; or, in a given edition, a card, or a sample or the totals, of
/// which the letter tells.
#[derive(Clone, Copy, Debug, PartialEq, Eq)]
pub enum MayCome {
    /// the opening of a file of this layout, in any edition
    Opening(Layout),
    /// line C, in the edition of this number; another number than 1, 2 and 3 is refused (60)
    Card(u64),
    /// line S or line E, in the edition of this number; another number than 1, 2 and 3 is refused (60)
    SampleOrEnd(u64),
}

/// What stands at the front of some bytes: a line with its edition, and how many bytes it takes, its line feed among them.
#[derive(Clone, Copy, Debug, PartialEq, Eq)]
pub struct Front {
    /// the line, with its edition
    pub line: EditionLine,
    /// how many bytes it takes
    pub size: usize,
}

/// The refusal of a file, and the line at which it is refused, counted from 1.
#[derive(Clone, Copy, Debug, PartialEq, Eq)]
pub struct RefusedAt {
    /// why the file is refused
    pub refusal: Refusal,
    /// the number of the line, 1 for the opening
    pub line: u64,
}
