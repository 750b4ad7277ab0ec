// The openings, each file's first line, of either layout in each edition. Each is a constant, whose bytes reader and writer have in common.
ghost use Rattle.std.specs.Prelude.{◌≡◌, false, ◌≤◌, length};
ghost use Rattle.buffer.specs.Front.{put_front};
ghost use Rattle.meter.specs.Edition.{last_edition, is_other_edition};
ghost use Rattle.lines.specs.Reading.{opened_up_to};
ghost use Rattle.lines.specs.Line.{word_of, bytes_of, opening_in};

use crate::line::Layout;
use meter::LAST_EDITION;

/// How many bytes an opening has, whatever the layout and the edition, its line feed among them.
pub const OPENING_LENGTH: usize = 14;

// The word's bytes: a comma, the edition's digit and a line feed follow it.
const WORD_LENGTH: usize = OPENING_LENGTH - 3;

// How many editions there are.
const EDITIONS: usize = LAST_EDITION as usize;

// The openings of archives by edition, from 1 on.
static OF_LINES: [[u8; OPENING_LENGTH]; EDITIONS] = [
    *b"HEATARCHIVE,1\n",
    *b"HEATARCHIVE,2\n",
    *b"HEATARCHIVE,3\n",
];

// Those of files in columns.
static OF_COLUMNS: [[u8; OPENING_LENGTH]; EDITIONS] = [
    *b"HEATCOLUMNS,1\n",
    *b"HEATCOLUMNS,2\n",
    *b"HEATCOLUMNS,3\n",
];

// An edition's opening of a layout.
#[tactic(auto, using(crate::proofs::Openings::lines_listed, crate::proofs::Openings::columns_listed))]
fn opening_of(layout: Layout, edition: u64) -> &'static [u8; OPENING_LENGTH]
    requires { (1 ≤ edition) × (edition ≤ last_edition) }
    ensures { result.now ≡ bytes_of (opening_in layout edition) }
{
    let place = edition as usize - 1;
    match layout {
        Layout::Lines => &OF_LINES[place],
        Layout::Columns => &OF_COLUMNS[place],
    }
}

// The edition whose opening of a layout stands at the front of bytes, or 0, which is no edition, where none does: so one test of the edition refuses
// both a wrong opening and a wrong edition that was told. It is a loop, since std has no law of `find` in a reversed range.
#[tactic(auto, using(crate::proofs::Openings::opens_by, crate::proofs::Openings::opened_here, crate::proofs::Openings::opened_below, crate::proofs::Openings::opened_none))]
pub(crate) fn opened_edition(layout: Layout, bytes: &[u8]) -> u64
    ensures { result ≡ opened_up_to layout last_edition bytes.now }
{
    for edition in (1..=LAST_EDITION).rev() {
        if bytes.starts_with(opening_of(layout, edition)) {
            return edition;
        }
    }
    0
}

// Puts an edition's opening of a layout at the front of part, and answers how many bytes it takes.
#[tactic(auto, using(crate::proofs::Openings::edition_least, crate::proofs::Openings::edition_most, crate::proofs::Openings::digit_length))]
pub(crate) fn put_opening(part: &mut [u8], layout: Layout, edition: u64) -> usize
    requires { (length (bytes_of (opening_in layout edition)) ≤ length part.old) × (is_other_edition edition ≡ false) }
    ensures { (result ≡ length (bytes_of (opening_in layout edition))) × (part.new ≡ put_front part.old (bytes_of (opening_in layout edition))) }
{
    part[..OPENING_LENGTH].copy_from_slice(opening_of(layout, edition));
    OPENING_LENGTH
}

// The first field of every opening of a layout.
#[tactic(auto, unfolding(crate::specs::Line::word_of))]
pub(crate) fn opening_word(layout: Layout) -> &'static [u8]
    ensures { result.now ≡ word_of layout }
{
    match layout {
        Layout::Lines => &OF_LINES[0][..WORD_LENGTH],
        Layout::Columns => &OF_COLUMNS[0][..WORD_LENGTH],
    }
}
