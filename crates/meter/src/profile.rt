// The day profile: the step for a sample that comes with the index of its quarter of an hour.
ghost use Rattle.std.specs.Prelude.{◌≡◌, ◌++◌, IfOk, Ok, ltb};
ghost use Rattle.std.specs.List.{list_any};
ghost use Rattle.std.specs.Result.{result_and};
ghost use Rattle.quantity.specs.Refusals.{refusal_number, first_of, first_number};
ghost use Rattle.meter.specs.Step.{card_and_state_rows, sample_rows};
ghost use Rattle.meter.specs.Profile.{zero_cells, profile_rows, by_profile, in_quarter_of};
ghost use Rattle.meter.specs.Theorems.{InQuarterExactly, OtherCellsStay, CellAsRegister};
ghost use Rattle.meter.specs.Inside.Quarters.{Admitted};

use crate::sample::Sample;
use crate::state::{LARGEST_REGISTER, Meter};
use crate::stepping::{Stepped, step};
use quantity::{Refusal, first_refusal};

/// How many quarters of an hour a day has, and how many cells a profile.
pub const QUARTERS: usize = 96;

/// What a call with an index answers.
#[derive(Clone, Copy, Debug, PartialEq, Eq)]
pub struct Profiled {
    /// the step's answer, or the unchanged meter and 73
    pub stepped: Stepped,
    /// the cells afterwards, in mJ
    pub cells: [u64; QUARTERS],
}

/// The cells before a day's first sample, in mJ: 96 zeros (docs/OPERATIONS.md, "The day profile").
pub fn empty_profile() -> [u64; QUARTERS]
    ensures { result ≡ zero_cells }
{
    [0; QUARTERS]
}

/// Takes one sample together with a day's cells in mJ and the index of the sample's quarter, 0 to 95 (docs/OPERATIONS.md, "The day profile").
/// Refuses with 73, before all else, an index above 95 or a cell above 999999999999999999 mJ; meter and cells are then unchanged. Otherwise the
/// answer is that of `step`, with its refusals, and an accepted heat sample adds its heat in mJ, rounded down, to the cell of the index. Cold and
/// refused samples add to no cell.
pub fn step_in_quarter(m: Meter, cells: [u64; QUARTERS], s: Sample, index: u64) -> Profiled
    ensures answer { result ≡ in_quarter_of m cells s index }
    ensures number { refusal_number result.stepped.outcome ≡ first_number (profile_rows cells index ++ (card_and_state_rows m ++ sample_rows m s)) }
    ensures in_quarter_exactly { InQuarterExactly m cells s index result }
    ensures other_cells_stay { OtherCellsStay cells index result }
    ensures cell_as_register { CellAsRegister m cells s index result }
{
    taken_in_quarter(m, cells, s, index)
}

// The call by its equation alone: what follows from it is proved once, where `step_in_quarter` promises it.
#[tactic(auto, unfolding(crate::specs::Profile::in_quarter_of))]
fn taken_in_quarter(m: Meter, cells: [u64; QUARTERS], s: Sample, index: u64) -> Profiled
    ensures { result ≡ in_quarter_of m cells s index }
{
    match Quarter::of(cells, index) {
        Ok(quarter) => quarter.take(m, s),
        Err(refusal) => Profiled {
            stepped: Stepped {
                meter: m,
                outcome: Err(refusal),
            },
            cells,
        },
    }
}

// Cells and an index that 73 does not refuse, so that the index is that of a cell, and the cells are small.
#[derive(Clone, Copy)]
struct Quarter {
    cells: [u64; QUARTERS],
    index: usize,
    ghost bounds: { Admitted cells index },
}

impl Quarter {
    fn of(cells: [u64; QUARTERS], index: u64) -> Result<Quarter, Refusal>
        ensures rows { result_and result (Ok tt) ≡ first_of (profile_rows cells index) }
        ensures same { IfOk result (λ q. (q.cells ≡ cells) × (q.index ≡ index)) }
    {
        profile_refusal(&cells, index)?;
        Ok(Quarter {
            cells,
            index: index as usize,
        })
    }

    // The step's answer, and the cells after it. The heat register grows by what an accepted heat sample adds to its cell, and by nothing
    // otherwise, so that its growth is what to add.
    #[tactic(auto, using(crate::proofs::Quarters::not_below, crate::proofs::Quarters::answer_is))]
    fn take(self, m: Meter, s: Sample) -> Profiled
        ensures { result ≡ by_profile m self.cells s self.index (Ok tt) }
    {
        let stepped = step(m, s);
        let mut cells = self.cells;
        cells[self.index] += stepped.meter.heat_register - m.heat_register;
        Profiled { stepped, cells }
    }
}

// Row 73.
#[tactic(auto, unfolding(crate::specs::Profile::profile_rows))]
fn profile_refusal(cells: &[u64], index: u64) -> Result<(), Refusal>
    ensures { result ≡ first_of (profile_rows cells.now index) }
{
    first_refusal(&[Refusal::Profile.when(
        QUARTERS as u64 <= index || has_above(cells, LARGEST_REGISTER),
    )])
}

// Whether a cell is above a limit.
fn has_above(cells: &[u64], limit: u64) -> bool
    ensures { result ≡ list_any (λ cell. ltb limit cell) cells.now }
{
    cells.iter().any(|cell| limit < *cell)
}
