// The state of a meter, and the refusals 20 and 21.
ghost use Rattle.std.specs.Prelude.{◌≡◌, ◌||◌};
ghost use Rattle.quantity.specs.Refusals.{first_of};
ghost use Rattle.meter.specs.Step.{card_and_state_rows};
ghost use Rattle.meter.specs.State.{state_rows, passes_limit_by, misfits_edition};

use crate::card::Card;
use crate::edition::{counts_cold, is_other_edition, keeps_seconds};
use quantity::{Refusal, first_refusal};

// The limits of rows 20 and 21: of each register in mJ, of the volume in mL, and of accepted and refused samples together.
pub(crate) const LARGEST_REGISTER: u64 = 999999999999999999;

pub(crate) const LARGEST_VOLUME: u64 = 999999999999999;

pub(crate) const LARGEST_COUNT: u64 = 1000000000000;

// The longest time of a sample in s (row 30), and so the most seconds that are kept for each accepted one (row 20).
pub(crate) const MOST_SECONDS: u64 = 3600;

/// A meter: its card, its edition and its six totals (docs/OPERATIONS.md, "The meter's state"). Any number of 64 bits may stand in any field; the
/// step refuses such a card with 10 to 18 or 77 and such a state with 20 or 21.
#[derive(Clone, Copy, Debug, PartialEq, Eq)]
pub struct Meter {
    /// what is fixed about the meter
    pub card: Card,
    /// 1, 2 or 3
    pub edition: u64,
    /// the heat of the accepted samples whose supply was not colder than their return, in mJ: at most 10^18−1
    pub heat_register: u64,
    /// the water of all accepted samples, in mL: at most 10^15−1
    pub volume: u64,
    /// how many samples were accepted
    pub accepted: u64,
    /// how many samples a row of their own refused; together with the accepted ones at most 10^12
    pub refused: u64,
    /// the seconds of the accepted samples whose flow was above qs, in s: 0 in edition 1
    pub kept_seconds: u64,
    /// the cold of the accepted samples whose supply was colder than their return, in mJ: at most 10^18−1, and 0 in editions 1 and 2
    pub cold_register: u64,
}

impl Meter {
    // The rows of card and state, which come before those of a sample.
    #[tactic(auto, using(quantity::proofs::Rows::parts))]
    pub(crate) fn refusal(self) -> Result<(), Refusal>
        ensures { result ≡ first_of (card_and_state_rows self) }
    {
        self.card.refusal()?;
        self.state_refusal()
    }

    // Rows 20 and 21. The sum of the two counts can pass 64 bits: then the largest number of 64 bits stands for it, which is above the limit too.
    fn state_refusal(self) -> Result<(), Refusal>
        ensures { result ≡ first_of (state_rows self) }
    {
        let count = self.accepted.saturating_add(self.refused);
        first_refusal(&[
            Refusal::State.when(self.is_refused(count)),
            Refusal::CountsFull.when(count == LARGEST_COUNT),
        ])
    }

    // Whether row 20 applies to the meter, whose two counts together are `count`.
    fn is_refused(self, count: u64) -> bool
        ensures { result ≡ (passes_limit_by self count || misfits_edition self) }
    {
        self.passes_a_limit(count) || self.misfits_edition()
    }

    fn passes_a_limit(self, count: u64) -> bool
        ensures { result ≡ passes_limit_by self count }
    {
        LARGEST_REGISTER < self.heat_register
            || LARGEST_REGISTER < self.cold_register
            || LARGEST_VOLUME < self.volume
            || LARGEST_COUNT < count
    }

    // Whether edition and totals cannot belong together: there is no such edition, or there are more kept seconds than there can be, or a total is
    // not 0 that the edition lacks. The limit of the kept seconds can pass 64 bits: then the largest number of 64 bits stands for it, and no number of
    // 64 bits is above either.
    fn misfits_edition(self) -> bool
        ensures { result ≡ misfits_edition self }
    {
        let edition = self.edition;
        let kept = self.kept_seconds;
        is_other_edition(edition)
            || self.accepted.saturating_mul(MOST_SECONDS) < kept
            || (!keeps_seconds(edition) && 0 < kept)
            || (!counts_cold(edition) && 0 < self.cold_register)
    }
}
