// The fresh meter of a card and an edition.
ghost use Rattle.std.specs.Prelude.{◌≡◌};
ghost use Rattle.quantity.specs.Refusals.{refusal_number, first_number};
ghost use Rattle.meter.specs.State.{fresh_rows, fresh_of};
ghost use Rattle.meter.specs.Theorems.{FreshExactly};

use crate::card::Card;
use crate::edition::is_other_edition;
use crate::state::Meter;
use quantity::{Refusal, first_refusal};

/// The meter of a card and an edition with all six totals at 0. Refuses a card that is not allowed with the first of 10 to 18 and 77 whose
/// condition holds, and then with 20 an edition other than 1, 2 and 3 (docs/OPERATIONS.md, "The meter's state").
pub fn fresh(card: Card, edition: u64) -> Result<Meter, Refusal>
    ensures answer { result ≡ fresh_of card edition }
    ensures number { refusal_number result ≡ first_number (fresh_rows card edition) }
    ensures fresh_exactly { FreshExactly card edition result }
{
    made(card, edition)
}

// The fresh meter by its equation alone: what follows from it is proved once, where `fresh` promises it.
#[tactic(auto, using(quantity::proofs::Rows::parts), unfolding(crate::specs::State::fresh_of))]
fn made(card: Card, edition: u64) -> Result<Meter, Refusal>
    ensures { result ≡ fresh_of card edition }
{
    card.refusal()?;
    first_refusal(&[Refusal::State.when(is_other_edition(edition))])?;
    Ok(Meter {
        card,
        edition,
        heat_register: 0,
        volume: 0,
        accepted: 0,
        refused: 0,
        kept_seconds: 0,
        cold_register: 0,
    })
}
