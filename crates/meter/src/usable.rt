// A meter that can take samples.
ghost use Rattle.std.specs.Prelude.{◌≡◌, IfOk, Ok};
ghost use Rattle.std.specs.Result.{result_and};
ghost use Rattle.quantity.specs.Refusals.{first_of};
ghost use Rattle.meter.specs.Step.{refusing, card_and_state_rows};
ghost use Rattle.meter.specs.Inside.Stages.{AcceptedCard, AcceptedState};

use crate::state::Meter;
use quantity::Refusal;

// A meter that no row of card or state refuses, so that its numbers are small.
#[derive(Clone, Copy)]
pub(crate) struct Usable {
    pub(crate) meter: Meter,
    ghost card_bounds: { AcceptedCard meter.card },
    ghost state_bounds: { AcceptedState meter },
}

impl Usable {
    pub(crate) fn of(meter: Meter) -> Result<Usable, Refusal>
        ensures rows { result_and result (Ok tt) ≡ first_of (card_and_state_rows meter) }
        ensures same { IfOk result (λ x. x.meter ≡ meter) }
    {
        meter.refusal()?;
        Ok(Usable { meter })
    }

    // The meter with one refused sample more.
    pub(crate) fn refuse(self) -> Meter
        ensures { result ≡ refusing self.meter }
    {
        Meter {
            refused: self.meter.refused + 1,
            ..self.meter
        }
    }
}
