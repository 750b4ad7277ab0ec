// The last rows of a sample, which test what it would add, and the meter after an accepted one. Both functions are given the sample's heat: their
// contracts require it, and that of `heat` promises it.
ghost use Rattle.std.specs.Prelude.{◌≡◌};
ghost use Rattle.quantity.specs.Fractions.{floored};
ghost use Rattle.quantity.specs.Refusals.{first_of};
ghost use Rattle.meter.specs.Sample.{sample_heat};
ghost use Rattle.meter.specs.Step.{limit_rows, accepting};
ghost use Rattle.meter.specs.Inside.Stages.{AcceptedLimits};

use crate::measurement::Measurement;
use crate::register::Register;
use crate::state::{LARGEST_REGISTER, LARGEST_VOLUME, Meter};
use quantity::{Refusal, first_refusal};

impl Measurement {
    // Rows 40 and 41. A sum that is capped where it passes 64 bits passes its limit as well.
    #[tactic(auto, unfolding(crate::specs::Step::limit_rows))]
    pub(crate) fn limit_refusal(self, heat: u64) -> Result<(), Refusal>
        requires { heat ≡ floored (sample_heat self.usable.meter.card self.sample) }
        ensures { result ≡ first_of (limit_rows self.usable.meter self.sample) }
    {
        let m = self.usable.meter;
        let register = m.register_of(self.own_register()).saturating_add(heat);
        let volume = m.volume.saturating_add(self.volume);
        first_refusal(&[
            Refusal::PowerAbovePs.when(m.card.ps * 1000 * self.sample.seconds < heat),
            Refusal::RegisterFull.when(LARGEST_REGISTER < register || LARGEST_VOLUME < volume),
        ])
    }

    // The meter with the accepted sample's volume and kept seconds, and with its heat or cold in the sample's own register.
    #[tactic(auto, using(crate::proofs::Accepted::kept_at_most))]
    pub(crate) fn added(self, heat: u64) -> Meter
        requires heat { heat ≡ floored (sample_heat self.usable.meter.card self.sample) }
        requires limits { AcceptedLimits self.usable.meter self.sample }
        ensures { result ≡ accepting self.usable.meter self.sample }
    {
        let m = self.usable.meter;
        let (heat_register, cold_register) = match self.own_register() {
            Register::Heat => (m.heat_register + heat, m.cold_register),
            Register::Cold => (m.heat_register, m.cold_register + heat),
        };
        Meter {
            heat_register,
            cold_register,
            volume: m.volume + self.volume,
            accepted: m.accepted + 1,
            kept_seconds: m.kept_seconds + self.kept_seconds(),
            ..m
        }
    }
}
