// The rows of a sample's ranges, by its meter's card and edition.
ghost use Rattle.std.specs.Prelude.{◌≡◌};
ghost use Rattle.quantity.specs.Refusals.{first_of};
ghost use Rattle.meter.specs.Step.{outside_theta, range_rows};

use crate::edition::{counts_cold, keeps_seconds};
use crate::measurement::Measurement;
use quantity::{Difference, Refusal, Temperature, Unit, first_refusal};

impl Measurement {
    // Rows 34 to 39. A supply colder than its return is refused only in an edition that counts no cold, and a flow above qs only in one that does
    // not keep the seconds of such a sample.
    #[tactic(auto, unfolding(crate::specs::Step::range_rows))]
    pub(crate) fn range_refusal(self) -> Result<(), Refusal>
        ensures { result ≡ first_of (range_rows self.usable.meter.edition self.usable.meter.card self.sample) }
    {
        let m = self.usable.meter;
        let difference = self.supply_temperature.distance(self.return_temperature);
        let least = Difference::whole(m.card.delta_min as u32);
        let largest = Difference::whole(m.card.delta_max as u32);
        first_refusal(&[
            Refusal::SupplyOutsideTheta.when(self.is_outside_theta(self.supply_temperature)),
            Refusal::ReturnOutsideTheta.when(self.is_outside_theta(self.return_temperature)),
            Refusal::SupplyBelowReturn.when(
                !counts_cold(m.edition) && self.supply_temperature < self.return_temperature,
            ),
            Refusal::DifferenceTooSmall.when(difference < least),
            Refusal::DifferenceTooLarge.when(largest < difference),
            Refusal::FlowAboveQs.when(!keeps_seconds(m.edition) && self.is_above_qs()),
        ])
    }

    fn is_outside_theta(self, t: Temperature) -> bool
        ensures { result ≡ outside_theta self.usable.meter.card t }
    {
        let card = self.usable.meter.card;
        t.is_outside(
            Temperature::whole(card.theta_min as u32),
            Temperature::whole(card.theta_max as u32),
        )
    }
}
