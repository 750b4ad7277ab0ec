// A sample of a meter with its volume and its two temperatures, and what follows from them: the flow, the kept seconds, its own register, its heat.
ghost use Rattle.std.specs.Prelude.{◌≡◌, ◌++◌, IfOk, Ok};
ghost use Rattle.std.specs.Result.{result_and};
ghost use Rattle.quantity.specs.Fractions.{floored};
ghost use Rattle.quantity.specs.Refusals.{first_of, NoneApplies};
ghost use Rattle.platinum.specs.Temperature.{temperature_of};
ghost use Rattle.platinum.specs.Refusal.{end_rows};
ghost use Rattle.meter.specs.Sample.{temperature_or_missing, volume_of, ts, tr, sample_heat};
ghost use Rattle.meter.specs.Register.{own_register};
ghost use Rattle.meter.specs.Step.{count_rows, reading_rows, range_rows, is_above_qs, kept_of};
ghost use Rattle.meter.specs.Inside.Stages.{AcceptedCounts};

use crate::card::Card;
use crate::register::Register;
use crate::sample::Sample;
use crate::usable::Usable;
use quantity::{Refusal, Role, Temperature};

// A sample of a meter, with its volume in mL and its two temperatures. Neither 30 nor 31 refuses it, so that its numbers are small and their
// products fit 64 bits.
#[derive(Clone, Copy)]
pub(crate) struct Measurement {
    pub(crate) usable: Usable,
    pub(crate) sample: Sample,
    pub(crate) volume: u64,
    pub(crate) supply_temperature: Temperature,
    pub(crate) return_temperature: Temperature,
    ghost count_bounds: { AcceptedCounts usable.meter.card sample },
    ghost volume_is: { volume ≡ volume_of usable.meter.card sample },
    ghost supply_is: { supply_temperature ≡ ts usable.meter.card sample },
    ghost return_is: { return_temperature ≡ tr usable.meter.card sample },
}

impl Measurement {
    // Rows 30 and 31, then those of the readings: 32 and 70 of the supply, 33 and 71 of the return.
    #[tactic(auto, using(crate::proofs::Stages::counts_and_readings, crate::proofs::Stages::counts_pass), unfolding(crate::specs::Sample::volume_of))]
    pub(crate) fn of(usable: Usable, sample: Sample) -> Result<Measurement, Refusal>
        ensures rows { result_and result (Ok tt) ≡ first_of (count_rows usable.meter.card sample ++ reading_rows usable.meter.card sample) }
        ensures parts { IfOk result (λ x. (x.usable.meter ≡ usable.meter) × (x.sample ≡ sample)) }
    {
        let card = usable.meter.card;
        sample.count_refusal(card)?;
        let supply_temperature = temperature(Role::Supply, card, sample.supply_reading)?;
        let return_temperature = temperature(Role::Return, card, sample.return_reading)?;
        Ok(Measurement {
            usable,
            sample,
            volume: sample.pulses * card.ml_per_pulse,
            supply_temperature,
            return_temperature,
        })
    }

    // Whether the sample's average flow is above qs; one that equals qs is not.
    #[tactic(auto, unfolding(crate::specs::Step::is_above_qs))]
    pub(crate) fn is_above_qs(self) -> bool
        ensures { result ≡ is_above_qs self.usable.meter.card self.sample }
    {
        self.usable.meter.card.qs * self.sample.seconds < self.volume * 3600
    }

    // The seconds that the meter keeps of the sample, where it is accepted.
    #[tactic(auto, unfolding(crate::specs::Step::kept_of))]
    pub(crate) fn kept_seconds(self) -> u64
        ensures { result ≡ kept_of self.usable.meter.card self.sample }
    {
        if self.is_above_qs() {
            self.sample.seconds
        } else {
            0
        }
    }

    // The register whose own the sample is.
    pub(crate) fn own_register(self) -> Register
        ensures { result ≡ own_register self.usable.meter.card self.sample }
    {
        Register::by(self.supply_temperature, self.return_temperature)
    }

    // Its heat or cold in mJ, rounded down. Of a sample within its ranges the water's operation refuses nothing.
    #[tactic(auto, using(crate::proofs::Heats::of_sample))]
    pub(crate) fn heat(self) -> Result<u64, Refusal>
        requires { NoneApplies (range_rows self.usable.meter.edition self.usable.meter.card self.sample) }
        ensures { result ≡ Ok (floored (sample_heat self.usable.meter.card self.sample)) }
    {
        water::heat(
            self.volume,
            self.supply_temperature,
            self.return_temperature,
            self.usable.meter.card.place,
            self.usable.meter.card.pressure,
        )
    }
}

// The temperature of a reading, or the refusal of one that has none, by the pipe whose reading it is.
#[tactic(auto, unfolding(quantity::specs::Refusals::first_of))]
fn temperature(role: Role, card: Card, reading: u64) -> Result<Temperature, Refusal>
    ensures rows { result_and result (Ok tt) ≡ first_of (end_rows role (temperature_of card.sensor reading)) }
    ensures value { IfOk result (λ t. t ≡ temperature_or_missing (temperature_of card.sensor reading)) }
{
    platinum::temperature(card.sensor, reading).map_err(|u| u.reading_refusal(role))
}
