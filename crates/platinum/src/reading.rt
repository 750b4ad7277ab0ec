// The temperature operation (docs/OPERATIONS.md, "The temperature of one reading"), and why a reading has no temperature.
ghost use Rattle.std.specs.Prelude.{◌≡◌, IfOk, MatchResult};
ghost use Rattle.platinum.specs.Sensor.{resistance_of};
ghost use Rattle.platinum.specs.Temperature.{of_resistance, temperature_of};
ghost use Rattle.platinum.specs.Line.{ratio_of};
ghost use Rattle.platinum.specs.Tries.{FromLine};
ghost use Rattle.platinum.specs.Refusal.{alone_rows, end_rows, refusal_of, unmeasured_refusal};
ghost use Rattle.platinum.specs.Theorems.{MeasuredExactly, UnmeasuredExactly};
ghost use Rattle.quantity.specs.Range.{refusal_at_end};
ghost use Rattle.quantity.specs.Refusals.{first_number, first_of, number_of, refusal_number};
ghost use Rattle.quantity.specs.declared.range.Role.TheVariants as P;

use crate::curve::{Found, RATIO_AT_END, RATIO_AT_ZERO, Search};
use crate::sensor::Sensor;
use quantity::{End, Refusal, Role, Temperature};

/// Why a reading has no temperature: there is no sensor kind to read it by, or it misses an end of the range.
#[derive(Clone, Copy, Debug, PartialEq, Eq)]
pub enum Unmeasured {
    /// no sensor kind has that resistance at 0 °C (12)
    NoSensor,
    /// the reading lies beyond this end of the range, 0.00 to 180.00 °C (32 or 33, 70 or 71)
    Outside(End),
}

/// The temperature of a reading in 0.0001 ohm, of a sensor as it stands on a card, by its resistance at 0 °C in ohm. It is the largest temperature,
/// in hundredths of °C from 0 to 18000, at which the sensor's resistance by IEC 60751 is not above the reading. Any numbers are answered. Where
/// there is no temperature the answer says why: no such sensor (12), a reading below that of 0.00 °C (32), or above that of 180.00 °C (70).
pub fn temperature(field: u64, reading: u64) -> Result<Temperature, Unmeasured>
    ensures value { result ≡ temperature_of field reading }
    ensures refusal { refusal_of P.Alone result ≡ first_of (alone_rows field reading) }
    ensures number { refusal_number (refusal_of P.Alone result) ≡ first_number (alone_rows field reading) }
    ensures measured_exactly { MeasuredExactly field reading result }
    ensures unmeasured_exactly { UnmeasuredExactly field reading result }
{
    measured(field, reading)
}

// The answer, of which the clauses of `temperature` speak.
#[tactic(auto, unfolding(crate::specs::Temperature::temperature_of))]
fn measured(field: u64, reading: u64) -> Result<Temperature, Unmeasured>
    ensures { result ≡ temperature_of field reading }
{
    let sensor = Sensor::try_from(field)?;
    Ok(of_sensor(sensor, reading)?.temperature)
}

// A reading times 10^10 can pass 64 bits, so the two ends are compared as full products.
#[tactic(auto, using(crate::proofs::Near::between_ends, crate::proofs::Near::found, crate::proofs::Resistances::resistance_range), unfolding(crate::specs::Temperature::of_resistance, crate::specs::Temperature::W))]
fn of_sensor(sensor: Sensor, reading: u64) -> Result<Found, Unmeasured>
    ensures answer { MatchResult result
        (λ f. Ok f.temperature ≡ of_resistance (resistance_of sensor) reading)
        (λ e. Err e ≡ of_resistance (resistance_of sensor) reading) }
    ensures from_line { IfOk result (λ f. FromLine (ratio_of (resistance_of sensor) reading) f.temperature.0 f.tries) }
{
    let n = sensor.resistance();
    if quantity::product_less(reading, 10000000000, n, RATIO_AT_ZERO) {
        return Err(Unmeasured::Outside(End::Low));
    }
    if quantity::product_less(n, RATIO_AT_END, reading, 10000000000) {
        return Err(Unmeasured::Outside(End::High));
    }
    Ok(Search::found(reading * 10000000000 / n))
}

impl Unmeasured {
    /// The refusal, by whose reading it is: 12 without a sensor, and otherwise that of the end that was missed, 32 and 70, or 33 and 71 of the
    /// return.
    #[tactic(auto, unfolding(crate::specs::Refusal::unmeasured_refusal))]
    pub fn refusal(self, role: Role) -> Refusal
        ensures { result ≡ unmeasured_refusal role self }
    {
        match self {
            Unmeasured::NoSensor => Refusal::SensorKind,
            Unmeasured::Outside(missed) => quantity::end_refusal(role, missed),
        }
    }

    /// The refusal by the rows of the two ends only, for a caller that has looked at the sensor already: that of the end that was missed, 32 and
    /// 70, or 33 and 71 of the return. An answer without a sensor counts with the low end.
    #[tactic(auto, using(crate::proofs::Ends::outside_refusal, crate::proofs::Ends::outside_number), unfolding(quantity::specs::Refusals::first_of, quantity::specs::Refusals::first_number))]
    pub fn reading_refusal(self, role: Role) -> Refusal
        ensures answer { Err result ≡ first_of (end_rows role (Err self)) }
        ensures number { number_of result ≡ first_number (end_rows role (Err self)) }
        ensures missed_end { (e : End) → self ≡ Unmeasured.Outside e → result ≡ refusal_at_end role e }
    {
        match self {
            Unmeasured::NoSensor => quantity::end_refusal(role, End::Low),
            Unmeasured::Outside(end) => quantity::end_refusal(role, end),
        }
    }
}
