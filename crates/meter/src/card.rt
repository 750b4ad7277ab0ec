// The card of a meter, and the refusals 10 to 18 and 77 of one that is not allowed.
ghost use Rattle.std.specs.Prelude.{◌≡◌, not, ◌&&◌, ◌||◌, ◌*◌, ◌^◌, ltb, leb};
ghost use Rattle.quantity.specs.Refusals.{refusal_number, first_of, first_number};
ghost use Rattle.quantity.specs.Units.{last_degree, largest_kelvins};
ghost use Rattle.platinum.specs.Sensor.{sensor_of, is_unknown};
ghost use Rattle.water.specs.Pressure.{pressure_of, ends_below};
ghost use Rattle.meter.specs.Card.{fields_of, card_rows};

use platinum::Sensor;
use quantity::{LARGEST_KELVINS, LAST_DEGREE, Refusal, first_refusal, is_outside};
use water::Pressure;

/// How many numbers a card has.
pub const CARD_FIELDS: usize = 13;

/// What is fixed about a meter when it is built in: the numbers of line C, in its order (docs/FORMAT.md, "Line C: the meter's card"), and last the
/// pressure, which no file tells. Any number of 64 bits may stand in any field, in place, sensor and pressure too; `Card::refusal` tells what is
/// wrong with a card.
#[derive(Clone, Copy, Debug, PartialEq, Eq)]
pub struct Card {
    /// the meter's serial number, from 1 to 99999999
    pub serial: u64,
    /// where the volume is measured: 1 in the supply, 2 in the return
    pub place: u64,
    /// the resistance of both platinum sensors at 0 °C, in ohm: 100, 500 or 1000 (IEC 60751)
    pub sensor: u64,
    /// the volume that one pulse of the flow sensor stands for, in mL: 1 to 100000
    pub ml_per_pulse: u64,
    /// Θmin, the lower limit of the temperatures (OIML R 75-1), in whole °C: below Θmax
    pub theta_min: u64,
    /// Θmax, their upper limit, in whole °C: at most 180
    pub theta_max: u64,
    /// Δmin, the lower limit of the temperature difference (OIML R 75-1), in whole K: 1, 2 or 3
    pub delta_min: u64,
    /// Δmax, its upper limit, in whole K: 10 times Δmin to 180
    pub delta_max: u64,
    /// qi, the lower limit of the flow rate, in mL/h: 1 to qp
    pub qi: u64,
    /// qp, the permanent flow rate, in mL/h: qi to qs
    pub qp: u64,
    /// qs, the upper limit of the flow rate, in mL/h: qp to 10^9
    pub qs: u64,
    /// Ps, the upper limit of the thermal power, in W: 1 to 10^9
    pub ps: u64,
    /// the pressure of the water, in bar: 6 or 16, at 6 with Θmax at most 150
    pub pressure: u64,
}

/// The card of these numbers, in its order, whatever they are. This is the one place of the crate that builds a card.
impl From<[u64; CARD_FIELDS]> for Card {
    ghost from_gives = { λ f c. fields_of c ≡ f };

    fn from(f: [u64; CARD_FIELDS]) -> Card {
        let [
            serial,
            place,
            sensor,
            ml_per_pulse,
            theta_min,
            theta_max,
            delta_min,
            delta_max,
            qi,
            qp,
            qs,
            ps,
            pressure,
        ] = f;
        Card {
            serial,
            place,
            sensor,
            ml_per_pulse,
            theta_min,
            theta_max,
            delta_min,
            delta_max,
            qi,
            qp,
            qs,
            ps,
            pressure,
        }
    }
}

/// A card's numbers, in its order.
impl From<Card> for [u64; CARD_FIELDS] {
    ghost from_gives = { λ c f. f ≡ fields_of c };

    #[tactic(auto, unfolding(crate::specs::Card::fields_of))]
    fn from(c: Card) -> [u64; CARD_FIELDS] {
        [
            c.serial,
            c.place,
            c.sensor,
            c.ml_per_pulse,
            c.theta_min,
            c.theta_max,
            c.delta_min,
            c.delta_max,
            c.qi,
            c.qp,
            c.qs,
            c.ps,
            c.pressure,
        ]
    }
}

impl Card {
    /// The first of 10 to 18 and 77 whose condition holds of the card, or nothing for a card that is allowed. Every field is tested
    /// (docs/FORMAT.md, "Line C: the meter's card", and for 77 docs/OPERATIONS.md, "The meter's state").
    // `inline`, so that a loop over one card's samples need not test the card for each of them.
    #[inline]
    #[tactic(auto, unfolding(crate::specs::Card::card_rows))]
    pub fn refusal(self) -> Result<(), Refusal>
        ensures answer { result ≡ first_of (card_rows self) }
        ensures number { refusal_number result ≡ first_number (card_rows self) }
    {
        first_refusal(&[
            Refusal::Serial.when(is_outside(self.serial, 1, 99999999)),
            Refusal::Place.when(is_outside(self.place, 1, 2)),
            Refusal::SensorKind.when(self.is_sensor_unknown()),
            Refusal::PulseVolume.when(is_outside(self.ml_per_pulse, 1, 100000)),
            Refusal::ThetaRange.when(self.is_theta_refused()),
            Refusal::DeltaMin.when(is_outside(self.delta_min, 1, 3)),
            Refusal::DeltaMax.when(self.is_delta_max_refused()),
            Refusal::FlowRates.when(self.are_flows_refused()),
            Refusal::PowerLimit.when(is_outside(self.ps, 1, 1000000000)),
            Refusal::Pressure.when(self.is_pressure_refused()),
        ])
    }

    fn is_sensor_unknown(self) -> bool
        ensures { result ≡ is_unknown (sensor_of self.sensor) }
    {
        Sensor::try_from(self.sensor).is_err()
    }

    fn is_theta_refused(self) -> bool
        ensures { result ≡ (leb self.theta_max self.theta_min || ltb last_degree self.theta_max) }
    {
        self.theta_max <= self.theta_min || LAST_DEGREE < self.theta_max
    }

    // Ten times the smallest difference can pass 64 bits, so the largest one is divided instead.
    fn is_delta_max_refused(self) -> bool
        ensures { result ≡ (ltb self.delta_max (10 * self.delta_min) || ltb largest_kelvins self.delta_max) }
    {
        self.delta_max / 10 < self.delta_min || LARGEST_KELVINS < self.delta_max
    }

    fn are_flows_refused(self) -> bool
        ensures { result ≡ not (leb 1 self.qi && leb self.qi self.qp && leb self.qp self.qs && leb self.qs (10 ^ 9)) }
    {
        !(1 <= self.qi && self.qi <= self.qp && self.qp <= self.qs && self.qs <= 1000000000)
    }

    // The water table of the pressure has to reach Θmax.
    fn is_pressure_refused(self) -> bool
        ensures { result ≡ ends_below (pressure_of self.pressure) self.theta_max }
    {
        match Pressure::try_from(self.pressure) {
            Ok(pressure) => pressure.last_degree() < self.theta_max,
            Err(_) => true,
        }
    }
}
