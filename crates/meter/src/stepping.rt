// The step of a meter, stage by stage in the order of the rows: card and state, then the sample's counts, its readings, its ranges, and what it
// would add.
ghost use Rattle.std.specs.Prelude.{◌≡◌, ◌++◌, Ok};
ghost use Rattle.std.specs.Result.{result_and};
ghost use Rattle.quantity.specs.Refusals.{refusal_number, first_of, first_number};
ghost use Rattle.meter.specs.Step.{card_and_state_rows, sample_rows, accepting, by_sample, step_of};
ghost use Rattle.meter.specs.Answers.{Answers};
ghost use Rattle.meter.specs.Theorems.{AcceptedExactly, AcceptedHasTemperatures};

use crate::measurement::Measurement;
use crate::sample::Sample;
use crate::state::Meter;
use crate::usable::Usable;
use quantity::Refusal;

/// What the step answers.
#[derive(Clone, Copy, Debug, PartialEq, Eq)]
pub struct Stepped {
    /// the meter afterwards
    pub meter: Meter,
    /// nothing where the sample was accepted, and otherwise what refused it
    pub outcome: Result<(), Refusal>,
}

/// Takes one sample (docs/FORMAT.md, "Which samples are accepted" and "Heat and cold"). Refuses with 10 to 18 or 77 for the card and with 20 or
/// 21 for the state, which leaves the meter unchanged. Refuses a sample with 30 to 41, 70 or 71, in the order that docs/FORMAT.md gives, which adds 1 to
/// the refused count: 30 and 31 for its seconds and its volume, 32, 70, 33 and 71 for a reading without a temperature (IEC 60751), 34 to 39 for its
/// temperatures, their difference and its flow, 40 and 41 for what it would add. An accepted sample adds its heat or cold in mJ, rounded down
/// (OIML R 75-1, with the water of IAPWS-IF97), to its own register, its volume in mL to the volume, 1 to the accepted count, and its seconds to
/// the kept ones if its flow was above qs.
pub fn step(m: Meter, s: Sample) -> Stepped
    ensures answer { result ≡ step_of m s }
    ensures number { refusal_number result.outcome ≡ first_number (card_and_state_rows m ++ sample_rows m s) }
    ensures answers { Answers m s result }
    ensures accepted_exactly { AcceptedExactly m s result }
    ensures accepted_has_temperatures { AcceptedHasTemperatures m.card s result }
{
    taken(m, s)
}

// The step by its equation alone: what follows from it is proved once, where `step` promises it, and not for each of the two answers here.
#[tactic(auto, unfolding(crate::specs::Step::step_of))]
fn taken(m: Meter, s: Sample) -> Stepped
    ensures { result ≡ step_of m s }
{
    match Usable::of(m) {
        Ok(usable) => usable.take(s),
        Err(refusal) => Stepped {
            meter: m,
            outcome: Err(refusal),
        },
    }
}

impl Usable {
    // The meter after the sample, by the sample's rows.
    fn take(self, s: Sample) -> Stepped
        ensures { result ≡ by_sample self.meter s (first_of (sample_rows self.meter s)) }
    {
        match self.accept(s) {
            Ok(meter) => Stepped {
                meter,
                outcome: Ok(()),
            },
            Err(refusal) => Stepped {
                meter: self.refuse(),
                outcome: Err(refusal),
            },
        }
    }

    // The meter with the accepted sample, or the refusal of the first of the sample's rows that applies.
    #[tactic(auto, using(crate::proofs::Stages::by_stages))]
    fn accept(self, s: Sample) -> Result<Meter, Refusal>
        ensures { result ≡ result_and (first_of (sample_rows self.meter s)) (Ok (accepting self.meter s)) }
    {
        let measurement = Measurement::of(self, s)?;
        measurement.range_refusal()?;
        let heat = measurement.heat()?;
        measurement.limit_refusal(heat)?;
        Ok(measurement.added(heat))
    }
}
