// A sample, and the rows that refuse it by its counts alone.
ghost use Rattle.std.specs.Prelude.{◌≡◌};
ghost use Rattle.quantity.specs.Refusals.{first_of};
ghost use Rattle.meter.specs.Sample.{sample_numbers};
ghost use Rattle.meter.specs.Step.{count_rows};

use crate::card::Card;
use crate::state::MOST_SECONDS;
use quantity::{Refusal, first_refusal, is_outside};
use water::MOST_MILLILITRES;

/// How many numbers a sample has.
pub const SAMPLE_FIELDS: usize = 4;

/// What the flow sensor and the temperature sensor pair gave in some seconds: the numbers of line S, in its order
/// (docs/FORMAT.md, "Line S: a sample"). Any number of 64 bits may stand in any field; the step refuses what it cannot count.
#[derive(Clone, Copy, Debug, PartialEq, Eq)]
pub struct Sample {
    /// how many pulses the flow sensor gave: at most 1000000 in an accepted sample
    pub pulses: u64,
    /// how long the sample took, in s: 1 to 3600 in an accepted sample
    pub seconds: u64,
    /// the resistance of the sensor in the supply, in 0.0001 ohm
    pub supply_reading: u64,
    /// the resistance of the sensor in the return, in 0.0001 ohm
    pub return_reading: u64,
}

/// The sample of these numbers, in the order of line S, whatever they are.
impl From<[u64; SAMPLE_FIELDS]> for Sample {
    ghost from_gives = { λ f s. sample_numbers s ≡ f };

    fn from(f: [u64; SAMPLE_FIELDS]) -> Sample {
        let [pulses, seconds, supply_reading, return_reading] = f;
        Sample {
            pulses,
            seconds,
            supply_reading,
            return_reading,
        }
    }
}

/// A sample's numbers, in the order of line S.
impl From<Sample> for [u64; SAMPLE_FIELDS] {
    ghost from_gives = { λ s f. f ≡ sample_numbers s };

    #[tactic(auto, unfolding(crate::specs::Sample::sample_numbers))]
    fn from(s: Sample) -> [u64; SAMPLE_FIELDS] {
        [s.pulses, s.seconds, s.supply_reading, s.return_reading]
    }
}

impl Sample {
    // Rows 30 and 31. A volume that is capped where it passes 64 bits is too large as well.
    #[tactic(auto, unfolding(crate::specs::Step::count_rows, crate::specs::Sample::volume_of))]
    pub(crate) fn count_refusal(self, card: Card) -> Result<(), Refusal>
        ensures { result ≡ first_of (count_rows card self) }
    {
        let volume = self.pulses.saturating_mul(card.ml_per_pulse);
        first_refusal(&[
            Refusal::Seconds.when(is_outside(self.seconds, 1, MOST_SECONDS)),
            Refusal::Volume.when(1000000 < self.pulses || MOST_MILLILITRES < volume),
        ])
    }
}
