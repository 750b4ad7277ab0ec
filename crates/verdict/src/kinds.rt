// The kinds that a test point names by number: its part, its class and its stage. Each is read once, and a number that names none is refused.
ghost use Rattle.quantity.specs.declared.refusal.Refusal.TheVariants as R;
ghost use Rattle.verdict.specs.Inside.Kinds.{part_number, class_number, stage_number, Reads};

use quantity::Refusal;

// What is tested.
#[derive(Clone, Copy, Debug, PartialEq, Eq)]
pub(crate) enum Part {
    Calculator,
    SensorPair,
    FlowSensor,
    Complete,
}

// The accuracy class, which sets the flow sensor's figures.
#[derive(Clone, Copy, Debug, PartialEq, Eq)]
pub(crate) enum Class {
    One,
    Two,
    Three,
}

// When the test is made: the limit in service is twice that at verification.
#[derive(Clone, Copy, Debug, PartialEq, Eq)]
pub(crate) enum Stage {
    Verification,
    InService,
}

// The part, or 50. Each kind has an impl of its own, which is the list of its variants and little else.
impl TryFrom<u64> for Part {
    type Error = Refusal;

    ghost try_from_gives = { Reads part_number 4 R.Part };

    #[tactic(auto, unfolding(quantity::specs::Refusals::outside))]
    fn try_from(number: u64) -> Result<Self, Refusal> {
        match number {
            1 => Ok(Part::Calculator),
            2 => Ok(Part::SensorPair),
            3 => Ok(Part::FlowSensor),
            4 => Ok(Part::Complete),
            _ => Err(Refusal::Part),
        }
    }
}

// The class, or 51.
impl TryFrom<u64> for Class {
    type Error = Refusal;

    ghost try_from_gives = { Reads class_number 3 R.Class };

    #[tactic(auto, unfolding(quantity::specs::Refusals::outside))]
    fn try_from(number: u64) -> Result<Self, Refusal> {
        match number {
            1 => Ok(Class::One),
            2 => Ok(Class::Two),
            3 => Ok(Class::Three),
            _ => Err(Refusal::Class),
        }
    }
}

// The stage, or 52.
impl TryFrom<u64> for Stage {
    type Error = Refusal;

    ghost try_from_gives = { Reads stage_number 2 R.Stage };

    #[tactic(auto, unfolding(quantity::specs::Refusals::outside))]
    fn try_from(number: u64) -> Result<Self, Refusal> {
        match number {
            1 => Ok(Stage::Verification),
            2 => Ok(Stage::InService),
            _ => Err(Refusal::Stage),
        }
    }
}
