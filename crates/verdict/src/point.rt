// A test point of the bench, and when its temperature differences (53) and its flow rates (54) are refused.
ghost use Rattle.std.specs.Prelude.{◌≡◌};
ghost use Rattle.verdict.specs.Rows.{difference_outside, flow_outside};

use quantity::{Difference, LARGEST_KELVINS, Unit, is_outside};

// The largest flow rate that 54 lets pass, in the unit of qp and q.
const LARGEST_FLOW: u64 = 1000000000;

/// What is tested, and under which conditions: all that the limit depends on, without the two values that are compared. Any numbers can stand here,
/// also for the three kinds: the limit, and so the verdict, refuses what is out of range, with the refusal named at each field.
/// docs/OPERATIONS.md: "Error limits, comparison and verdict".
#[derive(Clone, Copy)]
pub struct TestPoint {
    /// what is tested: 1 calculator, 2 temperature sensor pair, 3 flow sensor, 4 complete instrument; otherwise 50
    pub part: u64,
    /// accuracy class, 1 to 3, which every part has to name; otherwise 51
    pub class: u64,
    /// 1 at verification, 2 in service; otherwise 52
    pub stage: u64,
    /// smallest temperature difference Δmin in whole kelvins, 1 to 3; otherwise 53
    pub delta_min: u64,
    /// temperature difference of the test, in hundredths of a kelvin, from Δmin to 180 K; otherwise 53
    pub difference: Difference,
    /// permanent flow rate, 1 to 10^9 in any unit; otherwise 54
    pub qp: u64,
    /// flow rate of the test, 1 to 10^9 in the unit of qp; otherwise 54
    pub q: u64,
}

// The condition of 54: one of the two flow rates is out of range.
#[tactic(auto, unfolding(crate::specs::Rows::flow_outside))]
pub(crate) fn is_flow_outside(qp: u64, q: u64) -> bool
    ensures { result ≡ flow_outside qp q }
{
    is_outside(qp, 1, LARGEST_FLOW) || is_outside(q, 1, LARGEST_FLOW)
}

// The condition of 53. Δmin comes first: only a small one fits the 32 bits in which whole kelvins are given.
#[tactic(auto, using(quantity::proofs::Conditions::inside), unfolding(crate::specs::Rows::difference_outside))]
pub(crate) fn is_difference_outside(delta_min: u64, difference: Difference) -> bool
    ensures { result ≡ difference_outside delta_min difference }
{
    is_outside(delta_min, 1, 3)
        || difference.is_outside(
            Difference::whole(delta_min as u32),
            Difference::whole(LARGEST_KELVINS as u32),
        )
}
