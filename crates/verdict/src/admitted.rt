// A test point that no row refuses, its kinds read and its figures in range: what the limit is worked out from.
ghost use Rattle.std.specs.Prelude.{◌*◌, ◌≤◌};
ghost use Rattle.quantity.specs.Units.{largest_kelvins};
ghost use Rattle.verdict.specs.Rows.{largest_flow};

use crate::kinds::{Class, Part, Stage};
use crate::point::{TestPoint, is_difference_outside, is_flow_outside};
use quantity::{Difference, Refusal, first_refusal};

// Only `try_from` makes one, so that whoever has one need not ask again.
#[derive(Clone, Copy)]
pub(crate) struct AdmittedPoint {
    pub(crate) part: Part,
    pub(crate) class: Class,
    pub(crate) stage: Stage,
    pub(crate) delta_min: u64,
    pub(crate) difference: Difference,
    pub(crate) qp: u64,
    pub(crate) q: u64,
    ghost delta_min_in_range: { (1 ≤ delta_min) × (delta_min ≤ 3) },
    ghost difference_in_range: { (delta_min * 100 ≤ difference.0) × (difference.0 ≤ 100 * largest_kelvins) },
    ghost qp_in_range: { (1 ≤ qp) × (qp ≤ largest_flow) },
    ghost q_in_range: { (1 ≤ q) × (q ≤ largest_flow) },
}

impl TryFrom<TestPoint> for AdmittedPoint {
    ghost use Rattle.verdict.specs.Inside.Admitted.{Admits};

    type Error = Refusal;

    ghost try_from_gives = { Admits };

    // Admits a test point, or gives the first of its refusals, in their order, 50 to 54.
    #[tactic(auto, using(crate::proofs::Ranges::difference_in_range, crate::proofs::Ranges::flow_in_range), unfolding(quantity::specs::Refusals::first_of))]
    fn try_from(point: TestPoint) -> Result<Self, Refusal> {
        let part = Part::try_from(point.part)?;
        let class = Class::try_from(point.class)?;
        let stage = Stage::try_from(point.stage)?;
        first_refusal(&[
            Refusal::TestDifference.when(is_difference_outside(point.delta_min, point.difference)),
            Refusal::TestFlow.when(is_flow_outside(point.qp, point.q)),
        ])?;
        Ok(AdmittedPoint {
            part,
            class,
            stage,
            delta_min: point.delta_min,
            difference: point.difference,
            qp: point.qp,
            q: point.q,
        })
    }
}
