// The maximum permissible error of a test point, as OIML R 75-1 has it: a limit in percent, which is an exact fraction, reduced last of all so that a
// certificate can show it.
ghost use Rattle.std.specs.Prelude.{◌≡◌, ◌+◌, ◌*◌, ◌^◌, ◌≤◌, min};
ghost use Rattle.quantity.specs.Fractions.{Represents};
ghost use Rattle.quantity.specs.Refusals.{refusal_number, first_number};
ghost use Rattle.verdict.specs.Certificate.{error_limit_of};
ghost use Rattle.verdict.specs.Limit.{figures_of, part_limit, limit_of};
ghost use Rattle.verdict.specs.Rows.{point_rows};
ghost use Rattle.verdict.specs.Theorems.{LimitExactly};
ghost use Rattle.verdict.specs.Inside.Admitted.{point_of};
ghost use Rattle.verdict.specs.Inside.Kinds.{class_number};

use crate::admitted::AdmittedPoint;
use crate::kinds::{Part, Stage};
use crate::point::TestPoint;
use quantity::{Fraction, Refusal};

impl AdmittedPoint {
    // The flow sensor's limit at verification, times 100 × q, which makes it a whole number: what the cap leaves of constant + factor × qp/q.
    fn flow_sensor_part(self) -> u64
        ensures as_stated { let f = figures_of (class_number self.class) in
            result ≡ min (f.constant * self.q + f.factor * self.qp) (f.cap * self.q) }
        ensures fits { result ≤ 10 ^ 13 }
    {
        let figures = self.class.figures();
        let sum = figures.constant * self.q + figures.factor * self.qp;
        let most = figures.cap * self.q;
        sum.min(most)
    }

    // The limit of the point's part at verification. The calculator's 0.5 + Δmin/Δ and the pair's 0.5 + 3×Δmin/Δ are counted
    // in 1/(2×D) percent, the flow sensor's in 1/(100×q): so each number fits 64 bits, for figures of up to 100 percent.
    #[tactic(auto, using(crate::proofs::Pieces::calculator, crate::proofs::Pieces::pair, crate::proofs::Pieces::flow_sensor, crate::proofs::Pieces::complete, crate::proofs::Room::room))]
    fn at_verification(self) -> Fraction
        ensures exact { Represents result (part_limit (figures_of (class_number self.class)) (point_of self)) }
        ensures fits { result.numerator ≤ 10 ^ 18 }
    {
        let d = self.difference.0;
        let calculator = d + 200 * self.delta_min;
        let pair = d + 600 * self.delta_min;
        let flow = self.flow_sensor_part();
        let per_difference = 2 * d;
        let per_flow = 100 * self.q;
        match self.part {
            Part::Calculator => Fraction {
                numerator: calculator,
                denominator: per_difference,
            },
            Part::SensorPair => Fraction {
                numerator: pair,
                denominator: per_difference,
            },
            Part::FlowSensor => Fraction {
                numerator: flow,
                denominator: per_flow,
            },
            Part::Complete => Fraction {
                numerator: (calculator + pair) * per_flow + flow * per_difference,
                denominator: per_difference * per_flow,
            },
        }
    }

    // The limit at the point's stage: in service, twice the one at verification.
    #[tactic(auto, using(crate::proofs::Certificate::at_verification, crate::proofs::Certificate::twice_in_service))]
    fn limit(self) -> Fraction
        ensures { Represents result (limit_of (figures_of (class_number self.class)) (point_of self)) }
    {
        let at_verification = self.at_verification();
        match self.stage {
            Stage::Verification => at_verification,
            Stage::InService => Fraction {
                numerator: 2 * at_verification.numerator,
                denominator: at_verification.denominator,
            },
        }
    }
}

/// The maximum permissible error at a test point, in percent and in lowest terms: that of OIML R 75-1, 9.2, and in service twice that, 9.4. Or the first
/// of the refusals 50 of the part, 51 of the class, 52 of the stage, 53 of the two temperature differences and 54 of the two flow rates.
/// docs/OPERATIONS.md: "Error limits, comparison and verdict".
pub fn error_limit(point: TestPoint) -> Result<Fraction, Refusal>
    ensures answer { result ≡ error_limit_of point }
    ensures number { refusal_number result ≡ first_number (point_rows point) }
    ensures limit_exactly { LimitExactly point result }
{
    let admitted = AdmittedPoint::try_from(point)?;
    Ok(admitted.limit().reduced())
}
