// The verdict of the test bench on an indicated value: the comparison of its error with any limit, and the verdict at a test point, which is the limit
// and then the comparison with it.
ghost use Rattle.std.specs.Prelude.{◌≡◌};
ghost use Rattle.quantity.specs.Refusals.{refusal_number, first_number};
ghost use Rattle.verdict.specs.Certificate.{comparison_of};
ghost use Rattle.verdict.specs.Rows.{comparison_rows, verdict_rows};
ghost use Rattle.verdict.specs.Theorems.{ComparedExactly, PassesExactly};
ghost use Rattle.verdict.specs.Verdict.{verdict_of};

use crate::limit::error_limit;
use crate::point::TestPoint;
use crate::values::Values;
use quantity::{Fraction, Refusal};

/// The answer of the comparison and of the verdict.
#[derive(Clone, Copy, Debug, PartialEq, Eq)]
pub enum Verdict {
    /// the error is within the limit, or equal to it
    Pass,
    /// the error is larger than the limit
    Fail,
}

/// Whether the indicated value's error lies within a limit, which is in percent of the conventional true value and need not be in lowest terms. The two
/// values have one unit, whichever it is. 55 refuses a conventional true value of 0, a value above 10^12 − 1 and a limit whose denominator is 0.
/// docs/OPERATIONS.md: "Error limits, comparison and verdict".
pub fn compare_error(
    limit: Fraction,
    indicated: u64,
    conventional_true: u64,
) -> Result<Verdict, Refusal>
    ensures answer { result ≡ comparison_of limit indicated conventional_true }
    ensures number { refusal_number result ≡ first_number (comparison_rows limit indicated conventional_true) }
    ensures compared_exactly { ComparedExactly limit indicated conventional_true result }
{
    compared(limit, indicated, conventional_true)
}

// The answer of the comparison by itself: the number and the theorem above speak of it.
#[tactic(auto, unfolding(crate::specs::Certificate::comparison_of, crate::specs::Rows::incomparable, quantity::specs::Refusals::first_of))]
fn compared(limit: Fraction, indicated: u64, conventional_true: u64) -> Result<Verdict, Refusal>
    ensures { result ≡ comparison_of limit indicated conventional_true }
{
    match Values::new(indicated, conventional_true) {
        Some(values) if limit.denominator != 0 => {
            if values.are_within(limit) {
                Ok(Verdict::Pass)
            } else {
                Ok(Verdict::Fail)
            }
        }
        _ => Err(Refusal::Values),
    }
}

/// Whether the indicated value's error lies within the maximum permissible error of OIML R 75-1 at the test point, or the first of the refusals 50 to 55:
/// those of the limit, then that of the comparison. The two values have one unit, whichever it is. docs/OPERATIONS.md: "Error limits, comparison and
/// verdict".
pub fn error_verdict(
    point: TestPoint,
    indicated: u64,
    conventional_true: u64,
) -> Result<Verdict, Refusal>
    ensures answer { result ≡ verdict_of point indicated conventional_true }
    ensures number { refusal_number result ≡ first_number (verdict_rows point indicated conventional_true) }
    ensures passes_exactly { PassesExactly point indicated conventional_true result }
{
    let limit = error_limit(point)?;
    compare_error(limit, indicated, conventional_true)
}
