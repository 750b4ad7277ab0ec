// The error verdict of a test bench: the maximum permissible errors (MPE) of OIML R 75-1 for a heat meter and its parts, and whether an indicated value
// lies within them. docs/OPERATIONS.md: "Error limits, comparison and verdict".
#![tactic(auto)]

mod admitted;
mod bench;
mod class;
mod kinds;
/// What is proved of limit, comparison and verdict together.
pub mod laws;
mod limit;
mod point;
mod values;

pub use bench::{Verdict, compare_error, error_verdict};
pub use limit::error_limit;
pub use point::TestPoint;
