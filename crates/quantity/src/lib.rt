// What every crate shares: the units of temperature and of difference, exact fractions and their lowest terms, the refusals and the rows that
// decide between them, the refusals of a temperature's two ends, and the comparison of two products of 64-bit numbers.
#![tactic(auto)]

mod divisor;
mod fraction;
/// What is proved of the refusals' numbers.
pub mod laws;
mod product;
mod range;
mod refusal;
mod units;

pub use fraction::Fraction;
pub use product::product_less;
pub use range::{End, Role, end_refusal};
pub use refusal::{Refusal, Row, first_refusal, is_outside};
pub use units::{Difference, LARGEST_KELVINS, LAST_DEGREE, Temperature, Unit};
