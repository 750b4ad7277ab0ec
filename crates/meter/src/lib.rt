// The meter: its card, its state by edition, the step that takes one sample, and the day profile (docs/FORMAT.md and docs/OPERATIONS.md).
#![tactic(auto)]

mod card;
mod edition;
mod fresh_meter;
/// What is proved of whole lists of calls.
pub mod laws;
mod limits;
mod measurement;
mod profile;
mod ranges;
mod register;
mod sample;
mod state;
mod stepping;
mod usable;

pub use card::{CARD_FIELDS, Card};
pub use edition::{LAST_EDITION, counts_cold, is_other_edition, keeps_seconds};
pub use fresh_meter::fresh;
pub use profile::{Profiled, QUARTERS, empty_profile, step_in_quarter};
pub use register::Register;
pub use sample::{SAMPLE_FIELDS, Sample};
pub use state::Meter;
pub use stepping::{Stepped, step};
