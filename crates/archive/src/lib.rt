// The audit of a whole archive (docs/FORMAT.md, "Auditing a file"), the line that a program prints of it, the head and samples of a file one by one, and
// why no new file was made of a file.
#![tactic(auto)]

mod auditing;
mod head;
/// What is proved of a file's readings.
pub mod laws;
mod made;
mod places;
mod printing;
mod samples;

pub use auditing::{audit, is_full};
pub use head::Head;
pub use made::NotMade;
pub use printing::{AUDIT_LIMIT, report};
pub use samples::SampleLines;
