// The readout of a meter for bus masters (EN 13757-3), written and read (docs/OPERATIONS.md, "Readouts").
#![tactic(auto)]

/// What is proved of two readouts, and of packed decimal.
pub mod laws;
mod packed;
mod reading;
mod records;
mod writing;

pub use reading::read_readout;
pub use records::{READOUT_LENGTH, WholeUnits};
pub use writing::write_readout;
