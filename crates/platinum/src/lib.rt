// Platinum temperature sensors (IEC 60751): the sensor kinds, and the temperature of a reading.
#![tactic(auto)]

mod curve;
/// What is proved of any two readings.
pub mod laws;
mod reading;
mod search;
mod sensor;

pub use reading::{Unmeasured, temperature};
pub use sensor::Sensor;
