// Water by IAPWS-IF97, at 0.6 and at 1.6 MPa: the two tables, the values between their entries, the heat coefficient, and the heat of a volume
// (docs/FORMAT.md, "Water"; docs/OPERATIONS.md, "Water: tables, heat coefficient, heat of a volume").
#![tactic(auto)]

mod heat_coefficient;
mod interpolation;
/// What is proved of the definition of water.
pub mod laws;
mod pair;
mod parts;
mod pressure;
mod tables;
mod volume_heat;

pub use heat_coefficient::coefficient;
pub use pressure::Pressure;
pub use tables::{Entry, table_entry};
pub use volume_heat::{MOST_MILLILITRES, heat};
