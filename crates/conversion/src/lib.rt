// Files moved between editions 2 and 3. docs/FORMAT.md: "From edition 2 to edition 3, and back"; docs/OPERATIONS.md: "Moved files".
#![tactic(auto)]

mod converting;
mod direction;
mod examining;
/// What is proved of the two converters together.
pub mod laws;
mod putting;
mod running;

pub use converting::{to_edition_2, to_edition_3};
