// A text put at a position of a lent buffer: the conditions on buffer and position that all such texts share, with what is defined and proved
// of the buffer's bytes. How a text itself is put there is each writer's own.
#![tactic(auto)]

mod putting;

pub use putting::put_refusal;
