//! What stands at the places that a command has set, put in for what is read there.
#![tactic(auto)]

mod bindings;
mod shared;
mod sides;
mod substitution;

pub use bindings::Bindings;
pub use substitution::{condition, shared_value, test};
