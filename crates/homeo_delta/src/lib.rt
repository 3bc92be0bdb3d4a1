//! Commands over sites: the delta transform of a command.
#![tactic(auto)]

mod commands;
pub mod laws;
mod reads;

pub use commands::transform;
