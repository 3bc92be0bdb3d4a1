//! The plan of a round: an accepted workload is compiled once, and at each base the treaties are made of it.
#![tactic(auto)]

mod calls;
pub mod compile;
mod compiled;
mod forms;
mod freezes;
mod frozen;
pub mod laws;
mod names;
mod parts;
mod rebased;
pub mod residuals;
pub mod shares;
mod sites;
mod steady;
pub mod treaties;
mod written;

pub use compiled::Compiled;
