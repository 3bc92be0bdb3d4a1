//! The order in which a workload's schedule makes its calls.
#![tactic(auto)]

pub mod laws;
mod schedule;

pub use schedule::{client_places, order};
