//! Draws: numbers that follow from a first one.
#![tactic(auto)]

mod draws;

pub use draws::Draws;
