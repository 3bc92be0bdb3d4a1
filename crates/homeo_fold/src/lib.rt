//! The fold of a split database: the base with the deltas of all sites.
#![tactic(auto)]

mod folding;
pub mod laws;

pub use folding::fold;
