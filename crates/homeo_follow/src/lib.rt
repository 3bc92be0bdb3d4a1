//! What a command over whole objects asks and does along the branch that it takes at a base, by objects and not by the deltas of sites;
//! and, of code, the type of what it brings to the plan of a round.
#![tactic(auto)]

pub mod laws;
mod part;

pub use part::PlanPart;
