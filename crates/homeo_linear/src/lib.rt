//! By linear forms at a base: what L forms ask and need, and whether conditions hold, with the atoms that keep them so.
#![tactic(auto)]

mod comparisons;
mod conditions;
mod course;
mod effect;
mod outcomes;

pub use conditions::condition;
pub use course::Follower;
pub use effect::{Effect, OwnForm, OwnTerm, OwnWrite};
