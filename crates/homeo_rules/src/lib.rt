//! The rules that a workload has to meet before it is run, and the refusal of one that doesn't.
#![tactic(auto)]

mod acceptance;
mod checker;
mod deciding;
mod decision;
mod forms;
pub mod laws;
mod names;
mod rules;
mod sited;
mod transaction;
mod walk;

pub use acceptance::{RuleRefusal, accept};
