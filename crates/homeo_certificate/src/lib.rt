//! Certificates of rounds: what of a plan shows, without the workload, that local steps are sound; their text, and the verdict
//! on a text, as definitions, with their laws.
#![tactic(auto)]

mod fault;
pub mod laws;
mod nodes;
mod verdict;

pub use fault::Fault;
pub use nodes::Node;
pub use verdict::Verdict;
