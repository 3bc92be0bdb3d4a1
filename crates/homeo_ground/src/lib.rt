//! The distinct ground calls of a workload, and which of them each of its calls is.
#![tactic(auto)]

mod distinct_calls;
mod firsts;
mod grounding;
mod key;
mod numbering;
mod sited;

pub use grounding::Grounding;
pub use numbering::{Numbered, number_clients};
pub use sited::SitedCall;
