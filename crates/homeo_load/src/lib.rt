//! The generated load: a workload made from a number, and what its runs leave.
#![tactic(auto)]

mod additions;
mod calls;
pub mod laws;
mod names;
mod workload;

pub use workload::accepted_load;
