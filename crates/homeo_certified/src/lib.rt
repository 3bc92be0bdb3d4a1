//! That the certificates of an accepted workload's rounds are valid.
#![tactic(auto)]

pub mod laws;
