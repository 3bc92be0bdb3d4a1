//! The merges of a round's segments: the calls that a choice of sites picks.
#![tactic(auto)]

mod merge;

pub use merge::{MergeError, interleave};
