//! The frames of a stream: lines, up to the first that is `end`.
#![tactic(auto)]

pub mod laws;
mod line;

pub use line::{ends_frame, without_last_line};
