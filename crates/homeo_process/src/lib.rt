//! One node over a source and a sink: a text, then lines, each with its outputs.
#![tactic(auto)]

mod feed;
pub mod laws;
mod lines;
mod names;
mod process;
mod serving;
mod shell;
mod status;
mod voice;

pub use process::run;
pub use status::Status;
