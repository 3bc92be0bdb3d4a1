//! The command line: the commands, and which words are which command.
#![tactic(auto)]

mod command;
pub mod laws;
mod line;
mod numeral;
mod reading;

pub use command::Command;
