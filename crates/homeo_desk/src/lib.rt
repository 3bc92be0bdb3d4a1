//! One node with what a program keeps beside it: the requests that wait, and of each client the answer that was given last. A pure
//! machine: what comes to it makes a new desk and outputs.
#![tactic(auto)]

mod answered;
mod callers;
mod desk;
mod fits;
pub mod laws;
mod output;
mod places;
mod sending;
mod state;

pub use desk::Desk;
pub use output::{Answer, Output, Path, Request, To, Why};
pub use state::DeskState;
