//! Runs the calls of an accepted workload on one database.
#![tactic(auto)]

mod changes;
mod commands;
mod inserts;
pub mod laws;
mod phrases;
mod runs;
mod start;
mod state;

pub use runs::{eval, eval_call, serial};
pub use start::initial;
