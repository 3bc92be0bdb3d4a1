//! The text of a report: what the calls of each round printed, and the database that they leave.
#![tactic(auto)]

mod calls;
pub mod laws;
mod objects;
mod rounds;
mod sizes;
mod summaries;

pub use rounds::report;
pub use summaries::summary;
