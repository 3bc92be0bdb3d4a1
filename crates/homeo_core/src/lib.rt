//! Runs calls at the sites of one program, one after another: each by its site alone where that keeps the site's treaty, and
//! else on the gathered database, where it closes the round.
#![tactic(auto)]

pub mod clients;
pub mod laws;
mod prepared;
mod rounds;
mod steps;

pub use prepared::{Prepared, prepare};
pub use steps::Core;
