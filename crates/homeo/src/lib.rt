//! The top call: words that are a command are run on what a source gives, and how that ended is told.
#![tactic(auto)]

pub mod laws;
mod status;
mod top;

pub use status::Status;
pub use top::run;
