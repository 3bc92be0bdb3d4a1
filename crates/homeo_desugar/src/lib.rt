//! The L form of a call: its commands over whole objects, with the arguments put in and each write tested against its
//! bounds.
#![tactic(auto)]

mod call;
mod chains;
mod forming;
mod lifting;
mod making;
mod objects;
mod undoing;

pub use call::{desugar, form_call};
