//! What one site gives to a round: the calls that it makes alone, and its deltas, gathered with those of the others.
#![tactic(auto)]

mod gather;
mod local;
mod unasked;

pub use gather::{Gather, Gathered, add_deltas};
pub use local::{Tried, try_call};
pub use unasked::try_unasked;
