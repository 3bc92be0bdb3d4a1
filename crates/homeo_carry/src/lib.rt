//! The end of a round at one node: the call that closes it is made on what all sites said, and then the calls that their states
//! carry, each at its own site, which may lead through further rounds.
#![tactic(auto)]

mod answers;
mod bounds;
mod calls;
mod carrying;
mod closing;
mod said;
mod sums;

pub use bounds::{Bounds, all_bounds, are_in};
pub use closing::{Closed, close};
pub use said::Said;
pub use sums::plus;
