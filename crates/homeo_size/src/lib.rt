//! How large the L form of a call is: measured where it was made, and told from below where it wasn't.
#![tactic(auto)]

mod commands;
mod extent;
mod extents;
mod form;
mod frame;
mod layout;
mod measures;
mod nodes;
mod numbers;
mod phrases;
mod prints;

pub use form::measure;
pub use layout::Layout;
pub use measures::Measure;
pub use nodes::is_too_large;
pub use numbers::{BEYOND, TOO_HEAVY};
pub use prints::{TOO_MANY_PRINTS, count_prints};
