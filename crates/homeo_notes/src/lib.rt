//! A board of lists that only grow, one a line, for contracts alone: who owns a line extends its list, the others know a
//! prefix of it, and what two owners have told each other shows that their lists are equal. The running program keeps one
//! atomic word a line, the length of its list.
#![tactic(auto)]

mod blank;
mod board;
mod holder;
mod rule;
mod steps;

pub use blank::{Blank, Memory, Naming};
pub use board::Board;
pub use holder::Holder;
