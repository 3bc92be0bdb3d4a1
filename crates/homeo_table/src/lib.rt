//! The rows of the symbolic tables of commands, one after another, how many there are, and the walk that makes the row that holds at
//! a split database without the others.
#![tactic(auto)]

mod branches;
mod counting;
mod making;
mod rows;
mod walking;

pub use counting::row_count;
pub use rows::Rows;
pub use walking::walk;
