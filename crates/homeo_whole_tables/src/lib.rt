//! Tables made whole: the symbolic table of a command, the row of a table that holds at a split database, and the joint table of
//! tables.
#![tactic(auto)]

mod joining;
mod selection;
mod tables;

pub use joining::joint;
pub use selection::row_at;
pub use tables::table;
