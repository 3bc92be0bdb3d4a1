//! The joint table of symbolic tables: the choices of one row of each.
#![tactic(auto)]

mod choices;
mod size;

pub use choices::joint_of_counts;
pub use size::{JointError, MOST_ROWS, more_rows};
