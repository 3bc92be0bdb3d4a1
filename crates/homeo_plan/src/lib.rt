//! The plan of a round: the tables of its calls, and at its base their forms, template, configuration and treaties. Of code
//! there are the types alone.
#![tactic(auto)]

mod forms;
pub mod laws;
mod round;
mod rows;
mod templates;
mod treaty;

pub use forms::{Atom, AtomSet, Delta, Linear, Term};
pub use round::RoundPlan;
pub use rows::{JointRow, Residual, Row};
pub use templates::{Clause, Config, FreezeSet, Template};
pub use treaty::{Broken, LocalTreaty};
