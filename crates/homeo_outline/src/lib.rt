//! The plan of a round over whole objects; its outline, which the plans of rounds share whose calls take the same branches; and whether
//! what commands bring at one base is what they bring at another, and the slacks there.
#![tactic(auto)]

mod leaders;
mod outline;
mod plan;
mod rebasing;
mod uses;

pub use leaders::Leaders;
pub use outline::Outline;
pub use plan::{ObjectPlan, outlined, whole_template};
pub use rebasing::{is_rebased, rebased_part, rebased_slacks};
