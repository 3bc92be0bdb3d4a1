//! The calls of a workload, made one after another in the order of its schedule, from its initial database or from another on.
#![tactic(auto)]

mod making;

pub use making::{steps, steps_from};
