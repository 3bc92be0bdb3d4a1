//! A call's command over whole objects, run at a site by itself, on its base and its own deltas.
#![tactic(auto)]

mod own;
mod scratch;
mod step;

pub use scratch::Scratch;
pub use step::{LocalStep, local_step, local_step_in};
