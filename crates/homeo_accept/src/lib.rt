//! Texts that are accepted for a purpose, and the refusals of the others with their lines.
#![tactic(auto)]

mod complaint;
pub mod laws;
mod texts;

pub use complaint::refusal_line;
pub use texts::{TextRefusal, accepted};
