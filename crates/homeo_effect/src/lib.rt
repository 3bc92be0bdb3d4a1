//! What a residual does at its own site on a base that stays: its commands with all that is fixed there put in, and the
//! clauses and freezes of the site's treaty that it touches.
#![tactic(auto)]

mod commands;
mod expressions;
mod index;
pub mod laws;
mod site_effects;
mod uses;

pub use index::TreatyIndex;
pub use site_effects::{SiteEffects, effects};
