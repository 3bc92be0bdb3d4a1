//! Configurations: bounds of the sites that fit a template's clauses.
#![tactic(auto)]

mod split;

pub use split::{even_bound, split_even, split_weighted};
