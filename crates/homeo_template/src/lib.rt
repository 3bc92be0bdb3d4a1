//! Templates: what the atoms and the needs of all ground calls ask of a round's treaties.
#![tactic(auto)]

mod clauses;
mod expanding;
mod key;
mod repeated;

pub use clauses::join_clauses;
pub use expanding::at_sites;
pub use repeated::object_clauses;
