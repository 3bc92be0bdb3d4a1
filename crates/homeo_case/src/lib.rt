//! The nodes of the wire, whose clients make their listed calls in order and again where another call closes the round, are a case
//! of nodes that are asked any calls.
#![tactic(auto)]

pub mod laws;
