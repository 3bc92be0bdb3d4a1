//! Why the rounds of sites that have never been seen together are a legal history: what each site, the book of closed rounds and
//! each client keep for themselves suffices, once their lists are found equal.
#![tactic(auto)]

pub mod laws;
