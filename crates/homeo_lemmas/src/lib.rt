//! Lemmas on tests, numbers, options and lists that several crates cite and the standard library hasn't. It has no code.
#![tactic(auto)]
