//! That the form in which a call is analysed means the call, as laws over the definitions. There is no code.
#![tactic(auto)]

pub mod laws;
