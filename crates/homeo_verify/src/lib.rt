//! The verdict on bytes: each call of the certificate that they are, followed along the branch that it takes where all deltas
//! are 0.
#![tactic(auto)]

mod conditions;
mod following;
mod rules;
mod sizes;
mod stop;
mod table;
mod verifying;

pub use verifying::verify;
