//! Certificates in shape, read from bytes that are JSON.
#![tactic(auto)]

mod calls;
mod clauses;
mod cursor;
mod deltas;
mod extents;
mod freezes;
mod items;
mod members;
mod named_nodes;
mod numbers;
mod parsing;
mod parsing_commands;
mod parsing_expressions;
mod parsing_tests;
mod reading;
mod room;

pub use calls::Call;
pub use freezes::Freezes;
pub use parsing::parse;
pub use reading::{Certificate, read_certificate};
