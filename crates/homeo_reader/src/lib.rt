//! Reads a workload from its text.
#![tactic(auto)]

mod changes;
mod clients;
mod commands;
mod conditions;
mod declarations;
mod expressions;
pub mod laws;
mod numbers;
mod parser;
mod reader;
mod workload;

pub use reader::{ReadRefusal, read};
