//! Sites behind locks of their own, closed rounds behind another, and a pass for each client: calls may come from any number of
//! threads, and what they did is a legal history, though none of them has seen it whole.
#![tactic(auto)]

mod begin;
mod book;
mod call;
mod cell;
mod cleanup;
mod cluster;
mod finish;
mod frame;
mod gate;
mod lines;
mod local;
mod meets;
mod moves;
mod naming;
mod pairs;
mod pass;
mod run;
mod writing;

pub use begin::blank_for;
pub use cluster::Cluster;
pub use gate::{Gate, OpenGate};
pub use naming::ClusterNaming;
pub use pass::ClientPass;
pub use run::run_clients;
