//! What workloads mean, as definitions: databases, commands, calls one after another, the form in which a call is analysed,
//! and the rules that an accepted workload meets. Of code there are the types alone.
#![tactic(auto)]

mod aborts;
mod accepted;
mod call;
mod database;
mod findings;
pub mod padded;
mod rules;
mod window;

pub use aborts::{hold_abort, holds_abort};
pub use accepted::Accepted;
pub use call::{CallId, GroundCall, Purpose};
pub use database::Database;
pub use findings::Findings;
pub use rules::{Binding, Fault, Item, Local, Phase};
pub use window::Window;
