//! Lines of JSON: what comes to a node, and what it gives.
#![tactic(auto, using(crate::proofs::Lists::list_steps))]

mod catalogue;
pub mod laws;
mod line;
mod members;
mod packets;
mod packets_writing;
mod reading;
mod requests_reading;
mod state_reading;
mod state_writing;
mod status_writing;
mod writing;
mod written;
mod wrong;

pub use catalogue::Catalogue;
pub use line::{Head, Init, Line, Message};
pub use reading::read;
pub use writing::{Body, write_line};
pub use wrong::{FORMAT, FULL, LATE, NO_INIT, UNLISTED, Wrong, malformed};
