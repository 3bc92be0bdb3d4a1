//! The sites of a program as nodes that close their rounds by packets, which may be lost, come again, or come in another order.
#![tactic(auto)]

mod breach;
mod closing;
mod driver;
mod events;
mod history;
pub mod laws;
mod node;
mod stale;
mod states;
mod wire;

pub use breach::{Breach, Mode};
pub use driver::{count_calls, drive};
pub use events::{Event, Packet, Step};
pub use wire::Wire;
