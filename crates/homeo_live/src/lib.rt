//! One node as a process of its own runs it: it takes on calls, makes them, and takes packets; it keeps nothing of what it ran, and
//! can be kept as a state and begun again there.
#![tactic(auto)]

mod fits;
mod live;
mod packet;
mod queue;
mod resends;
mod state;
mod states;

pub use live::LiveNode;
pub use packet::{Packet, Step};
pub use queue::MOST_WAITING;
pub use state::{NodeState, Past};
