//! What nodes send, and what comes of an input.

ghost use Rattle.std.specs.Prelude.{◌≡◌};
ghost use Rattle.homeo_nodes.specs.Nodes.{round_of};
ghost use Rattle.homeo_live.specs.LiveView.{plain_packet};

use homeo_carry::Said;
use homeo_history::Answer;
use homeo_meaning::CallId;
use homeo_nodes::Breach;
use homeo_plan::Broken;
use homeo_syntax::{List, Prints};

/// What a node sends (this project's rule).
#[derive(Drop)]
pub enum Packet {
    /// A call breaks its site's treaty in this round, and asks to close it.
    Want(Breach),
    /// The arbiter of the round has chosen this call to close it.
    Stop(Breach),
    /// A site has stopped in this round, and says this.
    State { round: u64, site: u32, said: Said },
}

impl Packet {
    /// The round of which it is.
    #[tactic(auto, unfolding(homeo_nodes::specs::Key::definitions, crate::specs::Key::definitions))]
    pub fn round(&self) -> u64
        ensures { result ≡ round_of (plain_packet self.now) }
    {
        match self {
            Packet::Want(b) => b.round,
            Packet::Stop(b) => b.round,
            Packet::State { round, .. } => *round,
        }
    }
}

/// What an input came to.
#[derive(Drop)]
pub enum Step {
    /// The call waits.
    Queued,
    /// The first call that waited was made, and printed this.
    Kept(CallId, Prints),
    /// The first call that waits breaks this first of its site's treaty: it waits for the end of the round.
    Wanted(Broken),
    /// No call was made: too many wait, or none does, or the node isn't running.
    Held,
    /// The node took the packet.
    Taken,
    /// The node left the packet.
    Ignored,
    /// The node took the packet and closed its round; these are the answers to the calls of its own clients that were made so, in the
    /// order in which they were made.
    Closed(List<Answer>),
}
