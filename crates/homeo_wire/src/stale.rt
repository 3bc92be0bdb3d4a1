//! Packets that no node takes any more.

ghost use Rattle.std.specs.Prelude.{◌≡◌, ◌<◌, ◌≤◌, ℕ, Some, length, slice_get};
ghost use Rattle.homeo_wire.specs.Nodes.{round_of};
ghost use Rattle.homeo_wire.specs.WireView.{plain_packet, world_of};
ghost use Rattle.homeo_wire.specs.declared.events.Packet.{Packet};
ghost use Rattle.homeo_wire.specs.declared.node.Node.{Node};
ghost use Rattle.homeo_wire.specs.inner.Stale.{AreStale};

use crate::events::Packet;
use crate::node::Node;

/// How many packets at the front are of rounds that all nodes have left. It takes no memory.
pub(crate) fn count_stale(nodes: &[Node], packets: &[Packet]) -> u64
    ensures { AreStale (world_of nodes.now packets.now) result }
{
    count_before(packets, least_round(nodes))
}

/// The least round of any node.
fn least_round(nodes: &[Node]) -> u64
    ensures { (i : ℕ) (x : Node) → slice_get nodes.now i ≡ Some x → result ≤ x.site.state.round }
{
    let mut least = u64::MAX;
    for node in nodes {
        least = least.min(node.site.round());
    }
    least
}

/// How many packets at the front are of rounds before this one.
fn count_before(packets: &[Packet], round: u64) -> u64
    ensures sent { result ≤ length packets.now }
    ensures before { (k : ℕ) (p : Packet) → k < result → slice_get packets.now k ≡ Some p → round_of (plain_packet p) < round }
{
    for (i, packet) in packets.iter().enumerate() {
        if packet.round() >= round {
            return i as u64;
        }
    }
    packets.len() as u64
}
