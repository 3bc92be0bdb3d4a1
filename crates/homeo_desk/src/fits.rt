//! Whether what comes to a desk fits the calls that wait.

ghost use Rattle.std.specs.Prelude.{◌≡◌, IsTrue, None, length, slice_index_or, take};
ghost use Rattle.homeo_live.specs.LiveView.{plain_node, plain_packet};
ghost use Rattle.homeo_desk.specs.DeskView.{HasSaid, IsFirst, KeepsFirst};
ghost use Rattle.homeo_desk.specs.inner.Keeping.{FitsQueue};

use homeo_live::{NodeState, Packet};
use homeo_meaning::CallId;
use homeo_nodes::{Breach, Mode};

/// Whether a packet fits the calls that wait at a site: where its call is one of this site, that is the first of them.
#[tactic(auto, unfolding(homeo_live::specs::Key::definitions))]
pub(crate) fn fits_queue(packet: &Packet, site: u32, queue: &[CallId]) -> bool
    ensures { IsTrue result → FitsQueue (plain_packet packet.now) site queue.now }
{
    match packet {
        Packet::Want(b) => is_first(*b, site, queue),
        Packet::Stop(b) => is_first(*b, site, queue),
        Packet::State { .. } => true,
    }
}

/// Whether a call that closes the round, if it is one of this site, is the first that waits there.
fn is_first(b: Breach, site: u32, queue: &[CallId]) -> bool
    ensures yes { IsTrue result → IsFirst b site queue.now }
    ensures no { IsFirst b site queue.now → IsTrue result }
{
    if b.site != site {
        return true;
    }
    match queue.first() {
        Some(call) => *call == b.call,
        None => false,
    }
}

/// Whether in a stopped node's state the first calls that wait are those that it has said.
pub(crate) fn keeps_first(state: &NodeState) -> bool
    ensures yes { IsTrue result → KeepsFirst (plain_node state.now) }
    ensures no { KeepsFirst (plain_node state.now) → IsTrue result }
{
    match state.mode {
        Mode::Stopped(b) => is_first(b, state.site, state.queue.as_slice()) && has_said(state),
        _ => true,
    }
}

/// Whether the first calls that wait are those that the node has said.
fn has_said(state: &NodeState) -> bool
    ensures yes { IsTrue result → HasSaid (slice_index_or (plain_node state.now).states state.now.site None) state.now.queue.items }
    ensures no { HasSaid (slice_index_or (plain_node state.now).states state.now.site None) state.now.queue.items → IsTrue result }
{
    match state.states.get(state.site as usize) {
        Some(Some(said)) => are_first(said.calls.as_slice(), state.queue.as_slice()),
        _ => false,
    }
}

/// Whether these calls are the first of a queue.
fn are_first(calls: &[CallId], queue: &[CallId]) -> bool
    ensures yes { IsTrue result → take (length calls.now) queue.now ≡ calls.now }
    ensures no { take (length calls.now) queue.now ≡ calls.now → IsTrue result }
{
    if queue.len() < calls.len() {
        return false;
    }
    for i in 0..calls.len() {
        if queue[i] != calls[i] {
            return false;
        }
    }
    true
}
