//! The calls that wait at a node.

ghost use Rattle.std.specs.Prelude.{◌≡◌, ◌<◌, drop, map, length, IfOk};
ghost use Rattle.homeo_nodes.specs.Nodes.{own_calls};
ghost use Rattle.homeo_carry.specs.CarryView.{plain_said};

use homeo_carry::Said;
use homeo_meaning::CallId;
use homeo_nodes::Breach;
use homeo_syntax::Memory;
use std::alloc::Global;

/// As many calls may wait at a node.
pub const MOST_WAITING: usize = 64;

/// How many of the calls that waited at a site are made when all have said this and a call closes the round: they are the first.
#[tactic(auto, unfolding(homeo_nodes::specs::Key::definitions))]
pub(crate) fn count_made(u: Breach, states: &[Said], site: u32) -> usize
    requires { site < length states.now }
    ensures { result ≡ length (own_calls u (map plain_said states.now) site) }
{
    let carried = states[site as usize].calls.len();
    if site == u.site {
        return carried.max(1);
    }
    carried
}

/// The calls that still wait when so many were made.
pub(crate) fn still_waiting(
    alloc: Global,
    queue: &[CallId],
    made: usize,
) -> Result<Vec<CallId>, Memory>
    ensures { IfOk result (λ rest. rest.items ≡ drop made queue.now) }
{
    let first = made.min(queue.len());
    Ok(Vec::from_slice(alloc, &queue[first..])?)
}
