//! Whether a node of a workload can have a state.

ghost use Rattle.std.specs.Prelude.{◌≡◌, IsTrue, IfOk, IfSome, length, map};
ghost use Rattle.homeo_syntax.specs.SourceView.{plain_workload};
ghost use Rattle.homeo_meaning.specs.Bounds.{all_bounds};
ghost use Rattle.homeo_meaning.specs.Schema.{schema_of};
ghost use Rattle.homeo_carry.specs.CarryView.{plain_bounds};
ghost use Rattle.homeo_live.specs.inner.Standing.{HasShape, IsModeOf, IsQueueOf, AreFitting, IsFit};

use crate::queue::MOST_WAITING;
use crate::state::{NodeState, Past};
use homeo_carry::{Bounds, are_in, plus};
use homeo_core::clients::{client_count, is_call_at, site_count};
use homeo_meaning::{Accepted, CallId};
use homeo_nodes::Mode;
use homeo_syntax::Memory;
use std::alloc::Global;

/// Whether a node of the workload can have this state, but for its site's treaty.
pub(crate) fn is_fit(
    alloc: Global,
    w: &Accepted,
    bounds: &[Bounds],
    state: &NodeState,
) -> Result<bool, Memory>
    requires bounds { map plain_bounds bounds.now ≡ all_bounds (schema_of (plain_workload w.now)) }
    ensures yes { IfOk result (λ ok. IsTrue ok → IsFit (plain_workload w.now) state.now) }
    ensures no { IfOk result (λ ok. IsFit (plain_workload w.now) state.now → IsTrue ok) }
{
    if !shape_fits(state, site_count(w)) || !mode_fits(w, state.mode) {
        return Ok(false);
    }
    if !queue_fits(w, state.site, state.queue.as_slice()) {
        return Ok(false);
    }
    let base = state.base.as_slice();
    values_fit(alloc, w, bounds, base, state.deltas.as_slice())
}

/// Whether a base is within bounds, and has a delta for each value, with which it still is.
fn values_fit(
    alloc: Global,
    w: &Accepted,
    bounds: &[Bounds],
    base: &[i64],
    deltas: &[i64],
) -> Result<bool, Memory>
    requires bounds { map plain_bounds bounds.now ≡ all_bounds (schema_of (plain_workload w.now)) }
    ensures yes { IfOk result (λ ok. IsTrue ok → AreFitting (plain_workload w.now) base.now deltas.now) }
    ensures no { IfOk result (λ ok. AreFitting (plain_workload w.now) base.now deltas.now → IsTrue ok) }
{
    // the workload is accepted
    let _clients = client_count(w);
    if !are_in(bounds, base) || deltas.len() != bounds.len() {
        return Ok(false);
    }
    match plus(alloc, base, deltas)? {
        Some(sum) => Ok(are_in(bounds, sum.as_slice())),
        None => Ok(false),
    }
}

/// Whether the state is of one of so many sites, and has a place for each of them.
fn shape_fits(state: &NodeState, sites: u32) -> bool
    ensures yes { IsTrue result → HasShape sites state.now }
    ensures no { HasShape sites state.now → IsTrue result }
{
    if state.site >= sites {
        return false;
    }
    state.states.len() == sites as usize && past_fits(&state.past, sites)
}

/// Whether a past has what so many sites have said.
fn past_fits(past: &Option<Past>, sites: u32) -> bool
    ensures yes { IsTrue result → IfSome past.now (λ p. length p.states.items ≡ sites) }
    ensures no { IfSome past.now (λ p. length p.states.items ≡ sites) → IsTrue result }
{
    match past {
        Some(past) => past.states.len() == sites as usize,
        None => true,
    }
}

/// Whether the call by which a node doesn't run is one of a client of its site.
fn mode_fits(w: &Accepted, mode: Mode) -> bool
    ensures yes { IsTrue result → IsModeOf (plain_workload w.now) mode }
    ensures no { IsModeOf (plain_workload w.now) mode → IsTrue result }
{
    match mode {
        Mode::Running => true,
        Mode::Waiting(b) => is_call_at(w, b.site, b.call),
        Mode::Stopped(b) => is_call_at(w, b.site, b.call),
    }
}

/// Whether the calls are of clients of the site, and not more than may wait.
fn queue_fits(w: &Accepted, site: u32, queue: &[CallId]) -> bool
    ensures yes { IsTrue result → IsQueueOf (plain_workload w.now) site queue.now }
    ensures no { IsQueueOf (plain_workload w.now) site queue.now → IsTrue result }
{
    if queue.len() > MOST_WAITING {
        return false;
    }
    for call in queue {
        if !is_call_at(w, site, *call) {
            return false;
        }
    }
    true
}
