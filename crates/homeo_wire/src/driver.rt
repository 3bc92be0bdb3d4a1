//! The events that a number chooses, made one after another.

ghost use Rattle.std.specs.Prelude.{◌≡◌, ◌<◌, ◌≤◌, Some, length, option_map, IfErr, IfOk, IfSome, OnOk};
ghost use Rattle.std.specs.Option.{option_to_list};
ghost use Rattle.homeo_syntax.specs.SourceView.{plain_workload};
ghost use Rattle.homeo_meaning.specs.Bounds.{IsWithin};
ghost use Rattle.homeo_meaning.specs.Schema.{schema_of};
ghost use Rattle.homeo_plan.specs.Planned.{sites_of};
ghost use Rattle.homeo_draws.specs.Draws.{next_state, drawn};
ghost use Rattle.homeo_history.specs.HistoryView.{plain_history};
ghost use Rattle.homeo_history.specs.Legal.{IsLegal};
ghost use Rattle.homeo_wire.specs.Drive.{calls_in, excess, some_call, chosen_event, turns, all_to, to_sites, sweeps, call_of_each, has_left, until_made, drive};
ghost use Rattle.homeo_wire.specs.Nodes.{after, reached};
ghost use Rattle.homeo_wire.specs.Read.{history_in, counts_in};
ghost use Rattle.homeo_wire.specs.WireView.{CanHappen};
ghost use Rattle.homeo_wire.specs.inner.Driving.{IsCallOf};
ghost use Rattle.homeo_wire.specs.inner.Stale.{AreStale};

use crate::events::Event;
use crate::wire::Wire;
use homeo_build::Compiled;
use homeo_core::clients::{client_count, site_count};
use homeo_draws::Draws;
use homeo_history::History;
use homeo_meaning::Accepted;
use homeo_syntax::{Ident, Memory};
use std::alloc::Global;
use std::sync::Arc;

/// How often all packets come to all sites after a call of each client.
const SWEEPS: u64 = 3;

/// The most calls of a workload.
const MOST_CALLS: usize = 200;

/// The history that is left by the events that a number chooses: first sixteen turns for each call of the workload and sixteen more,
/// each a call or a delivery that draws choose; then, while a client has a call left, a call of each client and three times
/// all packets to all sites. The workload has 200 calls at most.
///
/// # Errors
///
/// `Memory` when out of memory.
pub fn drive(alloc: Global, c: Arc<Compiled>, number: u64) -> Result<History, Memory>
    requires { length (calls_in (plain_workload c.value)) ≤ 200 }
    ensures history { let w = plain_workload c.value in IfOk result (λ h. plain_history h ≡ history_in (reached w (drive w number))) }
    ensures legal { let w = plain_workload c.value in
        IfOk result (λ h. IsLegal w (counts_in w (plain_history h).rounds) (plain_history h)) }
    ensures within { IfOk result (λ h. IsWithin (schema_of (plain_workload c.value)) (plain_history h).last) }
{
    let calls = match count_calls(c.workload()) {
        Ok(calls) => calls,
        Err(_) => unreachable!(),
    };
    let mut wire = Wire::begin(alloc, c)?;
    turns(alloc, &mut wire, number, 16 * calls + 16)?;
    until_made(alloc, &mut wire, calls + 1)?;
    wire.finish(alloc)
}

/// Makes the events of so many turns.
fn turns(alloc: Global, wire: &mut Wire, number: u64, count: u64) -> Result<(), Memory>
    ensures world { let w = plain_workload wire.old.work in
        OnOk result (wire.new.world ≡ after w (turns w wire.old.world number count) wire.old.world) }
    ensures work { wire.new.work ≡ wire.old.work }
{
    let mut draws = Draws { state: number };
    for _ in 0..count {
        turn(alloc, wire, &mut draws)?;
    }
    Ok(())
}

/// Makes the event that two draws choose, if they choose one.
fn turn(alloc: Global, wire: &mut Wire, draws: &mut Draws) -> Result<(), Memory>
    ensures world { let w = plain_workload wire.old.work in let first = next_state draws.old.state in
        OnOk result (wire.new.world ≡ after w (chosen_event w wire.old.world (drawn first) (drawn (next_state first))) wire.old.world) }
    ensures work { wire.new.work ≡ wire.old.work }
    ensures draws { draws.new.state ≡ next_state (next_state draws.old.state) }
{
    let p = draws.draw();
    let q = draws.draw();
    match chosen_event(wire, p, q) {
        Some(event) => {
            wire.event(alloc, event)?;
            Ok(())
        }
        None => Ok(()),
    }
}

/// The event that two draws choose: a call in one of four cases and where nothing was sent, and else a delivery.
#[tactic(auto, unfolding(crate::specs::Key::definitions))]
fn chosen_event(wire: &Wire, p: u64, q: u64) -> Option<Event>
    ensures chosen { option_to_list result ≡ chosen_event (plain_workload wire.now.work) wire.now.world p q }
    ensures can { IfSome result (CanHappen (plain_workload wire.now.work) wire.now.world) }
{
    let w = wire.workload();
    let sent = wire.sent();
    if p % 4 == 0 || sent == 0 {
        return some_call(client_count(w), q);
    }
    Some(Event::Deliver {
        site: (p / 4 % u64::from(site_count(w))) as u32,
        packet: q % sent,
    })
}

/// The call of one of so many clients that a draw chooses: none where there is no client.
#[tactic(auto, unfolding(crate::specs::Key::definitions))]
fn some_call(clients: u64, q: u64) -> Option<Event>
    requires { clients ≤ 64 }
    ensures chosen { option_to_list result ≡ some_call clients q }
    ensures exists { IfSome result (IsCallOf clients) }
{
    if clients == 0 {
        return None;
    }
    Some(Event::Call {
        client: (q % clients) as u32,
    })
}

/// Each packet comes to a site: the first of them, so many as are stale, change nothing and are passed over.
fn deliver_all(alloc: Global, wire: &mut Wire, site: u32, stale: u64) -> Result<(), Memory>
    requires site { site < sites_of (plain_workload wire.old.work) }
    requires stale { AreStale wire.old.world stale }
    ensures world { OnOk result (wire.new.world ≡ after (plain_workload wire.old.work) (all_to wire.old.world site) wire.old.world) }
    ensures work { wire.new.work ≡ wire.old.work }
{
    for packet in stale..wire.sent() {
        wire.event(alloc, Event::Deliver { site, packet })?;
    }
    Ok(())
}

/// Each packet comes to each site.
fn sweep(alloc: Global, wire: &mut Wire) -> Result<(), Memory>
    ensures world { let w = plain_workload wire.old.work in
        OnOk result (wire.new.world ≡ after w (to_sites w wire.old.world 0 (sites_of w)) wire.old.world) }
    ensures work { wire.new.work ≡ wire.old.work }
{
    let stale = wire.stale();
    for site in 0..site_count(wire.workload()) {
        deliver_all(alloc, wire, site, stale)?;
    }
    Ok(())
}

/// So often each packet comes to each site.
fn sweeps(alloc: Global, wire: &mut Wire, count: u64) -> Result<(), Memory>
    ensures world { let w = plain_workload wire.old.work in
        OnOk result (wire.new.world ≡ after w (sweeps w wire.old.world count) wire.old.world) }
    ensures work { wire.new.work ≡ wire.old.work }
{
    for _ in 0..count {
        sweep(alloc, wire)?;
    }
    Ok(())
}

/// Each client makes its next call, and then each packet comes to each site, three times.
fn call_of_each(alloc: Global, wire: &mut Wire) -> Result<(), Memory>
    ensures world { let w = plain_workload wire.old.work in
        OnOk result (wire.new.world ≡ after w (call_of_each w wire.old.world) wire.old.world) }
    ensures work { wire.new.work ≡ wire.old.work }
{
    for client in 0..client_count(wire.workload()) as u32 {
        wire.event(alloc, Event::Call { client })?;
    }
    sweeps(alloc, wire, SWEEPS)
}

/// Whether some client has a call that isn't in the history.
fn has_left(wire: &Wire) -> bool
    ensures { result ≡ has_left (plain_workload wire.now.work) wire.now.world }
{
    for client in 0..client_count(wire.workload()) as u32 {
        if wire.left(client) > 0 {
            return true;
        }
    }
    false
}

/// While some client has a call left, but only so often, each client makes a call, and the packets come.
fn until_made(alloc: Global, wire: &mut Wire, count: u64) -> Result<(), Memory>
    ensures world { let w = plain_workload wire.old.work in
        OnOk result (wire.new.world ≡ after w (until_made w wire.old.world count) wire.old.world) }
    ensures work { wire.new.work ≡ wire.old.work }
{
    for _ in 0..count {
        if !has_left(wire) {
            return Ok(());
        }
        call_of_each(alloc, wire)?;
    }
    Ok(())
}

/// How many calls all clients have together.
///
/// # Errors
///
/// The name of the 201st, exactly where there is one.
pub fn count_calls(w: &Accepted) -> Result<u64, Ident>
    ensures counted { IfOk result (λ n. n ≡ length (calls_in (plain_workload w.now))) }
    ensures few { IfOk result (λ n. n ≤ 200) }
    ensures excess { IfErr result (λ name. option_map (λ c. c.name) (excess (plain_workload w.now)) ≡ Some name) }
{
    let mut count = 0;
    for client in w.workload().clients.as_slice() {
        let calls = client.calls.as_slice();
        let room = MOST_CALLS - count;
        if calls.len() > room {
            return Err(calls[room].name);
        }
        count += calls.len();
    }
    Ok(count as u64)
}
