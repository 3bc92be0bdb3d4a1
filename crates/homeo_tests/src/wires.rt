//! Two nodes that close a round by packets.

ghost use Rattle.std.specs.Prelude.{IsTrue};
ghost use Rattle.homeo_syntax.specs.SourceView.{plain_workload};
ghost use Rattle.homeo_wire.specs.WireView.{CanHappen};

use crate::same::{same, same_items};
use crate::shops::{THREE_AND_ONE, compiled, shop};
use homeo_build::Compiled;
use homeo_core::clients::{client_count, site_count};
use homeo_history::History;
use homeo_plan::Broken;
use homeo_wire::{Event, Step, Wire, count_calls, drive};
use std::alloc::Global;
use std::process::Abort;
use std::sync::Arc;

/// Two clients at two sites buy from a stock of five.
fn compiled_shop(rt: &impl Abort, alloc: Global) -> Arc<Compiled> {
    let text = shop(rt, alloc, THREE_AND_ONE);
    compiled(rt, alloc, text.as_str())
}

/// Whether the client that an event is of, or the site and the packet, is there.
#[tactic(auto, unfolding(homeo_wire::specs::Key::definitions))]
fn can_happen(wire: &Wire, event: Event) -> bool
    ensures { IsTrue result → CanHappen (plain_workload wire.now.work) wire.now.world event }
{
    match event {
        Event::Call { client } => u64::from(client) < client_count(wire.workload()),
        Event::Deliver { site, packet } => site < site_count(wire.workload())
            && packet < wire.sent(),
    }
}

fn happen(rt: &impl Abort, alloc: Global, wire: &mut Wire, event: Event) -> Step {
    if !can_happen(wire, event) {
        panic!(rt; "an event of what is there");
    }
    wire.event(alloc, event).expect(rt, "memory")
}

/// Makes a call that keeps the treaty and prints 1.
fn buy(rt: &impl Abort, alloc: Global, wire: &mut Wire, client: u32) {
    match happen(rt, alloc, wire, Event::Call { client }) {
        Step::Kept(prints) => same_items(rt, prints.as_slice(), [1].as_slice()),
        _ => panic!(rt; "a call that keeps the treaty"),
    }
}

/// Makes a call that breaks the treaty of its site, and says what broke.
fn buy_too_much(rt: &impl Abort, alloc: Global, wire: &mut Wire, client: u32) -> Broken {
    match happen(rt, alloc, wire, Event::Call { client }) {
        Step::Wanted(broken) => broken,
        _ => panic!(rt; "a call that breaks the treaty"),
    }
}

/// Whether a packet is taken that comes to a site.
fn is_taken(rt: &impl Abort, alloc: Global, wire: &mut Wire, site: u32, packet: u64) -> bool {
    match happen(rt, alloc, wire, Event::Deliver { site, packet }) {
        Step::Taken => true,
        Step::Ignored => false,
        _ => panic!(rt; "a packet that came"),
    }
}

/// The round of a site, and the first value of its base.
fn round_and_base(rt: &impl Abort, wire: &Wire, site: u32) -> (u64, Option<i64>) {
    if site >= site_count(wire.workload()) {
        panic!(rt; "a site");
    }
    let base = wire.base(site).as_slice().first().copied();
    (wire.round(site), base)
}

/// How many calls of the first client aren't in the history.
fn left_of_first(rt: &impl Abort, wire: &Wire) -> u64 {
    if client_count(wire.workload()) == 0 {
        panic!(rt; "a client");
    }
    wire.left(0)
}

/// Makes calls until one breaks the treaty of site 0, delivers the packets that close the round, and says what broke.
fn close_a_round(rt: &impl Abort, alloc: Global, wire: &mut Wire) -> Broken {
    for client in [0, 0, 1] {
        buy(rt, alloc, wire, client);
    }
    let broken = buy_too_much(rt, alloc, wire, 0);
    for (site, packet, taken) in [
        (0, 0, true),
        (1, 1, true),
        (1, 1, false),
        (0, 1, true),
        (0, 2, true),
    ] {
        same(rt, &is_taken(rt, alloc, wire, site, packet), &taken);
    }
    broken
}

/// Site 0 is in the next round, which site 1 enters by the last packet.
fn enter_the_next(rt: &impl Abort, alloc: Global, wire: &mut Wire) {
    assert!(rt; round_and_base(rt, wire, 0) == (1, Some(1)));
    match happen(rt, alloc, wire, Event::Call { client: 1 }) {
        Step::Held => {}
        _ => panic!(rt; "site 1 is stopped"),
    }
    assert!(rt; is_taken(rt, alloc, wire, 1, 3));
    assert!(rt; round_and_base(rt, wire, 1) == (1, Some(1)));
    same(rt, &left_of_first(rt, wire), &0);
}

/// The first round is closed by a call of site 0 that broke this, and the second one is open.
fn check_history(rt: &impl Abort, history: &History, broken: Broken) {
    same_items(rt, history.last.as_slice(), [1].as_slice());
    match history.rounds.as_slice() {
        [first, open] => {
            let closing = first.closing.as_ref().expect(rt, "a closed round");
            assert!(rt; closing.site == 0 && closing.broken == broken);
            same_items(rt, closing.entry.prints.as_slice(), [1].as_slice());
            assert!(rt; open.closing.is_none());
        }
        _ => panic!(rt; "two rounds"),
    }
}

#[test]
fn two_nodes_close_a_round_by_packets(rt: HostRuntime) {
    let c = compiled_shop(&rt, rt.alloc());
    let mut wire = Wire::begin(rt.alloc(), c).expect(&rt, "memory");
    let broken = close_a_round(&rt, rt.alloc(), &mut wire);
    assert!(rt;
        broken
            == Broken {
                clause: 0,
                sum: 3,
                bound: 2
            }
    );
    enter_the_next(&rt, rt.alloc(), &mut wire);
    let history = wire.finish(rt.alloc()).expect(&rt, "memory");
    check_history(&rt, &history, broken);
    drop(history);
}

/// The events that this number chooses make all calls.
fn check_driven(rt: &impl Abort, alloc: Global, number: u64) {
    let c = compiled_shop(rt, alloc);
    match count_calls(c.workload()) {
        Ok(calls) => same(rt, &calls, &4),
        Err(_) => panic!(rt; "four calls"),
    }
    let history = drive(alloc, c, number).expect(rt, "memory");
    same(rt, &history.rounds.as_slice().len(), &2);
    same_items(rt, history.last.as_slice(), [1].as_slice());
    drop(history);
}

#[test]
fn a_number_chooses_events_that_make_all_calls(rt: HostRuntime) {
    for number in [1, 2] {
        check_driven(&rt, rt.alloc(), number);
    }
}
