//! Two live nodes that are asked more than a text lists, close a round with carried calls, and are begun again.

use crate::same::{same, same_items};
use crate::shops::{THREE_AND_ONE, compiled, shop};
use homeo_build::Compiled;
use homeo_core::clients::site_count;
use homeo_history::{Answer, Path};
use homeo_live::{LiveNode, Packet, Step};
use homeo_meaning::CallId;
use homeo_nodes::{Breach, Mode};
use homeo_plan::Broken;
use homeo_syntax::List;
use std::alloc::Global;
use std::process::Abort;
use std::sync::Arc;

/// What the third purchase at a site breaks of its treaty: two of five are to be sold without asking.
const BROKEN: Broken = Broken {
    clause: 0,
    sum: 3,
    bound: 2,
};

/// The node of a site, where two clients at two sites buy from a stock of five.
fn node_of(rt: &impl Abort, alloc: Global, site: u32) -> LiveNode {
    let text = shop(rt, alloc, THREE_AND_ONE);
    let c: Arc<Compiled> = compiled(rt, alloc, text.as_str());
    if site >= site_count(c.workload()) {
        panic!(rt; "a site");
    }
    LiveNode::begin(alloc, c, site).expect(rt, "memory")
}

/// Takes on the first call of a client, for the first time or again, and goes on with what waits.
fn buy(rt: &impl Abort, alloc: Global, node: &mut LiveNode, sent: &mut List<Packet>) -> Step {
    let call = CallId {
        client: node.number(),
        seq: 1,
    };
    if !node.can_ask(call) {
        panic!(rt; "a listed call");
    }
    match node.ask(call).expect(rt, "memory") {
        Step::Queued => node.serve(alloc, sent).expect(rt, "memory"),
        _ => panic!(rt; "a call that waits"),
    }
}

/// Two purchases are made alone, and the third breaks the treaty.
fn buy_until_it_breaks(rt: &impl Abort, alloc: Global, node: &mut LiveNode) -> Breach {
    let mut sent = List::new(alloc);
    for _ in 0..2 {
        match buy(rt, alloc, node, &mut sent) {
            Step::Kept(call, prints) => {
                same(rt, &call.seq, &1);
                same_items(rt, prints.as_slice(), [1].as_slice());
            }
            _ => panic!(rt; "a call that keeps the treaty"),
        }
    }
    match buy(rt, alloc, node, &mut sent) {
        Step::Wanted(broken) => assert!(rt; broken == BROKEN),
        _ => panic!(rt; "a call that breaks the treaty"),
    }
    match sent.as_slice() {
        [Packet::Want(breach)] => *breach,
        _ => panic!(rt; "one want"),
    }
}

/// The node that begins again at the state of another, which is lost.
fn again(rt: &impl Abort, alloc: Global, node: LiveNode) -> LiveNode {
    let text = shop(rt, alloc, THREE_AND_ONE);
    let c: Arc<Compiled> = compiled(rt, alloc, text.as_str());
    let state = node.state(alloc).expect(rt, "memory");
    drop(node);
    let node = LiveNode::begin_at(alloc, c, state).expect(rt, "memory");
    node.expect(rt, "the state of a node")
}

/// What a packet that was sent came to, and what was sent for it.
fn deliver(
    rt: &impl Abort,
    alloc: Global,
    node: &mut LiveNode,
    packet: Packet,
) -> (Step, List<Packet>) {
    let mut sent = List::new(alloc);
    let step = node.receive(alloc, packet, &mut sent).expect(rt, "memory");
    (step.expect(rt, "a packet that was sent"), sent)
}

/// Stops a node by a call, and gives what it says.
fn stop(rt: &impl Abort, alloc: Global, node: &mut LiveNode, breach: Breach) -> Packet {
    let (step, sent) = deliver(rt, alloc, node, Packet::Stop(breach));
    assert!(rt; matches!(step, Step::Taken));
    let mut packets = sent.into_vec();
    packets.pop().expect(rt, "a state")
}

/// The one answer of a node that has closed its round.
fn closed(rt: &impl Abort, alloc: Global, node: &mut LiveNode, packet: Packet) -> Answer {
    let (step, _sent) = deliver(rt, alloc, node, packet);
    match step {
        Step::Closed(answers) => {
            let mut answers = answers.into_vec();
            same(rt, &answers.len(), &1);
            answers.pop().expect(rt, "an answer")
        }
        _ => panic!(rt; "the end of a round"),
    }
}

/// The node is in the round 1, where nothing is left and nothing waits.
fn check_next(rt: &impl Abort, node: &LiveNode) {
    same(rt, &node.round(), &1);
    same_items(rt, node.base().as_slice(), [0].as_slice());
    same(rt, &node.queue().len(), &0);
    assert!(rt; matches!(node.mode(), Mode::Running));
}

/// It would send how it closed its round: the stop, and what both sites said.
fn check_past(rt: &impl Abort, alloc: Global, node: &LiveNode) {
    let mut sent = List::new(alloc);
    node.resend(alloc, &mut sent).expect(rt, "memory");
    match sent.as_slice() {
        [
            Packet::Stop(_),
            Packet::State { said: first, .. },
            Packet::State { said: second, .. },
        ] => {
            same_items(rt, first.deltas.as_slice(), [-2].as_slice());
            same_items(rt, second.deltas.as_slice(), [-2].as_slice());
            same(rt, &second.calls.len(), &1);
        }
        _ => panic!(rt; "a stop and two states"),
    }
}

#[test]
fn live_nodes_make_carried_calls_and_begin_again(rt: HostRuntime) {
    let alloc = rt.alloc();
    let mut first = node_of(&rt, alloc, 0);
    let mut second = node_of(&rt, alloc, 1);
    let breach = buy_until_it_breaks(&rt, alloc, &mut first);
    let other = buy_until_it_breaks(&rt, alloc, &mut second);
    let (chosen, _) = deliver(&rt, alloc, &mut first, Packet::Want(breach));
    assert!(&rt; matches!(chosen, Step::Taken));
    let (late, _) = deliver(&rt, alloc, &mut first, Packet::Want(other));
    assert!(&rt; matches!(late, Step::Ignored));
    let mut second = again(&rt, alloc, second);
    let first_state = stop(&rt, alloc, &mut first, breach);
    let second_state = stop(&rt, alloc, &mut second, breach);
    let mut first = again(&rt, alloc, first);
    let closing = closed(&rt, alloc, &mut first, second_state);
    assert!(&rt; closing.path == Path::Cleanup(BROKEN) && closing.round == 0);
    same_items(&rt, closing.prints.as_slice(), [1].as_slice());
    let carried = closed(&rt, alloc, &mut second, first_state);
    assert!(&rt; carried.path == Path::Local && carried.round == 1);
    same_items(&rt, carried.prints.as_slice(), [0].as_slice());
    check_next(&rt, &first);
    check_next(&rt, &second);
    check_past(&rt, alloc, &second);
}
