//! Generated loads. Their sums are those of a plain loop over the draws, in another language.

use crate::gates::CountsCalls;
use crate::runs::output;
use crate::same::{same, same_items};
use homeo_cluster::OpenGate;
use homeo_load::accepted_load;
use homeo_syntax::Workload;
use std::alloc::Global;
use std::process::Abort;

/// For each object the sum of the numbers that a load's calls add to it.
fn sums(rt: &impl Abort, alloc: Global, w: &Workload) -> Vec<i64> {
    let mut sums = vec![in alloc; 0i64; 8].expect(rt, "memory");
    for client in w.clients.as_slice() {
        for call in client.calls.as_slice() {
            let name = call.name.name as usize;
            let object = if name == 8 {
                0
            } else {
                name.checked_sub(9).expect(rt, "a name")
            };
            let number = call.args.as_slice().first().expect(rt, "a number").value;
            let sum = sums.get_mut(object).expect(rt, "an object");
            *sum = sum.checked_add(number).expect(rt, "a sum");
        }
    }
    sums
}

#[test]
fn one_call_adds_eight_to_the_fifth_object(rt: HostRuntime) {
    let w = accepted_load(rt.alloc(), 1, 1).expect(&rt, "memory");
    let sums = sums(&rt, rt.alloc(), w.workload());
    drop(w);
    same_items(&rt, sums.as_slice(), [0, 0, 0, 0, 8, 0, 0, 0].as_slice());
}

#[test]
fn the_largest_load_has_the_sums_of_a_plain_loop(rt: HostRuntime) {
    let w = accepted_load(rt.alloc(), 7, 20_000).expect(&rt, "memory");
    let sums = sums(&rt, rt.alloc(), w.workload());
    let wanted = [12581, 12764, 12141, 12682, 12462, 12748, 12271, 12390];
    same_items(&rt, sums.as_slice(), wanted.as_slice());
    for client in w.workload().clients.as_slice() {
        same(&rt, &client.calls.as_slice().len(), &2500);
    }
    drop(w);
}

/// A text that no command accepts, and that a load doesn't read.
const UNREAD: &str = "this is not read";

/// Two calls of each client.
#[test]
fn a_load_makes_each_call_once_at_its_clients_site(rt: HostRuntime) {
    let gate = CountsCalls::new(4);
    let output = output(&rt, rt.alloc(), &["load", "1", "16"], UNREAD, &gate);
    let summary = b"calls 16
prints 16
c0 = 0
c1 = 25
c2 = 7
c3 = 1
c4 = 35
c5 = 0
c6 = 6
c7 = 4
";
    same_items(&rt, output.as_slice(), summary.as_slice());
    for calls in gate.times(&rt).as_slice().chunks(3) {
        same_items(&rt, calls, [1, 1, 0].as_slice());
    }
    same(&rt, &gate.elsewhere(&rt), &0);
}

#[test]
fn the_largest_load_has_one_output(rt: HostRuntime) {
    let summary = b"calls 20000
prints 20000
c0 = 12581
c1 = 12764
c2 = 12141
c3 = 12682
c4 = 12462
c5 = 12748
c6 = 12271
c7 = 12390
";
    for _ in 0..2 {
        let output = output(&rt, rt.alloc(), &["load", "7", "20000"], UNREAD, &OpenGate);
        same_items(&rt, output.as_slice(), summary.as_slice());
    }
}
