//! Two clients that buy from one stock.

use crate::gates::{CountsCalls, Hold, Holds, HoldsFirst, call};
use crate::runs::{output, run_words};
use crate::same::{same, same_items};
use crate::shops::{
    IN_ORDER, ONE_SITE, SHORT_ORDER, THREE_AND_ONE, THREE_AND_TWO, THREE_EACH, shop,
};
use homeo::Status;
use homeo_cluster::OpenGate;

#[test]
fn of_two_calls_that_break_at_once_one_closes_the_round(rt: HostRuntime) {
    let alloc = rt.alloc();
    let gate = Holds::third_calls();
    let text = shop(&rt, alloc, THREE_EACH);
    let output = output(&rt, alloc, &["run"], text.as_str(), &gate);
    assert!(rt; !gate.was_late(&rt));
    let first_closes = b"round 0
site 0
a 1 buy(1): 1
a 2 buy(1): 1
site 1
b 1 buy(1): 1
b 2 buy(1): 1
close 0 clause 0 sum 3 bound 2
a 3 buy(1): 1
round 1
site 0
site 1
b 3 buy(1): 0
database
stock = 0
rounds 2 calls 6
";
    let second_closes = b"round 0
site 0
a 1 buy(1): 1
a 2 buy(1): 1
site 1
b 1 buy(1): 1
b 2 buy(1): 1
close 1 clause 0 sum 3 bound 2
b 3 buy(1): 1
round 1
site 0
a 3 buy(1): 0
site 1
database
stock = 0
rounds 2 calls 6
";
    let bytes = output.as_slice();
    assert!(rt; bytes == first_closes.as_slice() || bytes == second_closes.as_slice());
}

#[test]
fn a_local_call_needs_no_other_sites_lock(rt: HostRuntime) {
    let gate = Holds::new([
        Hold {
            call: call(1, 1),
            until: call(0, 1),
        },
        Hold {
            call: call(0, 1),
            until: call(1, 2),
        },
    ]);
    let text = shop(&rt, rt.alloc(), THREE_AND_TWO);
    let output = output(&rt, rt.alloc(), &["run"], text.as_str(), &gate);
    assert!(rt; !gate.was_late(&rt));
    let report = b"round 0
site 0
a 1 buy(1): 1
a 2 buy(1): 1
site 1
b 1 buy(1): 1
b 2 buy(1): 1
close 0 clause 0 sum 3 bound 2
a 3 buy(1): 1
round 1
site 0
site 1
database
stock = 0
rounds 2 calls 5
";
    same_items(&rt, output.as_slice(), report.as_slice());
}

#[test]
fn calls_of_one_site_are_not_inside_together(rt: HostRuntime) {
    let gate = HoldsFirst::new();
    let text = shop(&rt, rt.alloc(), ONE_SITE);
    let output = output(&rt, rt.alloc(), &["run"], text.as_str(), &gate);
    assert!(rt; !gate.were_together(&rt));
    same(&rt, &gate.calls(&rt), &2);
    let a_first = b"round 0
site 0
a 1 buy(1): 1
b 1 buy(1): 1
site 1
database
stock = 3
rounds 1 calls 2
";
    let b_first = b"round 0
site 0
b 1 buy(1): 1
a 1 buy(1): 1
site 1
database
stock = 3
rounds 1 calls 2
";
    let bytes = output.as_slice();
    assert!(rt; bytes == a_first.as_slice() || bytes == b_first.as_slice());
}

/// The third call of the first client breaks its treaty, and is made again.
#[test]
fn clients_need_no_schedule(rt: HostRuntime) {
    let alloc = rt.alloc();
    let last_lines = b"database\nstock = 1\nrounds 2 calls 4\n";
    for clients in [THREE_AND_ONE, IN_ORDER] {
        let text = shop(&rt, alloc, clients);
        let gate = CountsCalls::new(2);
        let output = output(&rt, alloc, &["run"], text.as_str(), &gate);
        assert!(rt; output.as_slice().ends_with(last_lines.as_slice()));
        assert!(rt; gate.times(&rt).as_slice().starts_with(&[1, 1, 1, 1, 0, 0]));
        same(&rt, &gate.elsewhere(&rt), &0);
    }
    let text = shop(&rt, alloc, THREE_AND_ONE);
    let refused = run_words(&rt, alloc, &["steps"], text.as_str(), &OpenGate);
    same(&rt, &refused.status, &Status::Refused);
    same_items(
        &rt,
        refused.complaint.as_slice(),
        b"refused E14 at 224\n".as_slice(),
    );
}

#[test]
fn a_schedule_is_checked_where_it_is_not_used(rt: HostRuntime) {
    let text = shop(&rt, rt.alloc(), SHORT_ORDER);
    let refused = run_words(&rt, rt.alloc(), &["run"], text.as_str(), &OpenGate);
    same(&rt, &refused.status, &Status::Refused);
    same_items(&rt, refused.output.as_slice(), b"".as_slice());
    same_items(
        &rt,
        refused.complaint.as_slice(),
        b"refused E14 at 239\n".as_slice(),
    );
}
