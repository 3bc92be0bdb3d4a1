//! The distinct ground calls of clients, and which of them each call is.

use crate::same::same_items;
use crate::texts::{WEIGHTED, accepted};
use homeo_context::Declarations;
use homeo_ground::{Grounding, number_clients};
use homeo_meaning::Findings;
use homeo_syntax::{Call, Client, Ident, List, Number};
use std::alloc::Global;
use std::process::Abort;

const BUY: u32 = 7;

const SELL: u32 = 3;

fn call(rt: &impl Abort, alloc: Global, name: u32, offset: u64, args: &[i64]) -> Call {
    let mut numbers = List::new(alloc);
    for value in args {
        let number = Number {
            value: *value,
            offset,
        };
        numbers.push(number).expect(rt, "memory");
    }
    Call {
        name: Ident { name, offset },
        args: numbers,
    }
}

/// A client with so many calls, each by its transaction, its offset and its arguments.
fn client(rt: &impl Abort, alloc: Global, site: i64, calls: &[(u32, u64, &[i64])]) -> Client {
    let mut made = List::new(alloc);
    for (name, offset, args) in calls {
        let call = call(rt, alloc, *name, *offset, args);
        made.push(call).expect(rt, "memory");
    }
    Client {
        name: Ident { name: 9, offset: 0 },
        site: Number {
            value: site,
            offset: 0,
        },
        calls: made,
    }
}

/// Two clients at sites 1 and 0, and a third at site 1.
fn clients(rt: &impl Abort, alloc: Global) -> Vec<Client> {
    let first: [(u32, u64, &[i64]); 4] = [
        (BUY, 10, &[1, 2]),
        (BUY, 20, &[2, 1]),
        (BUY, 30, &[1, 2]),
        (SELL, 40, &[1, 2]),
    ];
    let second: [(u32, u64, &[i64]); 1] = [(BUY, 50, &[1, 2])];
    let third: [(u32, u64, &[i64]); 3] = [(BUY, 60, &[2, 1]), (BUY, 70, &[1]), (SELL, 80, &[1, 2])];
    let first = client(rt, alloc, 1, first.as_slice());
    let second = client(rt, alloc, 0, second.as_slice());
    let third = client(rt, alloc, 1, third.as_slice());
    vec![in alloc; first, second, third].expect(rt, "memory")
}

#[test]
fn calls_have_places_in_first_seen_order(rt: HostRuntime) {
    let alloc = rt.alloc();
    let clients = clients(&rt, alloc);
    let numbered = number_clients(alloc, clients.as_slice()).expect(&rt, "memory");
    match numbered.places.as_slice() {
        [first, second, third] => {
            same_items(&rt, first.as_slice(), [0, 1, 0, 2].as_slice());
            same_items(&rt, second.as_slice(), [3].as_slice());
            same_items(&rt, third.as_slice(), [1, 4, 2].as_slice());
        }
        _ => panic!(rt; "three clients"),
    }
    let offsets = numbered.calls.iter().map(|call| call.name.offset);
    let offsets: Vec<u64> = offsets.collect(alloc).expect(&rt, "memory");
    same_items(&rt, offsets.as_slice(), [10, 20, 40, 50, 70].as_slice());
    drop(numbered);
    drop(clients);
}

#[test]
fn acceptance_hands_on_what_it_found_once(rt: HostRuntime) {
    let alloc = rt.alloc();
    let mut w = accepted(&rt, alloc, WEIGHTED);
    let findings = w.take_findings().expect(&rt, "findings");
    assert!(rt; w.take_findings().is_none());
    let Findings {
        calls,
        forms,
        places,
    } = findings;
    // Both sites call one transaction with the same argument.
    assert!(rt; forms.as_slice().len() == 1);
    same_items(&rt, places.as_slice(), [0, 0].as_slice());
    match calls.as_slice() {
        [first, second] => {
            same_items(&rt, first.as_slice(), [0, 0, 0].as_slice());
            same_items(&rt, second.as_slice(), [1].as_slice());
        }
        _ => panic!(rt; "two clients"),
    }
    let declared = Declarations::of(alloc, &w).expect(&rt, "memory");
    let grounding = Grounding::with_places(alloc, &w, &declared, calls).expect(&rt, "memory");
    match grounding.calls() {
        [first, second] => {
            assert!(rt; first.site == 0 && second.site == 1);
            same_items(&rt, first.args.as_slice(), [1].as_slice());
            same_items(&rt, second.args.as_slice(), [1].as_slice());
        }
        _ => panic!(rt; "two ground calls"),
    }
    drop(grounding);
    drop(declared);
    drop(w);
}
