//! Six clients at three sites that buy ten items, and write their orders down as long as there is room.

use crate::runs::output;
use crate::same::same;
use homeo_cluster::OpenGate;
use std::alloc::Global;
use std::process::Abort;

/// How many items there are, each with a stock of 60 and a transaction of its own.
const ITEMS: u32 = 10;

/// How many clients there are, two at each site.
const CLIENTS: u32 = 6;

/// How many calls a client makes, of one item after another.
const CALLS: u32 = 40;

/// How many orders can be written down.
const SLOTS: u32 = 16;

fn push_item(rt: &impl Abort, text: &mut String, alloc: Global, item: u32) {
    let line = format!(in alloc; "object item{item} in 0..100 = 60\n").expect(rt, "memory");
    text.push_str(line.as_str()).expect(rt, "memory");
}

fn push_transaction(rt: &impl Abort, text: &mut String, alloc: Global, item: u32) {
    let head = format!(in alloc;
        "transaction buy{item}(n in 1..3) {{ s := read(item{item}); if n <= s then {{ "
    ).expect(rt, "memory");
    let sale = format!(in alloc;
        "write(item{item} = s - n); insert orders (item = {item}, n = n) into o; print(o) "
    ).expect(rt, "memory");
    text.push_str(head.as_str()).expect(rt, "memory");
    text.push_str(sale.as_str()).expect(rt, "memory");
    text.push_str("} else print(0) }\n").expect(rt, "memory");
}

fn push_client(rt: &impl Abort, text: &mut String, alloc: Global, client: u32) {
    let site = client / 2;
    let head = format!(in alloc; "client c{client} at {site} {{ buy0(1)").expect(rt, "memory");
    text.push_str(head.as_str()).expect(rt, "memory");
    for call in 1..CALLS {
        let next = format!(in alloc; "; buy{}(1)", call % ITEMS).expect(rt, "memory");
        text.push_str(next.as_str()).expect(rt, "memory");
    }
    text.push_str(" }\n").expect(rt, "memory");
}

fn market(rt: &impl Abort, alloc: Global) -> String {
    let mut text = String::from_str(alloc, "workload 1\nsites 3\n").expect(rt, "memory");
    for item in 0..ITEMS {
        push_item(rt, &mut text, alloc, item);
    }
    let orders = "relation orders[16] (item in 0..9, n in 1..3)\n";
    text.push_str(orders).expect(rt, "memory");
    for item in 0..ITEMS {
        push_transaction(rt, &mut text, alloc, item);
    }
    for client in 0..CLIENTS {
        push_client(rt, &mut text, alloc, client);
    }
    text.push_str("end\n").expect(rt, "memory");
    text
}

fn stands_once(report: &str, piece: &str) -> bool {
    report.matches(piece).count() == 1
}

// Each call of each client stands in the report once.
fn check_calls(rt: &impl Abort, alloc: Global, report: &str) {
    for client in 0..CLIENTS {
        for call in 0..CALLS {
            let (seq, item) = (call + 1, call % ITEMS);
            let line = format!(in alloc; "\nc{client} {seq} buy{item}(1): ").expect(rt, "memory");
            assert!(rt; stands_once(report, line.as_str()));
        }
    }
    assert!(rt; report.ends_with(" calls 240\n"));
}

// Four of each item were sold to each client, and all slots are used.
fn check_database(rt: &impl Abort, alloc: Global, report: &str) {
    for item in 0..ITEMS {
        let line = format!(in alloc; "\nitem{item} = 36\n").expect(rt, "memory");
        assert!(rt; stands_once(report, line.as_str()));
    }
    for slot in 0..SLOTS {
        let line = format!(in alloc; "\norders.{slot}.used = 1\n").expect(rt, "memory");
        assert!(rt; stands_once(report, line.as_str()));
    }
}

// Each order's number was printed once, and 0 by each other call.
fn check_prints(rt: &impl Abort, alloc: Global, report: &str) {
    for order in 1..=SLOTS {
        let end = format!(in alloc; ": {order}\n").expect(rt, "memory");
        assert!(rt; stands_once(report, end.as_str()));
    }
    same(rt, &report.matches(": 0\n").count(), &224);
}

#[test]
fn a_market_sells_each_piece_once(rt: HostRuntime) {
    let alloc = rt.alloc();
    let text = market(&rt, alloc);
    let bytes = output(&rt, alloc, &["run"], text.as_str(), &OpenGate);
    let report = str::from_utf8(bytes.as_slice()).expect(&rt, "a text");
    check_calls(&rt, alloc, report);
    check_database(&rt, alloc, report);
    check_prints(&rt, alloc, report);
}
