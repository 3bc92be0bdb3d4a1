//! Texts that several tests take, and how others are made.

use std::alloc::Global;
use std::process::Abort;

pub(crate) const STOCK: &str =
    "workload 1\nsites 2\nobject stock in 0..10 = 5\ntransaction buy(n in 1..3) { s := read(stock); if n <= s then { write(stock = s - n); print(1) } else print(0) }\nclient a at 0 { buy(1); buy(1); buy(1) }\nclient b at 1 { buy(1) }\nschedule a a b a\nend\n";

/// The report of `STOCK` under `steps`: the third call from site 0 takes more than its share.
pub(crate) const STOCK_REPORT: &str =
    "round 0\nsite 0\na 1 buy(1): 1\na 2 buy(1): 1\nsite 1\nb 1 buy(1): 1\nclose 0 clause 0 sum 3 bound 2\na 3 buy(1): 1\nround 1\nsite 0\nsite 1\ndatabase\nstock = 1\nrounds 2 calls 4\n";

/// `STOCK` with three quarters of each slack for site 0.
pub(crate) const WEIGHTED_STOCK: &str =
    "workload 2\nsites 2\nweights 3, 1\nobject stock in 0..10 = 5\ntransaction buy(n in 1..3) { s := read(stock); if n <= s then { write(stock = s - n); print(1) } else print(0) }\nclient a at 0 { buy(1); buy(1); buy(1) }\nclient b at 1 { buy(1) }\nschedule a a b a\nend\n";

/// Only site 0 writes.
pub(crate) const ONE_WRITER: &str =
    "workload 2\nsites 2\nweights 1, 1\nobject x in 0..10 = 5\ntransaction show() { print(read(x)) }\ntransaction raise() { write(x = read(x) + 1) }\nclient a at 0 { raise(); show(); raise(); show() }\nschedule a a a a\nend\n";

/// The second call ends itself behind its first print.
pub(crate) const ENDED: &str =
    "workload 2\nsites 2\nweights 1, 1\nobject x in 0..9 = 4\ntransaction t(n in 1..5) { write(x = read(x) - n); print(read(x)); if read(x) < 2 then abort else skip; print(9) }\nclient a at 0 { t(1); t(2) }\nschedule a a\nend\n";

pub(crate) const NOTHING_BEHIND_THE_HEAD: &str = "workload 1\nsites 1\n";

/// Each call looks for a slot past the last one and fills one of the four, until none is left.
pub(crate) const LIMITED_SLOTS: &str = "workload 1
sites 1
relation R[4] (f in 0..9)
transaction p() { print(R[4].f); R[4].f := 3; insert R (f = 7) into s; print(s) }
client a at 0 { p(); p(); p(); p(); p() }
schedule a a a a a
end
";

/// Appends a piece so many times.
pub(crate) fn push_times(rt: &impl Abort, text: &mut String, piece: &str, times: u64) {
    for _ in 0..times {
        text.push_str(piece).expect(rt, "memory");
    }
}

/// Appends a piece so many times and once, with semicolons between.
pub(crate) fn push_list(rt: &impl Abort, text: &mut String, piece: &str, others: u64) {
    text.push_str(piece).expect(rt, "memory");
    for _ in 0..others {
        text.push_str(";").expect(rt, "memory");
        text.push_str(piece).expect(rt, "memory");
    }
}

/// A transaction that prints a number in so many parentheses.
pub(crate) fn in_parentheses(rt: &impl Abort, alloc: Global, depth: u64) -> String {
    let head = "workload 1\nsites 1\ntransaction t() { print(";
    let mut text = String::from_str(alloc, head).expect(rt, "memory");
    push_times(rt, &mut text, "(", depth);
    text.push_str("1").expect(rt, "memory");
    push_times(rt, &mut text, ")", depth);
    text.push_str(") }\nend\n").expect(rt, "memory");
    text
}

/// A transaction of this command and others like it, and a client that calls it so many times and once.
pub(crate) fn called(
    rt: &impl Abort,
    alloc: Global,
    command: &str,
    other_commands: u64,
    other_calls: u64,
) -> String {
    let head = "workload 1\nsites 1\ntransaction t() { ";
    let mut text = String::from_str(alloc, head).expect(rt, "memory");
    push_list(rt, &mut text, command, other_commands);
    text.push_str(" }\nclient a at 0 { ").expect(rt, "memory");
    push_list(rt, &mut text, "t()", other_calls);
    text.push_str(" }\nend\n").expect(rt, "memory");
    text
}
