//! A text that is read, copied, printed, and read again.

use crate::same::same_items;
use homeo_print_workload::print;
use homeo_reader::read;
use homeo_syntax::Workload;
use std::alloc::Global;
use std::process::Abort;

/// Every command and every expression, laid out as no one would.
const CROWDED: &str =
    "workload 01 sites 2 object stock in - 0..010=5 relation orders[2](amount in 0..5,paid in 0..1)\ntransaction sell(n in 1..3){left:=((read(stock)));if not(n<=left+-(1+1))and true then{write(stock=left-(n)*2);print(-1)}else skip}\ntransaction all(n in 1..3){insert orders(paid=0,amount=n)into p;orders[p-1].paid:=1;print(orders[(p-1)].amount);foreach o of orders when o.paid=1{o.amount:=5;print(count(q of orders when q.amount=o.amount))};update o of orders when not(o.paid=1)set amount=o.amount-1;print(sum(o.amount of orders when true));delete o of orders when o.paid=1}\nclient shop at 0{sell(2);sell(1);all(3)}schedule shop shop shop end";

const PRINTED: &str =
    "workload 1\nsites 2\nobject stock in 0..10 = 5\nrelation orders[2] (amount in 0..5, paid in 0..1)\ntransaction sell(n in 1..3) { left := read(stock); if not (n <= left - (1 + 1)) and true then { write(stock = left - n * 2); print(-1) } else skip }\ntransaction all(n in 1..3) { insert orders(paid = 0, amount = n) into p; orders[p - 1].paid := 1; print(orders[p - 1].amount); foreach o of orders when o.paid = 1 { o.amount := 5; print(count(q of orders when q.amount = o.amount)) }; update o of orders when not (o.paid = 1) set amount = o.amount - 1; print(sum(o.amount of orders when true)); delete o of orders when o.paid = 1 }\nclient shop at 0 { sell(2); sell(1); all(3) }\nschedule shop shop shop\nend\n";

/// Weights, and calls that end themselves.
const CROWDED_2: &str =
    "workload 02 sites 2 weights 3,01 object x in 0..9=4 transaction t(n in 1..5){if read(x)<n then abort else{write(x=read(x)-n);abort;skip}}client a at 0{t(1)}schedule a end";

const PRINTED_2: &str =
    "workload 2\nsites 2\nweights 3, 1\nobject x in 0..9 = 4\ntransaction t(n in 1..5) { if read(x) < n then abort else { write(x = read(x) - n); abort; skip } }\nclient a at 0 { t(1) }\nschedule a\nend\n";

fn read_back(rt: &impl Abort, alloc: Global, text: &[u8]) -> Workload {
    assert!(rt; text.len() <= 1_048_576);
    read(alloc, text).expect(rt, "the text reads")
}

/// The text of a workload's copy.
fn printed(rt: &impl Abort, alloc: Global, w: Workload) -> Vec<u8> {
    let copy = w.copy(alloc).expect(rt, "memory");
    drop(w);
    let text = print(alloc, &copy).expect(rt, "memory");
    drop(copy);
    text
}

/// The text of what a text reads as.
fn printed_back(rt: &impl Abort, alloc: Global, text: &[u8]) -> Vec<u8> {
    let workload = read_back(rt, alloc, text);
    printed(rt, alloc, workload)
}

#[test]
fn what_is_copied_and_printed_reads_back(rt: HostRuntime) {
    let alloc = rt.alloc();
    for (text, printed) in [(CROWDED, PRINTED), (CROWDED_2, PRINTED_2)] {
        let first = printed_back(&rt, alloc, text.as_bytes());
        same_items(&rt, first.as_slice(), printed.as_bytes());
        let second = printed_back(&rt, alloc, first.as_slice());
        same_items(&rt, second.as_slice(), printed.as_bytes());
    }
}
