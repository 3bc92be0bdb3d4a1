//! The calls of workloads with relations, and of those that end themselves, each run by itself and by its L form.

ghost use Rattle.std.specs.Prelude.{◌≡◌, [], All, map};
ghost use Rattle.homeo_syntax.specs.SourceView.{plain_workload};
ghost use Rattle.homeo_meaning.specs.Bounds.{IsWithin};
ghost use Rattle.homeo_meaning.specs.Declarations.{declarations};
ghost use Rattle.homeo_meaning.specs.Ground.{plain_ground};
ghost use Rattle.homeo_meaning.specs.Schema.{schema_of};
ghost use Rattle.homeo_ground.specs.Grounding.{IsCalled};

use crate::same::same_items;
use crate::texts::{ENDED, LIMITED_SLOTS};
use homeo_context::Declarations;
use homeo_desugar::desugar;
use homeo_eval::{eval, initial};
use homeo_ground::Grounding;
use homeo_meaning::{Accepted, Database, GroundCall, Purpose};
use homeo_split::{Split, eval_l};
use homeo_syntax::{List, Prints};
use std::alloc::Global;
use std::process::Abort;

/// Orders are taken while a slot is free, paid for, shipped and counted: by each command and each expression over rows.
const ORDERS: &str = "workload 1
sites 2
object stock in 0..20 = 12
object latest in 0..2 = 0
relation orders[2] (amount in 0..5, paid in 0..1)
transaction order(n in 1..5) {
  insert orders (paid = 0, amount = n) into place;
  if 0 < place then { write(stock = read(stock) - n); write(latest = place - 1) } else skip;
  print(place)
}
transaction pay() {
  orders[read(latest)].paid := 1;
  print(orders[read(latest)].amount)
}
transaction ship() {
  foreach o of orders when o.paid = 1 { print(o.amount); o.amount := 5 };
  delete o of orders when o.paid = 1
}
transaction age() {
  update o of orders when not (o.paid = 1) set amount = o.amount - 1;
  print(count(o of orders when true));
  print(sum(o.amount of orders when o.amount < 5))
}
client shop at 0 { order(2); pay(); ship(); age() }
client web at 1 { order(4) }
schedule shop shop web shop shop
end
";

/// Calls end themselves behind an insertion, in a loop behind a choice, and behind all else.
const TAKEN_BACK: &str = "workload 2
sites 2
weights 1, 1
object stock in 0..20 = 20
relation orders[2] (amount in 0..9)
transaction order(n in 1..5) {
  insert orders (amount = n) into place;
  write(stock = read(stock) - n);
  if place = 0 then { print(-1); abort } else print(read(stock))
}
transaction age() {
  foreach o of orders when 0 < o.amount {
    print(o.amount);
    if o.amount < 3 then abort else o.amount := o.amount - 1;
    print(0)
  };
  print(5)
}
transaction look() { delete o of orders when true; print(count(o of orders when true)); abort }
client shop at 0 { order(5); age(); look() }
client web at 1 { order(1) }
schedule shop shop shop web
end
";

/// Reads a text that is accepted.
fn accepted(rt: &impl Abort, alloc: Global, text: &str) -> Accepted {
    assert!(rt; text.len() <= 1_048_576);
    homeo_accept::accepted(alloc, text.as_bytes(), Purpose::Steps).expect(rt, "an accepted text")
}

/// The database at one place: it is not split yet.
fn whole(rt: &impl Abort, alloc: Global, database: &Database) -> Split
    ensures base { result.base.items ≡ database.now.items }
    ensures deltas { result.deltas.items ≡ [] }
{
    let base = Vec::from_slice(alloc, database.as_slice()).expect(rt, "memory");
    Split {
        base: List::from_vec(base),
        deltas: List::new(alloc),
    }
}

/// Runs a ground call on a database, by itself and by its L form, compares what they print and leave, and gives the prints.
fn run_both(
    rt: &impl Abort,
    alloc: Global,
    w: &Accepted,
    declared: &Declarations,
    call: &GroundCall,
    database: &mut Database,
) -> Prints
    requires declared { declared.now ≡ declarations (plain_workload w.now) }
    requires called { IsCalled (plain_workload w.now) (plain_ground call.now) }
    requires within { IsWithin (schema_of (plain_workload w.now)) database.old.items }
    ensures within { IsWithin (schema_of (plain_workload w.now)) database.new.items }
{
    let form = desugar(alloc, call, w, declared).expect(rt, "memory");
    let mut split = whole(rt, alloc, database);
    assert!(rt; split.has_places(&form));
    let printed = eval_l(alloc, &form, &mut split).expect(rt, "memory");
    drop(form);
    let args = call.args.as_slice();
    let prints = eval(alloc, w, call.transaction, args, database).expect(rt, "memory");
    same_items(rt, printed.as_slice(), prints.as_slice());
    same_items(rt, split.base.as_slice(), database.as_slice());
    drop(split);
    prints
}

/// Runs the ground calls one after another, and gives the prints of each.
fn run_round(
    rt: &impl Abort,
    alloc: Global,
    w: &Accepted,
    declared: &Declarations,
    calls: &[GroundCall],
    database: &mut Database,
) -> Vec<Prints>
    requires declared { declared.now ≡ declarations (plain_workload w.now) }
    requires called { All (IsCalled (plain_workload w.now)) (map plain_ground calls.now) }
    requires within { IsWithin (schema_of (plain_workload w.now)) database.old.items }
    ensures within { IsWithin (schema_of (plain_workload w.now)) database.new.items }
{
    let mut logs = Vec::new(alloc);
    for call in calls {
        let prints = run_both(rt, alloc, w, declared, call, database);
        logs.push(prints).expect(rt, "memory");
    }
    logs
}

/// Runs a workload's ground calls from its first database on, the given number of times, and gives the last database.
fn run_rounds(rt: &impl Abort, alloc: Global, w: &Accepted, rounds: usize) -> Database {
    let declared = Declarations::of(alloc, w).expect(rt, "memory");
    let grounding = Grounding::of(alloc, w, &declared).expect(rt, "memory");
    let mut database = initial(alloc, w).expect(rt, "memory");
    for _ in 0..rounds {
        let logs = run_round(rt, alloc, w, &declared, grounding.calls(), &mut database);
        drop(logs);
    }
    drop(grounding);
    drop(declared);
    database
}

#[test]
fn slots_are_filled_until_none_is_left(rt: HostRuntime) {
    let alloc = rt.alloc();
    let w = accepted(&rt, alloc, LIMITED_SLOTS);
    let database = run_rounds(&rt, alloc, &w, 5);
    drop(w);
    same_items(
        &rt,
        database.as_slice(),
        [1, 7, 1, 7, 1, 7, 1, 7].as_slice(),
    );
}

#[test]
fn orders_are_taken_paid_and_shipped(rt: HostRuntime) {
    let alloc = rt.alloc();
    let w = accepted(&rt, alloc, ORDERS);
    let database = run_rounds(&rt, alloc, &w, 3);
    drop(w);
    same_items(
        &rt,
        database.as_slice(),
        [0, 1, 1, 2, 0, 1, 4, 0].as_slice(),
    );
}

#[test]
fn a_call_that_ends_itself_writes_nothing(rt: HostRuntime) {
    let alloc = rt.alloc();
    let w = accepted(&rt, alloc, TAKEN_BACK);
    let database = run_rounds(&rt, alloc, &w, 3);
    drop(w);
    same_items(&rt, database.as_slice(), [14, 1, 4, 1, 1].as_slice());
}

#[test]
fn a_call_that_ends_itself_keeps_its_prints(rt: HostRuntime) {
    let alloc = rt.alloc();
    let w = accepted(&rt, alloc, ENDED);
    let declared = Declarations::of(alloc, &w).expect(&rt, "memory");
    let grounding = Grounding::of(alloc, &w, &declared).expect(&rt, "memory");
    let mut database = initial(alloc, &w).expect(&rt, "memory");
    let logs = run_round(&rt, alloc, &w, &declared, grounding.calls(), &mut database);
    drop(grounding);
    drop(declared);
    drop(w);
    match logs.as_slice() {
        [whole, ended] => {
            same_items(&rt, whole.as_slice(), [3, 9].as_slice());
            same_items(&rt, ended.as_slice(), [1].as_slice());
        }
        _ => panic!(rt; "two logs"),
    }
    same_items(&rt, database.as_slice(), [3].as_slice());
}
