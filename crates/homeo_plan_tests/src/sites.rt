//! A command and its delta transform, on a database of two objects at two sites.

ghost use Rattle.std.specs.Prelude.{◌≡◌, [], ◌∷◌};
ghost use Rattle.homeo_syntax.specs.LowView.{plain_lexpr, plain_lcommand};
ghost use Rattle.homeo_plan_tests.specs.inner.SplitExample.{next, raise, IsStart};

use crate::object::pair;
use crate::same::same_items;
use homeo_delta::transform;
use homeo_fold::fold;
use homeo_local::local_step;
use homeo_meaning::Database;
use homeo_split::{Split, eval_l};
use homeo_syntax::{LCommand, LExpr, List, SplitName};
use std::alloc::Global;
use std::process::Abort;

fn next(rt: &impl Abort, alloc: Global) -> LExpr
    ensures { plain_lexpr result ≡ next }
{
    let object = LExpr::Read(SplitName::Whole(0));
    pair(rt, alloc, object, LExpr::Literal(1))
}

/// Object 0 is raised by 1 and printed.
fn raise(rt: &impl Abort, alloc: Global) -> LCommand
    ensures { plain_lcommand result ≡ raise }
{
    let target = SplitName::Whole(0);
    let value = next(rt, alloc);
    let write = LCommand::Write { target, value };
    let print = LCommand::Print {
        value: LExpr::Read(target),
    };
    LCommand::Seq {
        commands: List::from_vec(vec![in alloc; write, print].expect(rt, "memory")),
    }
}

fn values(rt: &impl Abort, alloc: Global, first: i64, second: i64) -> Database
    ensures { result.items ≡ first ∷ second ∷ [] }
{
    List::from_vec(vec![in alloc; first, second].expect(rt, "memory"))
}

/// Two objects at two sites.
pub(crate) fn start(rt: &impl Abort, alloc: Global) -> Split
    ensures { IsStart result }
{
    let base = values(rt, alloc, 5, 7);
    let here = values(rt, alloc, 2, -1);
    let there = values(rt, alloc, 3, 4);
    let deltas = List::from_vec(vec![in alloc; here, there].expect(rt, "memory"));
    Split { base, deltas }
}

#[test]
fn a_site_raises_an_object_of_the_fold(rt: HostRuntime) {
    let alloc = rt.alloc();
    let command = raise(&rt, alloc);
    let mut split = start(&rt, alloc);
    let before = fold(alloc, &split).expect(&rt, "memory");
    same_items(&rt, before.as_slice(), [10, 10].as_slice());
    let shifted = transform(alloc, &command, 1, 2).expect(&rt, "memory");
    drop(command);
    let prints = eval_l(alloc, &shifted, &mut split).expect(&rt, "memory");
    drop(shifted);
    same_items(&rt, prints.as_slice(), [11].as_slice());
    same_items(&rt, split.base.as_slice(), [5, 7].as_slice());
    match split.deltas.as_slice() {
        [other, own] => {
            same_items(&rt, other.as_slice(), [2, -1].as_slice());
            same_items(&rt, own.as_slice(), [4, 4].as_slice());
        }
        _ => panic!(rt; "two sites"),
    }
    let after = fold(alloc, &split).expect(&rt, "memory");
    same_items(&rt, after.as_slice(), [11, 10].as_slice());
    drop(split);
}

/// Base 5 and delta 2 are 7: raised, the object is printed as 8, and its delta is 3.
#[test]
fn a_site_runs_a_call_on_base_and_own_deltas(rt: HostRuntime) {
    let alloc = rt.alloc();
    let command = raise(&rt, alloc);
    let base = values(&rt, alloc, 5, 7);
    let deltas = values(&rt, alloc, 2, -1);
    let step = local_step(alloc, &command, base.as_slice(), deltas.as_slice()).expect(
        &rt, "memory",
    );
    same_items(&rt, step.prints.as_slice(), [8].as_slice());
    same_items(&rt, step.deltas.as_slice(), [3, -1].as_slice());
    same_items(&rt, step.written.as_slice(), [0].as_slice());
}
