//! A whole call of a text, run by one site of two.

ghost use Rattle.std.specs.Prelude.{◌≡◌, ◌<◌, All, map, replicate, pos};
ghost use Rattle.homeo_syntax.specs.SourceView.{plain_workload};
ghost use Rattle.homeo_meaning.specs.Bounds.{IsWithin};
ghost use Rattle.homeo_meaning.specs.Declarations.{declarations};
ghost use Rattle.homeo_meaning.specs.Ground.{plain_ground};
ghost use Rattle.homeo_meaning.specs.Schema.{schema_of};
ghost use Rattle.homeo_ground.specs.Grounding.{IsCalled};
ghost use Rattle.homeo_fold.specs.Folding.{SumsFit};
ghost use Rattle.homeo_plan_tests.specs.inner.CallExample.{IsUndivided};

use crate::same::same_items;
use crate::texts::{TWICE, accepted};
use homeo_context::Declarations;
use homeo_delta::transform;
use homeo_desugar::desugar;
use homeo_eval::initial;
use homeo_fold::fold;
use homeo_ground::Grounding;
use homeo_meaning::{Accepted, Database, GroundCall};
use homeo_split::{Split, eval_l};
use homeo_syntax::List;
use std::alloc::Global;
use std::process::Abort;

fn zeros(rt: &impl Abort, alloc: Global, count: usize) -> Database
    ensures { result.items ≡ replicate count (pos 0) }
{
    List::from_vec(vec![in alloc; 0; count].expect(rt, "memory"))
}

/// A database at two sites that have not written yet.
pub(crate) fn undivided(rt: &impl Abort, alloc: Global, database: &Database) -> Split
    ensures { IsUndivided database.now.items result }
{
    let values = database.as_slice();
    let base = Vec::from_slice(alloc, values).expect(rt, "memory");
    let here = zeros(rt, alloc, values.len());
    let there = zeros(rt, alloc, values.len());
    Split {
        base: List::from_vec(base),
        deltas: List::from_vec(vec![in alloc; here, there].expect(rt, "memory")),
    }
}

/// Runs a ground call at a site, on a database that the sites have not written yet.
fn run_first(
    rt: &impl Abort,
    alloc: Global,
    w: &Accepted,
    declared: &Declarations,
    call: &GroundCall,
    database: &Database,
    site: u32,
) -> Split
    requires declared { declared.now ≡ declarations (plain_workload w.now) }
    requires called { IsCalled (plain_workload w.now) (plain_ground call.now) }
    requires within { IsWithin (schema_of (plain_workload w.now)) database.now.items }
    requires site { site < 2 }
    ensures { SumsFit result }
{
    // its ground calls compute small numbers, and its bounds are small
    let _workload = w.workload();
    let form = desugar(alloc, call, w, declared).expect(rt, "memory");
    let mut split = undivided(rt, alloc, database);
    let shifted = transform(alloc, &form, site, 2).expect(rt, "memory");
    drop(form);
    let _prints = eval_l(alloc, &shifted, &mut split).expect(rt, "memory");
    drop(shifted);
    split
}

/// The first of a workload's ground calls.
pub(crate) fn first<'a>(rt: &impl Abort, w: &Accepted, calls: &'a [GroundCall]) -> &'a GroundCall
    requires { All (IsCalled (plain_workload w.now)) (map plain_ground calls.now) }
    ensures { IsCalled (plain_workload w.now) (plain_ground result.now) }
{
    match calls {
        [call, ..] => call,
        _ => panic!(rt; "no call"),
    }
}

/// Runs the first ground call of a workload at site 0, from the starting values.
fn run_workload(rt: &impl Abort, alloc: Global, w: &Accepted) -> Split
    ensures { SumsFit result }
{
    let declared = Declarations::of(alloc, w).expect(rt, "memory");
    let grounding = Grounding::of(alloc, w, &declared).expect(rt, "memory");
    let call = first(rt, w, grounding.calls());
    let database = initial(alloc, w).expect(rt, "memory");
    let split = run_first(rt, alloc, w, &declared, call, &database, 0);
    drop(grounding);
    drop(declared);
    split
}

/// Runs the first ground call of a text so.
fn run_text(rt: &impl Abort, alloc: Global, text: &str) -> Split
    ensures { SumsFit result }
{
    let w = accepted(rt, alloc, text);
    let split = run_workload(rt, alloc, &w);
    drop(w);
    split
}

#[test]
fn a_site_runs_a_whole_call(rt: HostRuntime) {
    let alloc = rt.alloc();
    let split = run_text(&rt, alloc, TWICE);
    same_items(&rt, split.base.as_slice(), [5].as_slice());
    match split.deltas.as_slice() {
        [own, other] => {
            same_items(&rt, own.as_slice(), [2].as_slice());
            same_items(&rt, other.as_slice(), [0].as_slice());
        }
        _ => panic!(rt; "two sites"),
    }
    let after = fold(alloc, &split).expect(&rt, "memory");
    same_items(&rt, after.as_slice(), [7].as_slice());
    drop(split);
}
