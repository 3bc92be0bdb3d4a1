//! The row of a whole call of a text, by the table and by the walk.

ghost use Rattle.std.specs.Prelude.{◌≡◌, true};
ghost use Rattle.homeo_syntax.specs.LowView.{plain_lcommand};
ghost use Rattle.homeo_syntax.specs.SourceView.{plain_workload};
ghost use Rattle.homeo_meaning.specs.Bounds.{IsWithin};
ghost use Rattle.homeo_meaning.specs.Declarations.{declarations};
ghost use Rattle.homeo_meaning.specs.Ground.{plain_ground};
ghost use Rattle.homeo_meaning.specs.Schema.{schema_of};
ghost use Rattle.homeo_split.specs.CanExec.{run_limit, can_exec};
ghost use Rattle.homeo_split.specs.States.{state_of};
ghost use Rattle.homeo_ground.specs.Grounding.{IsCalled};

use crate::calls::{first, undivided};
use crate::same::{same, same_items};
use crate::texts::{FILL, TWICE, accepted};
use homeo_context::Declarations;
use homeo_delta::transform;
use homeo_desugar::desugar;
use homeo_eval::initial;
use homeo_ground::Grounding;
use homeo_meaning::{Accepted, Database, GroundCall};
use homeo_plan::Row;
use homeo_print::{ObjectNames, print_row};
use homeo_split::Split;
use homeo_syntax::{LCommand, Workload};
use homeo_table::walk;
use homeo_whole_tables::{row_at, table};
use std::alloc::Global;
use std::process::Abort;

/// Both writes stay within the bounds. The second one's test has what the first one writes put in.
const ROW: &str = "row 0
when 0 <= (base(x) + x@0 + x@1) + 1 and (base(x) + x@0 + x@1) + 1 <= 10 and 0 <= (base(x) + (((base(x) + x@0 + x@1) + 1) - base(x) - x@1) + x@1) + 1 and (base(x) + (((base(x) + x@0 + x@1) + 1) - base(x) - x@1) + x@1) + 1 <= 10
do { write(x@0 = ((base(x) + x@0 + x@1) + 1) - base(x) - x@1); write(x@0 = ((base(x) + x@0 + x@1) + 1) - base(x) - x@1) }
";

/// The row that a command takes at a database: its place in the table, and the row itself by the table and by the walk.
#[derive(Drop)]
struct Taken {
    place: usize,
    by_table: Row,
    by_walk: Row,
}

fn take(rt: &impl Abort, alloc: Global, c: &LCommand, base: &Split) -> Taken
    requires { can_exec run_limit (plain_lcommand c.now) (state_of base.now) ≡ true }
{
    let rows = table(alloc, c).expect(rt, "memory");
    let place = row_at(rows.as_slice(), base);
    let by_table = rows[place].copy(alloc).expect(rt, "memory");
    drop(rows);
    let by_walk = walk(alloc, c, base).expect(rt, "memory");
    Taken {
        place,
        by_table,
        by_walk,
    }
}

/// The row that a ground call takes at site 0, on a database that the sites have not written yet.
fn take_by_call(
    rt: &impl Abort,
    alloc: Global,
    w: &Accepted,
    declared: &Declarations,
    call: &GroundCall,
    database: &Database,
) -> Taken
    requires declared { declared.now ≡ declarations (plain_workload w.now) }
    requires called { IsCalled (plain_workload w.now) (plain_ground call.now) }
    requires within { IsWithin (schema_of (plain_workload w.now)) database.now.items }
{
    // its ground calls compute small numbers, and its bounds are small
    let _workload = w.workload();
    let form = desugar(alloc, call, w, declared).expect(rt, "memory");
    let shifted = transform(alloc, &form, 0, 2).expect(rt, "memory");
    drop(form);
    let base = undivided(rt, alloc, database);
    let taken = take(rt, alloc, &shifted, &base);
    drop(base);
    drop(shifted);
    taken
}

/// The row that a workload's first ground call takes so, at the starting values.
fn take_first(rt: &impl Abort, alloc: Global, w: &Accepted) -> Taken {
    let declared = Declarations::of(alloc, w).expect(rt, "memory");
    let grounding = Grounding::of(alloc, w, &declared).expect(rt, "memory");
    let call = first(rt, w, grounding.calls());
    let database = initial(alloc, w).expect(rt, "memory");
    let taken = take_by_call(rt, alloc, w, &declared, call, &database);
    drop(grounding);
    drop(declared);
    taken
}

fn printed(rt: &impl Abort, alloc: Global, w: &Workload, place: usize, row: &Row) -> Vec<u8> {
    let objects = ObjectNames::of(alloc, w).expect(rt, "memory");
    let mut residual = Vec::new(alloc);
    for c in row.residual.as_slice() {
        residual.push(c).expect(rt, "memory");
    }
    let mut out = Vec::new(alloc);
    let formula = row.formula.tests.as_slice();
    print_row(
        &mut out,
        w,
        &objects,
        place as u64,
        formula,
        residual.as_slice(),
    )
    .expect(rt, "memory");
    drop(residual);
    drop(objects);
    out
}

#[test]
fn the_walk_gives_the_row_of_the_table(rt: HostRuntime) {
    let alloc = rt.alloc();
    let w = accepted(&rt, alloc, TWICE);
    let taken = take_first(&rt, alloc, &w);
    let by_table = printed(&rt, alloc, w.workload(), taken.place, &taken.by_table);
    let by_walk = printed(&rt, alloc, w.workload(), taken.place, &taken.by_walk);
    drop(taken);
    drop(w);
    same_items(&rt, by_walk.as_slice(), ROW.as_bytes());
    same_items(&rt, by_table.as_slice(), ROW.as_bytes());
}

#[test]
fn what_is_written_is_read_by_the_tests_after_it(rt: HostRuntime) {
    let alloc = rt.alloc();
    let w = accepted(&rt, alloc, FILL);
    let taken = take_first(&rt, alloc, &w);
    drop(w);
    same(&rt, &taken.by_walk.residual.as_slice().len(), &4);
    drop(taken);
}
