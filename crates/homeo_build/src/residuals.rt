//! Residuals of ground calls.

ghost use Rattle.std.specs.Prelude.{◌≡◌, ◌<◌, [], length, slice_get, Some, IfOk};
ghost use Rattle.homeo_syntax.specs.SourceView.{plain_workload};
ghost use Rattle.homeo_meaning.specs.Bounds.{IsWithin};
ghost use Rattle.homeo_meaning.specs.Ground.{grounds};
ghost use Rattle.homeo_meaning.specs.Schema.{schema_of};
ghost use Rattle.homeo_build.specs.Plan.{sited_residual, residuals_at};

use crate::compiled::Compiled;
use homeo_meaning::Database;
use homeo_plan::{Residual, Row};
use homeo_split::Split;
use homeo_syntax::{List, Memory};
use homeo_table::walk;
use std::alloc::Global;

/// The residual of the ground call of this number, through the round that begins at a base, with the call's site: that of the row
/// of its symbolic table that holds there. The row is found by following the branches that are taken, without the table.
///
/// The base must be within the workload's bounds, and the number below that of `Compiled::calls`.
///
/// # Errors
///
/// `Memory` when out of memory.
pub fn residual(
    alloc: Global,
    c: &Compiled,
    base: &Database,
    number: usize,
) -> Result<Residual, Memory>
    requires within { IsWithin (schema_of (plain_workload c.now)) base.now.items }
    requires number { number < length (grounds (plain_workload c.now)) }
    ensures { IfOk result (λ r. slice_get (residuals_at (plain_workload c.now) base.now.items) number ≡ Some (sited_residual r)) }
{
    // its rules hold
    let _workload = c.workload().workload();
    let calls = c.calls();
    let command = c.command(alloc, number)?;
    let split = without_deltas(alloc, base)?;
    let call = &calls[number];
    let row = walk(alloc, &command, &split)?;
    let Row {
        formula: _,
        residual,
    } = row;
    Ok(Residual {
        site: call.site,
        commands: residual,
    })
}

/// A copy of a base that no site has written to.
fn without_deltas(alloc: Global, base: &Database) -> Result<Split, Memory>
    ensures base { IfOk result (λ s. s.base.items ≡ base.now.items) }
    ensures deltas { IfOk result (λ s. s.deltas.items ≡ []) }
{
    let values = Vec::from_slice(alloc, base.as_slice())?;
    Ok(Split {
        base: List::from_vec(values),
        deltas: List::new(alloc),
    })
}
