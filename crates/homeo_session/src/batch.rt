//! The calls of a batch that is accepted.

ghost use Rattle.std.specs.Prelude.{◌≡◌, [], IfOk};
ghost use Rattle.homeo_syntax.specs.SourceView.{plain_workload};
ghost use Rattle.homeo_syntax.specs.WellFormed.{IsWellFormed};
ghost use Rattle.homeo_meaning.specs.Bounds.{IsWithin};
ghost use Rattle.homeo_meaning.specs.Faults.{faults};
ghost use Rattle.homeo_meaning.specs.Schema.{schema_of};
ghost use Rattle.homeo_meaning.specs.declared.call.Purpose.TheVariants as purpose;
ghost use Rattle.homeo_session.specs.inner.Heads.{IsServedFrom};

use homeo_build::compile::compile;
use homeo_history::History;
use homeo_meaning::{Accepted, Database};
use homeo_report::report;
use homeo_steps::steps_from;
use homeo_syntax::Memory;
use std::alloc::Global;
use std::sync::Arc;

/// The report of a batch, and the database that it leaves.
#[derive(Drop)]
pub(crate) struct Served {
    pub(crate) report: Vec<u8>,
    pub(crate) database: Database,
}

/// Makes the calls of an accepted batch from a database on, in the order of its schedule.
pub(crate) fn serve_batch(alloc: Global, w: Accepted, base: Database) -> Result<Served, Memory>
    requires well_formed { IsWellFormed (plain_workload w) }
    requires sound { faults purpose.Steps (plain_workload w) ≡ [] }
    requires within { IsWithin (schema_of (plain_workload w)) base.items }
    ensures served { IfOk result (λ s. IsServedFrom (plain_workload w) base.items s.report.items s.database.items) }
    ensures within { IfOk result (λ s. IsWithin (schema_of (plain_workload w)) s.database.items) }
{
    let compiled = Arc::new(alloc, compile(alloc, w)?)?;
    let history = steps_from(alloc, &compiled, base)?;
    let report = report(alloc, &history, compiled.workload())?;
    let History { rounds: _, last } = history;
    Ok(Served {
        report,
        database: last,
    })
}
