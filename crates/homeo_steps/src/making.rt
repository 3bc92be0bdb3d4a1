//! One step for each name of the schedule.

ghost use Rattle.std.specs.Prelude.{◌≡◌, [], map, length, IfOk};
ghost use Rattle.homeo_syntax.specs.SourceView.{plain_workload};
ghost use Rattle.homeo_syntax.specs.WellFormed.{IsWellFormed};
ghost use Rattle.homeo_meaning.specs.declared.call.Purpose.TheVariants as purpose;
ghost use Rattle.homeo_meaning.specs.Bounds.{IsWithin};
ghost use Rattle.homeo_meaning.specs.Faults.{faults};
ghost use Rattle.homeo_meaning.specs.Schema.{schema_of};
ghost use Rattle.homeo_history.specs.Follows.{Follows};
ghost use Rattle.homeo_history.specs.HistoryView.{plain_history};
ghost use Rattle.homeo_history.specs.Legal.{IsFull, IsLegalFrom};
ghost use Rattle.homeo_order.specs.Order.{scheduled_calls};
ghost use Rattle.homeo_report.specs.Report.{CanReport};

use homeo_build::Compiled;
use homeo_core::Core;
use homeo_eval::initial;
use homeo_history::History;
use homeo_meaning::Database;
use homeo_order::{client_places, order};
use homeo_syntax::Memory;
use std::alloc::Global;
use std::sync::Arc;

/// Makes all calls of a workload that is accepted for `steps`, from its initial database on, in the order of the schedule.
///
/// # Errors
///
/// `Memory` when out of memory.
pub fn steps(alloc: Global, c: &Arc<Compiled>) -> Result<History, Memory>
    requires well_formed { IsWellFormed (plain_workload c.now.value) }
    requires sound { faults purpose.Steps (plain_workload c.now.value) ≡ [] }
    ensures full { IfOk result (λ h. IsFull (plain_workload c.now.value) (plain_history h)) }
    ensures follows { let w = plain_workload c.now.value in IfOk result (λ h. Follows w (plain_history h) (scheduled_calls w)) }
    ensures reportable { IfOk result (λ h. CanReport (plain_workload c.now.value) (plain_history h)) }
{
    let base = initial(alloc, c.workload())?;
    steps_from(alloc, c, base)
}

/// Makes all calls of a workload that is accepted for `steps`, from a database on that is within its bounds, in the order of
/// the schedule: each name stands for the next call of its client.
///
/// # Errors
///
/// `Memory` when out of memory.
pub fn steps_from(alloc: Global, c: &Arc<Compiled>, base: Database) -> Result<History, Memory>
    requires well_formed { IsWellFormed (plain_workload c.now.value) }
    requires sound { faults purpose.Steps (plain_workload c.now.value) ≡ [] }
    requires within { IsWithin (schema_of (plain_workload c.now.value)) base.items }
    ensures legal { let w = plain_workload c.now.value in
        IfOk result (λ h. IsLegalFrom w base.items (map (λ client. length client.calls) w.clients) (plain_history h)) }
    ensures within { IfOk result (λ h. IsWithin (schema_of (plain_workload c.now.value)) (plain_history h).last) }
    ensures follows { let w = plain_workload c.now.value in IfOk result (λ h. Follows w (plain_history h) (scheduled_calls w)) }
    ensures reportable { IfOk result (λ h. CanReport (plain_workload c.now.value) (plain_history h)) }
{
    let w = c.workload().workload();
    let clients = client_places(alloc, w)?;
    let mut core = Core::begin_at(alloc, Arc::try_clone(c)?, base)?;
    for name in order(w) {
        core.step_unasked(alloc, clients.get(name.name) as u32)?;
    }
    core.finish(alloc)
}
