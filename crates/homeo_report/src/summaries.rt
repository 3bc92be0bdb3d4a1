//! The text of a summary: how many calls a history has, how much they printed, and the database that they leave.
#![tactic(auto, unfolding(crate::specs::Key::definitions, homeo_history::specs::Key::definitions))]

ghost use Rattle.std.specs.Prelude.{◌≡◌, IfOk};
ghost use Rattle.homeo_syntax.specs.SourceView.{plain_workload};
ghost use Rattle.homeo_history.specs.HistoryView.{plain_history};
ghost use Rattle.homeo_report.specs.Report.{CanReport};
ghost use Rattle.homeo_report.specs.Summary.{summary};

use crate::objects::push_objects;
use crate::sizes::totals_of;
use homeo_history::History;
use homeo_meaning::Accepted;
use homeo_print::{ObjectNames, push_heading};
use homeo_syntax::{Memory, Workload};
use std::alloc::Global;

fn summary_of(alloc: Global, history: &History, w: &Workload) -> Result<Vec<u8>, Memory>
    requires { CanReport (plain_workload w.now) (plain_history history.now) }
    ensures { IfOk result (λ bytes. bytes.items ≡ summary (plain_workload w.now) (plain_history history.now)) }
{
    let totals = totals_of(history.rounds.as_slice())?;
    let mut out = Vec::new(alloc);
    push_heading(&mut out, b"calls ", totals.calls)?;
    push_heading(&mut out, b"prints ", totals.prints)?;
    let names = ObjectNames::of(alloc, w)?;
    push_objects(&mut out, &names, history.last.as_slice())?;
    Ok(out)
}

/// The text of the summary of a run of a workload: a line with the number of calls, a line with how many numbers they
/// printed, and then a line for each object with its last value, in the order of the objects (this project's rule). The
/// last database has one value for each object.
///
/// # Errors
///
/// `Memory` when out of memory, or where there are 2^64 calls or prints, for which there is no memory.
pub fn summary(alloc: Global, history: &History, w: &Accepted) -> Result<Vec<u8>, Memory>
    requires { CanReport (plain_workload w.now) (plain_history history.now) }
    ensures { IfOk result (λ bytes. bytes.items ≡ summary (plain_workload w.now) (plain_history history.now)) }
{
    summary_of(alloc, history, w.workload())
}
