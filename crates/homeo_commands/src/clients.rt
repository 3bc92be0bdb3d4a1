//! The calls of a workload, each client's in work of its own.

ghost use Rattle.std.specs.Prelude.{◌≡◌, IfOk};
ghost use Rattle.homeo_syntax.specs.SourceView.{plain_workload};
ghost use Rattle.homeo_history.specs.HistoryView.{plain_history};
ghost use Rattle.homeo_history.specs.Legal.{IsFull};
ghost use Rattle.homeo_report.specs.Report.{CanReport};
ghost use Rattle.homeo_cluster.specs.Places.{line_count};

use homeo_build::Compiled;
use homeo_cluster::{Cluster, ClusterNaming, Gate, blank_for, run_clients};
use homeo_history::History;
use homeo_notes::Blank;
use homeo_syntax::Memory;
use std::alloc::Global;
use std::marker::Brand;
use std::sync::{Arc, Wait};
use std::thread::Threads;

/// Makes all calls: each client's one after another, in work of the client's own. It may wait for locks and workers.
pub(crate) fn clients<R: Threads + Wait + Sync, G: Gate>(
    rt: &R,
    alloc: Global,
    c: Arc<Compiled>,
    gate: &G,
) -> Result<History, Memory>
    ensures full { IfOk result (λ h. IsFull (plain_workload c.value) (plain_history h)) }
    ensures reportable { IfOk result (λ h. CanReport (plain_workload c.value) (plain_history h)) }
{
    let blank = blank_for(alloc, &c)?;
    clients_on::<Brand, R, G>(rt, alloc, blank, c, gate)
}

// The same where the cluster's names are those of this board and this workload.
fn clients_on<N: ClusterNaming + Send + Sync, R: Threads + Wait + Sync, G: Gate>(
    rt: &R,
    alloc: Global,
    blank: Blank,
    c: Arc<Compiled>,
    gate: &G,
) -> Result<History, Memory>
    requires board { blank ≡ N.board }
    requires workload { plain_workload c.value ≡ N.workload }
    requires lines { blank.words ≡ line_count N.workload }
    ensures full { IfOk result (λ h. IsFull N.workload (plain_history h)) }
    ensures reportable { IfOk result (λ h. CanReport N.workload (plain_history h)) }
{
    let (cluster, passes) = Cluster::<N>::begin(alloc, blank, c)?;
    let passes = run_clients(rt, alloc, &cluster, passes, gate)?;
    cluster.finish(alloc, passes)
}
