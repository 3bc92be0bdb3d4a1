//! The generated load, run and summed up.

ghost use Rattle.std.specs.Prelude.{◌≤◌, IfOk};
ghost use Rattle.homeo_commands.specs.Made.{IsLoadOutput};

use crate::clients::clients;
use homeo_build::compile::compile;
use homeo_cluster::Gate;
use homeo_load::accepted_load;
use homeo_report::summary;
use homeo_syntax::Memory;
use std::alloc::Global;
use std::sync::{Arc, Wait};
use std::thread::Threads;

/// The summary of the load that starts at a number and has so many calls, where each client makes its calls in work of its own.
/// It may wait for locks and workers.
#[tactic(auto, using(homeo_load::proofs::Output::load_summary_is))]
pub(crate) fn load<R: Threads + Wait + Sync, G: Gate>(
    rt: &R,
    alloc: Global,
    number: u64,
    calls: u32,
    gate: &G,
) -> Result<Vec<u8>, Memory>
    requires few { calls ≤ 20000 }
    ensures { IfOk result (λ bytes. IsLoadOutput number calls bytes.items) }
{
    let w = accepted_load(alloc, number, calls)?;
    let compiled = Arc::new(alloc, compile(alloc, w)?)?;
    let history = clients(rt, alloc, Arc::try_clone(&compiled)?, gate)?;
    summary(alloc, &history, compiled.workload())
}
