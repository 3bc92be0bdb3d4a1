//! Each pass in work of its own.

ghost use Rattle.std.specs.Prelude.{◌≡◌, ℕ, ◌<◌, All, map, vec_len, slice_index_or, Ok, IfOk};
ghost use Rattle.homeo_cluster.specs.Passes.{AreFinished, HasAllAnswers};
ghost use Rattle.homeo_cluster.specs.inner.Ran.{HasRun};

use crate::cluster::Cluster;
use crate::gate::Gate;
use crate::naming::ClusterNaming;
use crate::pass::ClientPass;
use homeo_syntax::Memory;
use std::alloc::{AllocError, Global};
use std::sync::Wait;
use std::thread;
use std::thread::Threads;

/// Runs each pass to its end, each in work of its own. Gives the same passes in the same order, with no call left in any, and an
/// answer to each call of its client in its log. It may wait for locks and workers.
///
/// # Errors
///
/// `Memory` when out of memory, once the other passes have come to their ends or their own want of memory.
pub fn run_clients<N: ClusterNaming + Send + Sync, R: Threads + Wait + Sync, G: Gate>(
    rt: &R,
    alloc: Global,
    cluster: &Cluster<N>,
    passes: Vec<ClientPass<N>>,
    gate: &G,
) -> Result<Vec<ClientPass<N>>, Memory>
    ensures finished { IfOk result (λ after. AreFinished passes.items after.items) }
    ensures answers { IfOk result (λ after. All (HasAllAnswers N.workload) after.items) }
{
    let Ok(results) = run_all(rt, alloc, cluster, passes, gate) else {
        return Err(Memory);
    };
    all_of(alloc, results)
}

/// What each run gave, in order. Where no thread can be started, the work is done by the one that would have started it.
fn run_all<N: ClusterNaming + Send + Sync, R: Threads + Wait + Sync, G: Gate>(
    rt: &R,
    alloc: Global,
    cluster: &Cluster<N>,
    passes: Vec<ClientPass<N>>,
    gate: &G,
) -> Result<Vec<Result<ClientPass<N>, Memory>>, AllocError>
    ensures count { IfOk result (λ results. vec_len results ≡ vec_len passes) }
    ensures each { IfOk result (λ results. (i : ℕ) (d : _) (e : _) → i < vec_len passes →
        IfOk (slice_index_or results.items i d) (HasRun N.workload (slice_index_or passes.items i e))) }
{
    thread::map_vec(
        rt,
        passes,
        &|pass| { run_one(rt, alloc, cluster, pass, gate) },
    )
}

/// Runs a pass to its end.
fn run_one<N: ClusterNaming, R: Wait, G: Gate>(
    rt: &R,
    alloc: Global,
    cluster: &Cluster<N>,
    mut pass: ClientPass<N>,
    gate: &G,
) -> Result<ClientPass<N>, Memory>
    ensures { IfOk result (HasRun N.workload pass) }
{
    while pass.left() > 0 {
        cluster.call(rt, alloc, &mut pass, gate)?;
    }
    Ok(pass)
}

/// The passes, where each of them came back.
fn all_of<N: ClusterNaming>(
    alloc: Global,
    results: Vec<Result<ClientPass<N>, Memory>>,
) -> Result<Vec<ClientPass<N>>, Memory>
    ensures { IfOk result (λ passes. map (λ p. Ok p) passes.items ≡ results.items) }
{
    let mut passes = Vec::new(alloc);
    for result in results {
        passes.push(result?)?;
    }
    Ok(passes)
}
