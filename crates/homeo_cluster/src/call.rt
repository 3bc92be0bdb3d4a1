//! The calls of a pass.

ghost use Rattle.std.specs.Prelude.{◌≡◌, ◌<◌, IfOk, OnErr};
ghost use Rattle.homeo_history.specs.HistoryView.{plain_answer};
ghost use Rattle.homeo_cluster.specs.Passes.{IsReplied};

use crate::cluster::Cluster;
use crate::gate::Gate;
use crate::local::Tried;
use crate::naming::ClusterNaming;
use crate::pass::ClientPass;
use homeo_history::Answer;
use homeo_syntax::Memory;
use std::alloc::Global;
use std::sync::Wait;

impl<N: ClusterNaming> Cluster<N> {
    /// Makes the next call of a pass, which has one left: by the client's site alone where that keeps the site's treaty, and
    /// else under all locks, where it closes the round if it still breaks the treaty there. It may wait for a lock. The answer
    /// stands last in the pass's log then.
    ///
    /// # Errors
    ///
    /// `Memory` when out of memory. The pass is as it was, and no call was made, though the gate may have been told of it.
    pub fn call<R: Wait, G: Gate>(
        &self,
        rt: &R,
        alloc: Global,
        pass: &mut ClientPass<N>,
        gate: &G,
    ) -> Result<Answer, Memory>
        requires left { 0 < pass.old.left }
        ensures replied { IfOk result (λ a. IsReplied N.workload pass.old pass.new (plain_answer a)) }
        ensures unchanged { OnErr result (pass.new ≡ pass.old) }
    {
        let home = self.frame.home(pass.client());
        let mut cell = self.sites[home as usize].lock(rt);
        // A lock is known by its place alone; that the site behind it has this number is looked up, and always holds.
        if cell.number() != home {
            return Err(Memory);
        }
        let call = pass.next();
        gate.inside(rt, home, call.client, call.seq);
        if let Tried::Done(answer) = self.frame.attempt(alloc, &mut *cell, pass)? {
            return Ok(answer);
        }
        drop(cell);
        self.close_or_make(rt, alloc, home, pass)
    }
}
