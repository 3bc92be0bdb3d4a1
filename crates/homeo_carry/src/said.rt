//! What sites say when they have stopped.

ghost use Rattle.std.specs.Prelude.{IfOk, ◌≡◌};
ghost use Rattle.homeo_carry.specs.CarryView.{plain_said};

use homeo_meaning::{CallId, Database};
use homeo_syntax::{List, Memory};
use std::alloc::Global;

/// What a site says when it has stopped: its deltas, one for each object, and the calls of its own clients that wait, in order.
#[derive(Drop)]
pub struct Said {
    pub deltas: Database,
    pub calls: Vec<CallId>,
}

impl Said {
    /// Makes an equal value.
    ///
    /// # Errors
    ///
    /// `Memory` when out of memory.
    pub fn copy(&self, alloc: Global) -> Result<Said, Memory>
        ensures { IfOk result (λ s. plain_said s ≡ plain_said self.now) }
    {
        let deltas = Vec::from_slice(alloc, self.deltas.as_slice())?;
        Ok(Said {
            deltas: List::from_vec(deltas),
            calls: Vec::from_slice(alloc, self.calls.as_slice())?,
        })
    }
}
