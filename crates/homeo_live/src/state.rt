//! A node as plain data.

ghost use Rattle.std.specs.Prelude.{◌≡◌, IfOk};
ghost use Rattle.homeo_live.specs.LiveView.{plain_past};

use crate::states::copy_all;
use homeo_carry::Said;
use homeo_meaning::{CallId, Database};
use homeo_nodes::{Breach, Mode};
use homeo_syntax::Memory;
use std::alloc::Global;

/// How a node closed the round that it stopped in last: by this call, and by what all sites said, in the order of their numbers.
#[derive(Drop)]
pub struct Past {
    pub breach: Breach,
    pub states: Vec<Said>,
}

impl Past {
    /// Makes an equal value.
    ///
    /// # Errors
    ///
    /// `Memory` when out of memory.
    pub fn copy(&self, alloc: Global) -> Result<Past, Memory>
        ensures { IfOk result (λ p. plain_past p ≡ plain_past self.now) }
    {
        Ok(Past {
            breach: self.breach,
            states: copy_all(alloc, self.states.as_slice())?,
        })
    }
}

/// All that a node is: the numbers of its site and its round, the round's base, the site's own deltas, whether it runs calls, the
/// call that it has chosen as the round's arbiter, of each site what it has said, where the node keeps it, how it closed the round
/// that it stopped in last, and the calls that wait, in order.
#[derive(Drop)]
pub struct NodeState {
    pub site: u32,
    pub round: u64,
    pub base: Database,
    pub deltas: Database,
    pub mode: Mode,
    pub decided: Option<Breach>,
    pub states: Vec<Option<Said>>,
    pub past: Option<Past>,
    pub queue: Vec<CallId>,
}
