//! The answer to a call.

ghost use Rattle.std.specs.Prelude.{◌≡◌, IfOk};
ghost use Rattle.homeo_history.specs.HistoryView.{plain_answer};

use homeo_plan::Broken;
use homeo_syntax::{List, Memory, Prints};
use std::alloc::Global;

/// How a call was answered: by its site alone, or by a cleanup, with what of the site's treaty the call breaks.
#[derive(Clone, Copy, Debug, PartialEq, Eq)]
pub enum Path {
    Local,
    Cleanup(Broken),
}

/// The answer to a call of a client: the client, from 0, the number of the call among the client's, from 1, the site,
/// from 0, the round in which it was made, from 0, how it was made, and what it printed, in order.
#[derive(Drop)]
pub struct Answer {
    pub client: u32,
    pub seq: u64,
    pub site: u32,
    pub round: u64,
    pub path: Path,
    pub prints: Prints,
}

impl Answer {
    /// Makes an equal value.
    ///
    /// # Errors
    ///
    /// `Memory` when out of memory.
    #[tactic(auto, using(crate::proofs::HistoryViews::history_views))]
    pub fn copy(&self, alloc: Global) -> Result<Answer, Memory>
        ensures { IfOk result (λ a. plain_answer a ≡ plain_answer self.now) }
    {
        let prints = Vec::from_slice(alloc, self.prints.as_slice())?;
        Ok(Answer {
            client: self.client,
            seq: self.seq,
            site: self.site,
            round: self.round,
            path: self.path,
            prints: List::from_vec(prints),
        })
    }
}
