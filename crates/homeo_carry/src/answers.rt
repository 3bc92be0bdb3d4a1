//! The answers that a node gives to the calls of its own clients.

ghost use Rattle.std.specs.Prelude.{◌≡◌, ◌==◌, ◌∷◌, [], cond, Some, OnOk};
ghost use Rattle.homeo_history.specs.Answers.{local_answer};
ghost use Rattle.homeo_nodes.specs.Nodes.{own_answer};
ghost use Rattle.homeo_carry.specs.inner.Answering.{AreMore, closing_by};

use crate::calls::Called;
use homeo_history::{Answer, Path};
use homeo_nodes::Breach;
use homeo_syntax::{List, Memory, Prints};
use std::alloc::Global;

/// The answers of the node of this site, in the order in which the calls were made.
#[derive(Drop)]
pub(crate) struct Answers {
    pub(crate) own: u32,
    pub(crate) given: List<Answer>,
}

impl Answers {
    /// None so far.
    pub(crate) fn none(alloc: Global, own: u32) -> Answers
        ensures { result ≡ record { own = own; given = record { items = []; spare = 0 } } }
    {
        Answers {
            own,
            given: List::new(alloc),
        }
    }

    /// Answers the call that closed a round, where it is of the node's own site.
    #[tactic(auto, unfolding(homeo_nodes::specs::Key::definitions, homeo_history::specs::Key::definitions))]
    pub(crate) fn closing(&mut self, u: Breach, prints: Prints) -> Result<(), Memory>
        ensures { OnOk result (AreMore self.old self.new (own_answer self.old.own u.round (Some (closing_by u prints.items)))) }
    {
        if u.site != self.own {
            return Ok(());
        }
        self.given.push(Answer {
            client: u.call.client,
            seq: u.call.seq,
            site: u.site,
            round: u.round,
            path: Path::Cleanup(u.broken),
            prints,
        })
    }

    /// Answers a call that its site made alone, where that is the node's own.
    #[tactic(auto, unfolding(homeo_history::specs::Key::definitions))]
    pub(crate) fn local(&mut self, c: Called, round: u64, prints: Prints) -> Result<(), Memory>
        ensures { OnOk result (AreMore self.old self.new (cond (c.site == self.old.own)
            (local_answer round self.old.own (record { call = c.call; prints = prints.items }) ∷ []) [])) }
    {
        if c.site != self.own {
            return Ok(());
        }
        self.given.push(Answer {
            client: c.call.client,
            seq: c.call.seq,
            site: self.own,
            round,
            path: Path::Local,
            prints,
        })
    }
}
