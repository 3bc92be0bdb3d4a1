//! A call at its own site, under the lock of this site alone.

ghost use Rattle.std.specs.Prelude.{◌≡◌, ◌<◌, ◌≤◌, [], ◌∷◌, ◌++◌, ◌^◌, ℤ, List as Seq, suc, length, All, IfOk, OnErr};
ghost use Rattle.homeo_notes.specs.Lines.{IsOwner, HasSeen, list_at};
ghost use Rattle.homeo_history.specs.Answers.{local_answer};
ghost use Rattle.homeo_history.specs.HistoryView.{plain_answer};
ghost use Rattle.homeo_history.specs.Legal.{IsClientAt, IsCallAt};
ghost use Rattle.homeo_site.specs.Attempts.{IsChange};
ghost use Rattle.homeo_site.specs.SiteState.{after_local, local_entry};
ghost use Rattle.homeo_assembly.specs.Written.{written};
ghost use Rattle.homeo_cluster.specs.Places.{asked_line, done_line};
ghost use Rattle.homeo_cluster.specs.inner.Grows.{Grew};
ghost use Rattle.homeo_cluster.specs.inner.Tries.{IsTried};

use crate::cell::SiteCell;
use crate::frame::Frame;
use crate::naming::ClusterNaming;
use crate::pairs::extend_pair;
use crate::pass::ClientPass;
use crate::writing::local_head;
use homeo_history::{Answer, Path};
use homeo_meaning::CallId;
use homeo_notes::Holder;
use homeo_plan::Broken;
use homeo_site::{Change, Outcome};
use homeo_syntax::{List, Memory, Prints};
use std::alloc::Global;

/// What an attempt came to.
#[derive(Drop)]
pub(crate) enum Tried {
    /// The site made the call.
    Done(Answer),
    /// It breaks this first of the site's treaty.
    Breaks(Broken),
}

impl<N: ClusterNaming> Frame<N> {
    /// Attempts a pass's next call at its site, and makes it where it keeps the site's treaty. After the attempt nothing can fail.
    pub(crate) fn attempt(
        &self,
        alloc: Global,
        cell: &mut SiteCell<N>,
        pass: &mut ClientPass<N>,
    ) -> Result<Tried, Memory>
        requires home { IsClientAt N.workload cell.old.site.state.number pass.old.client }
        requires left { 0 < pass.old.left }
        ensures tried { IfOk result (IsTried N.workload cell.old cell.new pass.old pass.new) }
        ensures unchanged { OnErr result (pass.new ≡ pass.old) }
    {
        let call = pass.next();
        pass.log.reserve(pass.left)?;
        let (room, mut copies) = cell.site.room(alloc, call, 2)?;
        match cell.site.attempt_in(call, room, &mut copies) {
            Outcome::Keeps(change) => {
                let site = cell.site.number();
                let round = cell.site.round();
                let (answer, logged) = two_answers(call, site, round, copies);
                self.make(cell, &mut pass.holder, change);
                push_reserved(&mut pass.log, logged);
                pass.left -= 1;
                Ok(Tried::Done(answer))
            }
            Outcome::Breaks(broken) => Ok(Tried::Breaks(broken)),
        }
    }

    /// Makes a change at its site: the client's list of what it was asked and the site's of what it has done for it both get the
    /// answer.
    fn make(&self, cell: &mut SiteCell<N>, asker: &mut Holder<N>, change: Change)
        requires call { IsCallAt N.workload cell.old.site.state.number change.call }
        requires change { IsChange N.workload cell.old.site.state change.call change }
        requires spare { 1 ≤ cell.old.site.spare }
        requires owns { IsOwner asker.old (asked_line change.call.client) }
        requires seen { HasSeen asker.old (done_line N.workload change.call.client) (list_at asker.old (asked_line change.call.client)) }
        requires few { change.call.seq ≤ 2 ^ 63 }
        requires next { change.call.seq ≡ suc (length (list_at asker.old (asked_line change.call.client))) }
        ensures made { cell.new.site.state ≡ after_local N.workload cell.old.site.state change.call }
        ensures asked { Grew asker.old asker.new (asked_line change.call.client)
            (written (local_answer cell.old.site.state.round cell.old.site.state.number
            (local_entry N.workload cell.old.site.state change.call))) }
        ensures seen { HasSeen asker.new (done_line N.workload change.call.client) (list_at asker.new (asked_line change.call.client)) }
    {
        self.accepted();
        let client = change.call.client;
        let done = self.done(client);
        let head = local_head(change.call.seq, cell.site.number(), cell.site.round());
        extend_pair(
            &self.board,
            &mut cell.holder,
            done,
            asker,
            client,
            &head,
            change.prints.as_slice(),
        );
        cell.site.commit(change);
    }
}

/// The answer to a call that a site made by itself, twice: each takes one of two copies of the prints.
fn two_answers(call: CallId, site: u32, round: u64, copies: List<Prints>) -> (Answer, Answer)
    requires two { length copies.items ≡ 2 }
    ensures first { (prints : Seq ℤ) → All (λ p. p.items ≡ prints) copies.items
        → plain_answer result.0 ≡ local_answer round site (record { call = call; prints = prints }) }
    ensures second { (prints : Seq ℤ) → All (λ p. p.items ≡ prints) copies.items
        → plain_answer result.1 ≡ local_answer round site (record { call = call; prints = prints }) }
{
    let mut lists = copies.into_vec();
    let second = lists.pop();
    let first = lists.pop();
    match (first, second) {
        (Some(first), Some(second)) => (
            local_answer(call, site, round, first),
            local_answer(call, site, round, second),
        ),
        _ => unreachable!(),
    }
}

/// The answer to a call that a site made by itself.
#[tactic(auto, using(homeo_history::proofs::HistoryViews::history_views), unfolding(homeo_history::specs::Key::definitions))]
fn local_answer(call: CallId, site: u32, round: u64, prints: Prints) -> Answer
    ensures { plain_answer result ≡ local_answer round site (record { call = call; prints = prints.items }) }
{
    Answer {
        client: call.client,
        seq: call.seq,
        site,
        round,
        path: Path::Local,
        prints,
    }
}

/// Appends an answer, for which the log has room.
pub(crate) fn push_reserved(log: &mut List<Answer>, answer: Answer)
    requires { 0 < log.old.spare }
    ensures { log.new.items ≡ log.old.items ++ answer ∷ [] }
{
    match log.push(answer) {
        Ok(()) => {}
        Err(_) => unreachable!(),
    }
}
