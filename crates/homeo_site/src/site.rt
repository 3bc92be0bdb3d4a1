//! Sites.

ghost use Rattle.std.specs.Prelude.{◌≡◌, ◌<◌, ◌≤◌, ◌-◌, [], All, length, pos, IfOk, OnOk, slice_index_or};
ghost use Rattle.homeo_syntax.specs.SourceView.{plain_workload};
ghost use Rattle.homeo_build.specs.Plan.{IsObjectPlan};
ghost use Rattle.homeo_history.specs.HistoryView.{plain_segment};
ghost use Rattle.homeo_history.specs.Legal.{IsCallAt};
ghost use Rattle.homeo_site.specs.Attempts.{IsChange, IsOutcome, IsRoom, IsEmptyCopy, copied_prints};
ghost use Rattle.homeo_site.specs.SiteState.{SiteHolds, after_local, begun};

use crate::attempts::{Change, Outcome, Room};
use crate::lists::{copy_to_all, empty_copies};
use crate::own_deltas::OwnDeltas;
use crate::own_round::OwnRound;
use crate::start::SiteStart;
use homeo_history::{Entry, Segment};
use homeo_local::{LocalStep, Scratch};
use homeo_meaning::CallId;
use homeo_outline::ObjectPlan;
use homeo_syntax::{List, Memory, Prints};
use std::alloc::Global;
use std::marker::Model;
use std::mem;

/// A site in a round (Roy et al., SIGMOD 2015): it runs the calls of its own clients on its own deltas, as long as these meet
/// its treaty, and keeps what it ran as a segment of the history. Of its segment it has a spare, the number of entries for
/// which there is room.
#[derive(Drop)]
pub struct Site {
    own: OwnRound,
    deltas: OwnDeltas,
    segment: Segment,
    scratch: Scratch,
}

impl Model for Site {
    ghost use Rattle.std.specs.Coded.{codes};
    ghost use Rattle.homeo_syntax.specs.contracts.workload.Workload as workload;
    ghost use Rattle.homeo_site.specs.SiteView.{SiteValue};
    ghost use Rattle.homeo_site.specs.Standing.{IsSite, state_in};

    ghost Value = { SiteValue };

    ghost coded = { Prim.hlevel (codes, workload.the_row.coded) };

    ghost view = { λ s. record {
      work = s.own.work;
      state = state_in s.own s.deltas s.segment;
      spare = s.segment.entries.spare;
    } };

    ghost invariant = { λ s. IsSite s.own s.deltas s.segment };
}

impl Site {
    /// The site as it begins a round: its deltas are 0, and its segment is empty. It takes no memory.
    pub fn begin(start: SiteStart) -> Site
        ensures { result ≡ record { work = start.work; state = begun start.number start.round start.base; spare = 0 } }
    {
        let SiteStart {
            own,
            deltas,
            segment,
            scratch,
        } = start;
        Site {
            own,
            deltas,
            segment,
            scratch,
        }
    }

    /// The number of the site, from 0.
    pub fn number(&self) -> u32
        ensures { result ≡ self.now.state.number }
    {
        self.own.number()
    }

    /// The number of the round, from 0.
    pub fn round(&self) -> u64
        ensures { result ≡ self.now.state.round }
    {
        self.own.round()
    }

    /// Lends the plan of the round, which all sites share.
    pub fn plan(&self) -> &ObjectPlan
        ensures { IsObjectPlan (plain_workload self.now.work) self.now.state.base result.now }
    {
        self.own.plan()
    }

    /// The site's delta of an object, which must be one of the workload's.
    pub fn delta(&self, object: u32) -> i64
        requires { object < length self.now.state.deltas }
        ensures { result ≡ slice_index_or self.now.state.deltas object (pos 0) }
    {
        self.deltas()[object as usize]
    }

    /// Lends the site's deltas, one for each object.
    pub fn deltas(&self) -> &[i64]
        ensures { result.now ≡ self.now.state.deltas }
    {
        self.deltas.list().as_slice()
    }

    /// Lends the segment: the entries of the calls that the site ran in this round, in their order.
    pub fn segment(&self) -> &Segment
        ensures segment { plain_segment result.now ≡ self.now.state.segment }
        ensures holds { SiteHolds (plain_workload self.now.work) self.now.state }
    {
        &self.segment
    }

    /// Gives the segment. It takes no memory.
    pub fn into_segment(self) -> Segment
        ensures { plain_segment result ≡ self.state.segment }
    {
        self.segment
    }

    /// Goes on to the round of a start, and gives the segment of the round before. It takes no memory.
    pub fn renew(&mut self, start: SiteStart) -> Segment
        ensures state { self.new ≡ record { work = start.work; state = begun start.number start.round start.base; spare = 0 } }
        ensures segment { plain_segment result ≡ self.old.state.segment }
    {
        let SiteStart {
            own,
            deltas,
            segment,
            scratch: _,
        } = start;
        self.own = own;
        self.deltas.renew(deltas);
        renew_segment(&mut self.segment, segment)
    }

    /// Finds the local step of a call on the site's present state, and takes room for so many copies of its prints: with that, an attempt
    /// of the call, a commit of its change, and the copies need no memory. The call must be one of a client of this site.
    ///
    /// # Errors
    ///
    /// `Memory` when out of memory. Nothing changes, whatever the answer, but that the spare may grow.
    pub fn room(
        &mut self,
        alloc: Global,
        call: CallId,
        copies: u32,
    ) -> Result<(Room, List<Prints>), Memory>
        requires { IsCallAt (plain_workload self.old.work) self.old.state.number call }
        ensures state { self.new ≡ record self.old { spare = self.new.spare } }
        ensures room { IfOk result (λ r. IsRoom (plain_workload self.old.work) self.old.state call r.0) }
        ensures count { IfOk result (λ r. length r.1.items ≡ copies) }
        ensures copies { IfOk result (λ r. All (IsEmptyCopy (plain_workload self.old.work) self.old.state call) r.1.items) }
        ensures spare { OnOk result (1 ≤ self.new.spare) }
    {
        self.prepare(alloc, call)?;
        self.take_room(alloc, call, copies)
    }

    /// Makes the effect of a call's L form, where the site ran that form before in the round.
    fn prepare(&mut self, alloc: Global, call: CallId) -> Result<(), Memory>
        requires { IsCallAt (plain_workload self.old.work) self.old.state.number call }
        ensures { self.new ≡ self.old }
    {
        self.own.prepare(alloc, call)
    }

    /// The same as `room`, where effects stay what they are.
    fn take_room(
        &mut self,
        alloc: Global,
        call: CallId,
        copies: u32,
    ) -> Result<(Room, List<Prints>), Memory>
        requires { IsCallAt (plain_workload self.old.work) self.old.state.number call }
        ensures state { self.new ≡ record self.old { spare = self.new.spare } }
        ensures room { IfOk result (λ r. IsRoom (plain_workload self.old.work) self.old.state call r.0) }
        ensures count { IfOk result (λ r. length r.1.items ≡ copies) }
        ensures copies { IfOk result (λ r. All (IsEmptyCopy (plain_workload self.old.work) self.old.state call) r.1.items) }
        ensures spare { OnOk result (1 ≤ self.new.spare) }
    {
        let copy = self.deltas.copy(alloc)?;
        let LocalStep {
            deltas,
            written,
            prints,
        } = self
            .own
            .step(alloc, call, &self.deltas, copy, &mut self.scratch)?;
        let lists = empty_copies(alloc, copies, prints.as_slice().len() as u64)?;
        self.segment.entries.reserve(1)?;
        let room = Room {
            call,
            deltas,
            written,
            prints,
        };
        Ok((room, lists))
    }

    /// Says whether the site's treaty holds after a call of one of the site's clients, whose local step is in its room: with the
    /// change, or with what fails first, of all clauses and then of all freezes. Where it holds, the prints are copied into each
    /// list of `answers`. It takes no memory, and changes nothing of the site.
    ///
    /// The room, the answers and the site's spare must be as `room` leaves them for this call on the site's present state.
    pub fn attempt_in(&self, call: CallId, room: Room, answers: &mut List<Prints>) -> Outcome
        requires call { IsCallAt (plain_workload self.now.work) self.now.state.number call }
        requires room { IsRoom (plain_workload self.now.work) self.now.state call room }
        requires answers { All (IsEmptyCopy (plain_workload self.now.work) self.now.state call) answers.old.items }
        requires spare { 1 ≤ self.now.spare }
        ensures outcome { IsOutcome (plain_workload self.now.work) self.now.state call result }
        ensures count { length answers.new.items ≡ length answers.old.items }
        ensures answers { All (λ copy. copy.items ≡ copied_prints result) answers.new.items }
    {
        let Room {
            call: _,
            deltas,
            written,
            prints,
        } = room;
        let deltas = deltas.into_vec();
        let failure = self.own.failure(written.as_slice(), deltas.as_slice());
        match failure {
            Some(broken) => Outcome::Breaks(broken),
            None => {
                let prints = copy_to_all(*deltas.allocator(), prints, answers);
                Outcome::Keeps(Change {
                    call,
                    deltas: List::from_vec(deltas),
                    written,
                    prints,
                })
            }
        }
    }

    /// Runs a call of one of the site's clients on the site's deltas, and says whether the site's treaty holds afterwards:
    /// `room` with no copies, and then `attempt_in`.
    ///
    /// # Errors
    ///
    /// `Memory` when out of memory. Nothing changes, whatever the answer, but that the spare may grow.
    pub fn attempt(&mut self, alloc: Global, call: CallId) -> Result<Outcome, Memory>
        requires { IsCallAt (plain_workload self.old.work) self.old.state.number call }
        ensures state { self.new ≡ record self.old { spare = self.new.spare } }
        ensures outcome { IfOk result (IsOutcome (plain_workload self.old.work) self.old.state call) }
        ensures spare { OnOk result (1 ≤ self.new.spare) }
    {
        let (room, mut copies) = self.room(alloc, call, 0)?;
        Ok(self.attempt_in(call, room, &mut copies))
    }

    /// Makes the change: the deltas become those of the change, and the segment gets its entry. The change must be what the
    /// call's local step gives on the site's present state, and keep the treaty; the spare must be at least 1. It takes no
    /// memory.
    pub fn commit(&mut self, change: Change)
        requires call { IsCallAt (plain_workload self.old.work) self.old.state.number change.call }
        requires change { IsChange (plain_workload self.old.work) self.old.state change.call change }
        requires spare { 1 ≤ self.old.spare }
        ensures { self.new ≡ record self.old {
          state = after_local (plain_workload self.old.work) self.old.state change.call;
          spare = self.old.spare - 1;
        } }
    {
        let Change {
            call,
            deltas,
            written,
            prints,
        } = change;
        self.deltas.go_on(deltas, written.as_slice());
        let _ = self.segment.entries.push(Entry { call, prints });
    }
}

/// The same segment with no room for more entries.
#[tactic(auto, using(homeo_history::proofs::HistoryViews::history_views))]
fn trimmed(segment: Segment) -> Segment
    ensures { plain_segment result ≡ plain_segment segment }
{
    let mut entries = segment.entries.into_vec();
    entries.shrink_to_fit();
    Segment {
        entries: List::from_vec(entries),
    }
}

/// Puts the segment of a start in the place of another, and gives that. One without entries stays, with its room, and gives the start's.
fn renew_segment(own: &mut Segment, start: Segment) -> Segment
    requires { start.entries ≡ record { items = []; spare = 0 } }
    ensures own { own.new ≡ start }
    ensures segment { plain_segment result ≡ plain_segment own.old }
{
    let ran = mem::replace(own, start);
    if !ran.entries.as_slice().is_empty() {
        return trimmed(ran);
    }
    let room = ran.entries.into_vec();
    let entries = List::from_vec(room);
    mem::replace(own, Segment { entries })
}
