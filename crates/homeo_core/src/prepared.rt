//! A cleanup that can't fail any more.

ghost use Rattle.std.specs.Prelude.{◌≡◌, ◌+◌, ◌<◌, ◌^◌, true, false, Some, [], map, length, replicate, slice_get, slice_set, All, IfOk, OnOk};
ghost use Rattle.homeo_syntax.specs.SourceView.{plain_workload};
ghost use Rattle.homeo_meaning.specs.Bounds.{IsWithin};
ghost use Rattle.homeo_meaning.specs.Calls.{CallExists};
ghost use Rattle.homeo_meaning.specs.Schema.{schema_of};
ghost use Rattle.homeo_meaning.specs.Serial.{call_outcome};
ghost use Rattle.homeo_plan.specs.Planned.{sites_of, policy};
ghost use Rattle.homeo_outline.specs.ObjectPlan.{config_in};
ghost use Rattle.homeo_build.specs.Plan.{IsObjectPlan};
ghost use Rattle.homeo_history.specs.Answers.{closing_answer};
ghost use Rattle.homeo_history.specs.Follows.{site_or_zero};
ghost use Rattle.homeo_history.specs.HistoryView.{plain_segment, plain_closing, plain_round, plain_answer};
ghost use Rattle.homeo_site.specs.SiteState.{renewed};
ghost use Rattle.homeo_core.specs.Events.{closing_on};
ghost use Rattle.homeo_core.specs.Starts.{AreStarts, waits};

use crate::clients::{site_count, site_of};
use homeo_build::Compiled;
use homeo_build::treaties::plan_after;
use homeo_eval::eval_call;
use homeo_history::{Answer, Closing, Entry, Path, Round, Segment};
use homeo_meaning::{Accepted, CallId, Database};
use homeo_outline::ObjectPlan;
use homeo_plan::Broken;
use homeo_round::{Gather, Gathered};
use homeo_site::{Site, SiteStart};
use homeo_syntax::{List, Memory, Prints};
use std::alloc::Global;
use std::marker::Model;
use std::sync::Arc;

/// The end of a round, ready for its sites: it gives each its start in the next round and takes its segment.
#[derive(Drop)]
pub struct Prepared {
    compiled: Arc<Compiled>,
    round: u64,
    base: Database,
    closing: Closing,
    answer: Answer,
    next: Database,
    segments: Vec<Segment>,
    starts: Vec<Option<SiteStart>>,
}

impl Model for Prepared {
    ghost use Rattle.std.specs.Prelude.{◌≡◌, map, length};
    ghost use Rattle.std.specs.Coded.{codes};
    ghost use Rattle.homeo_syntax.specs.contracts.workload.Workload as workload;
    ghost use Rattle.homeo_core.specs.PreparedView.{PreparedValue};

    ghost Value = { PreparedValue };

    ghost coded = { Prim.hlevel (codes, workload.the_row.coded) };

    ghost use Rattle.homeo_history.specs.Answers.{closing_answer};
    ghost use Rattle.homeo_history.specs.HistoryView.{plain_segment, plain_closing, plain_answer};
    ghost use Rattle.homeo_core.specs.Starts.{AreStarts, waits};

    ghost view = { λ p. record {
      work = p.compiled.value;
      round = p.round;
      base = p.base.items;
      closing = plain_closing p.closing;
      next = p.next.items;
      segments = map plain_segment p.segments.items;
      waiting = map waits p.starts.items;
    } };

    ghost invariant = { λ p. (plain_answer p.answer ≡ closing_answer p.round (plain_closing p.closing))
        × (AreStarts p.compiled.value p.round p.next.items p.starts.items)
        × (length p.segments.items ≡ length p.starts.items) };
}

/// Ends the round, to which all sites were added: it runs the closing call's program on the gathered database, and makes
/// the plan of the next round, from the one of a round before, and each site's start in it. It takes all the memory that the end
/// of the round needs, and changes no site. `broken` is what the call's local step breaks first of its site's treaty.
///
/// # Errors
///
/// `Memory` when out of memory.
pub fn prepare(
    alloc: Global,
    gather: Gather,
    c: &Arc<Compiled>,
    last: &ObjectPlan,
    call: CallId,
    broken: Broken,
) -> Result<Prepared, Memory>
    requires last { IsObjectPlan (plain_workload c.now.value) last.now.base.items last.now }
    requires sites { gather.added ≡ sites_of (plain_workload c.now.value) }
    requires exists { CallExists (plain_workload c.now.value) call }
    requires within { IsWithin (schema_of (plain_workload c.now.value)) gather.sum }
    ensures { IfOk result (λ p. p ≡ record {
      work = c.now.value;
      round = gather.round;
      base = gather.base;
      closing = closing_on (plain_workload c.now.value) gather.sum (site_or_zero (plain_workload c.now.value) call) call broken;
      next = (call_outcome (plain_workload c.now.value) call gather.sum).database;
      segments = replicate (sites_of (plain_workload c.now.value)) [];
      waiting = replicate (sites_of (plain_workload c.now.value)) true;
    }) }
{
    let Gathered {
        round,
        base,
        sum: mut next,
    } = gather.into_parts();
    let prints = run_call(alloc, c, call, &mut next)?;
    let plan = plan_after(alloc, c, last, &next)?;
    let (closing, answer) = close_by(alloc, c.workload(), round, call, broken, prints)?;
    Ok(Prepared {
        compiled: Arc::try_clone(c)?,
        round,
        base,
        closing,
        answer,
        next,
        segments: empty_segments(alloc, c.workload())?,
        starts: starts_after(alloc, c, &plan, round)?,
    })
}

/// Runs a call's program on a database, which becomes what the call leaves.
fn run_call(
    alloc: Global,
    c: &Compiled,
    call: CallId,
    database: &mut Database,
) -> Result<Prints, Memory>
    requires exists { CallExists (plain_workload c.now) call }
    requires within { IsWithin (schema_of (plain_workload c.now)) database.old.items }
    ensures prints { IfOk result (λ p. p.items ≡ (call_outcome (plain_workload c.now) call database.old.items).prints) }
    ensures database { OnOk result (database.new.items ≡ (call_outcome (plain_workload c.now) call database.old.items).database) }
    ensures within { IsWithin (schema_of (plain_workload c.now)) database.new.items }
{
    eval_call(alloc, c.workload(), c.declared(), call, database)
}

/// The call that closes a round with these prints, and the answer to it.
#[tactic(auto, using(homeo_history::proofs::HistoryViews::history_views), unfolding(homeo_history::specs::Key::definitions))]
fn close_by(
    alloc: Global,
    w: &Accepted,
    round: u64,
    call: CallId,
    broken: Broken,
    prints: Prints,
) -> Result<(Closing, Answer), Memory>
    requires exists { CallExists (plain_workload w.now) call }
    ensures closing { IfOk result (λ p. plain_closing p.0 ≡ record {
      site = site_or_zero (plain_workload w.now) call;
      entry = record { call = call; prints = prints.items };
      broken = broken;
    }) }
    ensures answer { IfOk result (λ p. plain_answer p.1 ≡ closing_answer round (plain_closing p.0)) }
{
    let site = site_of(w, call.client);
    let answer = Answer {
        client: call.client,
        seq: call.seq,
        site,
        round,
        path: Path::Cleanup(broken),
        prints: copy_prints(alloc, &prints)?,
    };
    let entry = Entry { call, prints };
    Ok((
        Closing {
            site,
            entry,
            broken,
        },
        answer,
    ))
}

/// Segments without entries, one for each site.
#[tactic(auto, using(homeo_history::proofs::HistoryViews::history_views, std::proofs::lemmas::Grind::common_steps))]
fn empty_segments(alloc: Global, w: &Accepted) -> Result<Vec<Segment>, Memory>
    ensures { IfOk result (λ s. map plain_segment s.items ≡ replicate (sites_of (plain_workload w.now)) []) }
{
    let mut segments = Vec::with_capacity(alloc, site_count(w) as usize)?;
    for _ in 0..site_count(w) {
        let entries = List::new(alloc);
        segments.push(Segment { entries })?;
    }
    Ok(segments)
}

/// The starts of all sites in the round after this one.
fn starts_after(
    alloc: Global,
    c: &Arc<Compiled>,
    plan: &Arc<ObjectPlan>,
    round: u64,
) -> Result<Vec<Option<SiteStart>>, Memory>
    requires round { round < 2 ^ 63 }
    requires plan { IsObjectPlan (plain_workload c.now.value) plan.now.value.base.items plan.now.value }
    requires policy { config_in plan.now.value ≡ policy (plain_workload c.now.value) plan.now.value.base.items }
    ensures starts { IfOk result (λ s. AreStarts c.now.value round plan.now.value.base.items s.items) }
    ensures waiting { IfOk result (λ s. map waits s.items ≡ replicate (sites_of (plain_workload c.now.value)) true) }
{
    let mut starts = Vec::with_capacity(alloc, site_count(c.workload()) as usize)?;
    for site in 0..site_count(c.workload()) {
        let start = SiteStart::new(alloc, c, plan, site, round + 1)?;
        starts.push(Some(start))?;
    }
    Ok(starts)
}

fn copy_prints(alloc: Global, prints: &Prints) -> Result<Prints, Memory>
    ensures { IfOk result (λ copy. copy.items ≡ prints.now.items) }
{
    let copy = Vec::from_slice(alloc, prints.as_slice())?;
    Ok(List::from_vec(copy))
}

impl Prepared {
    /// Lends the answer to the closing call. It takes no memory.
    pub fn answer(&self) -> &Answer
        ensures { plain_answer result.now ≡ closing_answer self.now.round self.now.closing }
    {
        &self.answer
    }

    /// Lends the base of the next round. It takes no memory.
    pub fn next(&self) -> &Database
        ensures { result.now.items ≡ self.now.next }
    {
        &self.next
    }

    /// Gives a site its start in the next round, and takes its segment. It takes no memory. The site is in the round and on
    /// its base, and still waits for its start. Sites may come in any order.
    pub fn install(&mut self, site: &mut Site)
        requires waits { slice_get self.old.waiting site.old.state.number ≡ Some true }
        requires round { site.old.state.round ≡ self.old.round }
        ensures site { site.new.state ≡ renewed self.old.next site.old.state }
        ensures work { site.new.work ≡ self.old.work }
        ensures taken { self.new ≡ record {
          work = self.old.work;
          round = self.old.round;
          base = self.old.base;
          closing = self.old.closing;
          next = self.old.next;
          segments = slice_set self.old.segments site.old.state.number site.old.state.segment;
          waiting = slice_set self.old.waiting site.old.state.number false;
        } }
    {
        let number = site.number() as usize;
        match self.starts[number].take() {
            Some(start) => self.segments[number] = site.renew(start),
            None => unreachable!(),
        }
    }

    /// The closed round, the base of the next one, and the answer to the closing call. No site waits. It takes no memory.
    #[tactic(auto, using(homeo_history::proofs::HistoryViews::history_views))]
    pub fn closed(self) -> (Round, Database, Answer)
        requires { All (λ waiting. waiting ≡ false) self.waiting }
        ensures round { plain_round result.0 ≡ record {
          base = self.base;
          segments = self.segments;
          closing = Some self.closing;
        } }
        ensures next { result.1.items ≡ self.next }
        ensures answer { plain_answer result.2 ≡ closing_answer self.round self.closing }
    {
        let Prepared {
            compiled: _,
            round: _,
            base,
            closing,
            answer,
            next,
            segments,
            starts: _,
        } = self;
        let round = Round {
            base,
            segments: List::from_vec(segments),
            closing: Some(closing),
        };
        (round, next, answer)
    }
}
