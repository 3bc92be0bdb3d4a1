//! The end of a round, at all its sites.

ghost use Rattle.std.specs.Prelude.{◌≡◌, ℕ, ◌<◌, ◌^◌, ◌++◌, ◌∷◌, true, false, [], map, length, take, replicate, All, IfOk, OnOk, OnErr, FitsSigned};
ghost use Rattle.std.specs.Int.{w64};
ghost use Rattle.homeo_syntax.specs.SourceView.{plain_workload};
ghost use Rattle.homeo_meaning.specs.Acceptance.{IsAccepted};
ghost use Rattle.homeo_history.specs.Answers.{closing_answer};
ghost use Rattle.homeo_history.specs.Follows.{site_or_zero};
ghost use Rattle.homeo_history.specs.HistoryView.{plain_segment, plain_answer};
ghost use Rattle.homeo_site.specs.SiteState.{renewed};
ghost use Rattle.homeo_core.specs.CoreView.{start_of};
ghost use Rattle.homeo_core.specs.Events.{BreaksCall, closing_of, next_base, after_closing};
ghost use Rattle.homeo_core.specs.Joined.{AreJoined, gathered, segments_of};
ghost use Rattle.homeo_core.specs.Books.{book_of};
ghost use Rattle.homeo_core.specs.SiteLists.{states, AreOf, AreAt};

use crate::prepared::{Prepared, prepare};
use homeo_build::Compiled;
use homeo_history::{Answer, Round, Segment};
use homeo_meaning::{CallId, Database};
use homeo_plan::Broken;
use homeo_round::Gather;
use homeo_site::Site;
use homeo_syntax::{List, Memory};
use std::alloc::Global;
use std::sync::Arc;

/// The base of a round with the deltas of all its sites.
pub(crate) fn gather_all(
    alloc: Global,
    round: u64,
    base: &Database,
    sites: &[Site],
) -> Result<Gather, Memory>
    requires round { round < 2 ^ 63 }
    requires at { AreAt round base.now.items (states sites.now) }
    requires fits { (n : ℕ) → All (FitsSigned w64) (gathered base.now.items (take n (states sites.now))) }
    ensures { IfOk result (λ g. g ≡ record {
      round = round;
      base = base.now.items;
      sum = gathered base.now.items (states sites.now);
      added = length sites.now;
    }) }
{
    let mut gather = Gather::begin(alloc, round, base)?;
    for site in sites {
        gather.add(site);
    }
    Ok(gather)
}

/// The values of that database.
pub(crate) fn gathered_values(
    alloc: Global,
    round: u64,
    base: &Database,
    sites: &[Site],
) -> Result<Database, Memory>
    requires round { round < 2 ^ 63 }
    requires at { AreAt round base.now.items (states sites.now) }
    requires fits { (n : ℕ) → All (FitsSigned w64) (gathered base.now.items (take n (states sites.now))) }
    ensures { IfOk result (λ d. d.items ≡ gathered base.now.items (states sites.now)) }
{
    let gather = gather_all(alloc, round, base, sites)?;
    Ok(gather.into_values())
}

/// The segments of all sites.
#[tactic(auto, using(homeo_history::proofs::HistoryViews::history_views))]
pub(crate) fn into_segments(alloc: Global, sites: Vec<Site>) -> Result<List<Segment>, Memory>
    ensures { IfOk result (λ s. map plain_segment s.items ≡ segments_of (states sites.items)) }
{
    let mut segments = List::new(alloc);
    for site in sites {
        segments.push(site.into_segment())?;
    }
    Ok(segments)
}

/// Gives each site its start in the next round, and takes its segment.
pub(crate) fn install_all(prepared: &mut Prepared, sites: &mut [Site])
    requires at { AreAt prepared.old.round prepared.old.base (states sites.old) }
    requires of { AreOf prepared.old.work sites.old }
    requires segments { length prepared.old.segments ≡ length sites.old }
    requires waiting { prepared.old.waiting ≡ replicate (length sites.old) true }
    ensures sites { states sites.new ≡ map (renewed prepared.old.next) (states sites.old) }
    ensures of { AreOf prepared.old.work sites.new }
    ensures prepared { prepared.new ≡ record {
      work = prepared.old.work;
      round = prepared.old.round;
      base = prepared.old.base;
      closing = prepared.old.closing;
      next = prepared.old.next;
      segments = segments_of (states sites.old);
      waiting = replicate (length sites.old) false;
    } }
{
    for i in 0..sites.len() {
        prepared.install(&mut sites[i]);
    }
}

/// Ends the round by a call that breaks the treaty of its site: the round goes over to the closed ones, and all sites begin the
/// next one on what the call leaves. All memory is taken before anything changes.
pub(crate) fn close_round(
    alloc: Global,
    c: &Arc<Compiled>,
    closed: &mut List<Round>,
    base: &mut Database,
    sites: &mut [Site],
    call: CallId,
    broken: Broken,
) -> Result<Answer, Memory>
    requires accepted { IsAccepted (plain_workload c.now.value) }
    requires of { AreOf c.now.value sites.old }
    requires joined { let b = book_of closed.old.items base.old.items in
        AreJoined (plain_workload c.now.value) (start_of b) b (states sites.old) }
    requires breaks { let w = plain_workload c.now.value in BreaksCall w (states sites.old) (site_or_zero w call) call broken }
    ensures book { OnOk result (let w = plain_workload c.now.value in let b = book_of closed.old.items base.old.items in
        book_of closed.new.items base.new.items ≡ after_closing w b (states sites.old) (site_or_zero w call) call broken) }
    ensures sites { OnOk result (let b = book_of closed.old.items base.old.items in
        states sites.new ≡ map (renewed (next_base (plain_workload c.now.value) b (states sites.old) call)) (states sites.old)) }
    ensures of { AreOf c.now.value sites.new }
    ensures answer { IfOk result (λ a. let w = plain_workload c.now.value in let b = book_of closed.old.items base.old.items in
        plain_answer a ≡ closing_answer (length closed.old.items) (closing_of w b (states sites.old) (site_or_zero w call) call broken)) }
    ensures unclosed { OnErr result (closed.new.items ≡ closed.old.items) }
    ensures unmoved { OnErr result (base.new ≡ base.old) }
    ensures unchanged { OnErr result (sites.new ≡ sites.old) }
{
    closed.reserve(1)?;
    let round = closed.as_slice().len() as u64;
    let gather = gather_all(alloc, round, base, sites)?;
    // all sites share it
    let last = sites[0].plan();
    let mut prepared = prepare(alloc, gather, c, last, call, broken)?;
    install_all(&mut prepared, sites);
    let (round, next, answer) = prepared.closed();
    push_reserved(closed, round);
    *base = next;
    Ok(answer)
}

/// Appends a round, for which the list has room.
fn push_reserved(rounds: &mut List<Round>, round: Round)
    requires { 0 < rounds.old.spare }
    ensures { rounds.new.items ≡ rounds.old.items ++ round ∷ [] }
{
    match rounds.push(round) {
        Ok(()) => {}
        Err(_) => unreachable!(),
    }
}
