//! The schedule names each client as often as it has calls.

ghost use Rattle.std.specs.Prelude.{◌≡◌, ◌<◌, ◌+◌, ◌^◌, ◌==◌, ◌&&◌, replicate, slice_index, map, IfOk};
ghost use Rattle.homeo_syntax.specs.WellFormed.{InSchedule, IsBelow};
ghost use Rattle.homeo_syntax.specs.SourceView.{plain_client, plain_schedule};
ghost use Rattle.homeo_meaning.specs.CallRules.{end_fault, needs_order, schedule_faults};
ghost use Rattle.homeo_meaning.specs.NameRules.{when};
ghost use Rattle.homeo_rules.specs.inner.Deciding.{keep_all};
ghost use Rattle.homeo_rules.specs.inner.Scopes.{scope_in};
ghost use Rattle.homeo_rules.specs.inner.Tally.{scheduled_of, tally, tally_all, call_count_at, is_short_of, has_calls_of};

use crate::deciding::{at_name, keep};
use crate::names::scope::Scope;
use homeo_meaning::{Fault, Item, Phase, Purpose};
use homeo_syntax::{Client, Ident, List, Memory};
use std::alloc::Global;
use std::marker::Model;

/// How often each name stands in the schedule so far, and the fault that decides.
#[derive(Drop)]
pub(crate) struct Tally {
    counts: Vec<u64>,
    best: Option<Fault>,
}

impl Model for Tally {
    ghost use Rattle.homeo_rules.specs.inner.Tally.{Tally as Plain};

    ghost Value = { Plain };

    ghost view = { λ t. record { counts = t.counts.items; best = t.best } };
}

fn call_count(cs: &[Client], place: usize) -> usize
    ensures { result ≡ call_count_at cs.now place }
{
    match cs.get(place) {
        Some(c) => c.calls.as_slice().len(),
        None => 0,
    }
}

/// A name of the schedule stands for a client, which is not named more often than it has calls.
#[tactic(auto, using(crate::proofs::Tallied::scheduling))]
fn check_scheduled(
    cs: &[Client],
    before: u64,
    scope: &Scope<'_>,
    x: Ident,
    best: Option<Fault>,
) -> Option<Fault>
    ensures { result ≡ keep_all best (scheduled_of cs.now before ((scope_in scope.now).item x.name) x) }
{
    match scope.item(x.name) {
        None => at_name(best, Phase::Unknown, x),
        Some(Item::Client(place)) => {
            if before == call_count(cs, place) as u64 {
                at_name(best, Phase::Schedule, x)
            } else {
                best
            }
        }
        Some(_) => at_name(best, Phase::Kind, x),
    }
}

impl Tally {
    fn new(alloc: Global, names: usize, best: Option<Fault>) -> Result<Tally, Memory>
        ensures { IfOk result (λ t. t ≡ record { counts = replicate names 0; best = best }) }
    {
        let counts = vec![in alloc; 0; names]?;
        Ok(Tally { counts, best })
    }

    fn count(&self, name: u32) -> u64
        ensures { result ≡ slice_index self.now.counts name }
    {
        match self.counts.get(name as usize) {
            Some(count) => *count,
            None => 0,
        }
    }

    #[tactic(auto, using(crate::proofs::Tallied::tally_steps))]
    fn add(&mut self, scope: &Scope<'_>, cs: &[Client], x: Ident)
        requires { slice_index self.old.counts x.name + 1 < 2 ^ 64 }
        ensures { self.new ≡ tally (scope_in scope.now) cs.now self.old x }
    {
        let before = self.count(x.name);
        self.best = check_scheduled(cs, before, scope, x, self.best);
        if let Some(place) = self.counts.get_mut(x.name as usize) {
            *place = before + 1;
        }
    }

    /// Whether some client is named less often than it has calls.
    fn is_short(&self, cs: &[Client]) -> bool
        ensures { result ≡ is_short_of self.now.counts cs.now }
    {
        cs.iter().any(|c| self.count(c.name.name) < c.calls.as_slice().len() as u64)
    }
}

/// The names of a schedule, counted along it.
fn tallied(
    alloc: Global,
    xs: &[Ident],
    scope: &Scope<'_>,
    cs: &[Client],
    names: usize,
    best: Option<Fault>,
) -> Result<Tally, Memory>
    ensures { IfOk result (λ t. t ≡ tally_all (scope_in scope.now) cs.now (record { counts = replicate names 0; best = best }) xs.now) }
{
    let mut t = Tally::new(alloc, names, best)?;
    for x in xs {
        t.add(scope, cs, *x);
    }
    Ok(t)
}

/// With a fault of the schedule at the end of the text.
#[tactic(auto, using(crate::proofs::Steps::keeping), unfolding(homeo_meaning::specs::Key::definitions))]
fn at_end(end: u64, best: Option<Fault>) -> Option<Fault>
    ensures { result ≡ keep_all best (end_fault end) }
{
    keep(
        best,
        Fault {
            phase: Phase::Schedule,
            offset: end,
        },
    )
}

#[tactic(auto, using(crate::proofs::Steps::keeping))]
fn check_end(t: &Tally, cs: &[Client], end: u64) -> Option<Fault>
    ensures { result ≡ keep_all t.now.best (when (is_short_of t.now.counts cs.now) (end_fault end)) }
{
    if t.is_short(cs) {
        at_end(end, t.best)
    } else {
        t.best
    }
}

/// Whether what is read for this purpose needs a schedule.
fn needs_order(purpose: Purpose) -> bool
    ensures { result ≡ needs_order purpose }
{
    match purpose {
        Purpose::Steps => true,
        Purpose::Run | Purpose::Tables | Purpose::Treaty => false,
    }
}

fn has_calls(cs: &[Client]) -> bool
    ensures { result ≡ has_calls_of cs.now }
{
    cs.iter().any(|c| c.calls.as_slice().len() > 0)
}

/// A workload without a schedule has no call, where the purpose needs a schedule.
#[tactic(auto, using(crate::proofs::Steps::keeping))]
fn check_no_order(purpose: Purpose, cs: &[Client], end: u64, best: Option<Fault>) -> Option<Fault>
    ensures { result ≡ keep_all best (when (needs_order purpose && has_calls_of cs.now) (end_fault end)) }
{
    if needs_order(purpose) && has_calls(cs) {
        at_end(end, best)
    } else {
        best
    }
}

/// The fault that decides, of the schedule's and of one so far.
pub(crate) fn check_schedule(
    alloc: Global,
    purpose: Purpose,
    order: &Option<List<Ident>>,
    scope: &Scope<'_>,
    cs: &[Client],
    names: usize,
    end: u64,
    best: Option<Fault>,
) -> Result<Option<Fault>, Memory>
    requires { InSchedule (IsBelow names) (plain_schedule order.now) }
    ensures { IfOk result (λ b. b ≡ keep_all best (schedule_faults purpose (scope_in scope.now) (map plain_client cs.now) end (plain_schedule order.now))) }
{
    match order {
        None => Ok(check_no_order(purpose, cs, end, best)),
        Some(xs) => {
            let t = tallied(alloc, xs.as_slice(), scope, cs, names, best)?;
            Ok(check_end(&t, cs, end))
        }
    }
}
