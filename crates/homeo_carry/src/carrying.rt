//! Calls that are made one after another, each at its own site, from the begin of a round on.

ghost use Rattle.std.specs.Prelude.{◌≡◌, ◌<◌, ◌+◌, ◌^◌, length, map, IfOk, IfSome, IsSome};
ghost use Rattle.homeo_syntax.specs.SourceView.{plain_workload};
ghost use Rattle.homeo_meaning.specs.Acceptance.{IsAccepted};
ghost use Rattle.homeo_meaning.specs.Bounds.{all_bounds, IsWithin};
ghost use Rattle.homeo_meaning.specs.Calls.{CallExists};
ghost use Rattle.homeo_meaning.specs.Schema.{schema_of};
ghost use Rattle.homeo_plan.specs.Planned.{sites_of};
ghost use Rattle.homeo_nodes.specs.Brief.{brief_at, briefly, briefly_all};
ghost use Rattle.homeo_nodes.specs.Nodes.{folded};
ghost use Rattle.homeo_carry.specs.CarryView.{plain_bounds};
ghost use Rattle.homeo_carry.specs.inner.Carrying.{plain_called, deltas_in, brief_of, closed_by, breach_at, AreBegun, IsOf, IsNext, CanMake, CanMakeAll};

use crate::answers::Answers;
use crate::bounds::{Bounds, are_in};
use crate::calls::Called;
use crate::sums::fold_sites;
use homeo_core::clients::{is_call_at, site_count};
use homeo_eval::eval_call;
use homeo_meaning::Database;
use homeo_nodes::Breach;
use homeo_plan::Broken;
use homeo_site::{BareSite, Planner, Ran};
use homeo_syntax::Memory;
use std::alloc::Global;

/// The round that calls have led to: its number, its base, and the sites, without what they ran; and the answers to those that were
/// made on the way.
#[derive(Drop)]
pub(crate) struct Rounds {
    pub(crate) round: u64,
    pub(crate) base: Database,
    pub(crate) sites: Vec<BareSite>,
    pub(crate) answers: Answers,
}

/// All sites, as they begin a round.
fn begin_all(
    alloc: Global,
    planner: &mut Planner,
    base: &Database,
    round: u64,
) -> Result<Vec<BareSite>, Memory>
    requires within { IsWithin (schema_of (plain_workload planner.old)) base.now.items }
    ensures count { IfOk result (λ s. length s.items ≡ sites_of (plain_workload planner.old)) }
    ensures begun { IfOk result (λ s. AreBegun planner.old round base.now.items s.items) }
    ensures planner { planner.new ≡ planner.old }
{
    let count = site_count(planner.compiled().workload());
    let mut sites = Vec::new(alloc);
    for i in 0..count {
        let start = planner.start(alloc, base, i, round)?;
        sites.push(BareSite::begin(start))?;
    }
    Ok(sites)
}

/// The calls have led to the begin of a round.
fn begin(
    alloc: Global,
    planner: &mut Planner,
    base: Database,
    round: u64,
    answers: Answers,
) -> Result<Rounds, Memory>
    requires within { IsWithin (schema_of (plain_workload planner.old)) base.items }
    ensures brief { IfOk result (λ x. brief_of x ≡ brief_at (plain_workload planner.old) round base.items) }
    ensures answers { IfOk result (λ x. x.answers ≡ answers) }
    ensures holds { IfOk result (IsOf planner.old) }
    ensures planner { planner.new ≡ planner.old }
{
    let sites = begin_all(alloc, planner, &base, round)?;
    Ok(Rounds {
        round,
        base,
        sites,
        answers,
    })
}

/// A call closes its round on the database that the round's sites have led to. There is no next round where no sites can have led
/// there.
pub(crate) fn next_round(
    alloc: Global,
    planner: &mut Planner,
    bounds: &[Bounds],
    answers: Answers,
    u: Breach,
    whole: Database,
) -> Result<Option<Rounds>, Memory>
    requires bounds { map plain_bounds bounds.now ≡ all_bounds (schema_of (plain_workload planner.old)) }
    requires accepted { IsAccepted (plain_workload planner.old) }
    requires exists { CallExists (plain_workload planner.old) u.call }
    ensures next { IfOk result (λ o. IfSome o (IsNext answers (closed_by (plain_workload planner.old) answers.own u whole.items))) }
    ensures goes_on { IsWithin (schema_of (plain_workload planner.old)) whole.items → u.round + 1 < 2 ^ 64 → IfOk result IsSome }
    ensures holds { IfOk result (λ o. IfSome o (IsOf planner.old)) }
    ensures planner { planner.new ≡ planner.old }
{
    if !are_in(bounds, whole.as_slice()) {
        return Ok(None);
    }
    if u.round == u64::MAX {
        return Ok(None);
    }
    let mut base = whole;
    let mut answers = answers;
    let compiled = planner.compiled();
    let prints = eval_call(
        alloc,
        compiled.workload(),
        compiled.declared(),
        u.call,
        &mut base,
    )?;
    answers.closing(u, prints)?;
    let next = begin(alloc, planner, base, u.round + 1, answers)?;
    Ok(Some(next))
}

/// A call closes the round of these sites.
fn close_round(
    alloc: Global,
    planner: &mut Planner,
    bounds: &[Bounds],
    x: Rounds,
    c: Called,
    broken: Broken,
) -> Result<Option<Rounds>, Memory>
    requires bounds { map plain_bounds bounds.now ≡ all_bounds (schema_of (plain_workload planner.old)) }
    requires accepted { IsAccepted (plain_workload planner.old) }
    requires exists { CallExists (plain_workload planner.old) c.call }
    ensures next { IfOk result (λ o. IfSome o (IsNext x.answers
        (closed_by (plain_workload planner.old) x.answers.own (breach_at x c broken) (folded x.base.items (deltas_in x.sites.items))))) }
    ensures goes_on { CanMake (plain_workload planner.old) (brief_of x) (plain_called c) → IfOk result IsSome }
    ensures holds { IfOk result (λ o. IfSome o (IsOf planner.old)) }
    ensures planner { planner.new ≡ planner.old }
{
    let Some(whole) = fold_sites(alloc, x.base.as_slice(), x.sites.as_slice())? else {
        return Ok(None);
    };
    let u = Breach {
        round: x.round,
        site: c.site,
        call: c.call,
        broken,
    };
    next_round(alloc, planner, bounds, x.answers, u, whole)
}

/// The call is made at its site, or closes the round. There is no round after it where no sites can be so.
fn make(
    alloc: Global,
    planner: &mut Planner,
    bounds: &[Bounds],
    x: Rounds,
    c: Called,
) -> Result<Option<Rounds>, Memory>
    requires bounds { map plain_bounds bounds.now ≡ all_bounds (schema_of (plain_workload planner.old)) }
    requires accepted { IsAccepted (plain_workload planner.old) }
    requires holds { IsOf planner.old x }
    ensures next { IfOk result (λ o. IfSome o (IsNext x.answers (briefly (plain_workload planner.old) x.answers.own (plain_called c) (brief_of x)))) }
    ensures makes { CanMake (plain_workload planner.old) (brief_of x) (plain_called c) → IfOk result IsSome }
    ensures holds { IfOk result (λ o. IfSome o (IsOf planner.old)) }
    ensures planner { planner.new ≡ planner.old }
{
    let mut x = x;
    if !is_call_at(planner.compiled().workload(), c.site, c.call) {
        return Ok(None);
    }
    match x.sites[c.site as usize].run(alloc, c.call)? {
        Ran::Kept(prints) => {
            x.answers.local(c, x.round, prints)?;
            Ok(Some(x))
        }
        Ran::Breaks(broken) => close_round(alloc, planner, bounds, x, c, broken),
    }
}

/// All the calls are made. There is no round after them where no sites can be so.
pub(crate) fn make_all(
    alloc: Global,
    planner: &mut Planner,
    bounds: &[Bounds],
    x: Rounds,
    calls: &[Called],
) -> Result<Option<Rounds>, Memory>
    requires bounds { map plain_bounds bounds.now ≡ all_bounds (schema_of (plain_workload planner.old)) }
    requires accepted { IsAccepted (plain_workload planner.old) }
    requires holds { IsOf planner.old x }
    ensures next { IfOk result (λ o. IfSome o (IsNext x.answers
        (briefly_all (plain_workload planner.old) x.answers.own (map plain_called calls.now) (brief_of x)))) }
    ensures makes { CanMakeAll (plain_workload planner.old) x.answers.own (map plain_called calls.now) (brief_of x) → IfOk result IsSome }
    ensures holds { IfOk result (λ o. IfSome o (IsOf planner.old)) }
    ensures planner { planner.new ≡ planner.old }
{
    let mut x = x;
    for c in calls {
        match make(alloc, planner, bounds, x, *c)? {
            Some(next) => x = next,
            None => return Ok(None),
        }
    }
    Ok(Some(x))
}
