//! What of its treaty a site checks after a call: the clauses and freezes that stand on what the call wrote.

ghost use Rattle.std.specs.Prelude.{◌≡◌, ◌+◌, ◌<◌, ◌≤◌, ◌+ℤ◌, ◌*ℤ◌, ◌≤ℤ◌, ℕ, None, pos, true, false, [], All, IsTrue, length, map, slice_index_or, FitsSigned};
ghost use Rattle.std.specs.Int.{w128};
ghost use Rattle.homeo_meaning.specs.Serial.{values_of};
ghost use Rattle.homeo_plan.specs.Joined.{Deltas};
ghost use Rattle.homeo_plan.specs.PlanView.{plain_config};
ghost use Rattle.homeo_plan.specs.Treaty.{Treaty, bound_at, finding};
ghost use Rattle.homeo_outline.specs.Numbers.{has, clauses_on};
ghost use Rattle.homeo_outline.specs.ObjectPlan.{template_in, config_in};
ghost use Rattle.homeo_site.specs.Earliest.{IsEarliest, earlier};
ghost use Rattle.homeo_site.specs.inner.Failures.{clause_number, sum_failure, freeze_failure, own_failure, own_freeze_failure};
ghost use Rattle.homeo_site.specs.inner.Parts.{CanKeep};
ghost use Rattle.homeo_site.specs.inner.PlanFailures.{HoldLed, plan_failure};
ghost use Rattle.homeo_site.specs.OwnTreaty.{own_term, own_sum, SumsFit, own_clauses};
ghost use Rattle.homeo_site.specs.StandsOn.{StandsOn};

use homeo_config::even_bound;
use homeo_meaning::padded::item_or;
use homeo_outline::ObjectPlan;
use homeo_plan::{Broken, Config, Delta, Term};

/// The earlier of two failures, that of the lower number.
#[tactic(auto, unfolding(crate::specs::Key::definitions))]
fn earlier(found: Option<Broken>, next: Option<Broken>) -> Option<Broken>
    ensures { result ≡ earlier clause_number found next }
{
    match (found, next) {
        (_, None) => found,
        (None, Some(_)) => next,
        (Some(a), Some(b)) => {
            if b.clause < a.clause {
                Some(b)
            } else {
                Some(a)
            }
        }
    }
}

/// The given bound of a site in a clause, by the clause's number: 0 where there is none.
fn bound_of(config: &Config, clause: usize, site: u32) -> i128
    ensures { result ≡ bound_at (slice_index_or (plain_config config.now) clause []) site }
{
    let bounds = config.bounds.as_slice();
    if clause < bounds.len() {
        item_or(bounds[clause].as_slice(), site as usize, 0)
    } else {
        0
    }
}

/// The slack of a clause of a plan, by the clause's number.
fn slack_of(plan: &ObjectPlan, clause: usize) -> i128
    ensures { result ≡ slice_index_or plan.now.slacks.items clause (pos 0) }
{
    item_or(plan.slacks.as_slice(), clause, 0)
}

/// The bound of a site in a clause of a plan, by the clause's number: the given one, or else that of a slack split evenly.
fn own_bound(plan: &ObjectPlan, clause: usize, site: u32) -> i128
    requires keeps { CanKeep plan.now site }
    requires clause { clause < length (template_in plan.now).clauses }
    ensures { result ≡ bound_at (slice_index_or (config_in plan.now) clause []) site }
{
    match &plan.bounds {
        None => even_bound(slack_of(plan, clause), plan.outline.sites(), site),
        Some(config) => bound_of(config, clause, site),
    }
}

/// Whether so many sites may all have this sum: together they have at most the slack. The answer is no where the sum is out of the
/// range of i64.
fn may_all_have(sites: u32, sum: i128, slack: i128) -> bool
    ensures { IsTrue result → (sum *ℤ pos sites) ≤ℤ slack }
{
    match i64::try_from(sum) {
        Ok(small) => i128::from(small) * i128::from(sites) <= slack,
        Err(_) => false,
    }
}

/// Whether it shows without a division that a sum is at most the bound of each site in a clause of a plan: so many sites may all have
/// it. Where it doesn't, the sum may still be.
fn is_within_each(plan: &ObjectPlan, clause: usize, sum: i128) -> bool
    ensures even { IsTrue result → plan.now.bounds ≡ None }
    ensures room { IsTrue result → (sum *ℤ pos plan.now.outline.value.sites) ≤ℤ slice_index_or plan.now.slacks.items clause (pos 0) }
{
    plan.bounds.is_none() && may_all_have(plan.outline.sites(), sum, slack_of(plan, clause))
}

/// A sum with one more term's factor times delta.
fn with_term(sum: i128, term: Term, deltas: &[i64]) -> i128
    requires product { FitsSigned w128 (term.factor *ℤ values_of deltas.now term.delta.object) }
    requires total { FitsSigned w128 (sum +ℤ (term.factor *ℤ values_of deltas.now term.delta.object)) }
    ensures { result ≡ sum +ℤ (term.factor *ℤ values_of deltas.now term.delta.object) }
{
    let delta = item_or(deltas, term.delta.object as usize, 0);
    sum + term.factor * i128::from(delta)
}

/// The sum of factor times delta, where each term is over a whole object and so stands for a site's own delta, which is at the
/// object's place: 0 where there is none. It takes no memory.
///
/// Each product, and each sum of the first terms, must be within the range of i128.
#[tactic(auto, using(crate::proofs::OwnTerms::all_sum), unfolding(crate::specs::Key::definitions))]
pub fn own_sum(terms: &[Term], deltas: &[i64]) -> i128
    requires { SumsFit (map own_term terms.now) (values_of deltas.now) }
    ensures { result ≡ own_sum (map own_term terms.now) (values_of deltas.now) }
{
    let mut sum = 0;
    for term in terms {
        sum = with_term(sum, *term, deltas);
    }
    sum
}

/// What fails of a clause of this number: a sum that is above the bound.
#[tactic(auto, unfolding(crate::specs::Key::definitions))]
fn sum_failure(number: u32, sum: i128, bound: i128) -> Option<Broken>
    ensures { result ≡ sum_failure number sum bound }
{
    if sum <= bound {
        None
    } else {
        Some(Broken {
            clause: number,
            sum,
            bound,
        })
    }
}

/// What fails of the clause of this number in a plan, at a site with these deltas. The bound is computed only where the sum may be
/// above it, as that takes a division.
fn clause_failure(plan: &ObjectPlan, site: u32, number: u32, deltas: &[i64]) -> Option<Broken>
    requires keeps { CanKeep plan.now site }
    requires number { number < length (template_in plan.now).clauses }
    requires fit { All (λ c. SumsFit c.terms (values_of deltas.now))
        (own_clauses site (template_in plan.now).clauses (config_in plan.now)) }
    ensures { result ≡ own_failure (own_clauses site (template_in plan.now).clauses (config_in plan.now)) (values_of deltas.now) number }
{
    let clause = number as usize;
    let sum = own_sum(plan.outline.terms()[clause].as_slice(), deltas);
    if is_within_each(plan, clause, sum) {
        return None;
    }
    let bound = own_bound(plan, clause, site);
    sum_failure(number, sum, bound)
}

/// What fails earliest of the clauses of these numbers in a plan, at a site with these deltas.
fn earliest_clause(plan: &ObjectPlan, site: u32, numbers: &[u32], deltas: &[i64]) -> Option<Broken>
    requires keeps { CanKeep plan.now site }
    requires numbers { All (λ n. n < length (template_in plan.now).clauses) numbers.now }
    requires fit { All (λ c. SumsFit c.terms (values_of deltas.now))
        (own_clauses site (template_in plan.now).clauses (config_in plan.now)) }
    ensures { IsEarliest clause_number (own_failure (own_clauses site (template_in plan.now).clauses (config_in plan.now)) (values_of deltas.now))
        (λ n. has n numbers.now ≡ true) result }
{
    let mut found = None;
    for number in numbers {
        let failure = clause_failure(plan, site, *number, deltas);
        found = earlier(found, failure);
    }
    found
}

/// What fails of a freeze of this number: a delta of the site that isn't 0.
#[tactic(auto, unfolding(crate::specs::Key::definitions))]
fn freeze_failure(freeze: Delta, site: u32, number: u32, deltas: &[i64]) -> Option<Broken>
    ensures { result ≡ freeze_failure number site (values_of deltas.now) freeze }
{
    let value = item_or(deltas, freeze.object as usize, 0);
    if freeze.site == site && value != 0 {
        Some(Broken {
            clause: number,
            sum: i128::from(value),
            bound: 0,
        })
    } else {
        None
    }
}

/// What fails earliest of the freezes of these numbers, where the first of all freezes has the given one.
fn earliest_freeze(
    freezes: &[Delta],
    first: usize,
    numbers: &[u32],
    site: u32,
    deltas: &[i64],
) -> Option<Broken>
    requires { All (λ n. (first ≤ n) × (n < first + length freezes.now)) numbers.now }
    ensures { IsEarliest clause_number (own_freeze_failure first site freezes.now (values_of deltas.now)) (λ n. has n numbers.now ≡ true) result }
{
    let mut found = None;
    for number in numbers {
        let freeze = freezes[*number as usize - first];
        let failure = freeze_failure(freeze, site, *number, deltas);
        found = earlier(found, failure);
    }
    found
}

/// Whether it shows that a clause of a plan holds at a site with these deltas, and with it all that have its terms and no less slack.
fn leader_holds(plan: &ObjectPlan, site: u32, number: u32, deltas: &[i64]) -> bool
    requires keeps { CanKeep plan.now site }
    requires fit { All (λ c. SumsFit c.terms (values_of deltas.now))
        (own_clauses site (template_in plan.now).clauses (config_in plan.now)) }
    ensures { IsTrue result → HoldLed plan.now site (values_of deltas.now) number }
{
    let clause = number as usize;
    let terms = plan.outline.terms();
    if clause >= terms.len() {
        return false;
    }
    let sum = own_sum(terms[clause].as_slice(), deltas);
    is_within_each(plan, clause, sum)
}

/// Whether it shows by the leaders of an object that all clauses on it hold at a site with these deltas.
fn leaders_hold(plan: &ObjectPlan, site: u32, object: u32, deltas: &[i64]) -> bool
    requires keeps { CanKeep plan.now site }
    requires fit { All (λ c. SumsFit c.terms (values_of deltas.now))
        (own_clauses site (template_in plan.now).clauses (config_in plan.now)) }
    ensures { IsTrue result → (n : ℕ) → has n (clauses_on object plan.now.outline.value.terms) ≡ true →
        own_failure (own_clauses site (template_in plan.now).clauses (config_in plan.now)) (values_of deltas.now) n ≡ None }
{
    let leaders = plan.leaders.on(object);
    if leaders.is_empty() {
        return false;
    }
    for number in leaders {
        if !leader_holds(plan, site, *number, deltas) {
            return false;
        }
    }
    true
}

/// What fails earliest of the clauses of a plan that name an object, at a site with these deltas. Each is looked at only where its leaders
/// don't show that none fails.
fn clause_failure_on(plan: &ObjectPlan, site: u32, object: u32, deltas: &[i64]) -> Option<Broken>
    requires keeps { CanKeep plan.now site }
    requires fit { All (λ c. SumsFit c.terms (values_of deltas.now))
        (own_clauses site (template_in plan.now).clauses (config_in plan.now)) }
    ensures { IsEarliest clause_number (own_failure (own_clauses site (template_in plan.now).clauses (config_in plan.now)) (values_of deltas.now))
        (λ n. has n (clauses_on object plan.now.outline.value.terms) ≡ true) result }
{
    if leaders_hold(plan, site, object, deltas) {
        return None;
    }
    earliest_clause(plan, site, plan.outline.clauses_on(object), deltas)
}

/// What fails earliest of the clauses and freezes of a plan that stand on an object, at a site with these deltas.
fn failure_on(plan: &ObjectPlan, site: u32, object: u32, deltas: &[i64]) -> Option<Broken>
    requires keeps { CanKeep plan.now site }
    requires fit { All (λ c. SumsFit c.terms (values_of deltas.now))
        (own_clauses site (template_in plan.now).clauses (config_in plan.now)) }
    ensures { IsEarliest clause_number (plan_failure plan.now site (values_of deltas.now)) (StandsOn plan.now object) result }
{
    let outline = &*plan.outline;
    let clause = clause_failure_on(plan, site, object, deltas);
    let freeze = earliest_freeze(
        outline.freezes(),
        outline.terms().len(),
        outline.freezes_on(object),
        site,
        deltas,
    );
    earlier(clause, freeze)
}

/// What fails first of a site's part of a plan's treaty, of which a site's deltas before a call kept all, where these objects are all
/// that the call wrote. Only what stands on these is looked at.
pub(crate) fn first_failure(
    plan: &ObjectPlan,
    site: u32,
    written: &[u32],
    deltas: &[i64],
) -> Option<Broken>
    requires keeps { CanKeep plan.now site }
    requires fit { All (λ c. SumsFit c.terms (values_of deltas.now))
        (own_clauses site (template_in plan.now).clauses (config_in plan.now)) }
    ensures { (before : Deltas) → Treaty (template_in plan.now) (config_in plan.now) site before →
        ((n : ℕ) → has n written.now ≡ false → values_of deltas.now n ≡ before n) →
        result ≡ finding (template_in plan.now) (config_in plan.now) site (values_of deltas.now) }
{
    let mut found = None;
    for object in written {
        let failure = failure_on(plan, site, *object, deltas);
        found = earlier(found, failure);
    }
    found
}
