//! What stops a call: the first that does of the clauses and freezes that stand on what it wrote.

ghost use Rattle.std.specs.Prelude.{◌≡◌, ◌+◌, ◌<◌, ◌≤◌, ℕ, List, All, true, false, length, option_map, IfOk};
ghost use Rattle.homeo_meaning.specs.Serial.{values_of};
ghost use Rattle.homeo_plan.specs.Joined.{Deltas};
ghost use Rattle.homeo_outline.specs.Numbers.{has};
ghost use Rattle.homeo_outline.specs.ObjectPlan.{template_in};
ghost use Rattle.homeo_site.specs.Earliest.{IsEarliest, earlier};
ghost use Rattle.homeo_site.specs.StandsOn.{StandsOn};
ghost use Rattle.homeo_forecast.specs.Peaks.{first_stop};
ghost use Rattle.homeo_forecast.specs.View.{plain_stop};
ghost use Rattle.homeo_forecast.specs.Visits.{Visit};
ghost use Rattle.homeo_forecast.specs.inner.Raising.{CanTest, own_visit, with_own};
ghost use Rattle.homeo_forecast.specs.inner.Rooms.{AreRooms};
ghost use Rattle.homeo_forecast.specs.inner.Stops.{StandsAfter, stop_number, clause_stop_at, freeze_stop, freeze_stop_at, plan_stop};

use crate::outlook::Stop;
use crate::raising::clause_sum;
use crate::rooms::Room;
use homeo_meaning::padded::item_or;
use homeo_outline::ObjectPlan;
use homeo_plan::Delta;
use homeo_syntax::Memory;
use std::alloc::Global;

/// The number of the clause or freeze that stops.
fn number_of(stop: &Stop) -> u32
    ensures { result ≡ stop_number (plain_stop stop.now) }
{
    match stop {
        Stop::Spent { clause, .. } => *clause,
        Stop::Frozen { freeze, .. } => *freeze,
    }
}

/// The earlier of two stops, that of the lower number.
#[tactic(auto, unfolding(homeo_site::specs::Key::definitions))]
fn earlier(found: Option<Stop>, next: Option<Stop>) -> Option<Stop>
    ensures { option_map plain_stop result ≡ earlier stop_number (option_map plain_stop found) (option_map plain_stop next) }
{
    match (found, next) {
        (None, next) => next,
        (found, None) => found,
        (Some(a), Some(b)) => {
            if number_of(&b) < number_of(&a) {
                Some(b)
            } else {
                Some(a)
            }
        }
    }
}

/// What stops a call at the clause of this number in a plan, where its site has these deltas after it.
fn clause_stop(
    alloc: Global,
    plan: &ObjectPlan,
    rooms: &[Room],
    number: u32,
    site: u32,
    deltas: &[i64],
) -> Result<Option<Stop>, Memory>
    requires number { number < length (template_in plan.now).clauses }
    requires can { CanTest plan.now rooms.now site deltas.now }
    ensures { (vs : List Visit) → AreRooms plan.now vs rooms.now → IfOk result (λ o. option_map plain_stop o ≡
        clause_stop_at plan.now.outline.value.sites (with_own vs site deltas.now) (template_in plan.now).clauses number) }
{
    let sum = clause_sum(plan, number, deltas);
    rooms[number as usize].stop(alloc, number, site as usize, sum)
}

/// What stops earliest of the clauses of these numbers in a plan, for a call after which its site has these deltas.
fn earliest_clause(
    alloc: Global,
    plan: &ObjectPlan,
    rooms: &[Room],
    numbers: &[u32],
    site: u32,
    deltas: &[i64],
) -> Result<Option<Stop>, Memory>
    requires numbers { All (λ n. n < length (template_in plan.now).clauses) numbers.now }
    requires can { CanTest plan.now rooms.now site deltas.now }
    ensures { (vs : List Visit) → AreRooms plan.now vs rooms.now → IfOk result (λ o. IsEarliest stop_number
        (clause_stop_at plan.now.outline.value.sites (with_own vs site deltas.now) (template_in plan.now).clauses)
        (λ n. has n numbers.now ≡ true) (option_map plain_stop o)) }
{
    let mut found = None;
    for number in numbers {
        let stop = clause_stop(alloc, plan, rooms, *number, site, deltas)?;
        found = earlier(found, stop);
    }
    Ok(found)
}

/// What stops a call at a freeze of this number: a delta of the site that isn't 0.
#[tactic(auto, unfolding(crate::specs::Key::definitions))]
fn freeze_stop(delta: Delta, freeze: u32, site: u32, deltas: &[i64]) -> Option<Stop>
    ensures { option_map plain_stop result ≡ freeze_stop freeze site (values_of deltas.now) delta }
{
    let value = item_or(deltas, delta.object as usize, 0);
    if delta.site == site && value != 0 {
        Some(Stop::Frozen {
            freeze,
            delta,
            value,
        })
    } else {
        None
    }
}

/// What stops earliest of the freezes of these numbers, where the first of all freezes has the given one.
fn earliest_freeze(
    freezes: &[Delta],
    first: usize,
    numbers: &[u32],
    site: u32,
    deltas: &[i64],
) -> Option<Stop>
    requires { All (λ n. (first ≤ n) × (n < first + length freezes.now)) numbers.now }
    ensures { IsEarliest stop_number (freeze_stop_at first site (values_of deltas.now) freezes.now) (λ n. has n numbers.now ≡ true)
        (option_map plain_stop result) }
{
    let mut found = None;
    for number in numbers {
        let freeze = freezes[*number as usize - first];
        let stop = freeze_stop(freeze, *number, site, deltas);
        found = earlier(found, stop);
    }
    found
}

/// What stops earliest of the clauses and freezes of a plan that stand on an object.
fn stop_on(
    alloc: Global,
    plan: &ObjectPlan,
    rooms: &[Room],
    object: u32,
    site: u32,
    deltas: &[i64],
) -> Result<Option<Stop>, Memory>
    requires { CanTest plan.now rooms.now site deltas.now }
    ensures { (vs : List Visit) → AreRooms plan.now vs rooms.now → IfOk result (λ o. IsEarliest stop_number
        (plan_stop plan.now (with_own vs site deltas.now) (own_visit site deltas.now)) (StandsOn plan.now object) (option_map plain_stop o)) }
{
    let outline = &*plan.outline;
    let clauses = outline.clauses_on(object);
    let clause = earliest_clause(alloc, plan, rooms, clauses, site, deltas)?;
    let freeze = earliest_freeze(
        outline.freezes(),
        outline.terms().len(),
        outline.freezes_on(object),
        site,
        deltas,
    );
    Ok(earlier(clause, freeze))
}

/// What stops a call, after which its site has these deltas, where these objects are all that it wrote. Only what stands on these is
/// looked at.
pub(crate) fn first_stop(
    alloc: Global,
    plan: &ObjectPlan,
    rooms: &[Room],
    written: &[u32],
    site: u32,
    deltas: &[i64],
) -> Result<Option<Stop>, Memory>
    requires { CanTest plan.now rooms.now site deltas.now }
    ensures { (vs : List Visit) (before : Deltas) → AreRooms plan.now vs rooms.now → StandsAfter plan.now vs site before →
        ((n : ℕ) → has n written.now ≡ false → values_of deltas.now n ≡ before n) → IfOk result (λ o. option_map plain_stop o ≡
        first_stop plan.now.outline.value.sites (template_in plan.now) vs (own_visit site deltas.now)) }
{
    let mut found = None;
    for object in written {
        let stop = stop_on(alloc, plan, rooms, *object, site, deltas)?;
        found = earlier(found, stop);
    }
    Ok(found)
}
