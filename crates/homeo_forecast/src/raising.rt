//! Peaks, raised to what a call that is kept leaves.

ghost use Rattle.std.specs.Prelude.{◌≡◌, ◌<◌, [], ℕ, List, All, true, length, map, slice_index_or};
ghost use Rattle.homeo_meaning.specs.Serial.{values_of};
ghost use Rattle.homeo_outline.specs.Numbers.{has};
ghost use Rattle.homeo_outline.specs.ObjectPlan.{template_in};
ghost use Rattle.homeo_plan.specs.Template.{Clause as PlainClause};
ghost use Rattle.homeo_plan.specs.Treaty.{site_sum};
ghost use Rattle.homeo_site.specs.OwnTreaty.{own_term, SumsFit};
ghost use Rattle.homeo_site.specs.StandsOn.{StandsOnOne};
ghost use Rattle.homeo_forecast.specs.Visits.{Visit};
ghost use Rattle.homeo_forecast.specs.inner.Raising.{CanRaise, Raises};

use crate::rooms::Room;
use homeo_outline::ObjectPlan;
use homeo_site::own_sum;

/// The sum of a site with these deltas in the clause of this number in a plan: its terms are over whole objects.
pub(crate) fn clause_sum(plan: &ObjectPlan, number: u32, deltas: &[i64]) -> i128
    requires number { number < length (template_in plan.now).clauses }
    requires fits { SumsFit (map own_term (slice_index_or plan.now.outline.value.terms number [])) (values_of deltas.now) }
    ensures { (site : ℕ) (c : PlainClause) → site < plan.now.outline.value.sites → result ≡
        site_sum site (slice_index_or (template_in plan.now).clauses number c).terms (values_of deltas.now) }
{
    own_sum(plan.outline.terms()[number as usize].as_slice(), deltas)
}

/// Raises the peak of a site with these deltas in the clause of this number in a plan.
fn raise_clause(rooms: &mut [Room], plan: &ObjectPlan, number: u32, site: u32, deltas: &[i64])
    requires number { number < length (template_in plan.now).clauses }
    requires can { CanRaise plan.now rooms.old site deltas.now }
    ensures { (vs : List Visit) → Raises plan.now vs site deltas.now (λ n. n ≡ number) rooms.old rooms.new }
{
    let sum = clause_sum(plan, number, deltas);
    rooms[number as usize].raise(site as usize, sum);
}

/// Raises the peaks of a site with these deltas in the clauses of these numbers in a plan.
fn raise_clauses(rooms: &mut [Room], plan: &ObjectPlan, numbers: &[u32], site: u32, deltas: &[i64])
    requires numbers { All (λ n. n < length (template_in plan.now).clauses) numbers.now }
    requires can { CanRaise plan.now rooms.old site deltas.now }
    ensures { (vs : List Visit) → Raises plan.now vs site deltas.now (λ n. has n numbers.now ≡ true) rooms.old rooms.new }
{
    for number in numbers {
        raise_clause(rooms, plan, *number, site, deltas);
    }
}

/// Raises the peaks of a site with these deltas in the clauses of a plan that stand on these objects.
pub(crate) fn raise_all(
    rooms: &mut [Room],
    plan: &ObjectPlan,
    written: &[u32],
    site: u32,
    deltas: &[i64],
)
    requires { CanRaise plan.now rooms.old site deltas.now }
    ensures { (vs : List Visit) → Raises plan.now vs site deltas.now (StandsOnOne plan.now written.now (length written.now))
        rooms.old rooms.new }
{
    for object in written {
        raise_clauses(rooms, plan, plan.outline.clauses_on(*object), site, deltas);
    }
}
