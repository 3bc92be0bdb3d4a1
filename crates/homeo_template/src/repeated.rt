//! The distinct clauses of parts of a plan, where a part may come again.

ghost use Rattle.std.specs.Prelude.{◌≡◌, ◌<◌, [], length, map, IfOk, OnOk};
ghost use Rattle.homeo_meaning.specs.Small.{IsSmall};
ghost use Rattle.homeo_plan.specs.Each.{Each};
ghost use Rattle.homeo_plan.specs.PlanView.{plain_atoms, plain_clause};
ghost use Rattle.homeo_plan.specs.Template.{clauses_from, atoms_of_sets};
ghost use Rattle.homeo_plan.specs.Limit.{form_limit};
ghost use Rattle.homeo_template.specs.Places.{set_at};
ghost use Rattle.homeo_template.specs.inner.Keys.{clauses_in};
ghost use Rattle.homeo_template.specs.inner.Met.{atoms_of_part, AreMet};

use crate::clauses::{DistinctClauses, clauses_with};
use homeo_follow::PlanPart;
use homeo_meaning::padded::{item_or, put};
use homeo_plan::Clause;
use homeo_syntax::{List, Memory};
use std::alloc::Global;
use std::sync::Arc;

/// The clauses of the atoms of the parts at these places, one place after another: equal clauses stand once, where the first of them
/// is. A part whose place comes again brings no more, so it is passed over.
///
/// Each place is one of the parts'. No constant of an atom may be above 4 * 10^18 in size.
///
/// # Errors
///
/// `Memory` when out of memory.
pub fn object_clauses(
    alloc: Global,
    parts: &[Arc<PlanPart>],
    places: &[usize],
) -> Result<List<Clause>, Memory>
    requires places { Each (λ n. n < length parts.now) places.now }
    requires small { Each (Each (λ a. IsSmall form_limit a.constant)) (map (λ p. plain_atoms p.value.atoms) parts.now) }
    ensures { IfOk result (λ cs. map plain_clause cs.items ≡
        clauses_from [] (atoms_of_sets (map (set_at (map (λ p. plain_atoms p.value.atoms) parts.now)) places.now))) }
{
    let mut distinct = DistinctClauses::with_room(alloc, atom_count(parts))?;
    let mut met = Vec::new(alloc);
    for place in places {
        put_part(&mut distinct, &mut met, parts, *place)?;
    }
    clauses_with(alloc, distinct.keys.as_slice())
}

/// How many atoms the parts have, so no fewer than their distinct clauses.
fn atom_count(parts: &[Arc<PlanPart>]) -> usize {
    parts.iter().fold(
        0usize,
        |count, part| count.saturating_add(part.atoms.atoms.as_slice().len()),
    )
}

/// Puts the clauses of the part at a place behind the others, unless its place was met.
fn put_part<'a>(
    distinct: &mut DistinctClauses<'a>,
    met: &mut Vec<bool>,
    parts: &'a [Arc<PlanPart>],
    place: usize,
) -> Result<(), Memory>
    requires place { place < length parts.now }
    requires small { Each (Each (λ a. IsSmall form_limit a.constant)) (map atoms_of_part parts.now) }
    requires met { AreMet met.old.items (map atoms_of_part parts.now) (clauses_in distinct.old) }
    ensures met { OnOk result (AreMet met.new.items (map atoms_of_part parts.now) (clauses_in distinct.new)) }
    ensures clauses { OnOk result (clauses_in distinct.new ≡
        clauses_from (clauses_in distinct.old) (set_at (map atoms_of_part parts.now) place)) }
{
    if item_or(met.as_slice(), place, false) {
        return Ok(());
    }
    distinct.put_all(parts[place].atoms.atoms.as_slice())?;
    put(met, place, true, false)
}
