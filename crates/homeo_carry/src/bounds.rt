//! What a workload says of databases, asked of values from outside.

ghost use Rattle.std.specs.Prelude.{◌≡◌, ◌∷◌, ◌++◌, pos, true, IsTrue, map, IfOk, OnOk};
ghost use Rattle.homeo_syntax.specs.SourceView.{plain_workload};
ghost use Rattle.homeo_meaning.specs.Bounds.{AreIn, IsIn, all_bounds, slot_bounds, bounds_of};
ghost use Rattle.homeo_meaning.specs.Schema.{nat_of, declared_range, schema_of};
ghost use Rattle.homeo_context.specs.Placed.{HasSlots};
ghost use Rattle.homeo_carry.specs.CarryView.{plain_bounds};

use homeo_meaning::Accepted;
use homeo_syntax::{Memory, Number, RangeDecl, RelationDecl};
use std::alloc::Global;

/// The bounds of an object.
#[derive(Clone, Copy)]
pub struct Bounds {
    lo: i64,
    hi: i64,
}

/// The bounds from one number to another.
fn between(lo: &Number, hi: &Number) -> Bounds
    ensures { plain_bounds result ≡ record { lo = lo.now.value; hi = hi.now.value } }
{
    Bounds {
        lo: lo.value,
        hi: hi.value,
    }
}

/// Whether a value is within bounds.
#[tactic(auto, unfolding(homeo_meaning::specs::Key::definitions))]
fn is_in(bounds: &Bounds, value: &i64) -> bool
    ensures yes { IsTrue result → IsIn (plain_bounds bounds.now) value.now }
    ensures no { IsIn (plain_bounds bounds.now) value.now → IsTrue result }
{
    bounds.lo <= *value && *value <= bounds.hi
}

/// The bounds of every object, in the order of their numbers.
///
/// # Errors
///
/// `Memory` when out of memory.
pub fn all_bounds(alloc: Global, w: &Accepted) -> Result<Vec<Bounds>, Memory>
    ensures { IfOk result (λ b. map plain_bounds b.items ≡ all_bounds (schema_of (plain_workload w.now))) }
{
    let workload = w.workload();
    let mut bounds = Vec::new(alloc);
    for object in workload.objects.as_slice() {
        bounds.push(between(&object.lo, &object.hi))?;
    }
    for relation in workload.relations.as_slice() {
        add_relation(relation, &mut bounds)?;
    }
    Ok(bounds)
}

/// Adds the bounds of a relation, slot by slot.
fn add_relation(relation: &RelationDecl, bounds: &mut Vec<Bounds>) -> Result<(), Memory>
    requires { HasSlots relation.now }
    ensures { OnOk result (map plain_bounds bounds.new.items ≡ map plain_bounds bounds.old.items ++
        slot_bounds (nat_of relation.now.slots.value) (map declared_range relation.now.fields.items)) }
{
    for _ in 0..relation.slots.value as usize {
        add_slot(relation.fields.as_slice(), bounds)?;
    }
    Ok(())
}

/// Adds the bounds of a slot: whether it is used, and its fields.
fn add_slot(fields: &[RangeDecl], bounds: &mut Vec<Bounds>) -> Result<(), Memory>
    ensures { OnOk result (map plain_bounds bounds.new.items ≡ map plain_bounds bounds.old.items ++
        record { lo = pos 0; hi = pos 1 } ∷ map bounds_of (map declared_range fields.now)) }
{
    bounds.push(Bounds { lo: 0, hi: 1 })?;
    for field in fields {
        bounds.push(between(&field.lo, &field.hi))?;
    }
    Ok(())
}

/// Whether there is a value for each of the bounds, and each is within its own.
pub fn are_in(bounds: &[Bounds], values: &[i64]) -> bool
    ensures yes { IsTrue result → AreIn (map plain_bounds bounds.now) values.now }
    ensures no { AreIn (map plain_bounds bounds.now) values.now → IsTrue result }
{
    if bounds.len() != values.len() {
        return false;
    }
    for i in 0..bounds.len() {
        if !is_in(&bounds[i], &values[i]) {
            return false;
        }
    }
    true
}
