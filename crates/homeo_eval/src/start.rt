//! The database where a run begins.

ghost use Rattle.std.specs.Prelude.{◌≡◌, ◌∷◌, ◌++◌, pos, map, IfOk, OnOk};
ghost use Rattle.homeo_syntax.specs.SourceView.{plain_workload};
ghost use Rattle.homeo_meaning.specs.Schema.{nat_of, declared_range, schema_of};
ghost use Rattle.homeo_meaning.specs.Bounds.{IsWithin};
ghost use Rattle.homeo_meaning.specs.Initial.{nearest_zero, slot_starts, initial};
ghost use Rattle.homeo_context.specs.Placed.{HasSlots};

use homeo_meaning::{Accepted, Database};
use homeo_syntax::{List, Memory, RangeDecl, RelationDecl};
use std::alloc::Global;

/// The database of the starting values: a relation's slots are free, and its fields are as near to 0 as their bounds let
/// them be.
///
/// # Errors
///
/// `Memory` where memory is wanting.
pub fn initial(alloc: Global, w: &Accepted) -> Result<Database, Memory>
    ensures value { IfOk result (λ d. d.items ≡ initial (plain_workload w.now)) }
    ensures within { IfOk result (λ d. IsWithin (schema_of (plain_workload w.now)) d.items) }
{
    let workload = w.workload();
    let mut database = List::new(alloc);
    for object in workload.objects.as_slice() {
        database.push(object.start.value)?;
    }
    for relation in workload.relations.as_slice() {
        start_relation(relation, &mut database)?;
    }
    Ok(database)
}

/// Adds the starting values of a relation: all slots are free.
fn start_relation(relation: &RelationDecl, database: &mut Database) -> Result<(), Memory>
    requires { HasSlots relation.now }
    ensures { OnOk result (database.new.items ≡ database.old.items ++
        slot_starts (nat_of relation.now.slots.value) (map declared_range relation.now.fields.items)) }
{
    for _ in 0..relation.slots.value as usize {
        start_slot(relation.fields.as_slice(), database)?;
    }
    Ok(())
}

fn start_slot(fields: &[RangeDecl], database: &mut Database) -> Result<(), Memory>
    ensures { OnOk result (database.new.items ≡ database.old.items ++
        pos 0 ∷ map nearest_zero (map declared_range fields.now)) }
{
    database.push(0)?;
    for field in fields {
        database.push(nearest_zero(field))?;
    }
    Ok(())
}

/// The value within a field's bounds that is nearest to 0.
#[tactic(auto, unfolding(homeo_meaning::specs::Key::definitions))]
fn nearest_zero(field: &RangeDecl) -> i64
    ensures { result ≡ nearest_zero (declared_range field.now) }
{
    if 0 < field.lo.value {
        field.lo.value
    } else if field.hi.value < 0 {
        field.hi.value
    } else {
        0
    }
}
