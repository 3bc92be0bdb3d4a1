//! What a workload declares, laid out for measuring.

ghost use Rattle.std.specs.Prelude.{◌≡◌, ◌≤◌, ◌∷◌, ◌++◌, All, map, length, IfOk, OnOk};
ghost use Rattle.homeo_syntax.specs.SourceView.{plain_relation, plain_workload};
ghost use Rattle.homeo_meaning.specs.Bounds.{slot_bounds, relation_bounds, all_bounds};
ghost use Rattle.homeo_meaning.specs.Context.{object_count};
ghost use Rattle.homeo_meaning.specs.Schema.{declared_range, declared_relation, schema_of};
ghost use Rattle.homeo_context.specs.Placed.{HasSlots};
ghost use Rattle.homeo_size.specs.inner.Laid.{relation_of, capped_weight, range_weight, object_weight};

use crate::extent::number_weight;
use homeo_context::Declarations;
use homeo_syntax::{Memory, Number, ObjectDecl, RangeDecl, RelationDecl, Workload};
use std::alloc::Global;
use std::marker::Model;

/// What a workload declares, by name, and the weights of all objects where a call begins. The objects of the text come
/// first, and then, relation by relation, those of each slot: the one that says whether it is used, and its fields.
#[derive(Drop)]
pub struct Layout {
    declared: Declarations,
    weights: Vec<u64>,
}

impl Model for Layout {
    ghost use Rattle.homeo_meaning.specs.Schema.{Schema};
    ghost use Rattle.homeo_size.specs.inner.Laid.{AreWeights};

    ghost Value = { Schema };

    ghost view = { λ l. l.declared.schema };

    ghost invariant = { λ l. AreWeights l.declared.schema l.weights.items };
}

/// The number of a relation's slots, which no text has below 0.
#[tactic(auto, unfolding(homeo_meaning::specs::Key::definitions, homeo_syntax::specs::Key::definitions))]
fn slot_count(relation: &RelationDecl) -> u64
    ensures { result ≡ (relation_of relation.now).slots }
{
    relation.slots.value.max(0) as u64
}

/// The weight of what may lie within such bounds.
#[tactic(auto, using(crate::proofs::Layouts::larger))]
fn larger_weight(lo: Number, hi: Number) -> u64
    ensures { result ≡ capped_weight (record { lo = lo.value; hi = hi.value }) }
{
    number_weight(lo.value).max(number_weight(hi.value))
}

#[tactic(auto, unfolding(crate::specs::inner::Key::definitions, homeo_meaning::specs::Key::definitions))]
fn range_weight(field: RangeDecl) -> u64
    ensures { result ≡ range_weight field }
{
    larger_weight(field.lo, field.hi)
}

#[tactic(auto, unfolding(crate::specs::inner::Key::definitions, homeo_meaning::specs::Key::definitions))]
fn object_weight(object: ObjectDecl) -> u64
    ensures { result ≡ object_weight object }
{
    larger_weight(object.lo, object.hi)
}

/// Adds the weights of a slot: of whether it is used, and of its fields.
fn weigh_slot(weights: &mut Vec<u64>, fields: &[RangeDecl]) -> Result<(), Memory>
    ensures { OnOk result (weights.new.items ≡ weights.old.items ++ 1 ∷ map range_weight fields.now) }
{
    weights.push(1)?;
    for field in fields {
        weights.push(range_weight(*field))?;
    }
    Ok(())
}

fn weigh_slots(weights: &mut Vec<u64>, fields: &[RangeDecl], count: u64) -> Result<(), Memory>
    ensures { OnOk result (weights.new.items ≡ weights.old.items ++
        map capped_weight (slot_bounds count (map declared_range fields.now))) }
{
    let mut left = count;
    while left > 0 {
        left -= 1;
        weigh_slot(weights, fields)?;
    }
    Ok(())
}

fn weigh_objects(alloc: Global, objects: &[ObjectDecl]) -> Result<Vec<u64>, Memory>
    ensures { IfOk result (λ weights. weights.items ≡ map object_weight objects.now) }
{
    let weights = objects
        .iter()
        .map(|object| object_weight(*object))
        .collect(alloc)?;
    Ok(weights)
}

fn weigh_relations(weights: &mut Vec<u64>, relations: &[RelationDecl]) -> Result<(), Memory>
    ensures { OnOk result (weights.new.items ≡ weights.old.items ++
        map capped_weight (relation_bounds (map relation_of relations.now))) }
{
    for relation in relations {
        weigh_slots(weights, relation.fields.as_slice(), slot_count(relation))?;
    }
    Ok(())
}

impl Layout {
    /// Lays out what a workload declares, once for many calls. Each relation has from 1 to 64 slots, and the objects, with
    /// those of the relations, are no more than a workload may have.
    ///
    /// # Errors
    ///
    /// `Memory` where memory is wanting.
    pub fn of(alloc: Global, workload: &Workload) -> Result<Layout, Memory>
        requires slots { All HasSlots workload.now.relations.items }
        requires few { object_count (length workload.now.objects.items)
            (map declared_relation (map plain_relation workload.now.relations.items)) ≤ 1024 }
        ensures { IfOk result (λ layout. layout ≡ schema_of (plain_workload workload.now)) }
    {
        let mut weights = weigh_objects(alloc, workload.objects.as_slice())?;
        weigh_relations(&mut weights, workload.relations.as_slice())?;
        Ok(Layout {
            declared: Declarations::of_workload(alloc, workload)?,
            weights,
        })
    }

    /// The declarations by their names.
    pub fn declared(&self) -> &Declarations
        ensures { result.now.schema ≡ self.now }
    {
        &self.declared
    }

    /// The weights of all objects where a call begins.
    pub(crate) fn weights(&self) -> &[u64]
        ensures { result.now ≡ map capped_weight (all_bounds self.now) }
    {
        self.weights.as_slice()
    }
}
