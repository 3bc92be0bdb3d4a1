//! The names of objects.
#![tactic(auto, using(crate::proofs::NamedObjects::object_steps), unfolding(crate::specs::Key::definitions))]

ghost use Rattle.std.specs.Prelude.{◌≡◌, [], ◌∷◌, ◌++◌, length, slice_get, IfOk, OnOk};
ghost use Rattle.std.specs.Option.{option_copied};
ghost use Rattle.homeo_syntax.specs.SourceView.{plain_relation, plain_workload};
ghost use Rattle.homeo_meaning.specs.Schema.{nat_of};
ghost use Rattle.homeo_print.specs.Names.{field_name, slot_names, relation_names, declared_names, object_names, name_at};

use crate::append::{push_bytes, push_number};
use crate::calls::name_of;
use homeo_syntax::{Memory, ObjectDecl, RelationDecl, Workload};
use std::alloc::Global;
use std::marker::Model;

/// The names of all objects of a workload, in the order of the objects' numbers: first the declared ones, then for each
/// relation slot by slot `R.K.used` and `R.K.F` for each field F (this project's rule).
#[derive(Drop)]
pub struct ObjectNames {
    names: Vec<Vec<u8>>,
}

impl Model for ObjectNames {
    ghost use Rattle.std.specs.Prelude.{ℕ, List, Vec, map};
    ghost use Rattle.homeo_print.specs.Objects.{bytes_of};

    ghost Value = { List (List ℕ) };

    ghost view = { λ n. map bytes_of n.names.items };
}

impl ObjectNames {
    /// Makes the names of a workload's objects, in time linear in them.
    ///
    /// # Errors
    ///
    /// `Memory` when out of memory.
    pub fn of(alloc: Global, w: &Workload) -> Result<ObjectNames, Memory>
        ensures { IfOk result (λ n. n ≡ object_names (plain_workload w.now)) }
    {
        let mut names = ObjectNames {
            names: Vec::new(alloc),
        };
        names.push_declared(alloc, w, w.objects.as_slice())?;
        for relation in w.relations.as_slice() {
            names.push_relation(alloc, w, relation)?;
        }
        Ok(names)
    }

    /// How many objects there are.
    pub fn len(&self) -> usize
        ensures { result ≡ length self.now }
    {
        self.names.len()
    }

    /// The name of the object with a number, from 0, which is empty where there is no such object.
    pub fn get(&self, object: usize) -> &[u8]
        ensures { result.now ≡ name_at self.now object }
    {
        match text_at(self.names.as_slice(), object) {
            Some(name) => name.as_slice(),
            None => b"",
        }
    }

    fn push(&mut self, name: Vec<u8>) -> Result<(), Memory>
        ensures { OnOk result (self.new ≡ self.old ++ name.items ∷ []) }
    {
        self.names.push(name)?;
        Ok(())
    }

    /// Puts the names of declared objects behind the names.
    fn push_declared(
        &mut self,
        alloc: Global,
        w: &Workload,
        objects: &[ObjectDecl],
    ) -> Result<(), Memory>
        ensures { OnOk result (self.new ≡ self.old ++ declared_names (plain_workload w.now) objects.now) }
    {
        for object in objects {
            self.push(Vec::from_slice(alloc, name_of(w, object.name))?)?;
        }
        Ok(())
    }

    /// Puts the names of a slot's objects behind the names.
    fn push_slot(
        &mut self,
        alloc: Global,
        w: &Workload,
        relation: &RelationDecl,
        slot: u64,
    ) -> Result<(), Memory>
        ensures { OnOk result (self.new ≡ self.old
            ++ slot_names (plain_workload w.now) (plain_relation relation.now) slot) }
    {
        self.push(field_name(alloc, w, relation, slot, b"used")?)?;
        for field in relation.fields.as_slice() {
            self.push(field_name(alloc, w, relation, slot, name_of(w, field.name))?)?;
        }
        Ok(())
    }

    /// Puts the names of a relation's objects behind the names.
    fn push_relation(
        &mut self,
        alloc: Global,
        w: &Workload,
        relation: &RelationDecl,
    ) -> Result<(), Memory>
        ensures { OnOk result (self.new ≡ self.old
            ++ relation_names (plain_workload w.now) (plain_relation relation.now)) }
    {
        for slot in 0..slot_count(relation) {
            self.push_slot(alloc, w, relation, slot)?;
        }
        Ok(())
    }
}

fn text_at(texts: &[Vec<u8>], place: usize) -> Option<&Vec<u8>>
    ensures { option_copied result ≡ slice_get texts.now place }
{
    texts.get(place)
}

#[tactic(auto, using(homeo_syntax::proofs::SourceViews::workload_views), unfolding(crate::specs::Key::definitions, homeo_syntax::specs::Key::definitions))]
fn field_name(
    alloc: Global,
    w: &Workload,
    relation: &RelationDecl,
    slot: u64,
    field: &[u8],
) -> Result<Vec<u8>, Memory>
    ensures { IfOk result (λ name. name.items
        ≡ field_name (plain_workload w.now) (plain_relation relation.now) slot field.now) }
{
    let mut name = Vec::from_slice(alloc, name_of(w, relation.name))?;
    push_bytes(&mut name, b".")?;
    push_number(&mut name, slot)?;
    push_bytes(&mut name, b".")?;
    push_bytes(&mut name, field)?;
    Ok(name)
}

/// A relation's number of slots.
#[tactic(auto, using(homeo_syntax::proofs::SourceViews::workload_views), unfolding(crate::specs::Key::definitions, homeo_syntax::specs::Key::definitions))]
fn slot_count(relation: &RelationDecl) -> u64
    ensures { result ≡ nat_of relation.now.slots.value }
{
    if relation.slots.value < 0 {
        0
    } else {
        relation.slots.value as u64
    }
}
