//! The relations of a workload with a table of their fields.

ghost use Rattle.std.specs.Prelude.{◌≡◌, ℕ, ◌==◌, ◌&&◌, ◌||◌, slice_get, length, IfOk, OnOk};
ghost use Rattle.std.specs.List.{list_any};
ghost use Rattle.homeo_rules.specs.inner.Tabled.{fields_at, has_name, is_tabled, AreTabled};

use homeo_syntax::{Memory, RangeDecl, RelationDecl};
use indexmap::IndexSet;
use std::alloc::Global;
use std::marker::Model;

/// The name of a field with the place of its relation.
#[derive(Clone, Copy, PartialEq, Eq, Hash)]
struct FieldKey {
    relation: usize,
    name: u32,
}

/// Relations whose fields are found in the same time however many there are.
#[derive(Drop)]
pub(crate) struct FieldTable<'a> {
    relations: &'a [RelationDecl],
    keys: IndexSet<FieldKey>,
}

impl<'a> Model for FieldTable<'a> {
    ghost use Rattle.std.specs.Prelude.{List};
    ghost use Rattle.homeo_syntax.specs.declared.workload.RelationDecl.{RelationDecl};
    ghost use Rattle.homeo_rules.specs.inner.Tabled.{AreTabled};

    ghost Value = { List RelationDecl };

    ghost view = { λ t. t.relations.now };

    ghost invariant = { λ t. AreTabled t.relations.now t.keys };
}

/// Puts the fields of the relation of a place to the others.
fn enter_fields(
    keys: &mut IndexSet<FieldKey>,
    relation: usize,
    fields: &[RangeDecl],
) -> Result<(), Memory>
    ensures { OnOk result ((k n : ℕ) → is_tabled keys.new k n ≡
        (is_tabled keys.old k n || ((relation == k) && list_any (λ d. d.name.name == n) fields.now))) }
{
    for d in fields {
        keys.insert(FieldKey {
            relation,
            name: d.name.name,
        })?;
    }
    Ok(())
}

/// The names of the fields of each relation, with the number of the relation.
fn tabled(alloc: Global, relations: &[RelationDecl]) -> Result<IndexSet<FieldKey>, Memory>
    ensures { IfOk result (AreTabled relations.now) }
{
    let mut keys = IndexSet::new(alloc);
    for (place, q) in relations.iter().enumerate() {
        enter_fields(&mut keys, place, q.fields.as_slice())?;
    }
    Ok(keys)
}

impl<'a> FieldTable<'a> {
    /// Enters the fields of all relations, once for many look-ups.
    pub(crate) fn of(alloc: Global, relations: &'a [RelationDecl]) -> Result<FieldTable<'a>, Memory>
        ensures { IfOk result (λ t. t ≡ relations.now) }
    {
        let keys = tabled(alloc, relations)?;
        Ok(FieldTable { relations, keys })
    }

    /// The number of the fields of the relation of a place.
    pub(crate) fn count(&self, relation: usize) -> usize
        ensures { result ≡ length (fields_at self.now relation) }
    {
        match self.relations.get(relation) {
            Some(q) => q.fields.as_slice().len(),
            None => 0,
        }
    }

    /// Whether the relation of a place has a field of a name.
    pub(crate) fn has(&self, relation: usize, name: u32) -> bool
        ensures { result ≡ has_name (slice_get self.now relation) name }
    {
        self.keys.contains(&FieldKey { relation, name })
    }
}
