//! The global names and the fields of relations, as the code knows them.

ghost use Rattle.std.specs.Prelude.{◌≡◌, length, slice_get};
ghost use Rattle.homeo_rules.specs.inner.Scopes.{scope_in};
ghost use Rattle.homeo_rules.specs.inner.Tabled.{has_name};

use crate::names::field_table::FieldTable;
use homeo_meaning::Item;

/// What each name stands for as a global name, by the name's number, and the relations by their own numbers.
#[derive(Clone, Copy)]
pub(crate) struct Scope<'a> {
    pub(crate) items: &'a [Option<Item>],
    pub(crate) relations: &'a FieldTable<'a>,
}

impl Scope<'_> {
    /// What a global name stands for.
    pub(crate) fn item(&self, name: u32) -> Option<Item>
        ensures { result ≡ (scope_in self.now).item name }
    {
        match self.items.get(name as usize) {
            Some(item) => *item,
            None => None,
        }
    }

    /// The number of fields of the relation of a number.
    pub(crate) fn field_count(&self, relation: usize) -> usize
        ensures { result ≡ length ((scope_in self.now).fields relation) }
    {
        self.relations.count(relation)
    }

    /// Whether the relation of a number has a field of the name.
    pub(crate) fn has_field(&self, relation: usize, name: u32) -> bool
        ensures { result ≡ has_name (slice_get self.now.relations.now relation) name }
    {
        self.relations.has(relation, name)
    }
}
