//! The rules of fields that are named in a transaction.

ghost use Rattle.std.specs.Prelude.{◌≡◌, [], Some, IfOk};
ghost use Rattle.homeo_meaning.specs.NameRules.{field_of, fills_all, fills_fields};
ghost use Rattle.homeo_rules.specs.inner.Deciding.{keep_all};
ghost use Rattle.homeo_rules.specs.inner.Listwise.{along_all, along_each};
ghost use Rattle.homeo_rules.specs.inner.Plain.{named_fields};
ghost use Rattle.homeo_rules.specs.inner.Relations.{named_twice, value_field};
ghost use Rattle.homeo_meaning.specs.declared.rules.Item.TheVariants.{Relation};
ghost use Rattle.homeo_rules.specs.inner.Scopes.{scope_in};

use crate::deciding::at_name;
use crate::names::scope::Scope;
use crate::rules::distinct::check_new;
use homeo_meaning::{Fault, Item, Phase};
use homeo_syntax::{FieldValue, Ident, Memory};
use indexmap::IndexSet;
use std::alloc::Global;

/// The relation of a number has the field.
#[tactic(auto, using(crate::proofs::Steps::lookups))]
fn check_field_at(
    scope: &Scope<'_>,
    place: usize,
    field: Ident,
    best: Option<Fault>,
) -> Option<Fault>
    ensures { result ≡ keep_all best (field_of (scope_in scope.now) (Some (Relation place)) field) }
{
    if scope.has_field(place, field.name) {
        best
    } else {
        at_name(best, Phase::Unknown, field)
    }
}

/// A field is looked up in its relation, where that is one.
#[tactic(auto, using(crate::proofs::Steps::lookups))]
pub(crate) fn check_field(
    scope: &Scope<'_>,
    relation: Option<Item>,
    field: Ident,
    best: Option<Fault>,
) -> Option<Fault>
    ensures { result ≡ keep_all best (field_of (scope_in scope.now) relation field) }
{
    match relation {
        Some(Item::Relation(place)) => check_field_at(scope, place, field, best),
        _ => best,
    }
}

/// The relation has each field that an insert names.
fn check_fields(
    scope: &Scope<'_>,
    relation: Option<Item>,
    fields: &[FieldValue],
    best: Option<Fault>,
) -> Option<Fault>
    ensures { result ≡ along_all (value_field (scope_in scope.now) relation) best fields.now }
{
    let mut best = best;
    for f in fields {
        best = check_field(scope, relation, f.field, best);
    }
    best
}

/// No field is named twice.
fn check_distinct(
    alloc: Global,
    fields: &[FieldValue],
    best: Option<Fault>,
) -> Result<Option<Fault>, Memory>
    ensures { IfOk result (λ b. b ≡ along_each named_twice [] best fields.now) }
{
    let mut names = IndexSet::new(alloc);
    let mut best = best;
    for f in fields {
        best = check_new(&mut names, f.field, best)?;
    }
    Ok(best)
}

#[tactic(auto, using(crate::proofs::Steps::keeping))]
fn check_count(
    scope: &Scope<'_>,
    item: Option<Item>,
    relation: Ident,
    count: usize,
    best: Option<Fault>,
) -> Option<Fault>
    ensures { result ≡ keep_all best (fills_all (scope_in scope.now) item relation count) }
{
    match item {
        Some(Item::Relation(place)) => {
            if count == scope.field_count(place) {
                best
            } else {
                at_name(best, Phase::Arity, relation)
            }
        }
        _ => best,
    }
}

/// An insert names each field of its relation once.
#[tactic(auto, using(crate::proofs::Filling::filling))]
pub(crate) fn check_insert(
    alloc: Global,
    scope: &Scope<'_>,
    relation: Ident,
    fields: &[FieldValue],
    best: Option<Fault>,
) -> Result<Option<Fault>, Memory>
    ensures { IfOk result (λ b. b ≡ keep_all best (fills_fields (scope_in scope.now) ((scope_in scope.now).item relation.name) relation (named_fields fields.now))) }
{
    let item = scope.item(relation.name);
    let best = check_distinct(alloc, fields, best)?;
    let best = check_fields(scope, item, fields, best);
    Ok(check_count(scope, item, relation, fields.len(), best))
}
