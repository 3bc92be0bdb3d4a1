//! The table of the global names.

ghost use Rattle.std.specs.Prelude.{◌≡◌, replicate, is_some, None, IfOk};
ghost use Rattle.homeo_meaning.specs.declared.rules.Item.TheVariants as I;
ghost use Rattle.homeo_rules.specs.inner.Scopes.{item_at};
ghost use Rattle.homeo_rules.specs.inner.Items.{enter, along_names};

use crate::deciding::at_name;
use homeo_meaning::{Fault, Item, Phase};
use homeo_syntax::{Client, Ident, Memory, ObjectDecl, RelationDecl, Transaction};
use std::alloc::Global;
use std::marker::Model;

/// What each name stands for, by the name's number, and the fault that decides so far.
#[derive(Drop)]
pub(crate) struct Items {
    items: Vec<Option<Item>>,
    best: Option<Fault>,
}

impl Model for Items {
    ghost use Rattle.homeo_rules.specs.inner.Items.{Items as Plain};

    ghost Value = { Plain };

    ghost view = { λ t. record { items = t.items.items; best = t.best } };
}

impl Items {
    pub(crate) fn new(alloc: Global, names: usize, best: Option<Fault>) -> Result<Items, Memory>
        ensures { IfOk result (λ t. t ≡ record { items = replicate names None; best = best }) }
    {
        let items = vec![in alloc; None; names]?;
        Ok(Items { items, best })
    }

    pub(crate) fn best(&self) -> Option<Fault>
        ensures { result ≡ self.now.best }
    {
        self.best
    }

    pub(crate) fn as_slice(&self) -> &[Option<Item>]
        ensures { result.now ≡ self.now.items }
    {
        self.items.as_slice()
    }

    fn is_known(&self, name: u32) -> bool
        ensures { result ≡ is_some (item_at self.now.items name) }
    {
        match self.items.get(name as usize) {
            Some(item) => item.is_some(),
            None => false,
        }
    }

    /// Enters a name, unless it is there: then that is a fault.
    #[tactic(auto, using(crate::proofs::Steps::steps))]
    fn enter(&mut self, x: Ident, item: Item)
        ensures { self.new ≡ enter self.old x item }
    {
        if self.is_known(x.name) {
            self.best = at_name(self.best, Phase::Duplicate, x);
        } else if let Some(place) = self.items.get_mut(x.name as usize) {
            *place = Some(item);
        }
    }
}

pub(crate) fn enter_objects(ds: &[ObjectDecl], t: &mut Items)
    ensures { t.new ≡ along_names (λ d. d.name) I.Object 0 t.old ds.now }
{
    for (i, d) in ds.iter().enumerate() {
        t.enter(d.name, Item::Object(i));
    }
}

pub(crate) fn enter_relations(ds: &[RelationDecl], t: &mut Items)
    ensures { t.new ≡ along_names (λ d. d.name) I.Relation 0 t.old ds.now }
{
    for (i, d) in ds.iter().enumerate() {
        t.enter(d.name, Item::Relation(i));
    }
}

pub(crate) fn enter_transactions(ds: &[Transaction], t: &mut Items)
    ensures { t.new ≡ along_names (λ d. d.name) I.Transaction 0 t.old ds.now }
{
    for (i, d) in ds.iter().enumerate() {
        t.enter(d.name, Item::Transaction(i));
    }
}

pub(crate) fn enter_clients(ds: &[Client], t: &mut Items)
    ensures { t.new ≡ along_names (λ d. d.name) I.Client 0 t.old ds.now }
{
    for (i, d) in ds.iter().enumerate() {
        t.enter(d.name, Item::Client(i));
    }
}
