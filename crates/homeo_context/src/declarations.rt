//! The places of objects and transactions, looked up by name.

ghost use Rattle.std.specs.Prelude.{◌≡◌, ◌≤◌, All, map, length, IfOk};
ghost use Rattle.homeo_syntax.specs.SourceView.{plain_relation, plain_workload};
ghost use Rattle.homeo_meaning.specs.Schema.{declared_range, declared_relation};
ghost use Rattle.homeo_meaning.specs.Declarations.{declarations, place_of};
ghost use Rattle.homeo_meaning.specs.Context.{spot, find_slots, find_fields, object_count};
ghost use Rattle.homeo_context.specs.Placed.{placed_relation, StandFrom, HasSlots};
ghost use Rattle.homeo_context.specs.Slots.{slots_of, IsCounted, IsNumbered};

use crate::slots::Slots;
use crate::spot::Spot;
use homeo_meaning::Accepted;
use homeo_meaning::padded::{item_or, put};
use homeo_syntax::{Memory, ObjectDecl, RangeDecl, RelationDecl, Transaction, Workload};
use std::alloc::Global;
use std::marker::Model;

/// The first place of each name in a list of names.
#[derive(Drop)]
pub struct Places {
    names: Vec<u32>,
    places: Vec<usize>,
}

impl Model for Places {
    ghost use Rattle.std.specs.Prelude.{ℕ, List};
    ghost use Rattle.homeo_context.specs.Places.{IsTable};

    ghost Value = { List ℕ };

    ghost view = { λ p. p.names.items };

    ghost invariant = { λ p. IsTable p.names.items p.places.items };
}

/// A relation, with the number of the first of its objects.
#[derive(Drop)]
struct Placed {
    name: u32,
    first: usize,
    slots: usize,
    fields: Vec<RangeDecl>,
}

/// The places of a workload's objects, relations and transactions by their names, made once for many calls.
#[derive(Drop)]
pub struct Declarations {
    objects: Vec<ObjectDecl>,
    relations: Vec<Placed>,
    object_places: Places,
    relation_places: Places,
    transaction_places: Places,
}

impl Model for Declarations {
    ghost use Rattle.std.specs.Prelude.{map};
    ghost use Rattle.homeo_meaning.specs.Schema.{declared_object};
    ghost use Rattle.homeo_meaning.specs.Declarations.{Declarations};
    ghost use Rattle.homeo_context.specs.Placed.{placed_relation, ArePlaced};

    ghost Value = { Declarations };

    ghost view = { λ n. record {
      schema = record {
        objects = map declared_object n.objects.items;
        relations = map placed_relation n.relations.items;
      };
      transactions = n.transaction_places;
    } };

    ghost invariant = { λ n. ArePlaced n.objects.items n.relations.items n.object_places n.relation_places };
}

impl Places {
    /// Looks the first place of each name up, from the last name to the first.
    ///
    /// # Errors
    ///
    /// `Memory` where memory is wanting.
    pub fn of(alloc: Global, names: Vec<u32>) -> Result<Places, Memory>
        ensures { IfOk result (λ p. p ≡ names.items) }
    {
        let absent = names.len();
        let mut places = Vec::new(alloc);
        let mut place = absent;
        while place > 0 {
            place -= 1;
            put(&mut places, names[place] as usize, place, absent)?;
        }
        Ok(Places { names, places })
    }

    /// Looks the first place of each object's name up.
    ///
    /// # Errors
    ///
    /// `Memory` where memory is wanting.
    pub fn of_objects(alloc: Global, objects: &[ObjectDecl]) -> Result<Places, Memory>
        ensures { IfOk result (λ p. p ≡ map (λ d. d.name.name) objects.now) }
    {
        let names = object_names(alloc, objects)?;
        Places::of(alloc, names)
    }

    /// The first place of a name, or the number of names where it is not there.
    pub fn get(&self, name: u32) -> usize
        ensures { result ≡ place_of self.now name }
    {
        item_or(self.places.as_slice(), name as usize, self.names.len())
    }
}

impl Declarations {
    /// Makes the places of an accepted workload's names.
    ///
    /// # Errors
    ///
    /// `Memory` where memory is wanting.
    pub fn of(alloc: Global, w: &Accepted) -> Result<Declarations, Memory>
        ensures { IfOk result (λ n. n ≡ declarations (plain_workload w.now)) }
    {
        Declarations::of_workload(alloc, w.workload())
    }

    /// Makes the places of a workload's names. Each relation has from 1 to 64 slots, and the objects, with those of the
    /// relations, are no more than a workload may have.
    ///
    /// # Errors
    ///
    /// `Memory` where memory is wanting.
    pub fn of_workload(alloc: Global, workload: &Workload) -> Result<Declarations, Memory>
        requires slots { All HasSlots workload.now.relations.items }
        requires few { object_count (length workload.now.objects.items)
            (map declared_relation (map plain_relation workload.now.relations.items)) ≤ 1024 }
        ensures { IfOk result (λ n. n ≡ declarations (plain_workload workload.now)) }
    {
        let objects = workload.objects.as_slice();
        let relations = place_relations(alloc, objects.len(), workload.relations.as_slice())?;
        let relation_names = relation_names(alloc, relations.as_slice())?;
        let transaction_names = transaction_names(alloc, workload.transactions.as_slice())?;
        Ok(Declarations {
            objects: Vec::from_slice(alloc, objects)?,
            relations,
            object_places: Places::of_objects(alloc, objects)?,
            relation_places: Places::of(alloc, relation_names)?,
            transaction_places: Places::of(alloc, transaction_names)?,
        })
    }

    /// The number of all objects, those of the slots among them.
    pub fn object_count(&self) -> usize
        ensures { result ≡ object_count (length self.now.schema.objects) self.now.schema.relations }
    {
        count_objects(self.objects.len(), self.relations.as_slice())
    }

    /// The number of the object of a name, or the number of objects where there is none.
    fn object(&self, name: u32) -> usize
        ensures { result ≡ (spot self.now.schema.objects name).place }
    {
        self.object_places.get(name)
    }

    /// The object of a name: where there is none, the number of objects, and the bounds 0 and 0.
    pub fn spot(&self, name: u32) -> Spot
        ensures place { result.place ≡ (spot self.now.schema.objects name).place }
        ensures lo { result.lo ≡ (spot self.now.schema.objects name).lo }
        ensures hi { result.hi ≡ (spot self.now.schema.objects name).hi }
    {
        let place = self.object(name);
        match self.objects.get(place) {
            Some(object) => Spot {
                place,
                lo: object.lo.value,
                hi: object.hi.value,
            },
            None => Spot {
                place,
                lo: 0,
                hi: 0,
            },
        }
    }

    /// The slots of the relation of a name: where there is none, none.
    pub fn relation(&self, name: u32) -> Slots<'_>
        ensures slots { slots_of result ≡ find_slots (length self.now.schema.objects) self.now.schema.relations name }
        ensures fields { map declared_range result.fields.now ≡ find_fields self.now.schema.relations name }
        ensures counted { IsCounted result }
        ensures numbered { IsNumbered result }
    {
        match self.relations.get(self.relation_places.get(name)) {
            Some(relation) => Slots {
                first: relation.first,
                count: relation.slots,
                fields: relation.fields.as_slice(),
            },
            None => Slots {
                first: 0,
                count: 0,
                fields: &[],
            },
        }
    }

    /// The place of the transaction of a name, or the number of transactions where there is none.
    pub fn transaction(&self, name: u32) -> usize
        ensures { result ≡ place_of self.now.transactions name }
    {
        self.transaction_places.get(name)
    }
}

fn object_names(alloc: Global, objects: &[ObjectDecl]) -> Result<Vec<u32>, Memory>
    ensures { IfOk result (λ names. names.items ≡ map (λ d. d.name.name) objects.now) }
{
    let mut names = Vec::new(alloc);
    for object in objects {
        names.push(object.name.name)?;
    }
    Ok(names)
}

/// Places relations one after another, the first of them at this object.
fn place_relations(
    alloc: Global,
    first: usize,
    relations: &[RelationDecl],
) -> Result<Vec<Placed>, Memory>
    requires slots { All HasSlots relations.now }
    requires few { object_count first (map declared_relation (map plain_relation relations.now)) ≤ 1024 }
    ensures relations { IfOk result (λ ps. map placed_relation ps.items ≡
        map declared_relation (map plain_relation relations.now)) }
    ensures stand { IfOk result (λ ps. StandFrom first ps.items) }
{
    let mut places = Vec::new(alloc);
    let mut next = first;
    for relation in relations {
        let slots = relation.slots.value as usize;
        let fields = Vec::from_slice(alloc, relation.fields.as_slice())?;
        let width = 1 + fields.len();
        places.push(Placed {
            name: relation.name.name,
            first: next,
            slots,
            fields,
        })?;
        next += slots * width;
    }
    Ok(places)
}

/// The number of all objects, where so many stand before those of the relations.
fn count_objects(first: usize, relations: &[Placed]) -> usize
    requires { StandFrom first relations.now }
    ensures { result ≡ object_count first (map placed_relation relations.now) }
{
    let mut count = first;
    for relation in relations {
        count += relation.slots * (1 + relation.fields.len());
    }
    count
}

fn relation_names(alloc: Global, relations: &[Placed]) -> Result<Vec<u32>, Memory>
    ensures { IfOk result (λ names. names.items ≡ map (λ p. p.name) relations.now) }
{
    let mut names = Vec::new(alloc);
    for relation in relations {
        names.push(relation.name)?;
    }
    Ok(names)
}

fn transaction_names(alloc: Global, transactions: &[Transaction]) -> Result<Vec<u32>, Memory>
    ensures { IfOk result (λ names. names.items ≡ map (λ t. t.name.name) transactions.now) }
{
    let mut names = Vec::new(alloc);
    for transaction in transactions {
        names.push(transaction.name.name)?;
    }
    Ok(names)
}
