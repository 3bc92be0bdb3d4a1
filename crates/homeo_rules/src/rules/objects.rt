//! The limit on how many objects are declared, those of relations too.

ghost use Rattle.std.specs.Prelude.{◌≡◌, ◌<◌, ◌^◌};
ghost use Rattle.homeo_meaning.specs.NumberRules.{object_making};
ghost use Rattle.homeo_rules.specs.inner.Counting.{counted, count_all, making_of};

use crate::deciding::at_name;
use homeo_meaning::{Fault, Phase};
use homeo_syntax::{Ident, ObjectDecl, RelationDecl};

const MOST_OBJECTS: u128 = 1024;

/// How many objects are declared so far, a number that stands still past the limit, and the fault that decides.
#[derive(Clone, Copy)]
pub(crate) struct Counted {
    pub(crate) count: u128,
    pub(crate) best: Option<Fault>,
}

/// With so many objects more; the name by which a limit is passed is a fault.
#[tactic(auto, using(crate::proofs::Counts::counting))]
fn add(k: Counted, name: Ident, objects: u128) -> Counted
    requires { objects < 2 ^ 127 }
    ensures { record { count = result.count; best = result.best } ≡ counted (record { count = k.count; best = k.best }) (record { name = name; objects = objects }) }
{
    if k.count > MOST_OBJECTS {
        return k;
    }
    let count = k.count + objects;
    let best = if count > MOST_OBJECTS {
        at_name(k.best, Phase::Limits, name)
    } else {
        k.best
    };
    Counted { count, best }
}

/// In each slot one object more than fields.
#[tactic(auto, using(crate::proofs::Counts::makings))]
fn objects_of(q: &RelationDecl) -> u128
    ensures { (result ≡ (making_of q.now).objects) × (result < 2 ^ 127) }
{
    (q.slots.value.max(0) as u128) * (1 + q.fields.as_slice().len() as u128)
}

#[tactic(auto, using(crate::proofs::Counts::makings))]
fn add_relation(k: Counted, q: &RelationDecl) -> Counted
    ensures { record { count = result.count; best = result.best } ≡ counted (record { count = k.count; best = k.best }) (making_of q.now) }
{
    add(k, q.name, objects_of(q))
}

fn count_objects(ds: &[ObjectDecl], k: Counted) -> Counted
    ensures { record { count = result.count; best = result.best } ≡ count_all object_making (record { count = k.count; best = k.best }) ds.now }
{
    let mut k = k;
    for d in ds {
        k = add(k, d.name, 1);
    }
    k
}

fn count_relations(qs: &[RelationDecl], k: Counted) -> Counted
    ensures { record { count = result.count; best = result.best } ≡ count_all making_of (record { count = k.count; best = k.best }) qs.now }
{
    let mut k = k;
    for q in qs {
        k = add_relation(k, q);
    }
    k
}

/// The declaration with which there are too many objects.
pub(crate) fn check_object_count(
    ds: &[ObjectDecl],
    qs: &[RelationDecl],
    best: Option<Fault>,
) -> Option<Fault>
    ensures { result ≡ (count_all making_of (count_all object_making (record { count = 0; best = best }) ds.now) qs.now).best }
{
    let k = count_objects(ds, Counted { count: 0, best });
    count_relations(qs, k).best
}
