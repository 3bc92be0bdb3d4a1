//! The rules of the declarations of relations.

ghost use Rattle.std.specs.Prelude.{◌≡◌, [], IfOk};
ghost use Rattle.homeo_rules.specs.inner.Deciding.{keep_all};
ghost use Rattle.homeo_rules.specs.inner.Listwise.{along_all, along_each};
ghost use Rattle.homeo_rules.specs.inner.Relations.{declared_twice, relation_faults_of, slot_faults_of};

use crate::deciding::at_number;
use crate::rules::bounds::check_ranges;
use crate::rules::distinct::check_new;
use homeo_meaning::{Fault, Phase};
use homeo_syntax::{Memory, RangeDecl, RelationDecl};
use indexmap::IndexSet;
use std::alloc::Global;

const MOST_SLOTS: i64 = 64;

/// No field is declared twice.
fn check_distinct(
    alloc: Global,
    ds: &[RangeDecl],
    best: Option<Fault>,
) -> Result<Option<Fault>, Memory>
    ensures { IfOk result (λ b. b ≡ along_each declared_twice [] best ds.now) }
{
    let mut names = IndexSet::new(alloc);
    let mut best = best;
    for d in ds {
        best = check_new(&mut names, d.name, best)?;
    }
    Ok(best)
}

#[tactic(auto, using(crate::proofs::Declaring::declaring))]
fn check_relation(
    alloc: Global,
    q: &RelationDecl,
    best: Option<Fault>,
) -> Result<Option<Fault>, Memory>
    ensures { IfOk result (λ b. b ≡ keep_all best (relation_faults_of q.now)) }
{
    let best = check_ranges(q.fields.as_slice(), best);
    check_distinct(alloc, q.fields.as_slice(), best)
}

/// The bounds and the names of the fields.
pub(crate) fn check_relations(
    alloc: Global,
    qs: &[RelationDecl],
    best: Option<Fault>,
) -> Result<Option<Fault>, Memory>
    ensures { IfOk result (λ b. b ≡ along_all relation_faults_of best qs.now) }
{
    let mut best = best;
    for q in qs {
        best = check_relation(alloc, q, best)?;
    }
    Ok(best)
}

#[tactic(auto, using(crate::proofs::Declaring::slots))]
fn check_slots(q: &RelationDecl, best: Option<Fault>) -> Option<Fault>
    ensures { result ≡ keep_all best (slot_faults_of q.now) }
{
    if q.slots.value < 1 || MOST_SLOTS < q.slots.value {
        at_number(best, Phase::Limits, q.slots)
    } else {
        best
    }
}

/// From 1 to 64 slots.
pub(crate) fn check_all_slots(qs: &[RelationDecl], best: Option<Fault>) -> Option<Fault>
    ensures { result ≡ along_all slot_faults_of best qs.now }
{
    let mut best = best;
    for q in qs {
        best = check_slots(q, best);
    }
    best
}
