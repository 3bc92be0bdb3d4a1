//! Deltas in order, each once, those of other sites, and those that are written.

ghost use Rattle.std.specs.Prelude.{◌≡◌, ◌<◌, ◌+◌, ◌++◌, ◌==◌, not, length, drop, [], IsTrue, IfOk, OnOk};
ghost use Rattle.homeo_plan.specs.Linear.{AreInOrder, same_delta, delta_before, deltas_of, add_delta, add_deltas};
ghost use Rattle.homeo_plan.specs.Needs.{remote, add_written};
ghost use Rattle.homeo_form.specs.inner.Order.{IsPlace, begins_with};

use homeo_plan::{Delta, Term};
use homeo_syntax::{Memory, SplitName};
use std::alloc::Global;

/// The order is by object, and then by site.
#[tactic(auto, unfolding(homeo_plan::specs::Key::definitions))]
pub(crate) fn is_before(a: Delta, b: Delta) -> bool
    ensures { result ≡ delta_before a b }
{
    a.object < b.object || (a.object == b.object && a.site < b.site)
}

/// How many of the deltas stand before a delta, looked for from the end: deltas that come in order are put there.
fn place(deltas: &[Delta], delta: Delta) -> usize
    requires { AreInOrder deltas.now }
    ensures { IsPlace delta deltas.now result }
{
    let mut place = deltas.len();
    while place > 0 {
        if is_before(deltas[place - 1], delta) {
            return place;
        }
        place -= 1;
    }
    0
}

/// Whether the delta stands at a place.
fn stands_at(deltas: &[Delta], place: usize, delta: Delta) -> bool
    ensures { result ≡ begins_with delta (drop place deltas.now) }
{
    if place < deltas.len() {
        is_same(&deltas[place], delta)
    } else {
        false
    }
}

#[tactic(auto, unfolding(homeo_plan::specs::Key::definitions))]
fn is_same(found: &Delta, delta: Delta) -> bool
    ensures { result ≡ same_delta delta found.now }
{
    delta == *found
}

/// Adds a delta, unless it is there.
fn add_delta(deltas: &mut Vec<Delta>, delta: Delta) -> Result<(), Memory>
    requires order { AreInOrder deltas.old.items }
    ensures { OnOk result (deltas.new.items ≡ add_delta delta deltas.old.items) }
{
    let place = place(deltas.as_slice(), delta);
    if stands_at(deltas.as_slice(), place, delta) {
        return Ok(());
    }
    deltas.insert(place, delta)?;
    Ok(())
}

/// Whether the delta at a place stands before the next one.
fn leads(deltas: &[Delta], place: usize) -> bool
    requires { place < length deltas.now }
    ensures { IsTrue result → AreInOrder (drop (place + 1) deltas.now) → AreInOrder (drop place deltas.now) }
{
    place + 1 == deltas.len() || is_before(deltas[place], deltas[place + 1])
}

/// Whether the deltas are in order, each once.
fn are_in_order(deltas: &[Delta]) -> bool
    ensures { IsTrue result → AreInOrder deltas.now }
{
    let mut place = deltas.len();
    while place > 0 {
        if !leads(deltas, place - 1) {
            return false;
        }
        place -= 1;
    }
    true
}

/// The deltas, each once. Of deltas in order each is put at the end.
fn collected(alloc: Global, deltas: &[Delta]) -> Result<Vec<Delta>, Memory>
    ensures { IfOk result (λ v. v.items ≡ add_deltas deltas.now []) }
{
    let mut once = Vec::new(alloc);
    for delta in deltas {
        add_delta(&mut once, *delta)?;
    }
    Ok(once)
}

/// The deltas in order, each once. It doesn't matter in which order they are added, so that they are sorted first, unless
/// they are in order.
///
/// # Errors
///
/// `Memory` when out of memory.
pub fn in_order(alloc: Global, deltas: Vec<Delta>) -> Result<Vec<Delta>, Memory>
    ensures { IfOk result (λ v. v.items ≡ add_deltas deltas.items []) }
{
    if are_in_order(deltas.as_slice()) {
        return Ok(deltas);
    }
    let mut sorted = deltas;
    sorted.sort_by_key(|delta| (delta.object, delta.site))?;
    collected(alloc, sorted.as_slice())
}

/// A copy of deltas. Most often there are none.
pub(crate) fn copied(alloc: Global, deltas: &[Delta]) -> Result<Vec<Delta>, Memory>
    ensures { IfOk result (λ v. v.items ≡ deltas.now) }
{
    let mut copy = Vec::new(alloc);
    push_all(&mut copy, deltas)?;
    Ok(copy)
}

/// Puts deltas behind the others. Most often there are none.
pub(crate) fn push_all(deltas: &mut Vec<Delta>, more: &[Delta]) -> Result<(), Memory>
    ensures { OnOk result (deltas.new.items ≡ deltas.old.items ++ more.now) }
{
    if more.is_empty() {
        return Ok(());
    }
    deltas.extend_from_slice(more)?;
    Ok(())
}

/// Puts the deltas of terms behind the others.
pub(crate) fn push_deltas_of(deltas: &mut Vec<Delta>, terms: &[Term]) -> Result<(), Memory>
    ensures { OnOk result (deltas.new.items ≡ deltas.old.items ++ deltas_of terms.now) }
{
    deltas.reserve(terms.len())?;
    for term in terms {
        deltas.push(term.delta)?;
    }
    Ok(())
}

/// Those of other sites than this one.
pub(crate) fn remote(alloc: Global, site: u32, deltas: &[Delta]) -> Result<Vec<Delta>, Memory>
    ensures { IfOk result (λ v. v.items ≡ remote site deltas.now) }
{
    let mut others = Vec::new(alloc);
    for delta in deltas {
        if is_remote(delta, site) {
            others.push(*delta)?;
        }
    }
    Ok(others)
}

fn is_remote(delta: &Delta, site: u32) -> bool
    ensures { result ≡ not (delta.now.site == site) }
{
    delta.site != site
}

/// Puts a delta that is written behind the others. Another name isn't put there.
///
/// # Errors
///
/// `Memory` when out of memory.
#[tactic(auto, unfolding(homeo_plan::specs::Key::definitions))]
pub fn push_written(written: &mut Vec<Delta>, name: SplitName) -> Result<(), Memory>
    ensures { OnOk result (add_deltas written.new.items [] ≡ add_written name (add_deltas written.old.items [])) }
{
    match name {
        SplitName::Delta { object, site } => {
            written.push(Delta { object, site })?;
            Ok(())
        }
        SplitName::Whole(_) | SplitName::Base(_) => Ok(()),
    }
}
