//! Terms in the order of their deltas, each delta once.

ghost use Rattle.std.specs.Prelude.{◌≡◌, ◌<◌, ◌+◌, ◌+ℤ◌, ◌*ℤ◌, pos, negsuc, not, length, drop, [], ◌∷◌, IsTrue, IfOk, OnOk};
ghost use Rattle.std.specs.Ordering.{int_eq};
ghost use Rattle.homeo_meaning.specs.Small.{IsSmall};
ghost use Rattle.homeo_plan.specs.Linear.{AreInOrder, same_delta, deltas_of, add_term, add_terms, scale_terms};
ghost use Rattle.homeo_plan.specs.Limit.{form_limit};
ghost use Rattle.homeo_form.specs.inner.Order.{IsPlace, begins_with};
ghost use Rattle.homeo_form.specs.inner.Terms.{AreWithin, AreSmall, AllCount, AreAddedUp, sum_limit, add_at, share, factor_at};

use crate::deltas::is_before;
use crate::numbers::{added, multiplied};
use homeo_plan::{Delta, Term};
use homeo_syntax::Memory;
use std::alloc::Global;

/// How many of the terms stand before a delta, looked for from the end: terms that come in order are put there.
fn place(terms: &[Term], delta: Delta) -> usize
    requires { AreInOrder (deltas_of terms.now) }
    ensures { IsPlace delta (deltas_of terms.now) result }
{
    let mut place = terms.len();
    while place > 0 {
        if is_before(terms[place - 1].delta, delta) {
            return place;
        }
        place -= 1;
    }
    0
}

/// The same, looked for by halving.
fn place_by_halving(terms: &[Term], delta: Delta) -> usize
    requires { AreInOrder (deltas_of terms.now) }
    ensures { IsPlace delta (deltas_of terms.now) result }
{
    terms.partition_point(|term| is_before(term.delta, delta))
}

/// The factor of a delta among terms in order, 0 where it has none.
pub(crate) fn factor_of(terms: &[Term], delta: Delta) -> i128
    requires { AreInOrder (deltas_of terms.now) }
    ensures { result ≡ factor_at delta terms.now }
{
    let place = place_by_halving(terms, delta);
    if place < terms.len() {
        share(&terms[place], delta)
    } else {
        0
    }
}

/// The term's factor, if it is one of the delta.
fn share(term: &Term, delta: Delta) -> i128
    ensures { result ≡ share delta term.now.delta term.now.factor }
{
    if is_of(term, delta) { term.factor } else { 0 }
}

/// Whether the delta by itself is the one term.
pub(crate) fn is_delta(terms: &[Term], delta: Delta) -> bool
    ensures { IsTrue result → terms.now ≡ record { delta = delta; factor = pos 1 } ∷ [] }
{
    terms.len() == 1 && is_once(&terms[0], delta)
}

/// Whether the term is the delta by itself.
fn is_once(term: &Term, delta: Delta) -> bool
    ensures { IsTrue result → term.now ≡ record { delta = delta; factor = pos 1 } }
{
    is_of(term, delta) && term.factor == 1
}

/// Whether the term at a place is one of the delta.
fn stands_at(terms: &[Term], place: usize, delta: Delta) -> bool
    ensures { result ≡ begins_with delta (deltas_of (drop place terms.now)) }
{
    if place < terms.len() {
        is_of(&terms[place], delta)
    } else {
        false
    }
}

#[tactic(auto, unfolding(homeo_plan::specs::Key::definitions))]
fn is_of(term: &Term, delta: Delta) -> bool
    ensures { result ≡ same_delta delta term.now.delta }
{
    delta == term.delta
}

#[tactic(auto, unfolding(homeo_plan::specs::Key::definitions))]
fn counts(term: &Term) -> bool
    ensures { result ≡ not (int_eq term.now.factor (pos 0)) }
{
    term.factor != 0
}

/// The term with another's factor added to its own.
fn plus(term: &Term, more: &Term) -> Term
    requires factor { IsSmall form_limit more.now.factor }
    requires small { IsSmall sum_limit term.now.factor }
    ensures delta { result.delta ≡ term.now.delta }
    ensures factor { result.factor ≡ more.now.factor +ℤ term.now.factor }
{
    Term {
        delta: term.delta,
        factor: added(more.factor, term.factor),
    }
}

/// The term with its factor multiplied.
fn times(term: &Term, factor: i128) -> Term
    requires factor { IsSmall form_limit factor }
    requires small { IsSmall form_limit term.now.factor }
    ensures delta { result.delta ≡ term.now.delta }
    ensures factor { result.factor ≡ factor *ℤ term.now.factor }
{
    Term {
        delta: term.delta,
        factor: multiplied(factor, term.factor),
    }
}

/// Adds a term's factor to that of the term at a place, which is taken out where it becomes 0.
fn add_factor(terms: &mut Vec<Term>, place: usize, more: &Term)
    requires within { place < length terms.old.items }
    requires factor { IsSmall form_limit more.now.factor }
    requires small { AreWithin sum_limit terms.old.items }
    ensures { terms.new.items ≡ add_at place more.now.factor terms.old.items }
{
    let sum = plus(&terms[place], more);
    if counts(&sum) {
        terms[place] = sum;
    } else {
        terms.remove(place);
    }
}

/// Adds a term.
fn add_term(terms: &mut Vec<Term>, term: &Term) -> Result<(), Memory>
    requires order { AreInOrder (deltas_of terms.old.items) }
    requires factor { IsSmall form_limit term.now.factor }
    requires small { AreWithin sum_limit terms.old.items }
    ensures { OnOk result (terms.new.items ≡ add_term term.now.delta term.now.factor terms.old.items) }
{
    let place = place(terms.as_slice(), term.delta);
    if stands_at(terms.as_slice(), place, term.delta) {
        add_factor(terms, place, term);
        return Ok(());
    }
    if counts(term) {
        terms.insert(place, *term)?;
    }
    Ok(())
}

/// The terms where a delta has a factor that is less by 1.
pub(crate) fn with_one_less(
    alloc: Global,
    terms: &[Term],
    delta: Delta,
) -> Result<Vec<Term>, Memory>
    requires order { AreInOrder (deltas_of terms.now) }
    requires small { AreSmall terms.now }
    ensures { IfOk result (λ v. v.items ≡ add_term delta (negsuc 0) terms.now) }
{
    let mut less = Vec::from_slice(alloc, terms)?;
    add_term(&mut less, &Term { delta, factor: -1 })?;
    Ok(less)
}

/// Whether the term at a place counts, and stands before the next one.
fn leads(terms: &[Term], place: usize) -> bool
    requires { place < length terms.now }
    ensures { IsTrue result → AreAddedUp (drop (place + 1) terms.now) → AreAddedUp (drop place terms.now) }
{
    counts(&terms[place])
        && (place + 1 == terms.len() || is_before(terms[place].delta, terms[place + 1].delta))
}

/// Whether the terms are in order, each delta once, and no factor is 0.
fn are_added_up(terms: &[Term]) -> bool
    ensures { IsTrue result → AreAddedUp terms.now }
{
    let mut place = terms.len();
    while place > 0 {
        if !leads(terms, place - 1) {
            return false;
        }
        place -= 1;
    }
    true
}

/// The terms added up, one after another. Of terms in order each is put at the end.
fn collected(alloc: Global, terms: &[Term]) -> Result<Vec<Term>, Memory>
    requires { AreSmall terms.now }
    ensures { IfOk result (λ v. v.items ≡ add_terms terms.now []) }
{
    let mut sums = Vec::new(alloc);
    for term in terms {
        add_term(&mut sums, term)?;
    }
    Ok(sums)
}

/// The terms added up. It doesn't matter to the sums in which order they are added, so that they are brought into that of
/// their deltas first, unless they stand in it.
pub(crate) fn added_up(alloc: Global, terms: Vec<Term>) -> Result<Vec<Term>, Memory>
    requires { AreSmall terms.items }
    ensures { IfOk result (λ v. v.items ≡ add_terms terms.items []) }
{
    if are_added_up(terms.as_slice()) {
        return Ok(terms);
    }
    let mut sorted = terms;
    sorted.sort_by_key(|t| (t.delta.object, t.delta.site))?;
    collected(alloc, sorted.as_slice())
}

/// The terms with their factors multiplied, without those that become 0.
pub(crate) fn scaled(alloc: Global, factor: i128, terms: &[Term]) -> Result<Vec<Term>, Memory>
    requires factor { IsSmall form_limit factor }
    requires small { AreSmall terms.now }
    ensures { IfOk result (λ v. v.items ≡ scale_terms factor terms.now) }
{
    let mut scaled = Vec::with_capacity(alloc, terms.len())?;
    for term in terms {
        let product = times(term, factor);
        if counts(&product) {
            scaled.push(product)?;
        }
    }
    Ok(scaled)
}

/// Turns the signs of terms whose factors aren't 0.
pub(crate) fn negate(terms: &mut Vec<Term>)
    requires small { AreSmall terms.old.items }
    requires counts { AllCount terms.old.items }
    ensures { terms.new.items ≡ scale_terms (negsuc 0) terms.old.items }
{
    for place in 0..terms.len() {
        terms[place] = times(&terms[place], -1);
    }
}
