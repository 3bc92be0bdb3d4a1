//! Clauses that are looked at in place of others: those of the same terms and no more slack.

ghost use Rattle.std.specs.Prelude.{◌≡◌, ◌<◌, ℕ, List as Seq, [], IsTrue, IfOk, IfSome, OnOk, true, length, map, pos, int_lt, slice_index_or};
ghost use Rattle.homeo_plan.specs.declared.forms.Term.{Term};
ghost use Rattle.homeo_outline.specs.Leaders.{IsLed, Lead};
ghost use Rattle.homeo_outline.specs.Numbers.{has, clauses_on};
ghost use Rattle.homeo_outline.specs.inner.Alike.{AreAlike};

use crate::outline::Outline;
use homeo_meaning::padded::item_or;
use homeo_plan::Term;
use homeo_syntax::{List, Memory};
use std::alloc::Global;
use std::marker::Model;

/// An object with so few clauses needs no leaders.
const FEW_CLAUSES: usize = 3;
/// So many leaders may an object have, and so many terms each, that to find them is linear in the clauses.
const MOST_LEADERS: usize = 8;

const MOST_TERMS: usize = 4;

/// Of each object the numbers of the clauses that lead those on it. An object has none where it has few clauses, and where these have
/// many different terms, or many terms each.
#[derive(Drop)]
pub struct Leaders {
    numbers: Vec<Vec<u32>>,
}

impl Model for Leaders {
    ghost use Rattle.std.specs.Prelude.{ℕ, List, map};

    ghost Value = { List (List ℕ) };

    ghost view = { λ l. map (λ v. v.items) l.numbers.items };
}

impl Leaders {
    /// The leaders of an outline's clauses with these slacks. They lead too where each slack moves by what its terms gain, so that plans
    /// that share an outline share them. It takes time and memory linear in where objects stand in the outline.
    ///
    /// # Errors
    ///
    /// `Memory` when out of memory.
    pub fn of(alloc: Global, outline: &Outline, slacks: &[i128]) -> Result<Leaders, Memory>
        ensures { IfOk result (Lead outline.now.terms slacks.now) }
    {
        let mut numbers = Vec::with_capacity(alloc, outline.objects())?;
        for object in 0..outline.objects() {
            numbers.push(leaders_on(alloc, outline, slacks, object)?)?;
        }
        Ok(Leaders { numbers })
    }

    /// Lends the numbers of an object's leaders.
    pub fn on(&self, object: u32) -> &[u32]
        ensures { result.now ≡ slice_index_or self.now object [] }
    {
        let place = object as usize;
        if place < self.numbers.len() {
            self.numbers[place].as_slice()
        } else {
            &[]
        }
    }
}

/// The leaders of an object, or none.
fn leaders_on(
    alloc: Global,
    outline: &Outline,
    slacks: &[i128],
    object: usize,
) -> Result<Vec<u32>, Memory>
    ensures { IfOk result (λ v. (n : ℕ) → (v.items ≡ [] → ⊥) → has n (clauses_on object outline.now.terms) ≡ true
        → IsLed outline.now.terms slacks.now v.items n) }
{
    let clauses = outline.clauses_at(object);
    if clauses.len() <= FEW_CLAUSES {
        return Ok(Vec::new(alloc));
    }
    let mut leaders = Vec::new(alloc);
    for number in clauses {
        if !lead(outline.terms(), slacks, *number, &mut leaders)? {
            return Ok(Vec::new(alloc));
        }
    }
    Ok(leaders)
}

/// Sees to it that the clause of a number is led, as all are that were. Whether it is can be told.
fn lead(
    terms: &[List<Term>],
    slacks: &[i128],
    number: u32,
    leaders: &mut Vec<u32>,
) -> Result<bool, Memory>
    ensures stays { OnOk result ((n : ℕ) → IsLed (map (λ l. l.items) terms.now) slacks.now leaders.old.items n
        → IsLed (map (λ l. l.items) terms.now) slacks.now leaders.new.items n) }
    ensures led { IfOk result (λ led. IsTrue led → IsLed (map (λ l. l.items) terms.now) slacks.now leaders.new.items number) }
{
    if number as usize >= terms.len() {
        return Ok(false);
    }
    let own = terms[number as usize].as_slice();
    if own.len() > MOST_TERMS {
        return Ok(false);
    }
    if let Some(place) = alike(terms, own, leaders.as_slice()) {
        take_lead(slacks, number, leaders, place);
        return Ok(true);
    }
    if leaders.len() >= MOST_LEADERS {
        return Ok(false);
    }
    leaders.push(number)?;
    Ok(true)
}

/// The place of the leader that has these terms, if one has.
fn alike(terms: &[List<Term>], own: &[Term], leaders: &[u32]) -> Option<usize>
    ensures within { IfSome result (λ place. place < length leaders.now) }
    ensures leads { IfSome result (λ place. slice_index_or leaders.now place 0 < length terms.now) }
    ensures terms { IfSome result (λ place. slice_index_or (map (λ l. l.items) terms.now) (slice_index_or leaders.now place 0) [] ≡ own.now) }
{
    for (place, leader) in leaders.iter().enumerate() {
        if has_terms(terms, *leader, own) {
            return Some(place);
        }
    }
    None
}

/// Whether the clause of a number has these terms.
fn has_terms(terms: &[List<Term>], number: u32, own: &[Term]) -> bool
    ensures within { IsTrue result → number < length terms.now }
    ensures terms { IsTrue result → slice_index_or (map (λ l. l.items) terms.now) number [] ≡ own.now }
{
    let place = number as usize;
    place < terms.len() && terms[place].as_slice() == own
}

/// Puts the clause of a number at the place of a leader with its terms, where it has less slack.
fn take_lead(slacks: &[i128], number: u32, leaders: &mut Vec<u32>, place: usize)
    requires { place < length leaders.old.items }
    ensures stays { (tss : Seq (Seq Term)) → AreAlike tss (slice_index_or leaders.old.items place 0) number → (n : ℕ) →
        IsLed tss slacks.now leaders.old.items n → IsLed tss slacks.now leaders.new.items n }
    ensures led { (tss : Seq (Seq Term)) → AreAlike tss (slice_index_or leaders.old.items place 0) number →
        IsLed tss slacks.now leaders.new.items number }
{
    let leader = leaders[place];
    if has_less_slack(slacks, number, leader) {
        leaders[place] = number;
    }
}

/// Whether the clause of a number has less slack than that of another.
fn has_less_slack(slacks: &[i128], number: u32, other: u32) -> bool
    ensures { result ≡ int_lt (slice_index_or slacks.now number (pos 0)) (slice_index_or slacks.now other (pos 0)) }
{
    item_or(slacks, number as usize, 0) < item_or(slacks, other as usize, 0)
}
