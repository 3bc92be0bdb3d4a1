//! Numbers by object: where clauses and freezes stand.

ghost use Rattle.std.specs.Prelude.{◌≡◌, ◌==◌, ◌+◌, ◌<◌, ◌^◌, ◌&&◌, ◌||◌, ◌++◌, ◌∷◌, [], ℕ, if◌then◌else◌, length, map, IfOk, OnOk};
ghost use Rattle.homeo_outline.specs.Numbers.{has, names_object};
ghost use Rattle.homeo_outline.specs.inner.Uses.{at_object, KeepsClauses, KeepsFreezes};

use homeo_plan::{Delta, Term};
use homeo_syntax::{List, Memory};
use smallvec::SmallVec;
use std::alloc::Global;

/// Puts a number at an object.
fn note(
    alloc: Global,
    uses: &mut Vec<SmallVec<u32, 4>>,
    object: u32,
    number: u32,
) -> Result<(), Memory>
    ensures { OnOk result ((x : ℕ) → at_object x (map (λ v. v.items) uses.new.items) ≡
        if object == x then at_object x (map (λ v. v.items) uses.old.items) ++ number ∷ []
        else at_object x (map (λ v. v.items) uses.old.items)) }
{
    let place = object as usize;
    while uses.len() <= place {
        uses.push(SmallVec::new(alloc))?;
    }
    uses[place].push(number)?;
    Ok(())
}

/// Puts a number at each object that a term is on.
fn note_terms(
    alloc: Global,
    uses: &mut Vec<SmallVec<u32, 4>>,
    number: u32,
    terms: &[Term],
) -> Result<(), Memory>
    ensures { OnOk result ((x n : ℕ) → has n (at_object x (map (λ v. v.items) uses.new.items)) ≡
        (has n (at_object x (map (λ v. v.items) uses.old.items)) || (names_object x terms.now && (n == number)))) }
{
    for term in terms {
        note(alloc, uses, term.delta.object, number)?;
    }
    Ok(())
}

/// The numbers of clauses with these terms, from 0, at the objects that they name.
pub(crate) fn clause_uses(
    alloc: Global,
    clauses: &[List<Term>],
) -> Result<Vec<SmallVec<u32, 4>>, Memory>
    requires { length clauses.now < 2 ^ 32 }
    ensures { IfOk result (λ u. KeepsClauses (map (λ l. l.items) clauses.now) (map (λ v. v.items) u.items)) }
{
    let mut uses = Vec::new(alloc);
    let mut number = 0;
    for terms in clauses {
        note_terms(alloc, &mut uses, number, terms.as_slice())?;
        number += 1;
    }
    Ok(uses)
}

/// The numbers of freezes, from the first on, at the objects that they freeze.
pub(crate) fn freeze_uses(
    alloc: Global,
    first: u32,
    freezes: &[Delta],
) -> Result<Vec<SmallVec<u32, 4>>, Memory>
    requires { first + length freezes.now < 2 ^ 32 }
    ensures { IfOk result (λ u. KeepsFreezes first freezes.now (map (λ v. v.items) u.items)) }
{
    let mut uses = Vec::new(alloc);
    let mut number = first;
    for freeze in freezes {
        note(alloc, &mut uses, freeze.object, number)?;
        number += 1;
    }
    Ok(uses)
}

/// Lends the numbers at an object.
pub(crate) fn numbers_at(uses: &[SmallVec<u32, 4>], object: usize) -> &[u32]
    ensures { result.now ≡ at_object object (map (λ v. v.items) uses.now) }
{
    if object < uses.len() {
        uses[object].as_slice()
    } else {
        &[]
    }
}
