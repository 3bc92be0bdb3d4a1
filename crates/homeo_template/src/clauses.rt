//! The distinct clauses among those of atoms that are put one after another.

ghost use Rattle.std.specs.Prelude.{◌≡◌, [], map, IfOk, OnOk};
ghost use Rattle.std.specs.List.{All};
ghost use Rattle.homeo_meaning.specs.Small.{IsSmall};
ghost use Rattle.homeo_plan.specs.Each.{Each};
ghost use Rattle.homeo_plan.specs.PlanView.{plain_linear, plain_atom, plain_atoms, plain_clause};
ghost use Rattle.homeo_plan.specs.Template.{with_clause, clauses_from, atoms_of_sets};
ghost use Rattle.homeo_plan.specs.Limit.{form_limit};
ghost use Rattle.homeo_template.specs.inner.Keys.{clause_at, clauses_in};

use crate::key::{Key, clause_with, key_of};
use homeo_plan::{Atom, AtomSet, Clause, Linear};
use homeo_syntax::{List, Memory};
use indexmap::IndexSet;
use std::alloc::Global;

/// Clauses in the order in which they were first put, each by its key.
#[derive(Drop)]
pub(crate) struct DistinctClauses<'a> {
    pub keys: IndexSet<Key<'a>>,
}

/// The clauses of the atoms of all sets, one set after another: each atom with terms is a clause, whose slack is the atom's constant
/// negated; equal clauses stand once, where the first of them is.
///
/// No constant of an atom may be above 4 * 10^18 in size.
///
/// # Errors
///
/// `Memory` when out of memory.
pub fn join_clauses(alloc: Global, sets: &[AtomSet]) -> Result<List<Clause>, Memory>
    requires small { All (λ s. Each (λ a. IsSmall form_limit a.constant) (plain_atoms s)) sets.now }
    ensures { IfOk result (λ cs. map plain_clause cs.items ≡ clauses_from [] (atoms_of_sets (map plain_atoms sets.now))) }
{
    let mut distinct = DistinctClauses::with_room(alloc, atom_count(sets))?;
    for set in sets {
        distinct.put_all(set.atoms.as_slice())?;
    }
    clauses_with(alloc, distinct.keys.as_slice())
}

/// How many atoms the sets have, so no fewer than their distinct clauses.
fn atom_count(sets: &[AtomSet]) -> usize {
    sets.iter().fold(
        0usize,
        |count, set| count.saturating_add(set.atoms.as_slice().len()),
    )
}

/// The clauses that have these keys.
pub(crate) fn clauses_with(alloc: Global, keys: &[Key<'_>]) -> Result<List<Clause>, Memory>
    ensures { IfOk result (λ cs. map plain_clause cs.items ≡ map clause_at keys.now) }
{
    let mut clauses = Vec::with_capacity(alloc, keys.len())?;
    for key in keys {
        clauses.push(clause_with(alloc, key)?)?;
    }
    Ok(List::from_vec(clauses))
}

impl<'a> DistinctClauses<'a> {
    /// None yet, with room for so many.
    pub(crate) fn with_room(alloc: Global, count: usize) -> Result<DistinctClauses<'a>, Memory>
        ensures { IfOk result (λ d. clauses_in d ≡ []) }
    {
        let keys = IndexSet::with_capacity(alloc, count)?;
        Ok(DistinctClauses { keys })
    }

    /// Puts the clauses of atoms behind those that are there.
    pub(crate) fn put_all(&mut self, atoms: &'a [Atom]) -> Result<(), Memory>
        requires { Each (λ a. IsSmall form_limit a.constant) (map plain_atom atoms.now) }
        ensures { OnOk result (clauses_in self.new ≡ clauses_from (clauses_in self.old) (map plain_atom atoms.now)) }
    {
        for atom in atoms {
            self.put(&atom.form)?;
        }
        Ok(())
    }

    /// Puts the clause of an atom with this form behind the others, where it has one that isn't there.
    fn put(&mut self, form: &'a Linear) -> Result<(), Memory>
        requires { IsSmall form_limit form.now.constant }
        ensures { OnOk result (clauses_in self.new ≡ with_clause (clauses_in self.old) (plain_linear form.now)) }
    {
        if form.terms.as_slice().is_empty() {
            return Ok(());
        }
        let _is_new = self.keys.insert(key_of(form))?;
        Ok(())
    }
}
