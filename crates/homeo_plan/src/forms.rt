//! Linear forms over deltas, and the atoms that are made of them.

ghost use Rattle.std.specs.Prelude.{◌≡◌, map, IfOk};
ghost use Rattle.homeo_plan.specs.PlanView.{plain_linear, plain_atom, plain_atoms};

use homeo_syntax::{List, Memory};
use std::alloc::Global;

/// The delta of an object at a site of a split database. Objects and sites are numbered from 0.
#[derive(Clone, Copy, Debug, PartialEq, Eq, Hash)]
pub struct Delta {
    pub object: u32,
    pub site: u32,
}

/// A delta with the factor by which it is taken.
#[derive(Clone, Copy, Debug, PartialEq, Eq, Hash)]
pub struct Term {
    pub delta: Delta,
    pub factor: i128,
}

/// A linear form over deltas (this project's rule): the constant and the terms added up. The form is right where each of
/// the mixed deltas is 0.
#[derive(Drop)]
pub struct Linear {
    pub constant: i128,
    /// In the order of their deltas, by object and then by site, each delta once, with factors other than 0.
    pub terms: List<Term>,
    /// In the same order, each once.
    pub mixed: List<Delta>,
}

/// A form that is at most 0.
#[derive(Drop)]
pub struct Atom {
    pub form: Linear,
}

/// The atoms of a formula, in the order of its tests.
#[derive(Drop)]
pub struct AtomSet {
    pub atoms: List<Atom>,
}

impl Linear {
    /// Makes an equal value.
    ///
    /// # Errors
    ///
    /// `Memory` when out of memory.
    pub fn copy(&self, alloc: Global) -> Result<Linear, Memory>
        ensures { IfOk result (λ c. plain_linear c ≡ plain_linear self.now) }
    {
        let terms = Vec::from_slice(alloc, self.terms.as_slice())?;
        let mixed = Vec::from_slice(alloc, self.mixed.as_slice())?;
        Ok(Linear {
            constant: self.constant,
            terms: List::from_vec(terms),
            mixed: List::from_vec(mixed),
        })
    }
}

impl Atom {
    /// Makes an equal value.
    ///
    /// # Errors
    ///
    /// `Memory` when out of memory.
    pub fn copy(&self, alloc: Global) -> Result<Atom, Memory>
        ensures { IfOk result (λ c. plain_atom c ≡ plain_atom self.now) }
    {
        let form = self.form.copy(alloc)?;
        Ok(Atom { form })
    }
}

impl AtomSet {
    /// Makes an equal value.
    ///
    /// # Errors
    ///
    /// `Memory` when out of memory.
    pub fn copy(&self, alloc: Global) -> Result<AtomSet, Memory>
        ensures { IfOk result (λ c. plain_atoms c ≡ plain_atoms self.now) }
    {
        let atoms = copy_atoms(alloc, self.atoms.as_slice())?;
        Ok(AtomSet { atoms })
    }
}

fn copy_atoms(alloc: Global, atoms: &[Atom]) -> Result<List<Atom>, Memory>
    ensures { IfOk result (λ c. map plain_atom c.items ≡ map plain_atom atoms.now) }
{
    let mut copy = List::new(alloc);
    for atom in atoms {
        copy.push(atom.copy(alloc)?)?;
    }
    Ok(copy)
}
