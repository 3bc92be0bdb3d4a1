//! The outline of a template over whole objects.

ghost use Rattle.std.specs.Prelude.{◌≡◌, ◌+◌, ◌<◌, ◌^◌, ℕ, length, map, IfOk};
ghost use Rattle.homeo_outline.specs.Numbers.{has, clauses_on, freezes_on};

use crate::uses::{clause_uses, freeze_uses, numbers_at};
use homeo_plan::{Delta, Term};
use homeo_syntax::{List, Memory};
use smallvec::SmallVec;
use std::alloc::Global;
use std::marker::Model;

/// A template over whole objects but for its slacks (this project's rule), with a list of where each object stands in it. Plans whose
/// calls take the same branches have one outline, and share it.
#[derive(Drop)]
pub struct Outline {
    sites: u32,
    terms: List<List<Term>>,
    freezes: List<Delta>,
    clause_uses: Vec<SmallVec<u32, 4>>,
    freeze_uses: Vec<SmallVec<u32, 4>>,
}

impl Model for Outline {
    ghost use Rattle.std.specs.Prelude.{map, length};
    ghost use Rattle.homeo_outline.specs.Outlined.{Outlined};
    ghost use Rattle.homeo_outline.specs.inner.Uses.{KeepsClauses, KeepsFreezes};

    ghost Value = { Outlined };

    ghost view = { λ o. record { sites = o.sites; terms = map (λ l. l.items) o.terms.items; freezes = o.freezes.items } };

    ghost invariant = { λ o. KeepsClauses (map (λ l. l.items) o.terms.items) (map (λ v. v.items) o.clause_uses.items)
        × KeepsFreezes (length o.terms.items) o.freezes.items (map (λ v. v.items) o.freeze_uses.items) };
}

impl Outline {
    /// The outline of so many sites with clauses of these terms and with these freezes. It takes time and memory linear in these.
    ///
    /// The clauses and freezes together must be fewer than 2^32.
    ///
    /// # Errors
    ///
    /// `Memory` when out of memory.
    pub fn new(
        alloc: Global,
        sites: u32,
        terms: List<List<Term>>,
        freezes: List<Delta>,
    ) -> Result<Outline, Memory>
        requires few { length terms.items + length freezes.items < 2 ^ 32 }
        ensures { IfOk result (λ o. o ≡ record { sites = sites; terms = map (λ l. l.items) terms.items; freezes = freezes.items }) }
    {
        let clause_uses = clause_uses(alloc, terms.as_slice())?;
        let first = terms.as_slice().len() as u32;
        let freeze_uses = freeze_uses(alloc, first, freezes.as_slice())?;
        Ok(Outline {
            sites,
            terms,
            freezes,
            clause_uses,
            freeze_uses,
        })
    }

    /// How many sites there are.
    pub fn sites(&self) -> u32
        ensures { result ≡ self.now.sites }
    {
        self.sites
    }

    /// Lends of each clause its terms, by object, where a term stands for the deltas of its object at all sites.
    pub fn terms(&self) -> &[List<Term>]
        ensures { map (λ l. l.items) result.now ≡ self.now.terms }
    {
        self.terms.as_slice()
    }

    /// Lends the deltas of sites that stay 0, each once, by object and then by site.
    pub fn freezes(&self) -> &[Delta]
        ensures { result.now ≡ self.now.freezes }
    {
        self.freezes.as_slice()
    }

    /// Lends the numbers, from 0, of the clauses that name an object.
    pub fn clauses_on(&self, object: u32) -> &[u32]
        ensures { (n : ℕ) → has n result.now ≡ has n (clauses_on object self.now.terms) }
    {
        self.clauses_at(object as usize)
    }

    /// The same, where the object's number may be larger than an object's.
    pub(crate) fn clauses_at(&self, object: usize) -> &[u32]
        ensures { (n : ℕ) → has n result.now ≡ has n (clauses_on object self.now.terms) }
    {
        numbers_at(self.clause_uses.as_slice(), object)
    }

    /// How many objects there are up to the largest that a clause names.
    pub(crate) fn objects(&self) -> usize {
        self.clause_uses.len()
    }

    /// Lends the numbers of the freezes of an object. They go on after those of all clauses.
    pub fn freezes_on(&self, object: u32) -> &[u32]
        ensures { (n : ℕ) → has n result.now ≡ has n (freezes_on object (length self.now.terms) self.now.freezes) }
    {
        numbers_at(self.freeze_uses.as_slice(), object as usize)
    }
}
