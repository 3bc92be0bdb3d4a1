//! Which deltas ground calls freeze, found by objects.

ghost use Rattle.std.specs.Prelude.{◌≡◌, ℕ, ◌==◌, ◌<◌, false, not, ◌||◌, ◌&&◌, ◌++◌, map, if◌then◌else◌, vec_len, IfOk, OnOk};
ghost use Rattle.std.specs.List.{list_any};
ghost use Rattle.homeo_plan.specs.PlanView.{plain_atom};
ghost use Rattle.homeo_build.specs.inner.Frozen.{frozen_at, object_frozen, is_frozen_in, names_object, frozen_sites, frozen_from};

use crate::frozen::{Frozen, FrozenObjects};
use homeo_meaning::padded::item_or;
use homeo_plan::{Atom, Delta};
use homeo_syntax::Memory;
use std::alloc::Global;

impl Frozen {
    /// Frozen at the other sites than this one too.
    fn and_elsewhere(self, site: u32) -> Frozen
        ensures { (j : ℕ) → frozen_at result j ≡ (frozen_at self j || not (j == site)) }
    {
        match self {
            Frozen::Nowhere => Frozen::Elsewhere(site),
            Frozen::Elsewhere(own) => elsewhere_than_both(own, site),
            Frozen::Everywhere => Frozen::Everywhere,
        }
    }

    fn is_at(self, site: u32) -> bool
        ensures { result ≡ frozen_at self site }
    {
        match self {
            Frozen::Nowhere => false,
            Frozen::Elsewhere(own) => site != own,
            Frozen::Everywhere => true,
        }
    }
}

/// Frozen at the other sites than the one, and at the other sites than the other.
fn elsewhere_than_both(one: u32, other: u32) -> Frozen
    ensures { (j : ℕ) → frozen_at result j ≡ (not (j == one) || not (j == other)) }
{
    if one == other {
        Frozen::Elsewhere(one)
    } else {
        Frozen::Everywhere
    }
}

impl FrozenObjects {
    /// Nothing is frozen.
    pub(crate) fn new(alloc: Global) -> FrozenObjects
        ensures { (x j : ℕ) → is_frozen_in result x j ≡ false }
    {
        FrozenObjects {
            objects: Vec::new(alloc),
        }
    }

    /// Freezes what atoms mix, at all sites.
    pub(crate) fn mix(&mut self, atoms: &[Atom]) -> Result<(), Memory>
        ensures { OnOk result ((x j : ℕ) → is_frozen_in self.new x j ≡
            (is_frozen_in self.old x j || list_any (λ a. names_object x a.mixed) (map plain_atom atoms.now))) }
    {
        for atom in atoms {
            self.freeze(atom.form.mixed.as_slice())?;
        }
        Ok(())
    }

    /// Freezes the objects of these deltas at all sites.
    fn freeze(&mut self, deltas: &[Delta]) -> Result<(), Memory>
        ensures { OnOk result ((x j : ℕ) → is_frozen_in self.new x j ≡ (is_frozen_in self.old x j || names_object x deltas.now)) }
    {
        for delta in deltas {
            self.set(delta.object, Frozen::Everywhere)?;
        }
        Ok(())
    }

    /// Freezes the objects of these deltas, which a call of this site needs, at the other sites.
    pub(crate) fn need(&mut self, deltas: &[Delta], site: u32) -> Result<(), Memory>
        ensures { OnOk result ((x j : ℕ) → is_frozen_in self.new x j ≡
            (is_frozen_in self.old x j || (not (j == site) && names_object x deltas.now))) }
    {
        for delta in deltas {
            let so_far = self.of_object(delta.object);
            self.set(delta.object, so_far.and_elsewhere(site))?;
        }
        Ok(())
    }

    fn of_object(&self, object: u32) -> Frozen
        ensures { result ≡ object_frozen self.now object }
    {
        item_or(self.objects.as_slice(), object as usize, Frozen::Nowhere)
    }

    fn set(&mut self, object: u32, frozen: Frozen) -> Result<(), Memory>
        ensures { OnOk result ((x : ℕ) → object_frozen self.new x ≡ (if object == x then frozen else object_frozen self.old x)) }
    {
        self.reach(object)?;
        self.objects[object as usize] = frozen;
        Ok(())
    }

    /// Makes the list long enough to have an object.
    fn reach(&mut self, object: u32) -> Result<(), Memory>
        ensures there { OnOk result (object < vec_len self.new.objects) }
        ensures same { OnOk result ((x : ℕ) → object_frozen self.new x ≡ object_frozen self.old x) }
    {
        let count = object as usize + 1;
        if count <= self.objects.len() {
            return Ok(());
        }
        self.objects.resize(count, Frozen::Nowhere)?;
        Ok(())
    }

    /// The frozen deltas of so many sites, by object and then by site.
    pub(crate) fn deltas(&self, alloc: Global, sites: u32) -> Result<Vec<Delta>, Memory>
        ensures { IfOk result (λ ds. ds.items ≡ frozen_from sites 0 self.now.objects.items) }
    {
        let mut deltas = Vec::new(alloc);
        for (object, frozen) in self.objects.as_slice().iter().enumerate() {
            push_frozen(&mut deltas, object as u32, *frozen, sites)?;
        }
        Ok(deltas)
    }
}

/// Puts the deltas of an object that is so frozen behind the others.
fn push_frozen(
    deltas: &mut Vec<Delta>,
    object: u32,
    frozen: Frozen,
    sites: u32,
) -> Result<(), Memory>
    ensures { OnOk result (deltas.new.items ≡ deltas.old.items ++ frozen_sites 0 sites object frozen) }
{
    match frozen {
        Frozen::Nowhere => Ok(()),
        Frozen::Elsewhere(_) | Frozen::Everywhere => push_sites(deltas, object, frozen, sites),
    }
}

fn push_sites(
    deltas: &mut Vec<Delta>,
    object: u32,
    frozen: Frozen,
    sites: u32,
) -> Result<(), Memory>
    ensures { OnOk result (deltas.new.items ≡ deltas.old.items ++ frozen_sites 0 sites object frozen) }
{
    for site in 0..sites {
        if frozen.is_at(site) {
            deltas.push(Delta { object, site })?;
        }
    }
    Ok(())
}
