//! The deltas that a template freezes.

ghost use Rattle.std.specs.Prelude.{◌≡◌, [], map, IfOk, OnOk};
ghost use Rattle.homeo_plan.specs.PlanView.{plain_atom, plain_atoms};
ghost use Rattle.homeo_plan.specs.Linear.{add_deltas};
ghost use Rattle.homeo_plan.specs.Template.{atoms_of_sets, put_all};
ghost use Rattle.homeo_atoms.specs.inner.Frozen.{delta_at, deltas_in};

use homeo_plan::{Atom, AtomSet, Delta, FreezeSet};
use homeo_syntax::{List, Memory};
use std::alloc::Global;
use std::collections::BTreeSet;

/// A delta, in the order by object and then by site.
#[derive(Clone, Copy, PartialEq, Eq, PartialOrd, Ord)]
pub(crate) struct Place {
    pub object: u32,
    pub site: u32,
}

/// What atoms mix and what is needed: each delta once, in order.
pub(crate) fn join_freezes(
    alloc: Global,
    sets: &[AtomSet],
    needed: &[FreezeSet],
) -> Result<List<Delta>, Memory>
    ensures { IfOk result (λ ds. ds.items ≡
        put_all (map (λ f. f.deltas.items) needed.now) (put_all (map (λ a. a.mixed) (atoms_of_sets (map plain_atoms sets.now))) [])) }
{
    let mut frozen = BTreeSet::new(alloc);
    for set in sets {
        freeze_mixed(&mut frozen, set.atoms.as_slice())?;
    }
    for needs in needed {
        freeze(&mut frozen, needs.deltas.as_slice())?;
    }
    Ok(List::from_vec(in_order(alloc, &frozen)?))
}

/// Freezes what atoms mix.
fn freeze_mixed(frozen: &mut BTreeSet<Place>, atoms: &[Atom]) -> Result<(), Memory>
    ensures { OnOk result (deltas_in frozen.new ≡ put_all (map (λ a. a.mixed) (map plain_atom atoms.now)) (deltas_in frozen.old)) }
{
    for atom in atoms {
        freeze(frozen, atom.form.mixed.as_slice())?;
    }
    Ok(())
}

/// Freezes more deltas.
fn freeze(frozen: &mut BTreeSet<Place>, deltas: &[Delta]) -> Result<(), Memory>
    ensures { OnOk result (deltas_in frozen.new ≡ add_deltas deltas.now (deltas_in frozen.old)) }
{
    for delta in deltas {
        frozen.insert(place_of(*delta))?;
    }
    Ok(())
}

fn place_of(delta: Delta) -> Place
    ensures { delta_at result ≡ delta }
{
    Place {
        object: delta.object,
        site: delta.site,
    }
}

/// The frozen deltas, in their order.
fn in_order(alloc: Global, frozen: &BTreeSet<Place>) -> Result<Vec<Delta>, Memory>
    ensures { IfOk result (λ ds. ds.items ≡ deltas_in frozen.now) }
{
    Ok(
        frozen
            .iter()
            .map(|place| Delta {
                object: place.object,
                site: place.site,
            })
            .collect(alloc)?,
    )
}
