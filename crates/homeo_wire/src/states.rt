//! The states that a node keeps.

ghost use Rattle.std.specs.Prelude.{◌≡◌, ◌<◌, true, Some, None, map, length, replicate, slice_set, is_some, cond, IfOk};
ghost use Rattle.homeo_wire.specs.Nodes.{has_state, all_of};
ghost use Rattle.homeo_wire.specs.WireView.{plain_state};
ghost use Rattle.homeo_wire.specs.inner.Ready.{FoldsFit, IsFold};

use homeo_meaning::Database;
use homeo_round::add_deltas;
use homeo_syntax::{List, Memory};
use std::alloc::Global;

/// An equal list of values.
pub(crate) fn copy_values(alloc: Global, values: &[i64]) -> Result<Database, Memory>
    ensures { IfOk result (λ d. d.items ≡ values.now) }
{
    let copy = Vec::from_slice(alloc, values)?;
    Ok(List::from_vec(copy))
}

/// No states, for so many sites.
pub(crate) fn no_states(alloc: Global, sites: u32) -> Result<Vec<Option<Database>>, Memory>
    ensures { IfOk result (λ s. map plain_state s.items ≡ replicate sites None) }
{
    let mut states = Vec::new(alloc);
    for _ in 0..sites {
        states.push(None)?;
    }
    Ok(states)
}

/// Whether the state of a site is kept.
#[tactic(auto, unfolding(crate::specs::Key::definitions))]
pub(crate) fn has_state(states: &[Option<Database>], site: u32) -> bool
    requires { site < length states.now }
    ensures { result ≡ has_state (map plain_state states.now) site }
{
    states[site as usize].is_some()
}

/// An equal state.
fn copy_state(alloc: Global, state: &Option<Database>) -> Result<Option<Database>, Memory>
    ensures { IfOk result (λ s. plain_state s ≡ plain_state state.now) }
{
    match state {
        Some(deltas) => Ok(Some(copy_values(alloc, deltas.as_slice())?)),
        None => Ok(None),
    }
}

/// The deltas where this is their site, and else an equal state.
fn state_or(
    alloc: Global,
    own: bool,
    state: &Option<Database>,
    deltas: &[i64],
) -> Result<Option<Database>, Memory>
    ensures { IfOk result (λ s. plain_state s ≡ cond own (Some deltas.now) (plain_state state.now)) }
{
    if own {
        return Ok(Some(copy_values(alloc, deltas)?));
    }
    copy_state(alloc, state)
}

/// The states with that of one site more.
pub(crate) fn states_with(
    alloc: Global,
    states: &[Option<Database>],
    site: u32,
    deltas: &[i64],
) -> Result<Vec<Option<Database>>, Memory>
    ensures { IfOk result (λ s. map plain_state s.items ≡ slice_set (map plain_state states.now) site (Some deltas.now)) }
{
    let mut copies = Vec::new(alloc);
    for (i, state) in states.iter().enumerate() {
        let copy = state_or(alloc, i == site as usize, state, deltas)?;
        copies.push(copy)?;
    }
    Ok(copies)
}

/// Whether the states of all sites are kept.
pub(crate) fn all_kept(states: &[Option<Database>]) -> bool
    ensures { result ≡ is_some (all_of (map plain_state states.now)) }
{
    for state in states {
        if state.is_none() {
            return false;
        }
    }
    true
}

/// A base with the deltas of all sites, whose states are kept.
pub(crate) fn fold_states(
    alloc: Global,
    base: &[i64],
    states: &[Option<Database>],
) -> Result<Database, Memory>
    requires kept { is_some (all_of (map plain_state states.now)) ≡ true }
    requires fits { FoldsFit base.now (map plain_state states.now) }
    ensures { IfOk result (λ d. IsFold base.now (map plain_state states.now) d.items) }
{
    let mut sum = Vec::from_slice(alloc, base)?;
    add_states(sum.as_mut_slice(), states);
    Ok(List::from_vec(sum))
}

/// Adds the deltas of all sites, whose states are kept.
#[tactic(auto, unfolding(crate::specs::Key::definitions))]
fn add_states(values: &mut [i64], states: &[Option<Database>])
    requires kept { is_some (all_of (map plain_state states.now)) ≡ true }
    requires fits { FoldsFit values.old (map plain_state states.now) }
    ensures { IsFold values.old (map plain_state states.now) values.new }
{
    for state in states {
        match state {
            Some(deltas) => add_deltas(values, deltas.as_slice()),
            None => unreachable!(),
        }
    }
}
