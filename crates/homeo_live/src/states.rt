//! What sites have said, as a node keeps it.

ghost use Rattle.std.specs.Prelude.{◌≡◌, ◌<◌, true, Some, None, map, length, replicate, slice_set, is_some, cond, IfOk, IsTrue};
ghost use Rattle.homeo_carry.specs.CarryView.{plain_said};
ghost use Rattle.homeo_nodes.specs.Nodes.{has_state, all_of};
ghost use Rattle.homeo_live.specs.LiveView.{plain_state};

use homeo_carry::Said;
use homeo_syntax::Memory;
use std::alloc::Global;

/// Nothing, of so many sites.
pub(crate) fn no_states(alloc: Global, sites: u32) -> Result<Vec<Option<Said>>, Memory>
    ensures { IfOk result (λ s. map plain_state s.items ≡ replicate sites None) }
{
    let mut states = Vec::new(alloc);
    for _ in 0..sites {
        states.push(None)?;
    }
    Ok(states)
}

/// Whether there is a place for what a site says.
pub(crate) fn has_place(states: &[Option<Said>], site: u32) -> bool
    ensures yes { IsTrue result → site < length states.now }
    ensures no { site < length states.now → IsTrue result }
{
    (site as usize) < states.len()
}

/// Whether it is kept what a site has said.
#[tactic(auto, unfolding(homeo_nodes::specs::Key::definitions))]
pub(crate) fn has_state(states: &[Option<Said>], site: u32) -> bool
    requires { site < length states.now }
    ensures { result ≡ has_state (map plain_state states.now) site }
{
    states[site as usize].is_some()
}

/// An equal state.
fn copy_state(alloc: Global, state: &Option<Said>) -> Result<Option<Said>, Memory>
    ensures { IfOk result (λ s. plain_state s ≡ plain_state state.now) }
{
    match state {
        Some(said) => Ok(Some(said.copy(alloc)?)),
        None => Ok(None),
    }
}

/// Equal states.
pub(crate) fn copy_states(
    alloc: Global,
    states: &[Option<Said>],
) -> Result<Vec<Option<Said>>, Memory>
    ensures { IfOk result (λ s. map plain_state s.items ≡ map plain_state states.now) }
{
    let mut copies = Vec::new(alloc);
    for state in states {
        let copy = copy_state(alloc, state)?;
        copies.push(copy)?;
    }
    Ok(copies)
}

/// What this site has said, in the place of its own state, and else an equal state.
fn state_or(
    alloc: Global,
    own: bool,
    state: &Option<Said>,
    said: &Said,
) -> Result<Option<Said>, Memory>
    ensures { IfOk result (λ s. plain_state s ≡ cond own (Some (plain_said said.now)) (plain_state state.now)) }
{
    if own {
        return Ok(Some(said.copy(alloc)?));
    }
    copy_state(alloc, state)
}

/// The states with that of one site more.
pub(crate) fn states_with(
    alloc: Global,
    states: &[Option<Said>],
    site: u32,
    said: &Said,
) -> Result<Vec<Option<Said>>, Memory>
    ensures { IfOk result (λ s. map plain_state s.items ≡ slice_set (map plain_state states.now) site (Some (plain_said said.now))) }
{
    let mut copies = Vec::new(alloc);
    for (i, state) in states.iter().enumerate() {
        let copy = state_or(alloc, i == site as usize, state, said)?;
        copies.push(copy)?;
    }
    Ok(copies)
}

/// Whether it is kept what each site has said.
pub(crate) fn all_kept(states: &[Option<Said>]) -> bool
    ensures { result ≡ is_some (all_of (map plain_state states.now)) }
{
    for state in states {
        if state.is_none() {
            return false;
        }
    }
    true
}

/// What all sites have said, which is kept.
pub(crate) fn kept_states(alloc: Global, states: &[Option<Said>]) -> Result<Vec<Said>, Memory>
    requires { is_some (all_of (map plain_state states.now)) ≡ true }
    ensures { IfOk result (λ all. all_of (map plain_state states.now) ≡ Some (map plain_said all.items)) }
{
    let mut all = Vec::new(alloc);
    for state in states {
        match state {
            Some(said) => all.push(said.copy(alloc)?)?,
            None => unreachable!(),
        }
    }
    Ok(all)
}

/// Equal states of all sites.
pub(crate) fn copy_all(alloc: Global, states: &[Said]) -> Result<Vec<Said>, Memory>
    ensures { IfOk result (λ s. map plain_said s.items ≡ map plain_said states.now) }
{
    let mut copies = Vec::new(alloc);
    for said in states {
        copies.push(said.copy(alloc)?)?;
    }
    Ok(copies)
}
