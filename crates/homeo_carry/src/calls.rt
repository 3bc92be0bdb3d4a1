//! The calls that states carry.

ghost use Rattle.std.specs.Prelude.{◌≡◌, ◌++◌, ◌≤◌, ◌<◌, ◌%◌, drop, length, map, IfOk, OnOk};
ghost use Rattle.homeo_syntax.specs.SourceView.{plain_workload};
ghost use Rattle.homeo_meaning.specs.Acceptance.{IsAccepted};
ghost use Rattle.homeo_plan.specs.Planned.{sites_of};
ghost use Rattle.homeo_nodes.specs.Nodes.{called, rest_of, calls_at, calls_from, carried};
ghost use Rattle.homeo_carry.specs.CarryView.{plain_said};
ghost use Rattle.homeo_carry.specs.inner.Carrying.{plain_called};

use crate::said::Said;
use homeo_core::clients::site_count;
use homeo_meaning::{Accepted, CallId};
use homeo_nodes::Breach;
use homeo_syntax::Memory;
use std::alloc::Global;

/// A call, and the site that it is made at.
#[derive(Clone, Copy)]
pub(crate) struct Called {
    pub(crate) site: u32,
    pub(crate) call: CallId,
}

/// The calls that the states of all sites carry, from the arbiter of the round on.
pub(crate) fn carried_calls(
    alloc: Global,
    w: &Accepted,
    u: Breach,
    states: &[Said],
) -> Result<Vec<Called>, Memory>
    requires accepted { IsAccepted (plain_workload w.now) }
    requires states { length states.now ≡ sites_of (plain_workload w.now) }
    ensures { IfOk result (λ calls. map plain_called calls.items ≡ carried (plain_workload w.now) u (map plain_said states.now)) }
{
    let mut calls = Vec::new(alloc);
    let first = arbiter(u.round, site_count(w));
    push_calls(u, first, states, &mut calls)?;
    push_calls(u, 0, &states[..first as usize], &mut calls)?;
    Ok(calls)
}

/// The site of the arbiter of a round.
fn arbiter(round: u64, sites: u32) -> u32
    requires { 0 < sites }
    ensures arbiter { result ≡ round % sites }
    ensures below { result < sites }
{
    (round % u64::from(sites)) as u32
}

/// Appends the calls of the sites from this one on.
fn push_calls(u: Breach, first: u32, states: &[Said], calls: &mut Vec<Called>) -> Result<(), Memory>
    requires first { first ≤ length states.now }
    requires few { length states.now ≤ 16 }
    ensures { OnOk result (map plain_called calls.new.items ≡
        map plain_called calls.old.items ++ calls_from u first (drop first (map plain_said states.now))) }
{
    for site in first..states.len() as u32 {
        push_site(site, calls_at(u, site, &states[site as usize]), calls)?;
    }
    Ok(())
}

/// Appends the calls of a site.
fn push_site(site: u32, said: &[CallId], calls: &mut Vec<Called>) -> Result<(), Memory>
    ensures { OnOk result (map plain_called calls.new.items ≡ map plain_called calls.old.items ++ map (called site) said.now) }
{
    for call in said {
        calls.push(Called { site, call: *call })?;
    }
    Ok(())
}

/// The calls that the state of a site carries: at the site of the call that closed the round all but the first, which is that call.
fn calls_at(u: Breach, site: u32, said: &Said) -> &[CallId]
    ensures { result.now ≡ calls_at u site (plain_said said.now) }
{
    if site == u.site {
        rest_of(said.calls.as_slice())
    } else {
        said.calls.as_slice()
    }
}

/// All but the first.
fn rest_of(calls: &[CallId]) -> &[CallId]
    ensures { result.now ≡ rest_of calls.now }
{
    match calls {
        [] => calls,
        [_, rest @ ..] => rest,
    }
}
