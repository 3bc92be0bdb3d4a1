//! The state of a desk, read from a JSON value.

ghost use Rattle.std.specs.Prelude.{◌≡◌, map, option_map, codes, IfOk};
ghost use Rattle.std.specs.Option.{option_and_then};
ghost use Rattle.serde_json.specs.View.{view};
ghost use Rattle.serde_json.specs.Find.{get};
ghost use Rattle.homeo_syntax.specs.SourceView.{plain_workload};
ghost use Rattle.homeo_live.specs.LiveView.{plain_node, plain_past, plain_state as plain_kept};
ghost use Rattle.homeo_lines.specs.LineView.{plain_state};
ghost use Rattle.homeo_lines.specs.Members.{list_at};
ghost use Rattle.homeo_lines.specs.Read.{breach_of, said_of, past_of, maybe, mode_of, all_kept, node_of, first_format, state_of};

use crate::catalogue::Catalogue;
use crate::members::{list, number, small, text};
use crate::packets::{read_breach, read_database, read_past, read_said};
use crate::requests_reading::{read_answered, read_queue};
use crate::wrong::FORMAT;
use homeo_carry::Said;
use homeo_desk::{DeskState, Request};
use homeo_live::{NodeState, Past};
use homeo_meaning::CallId;
use homeo_nodes::{Breach, Mode};
use homeo_syntax::Memory;
use serde_json::Value;
use std::alloc::Global;

/// The format of an object, if it is the one that is read.
pub(crate) fn read_format(value: &Value) -> Option<u64>
    ensures { result ≡ first_format (view value.now) }
{
    let format = number(value, "format")?;
    if format == FORMAT { Some(format) } else { None }
}

/// The state, if the value is one of a desk of the workload, as far as its form goes.
pub(crate) fn read_desk(
    alloc: Global,
    catalogue: &Catalogue,
    value: &Value,
) -> Result<Option<DeskState>, Memory>
    ensures { IfOk result (λ o. option_map plain_state o ≡ state_of (plain_workload catalogue.now) (view value.now)) }
{
    if read_format(value).is_none() {
        return Ok(None);
    }
    let Some(site) = small(value, "site") else {
        return Ok(None);
    };
    let Some(queue) = read_queue(alloc, catalogue, site, value)? else {
        return Ok(None);
    };
    let Some(node) = read_node(alloc, catalogue, site, queue.as_slice(), value)? else {
        return Ok(None);
    };
    let Some(answered) = read_answered(alloc, catalogue, site, value)? else {
        return Ok(None);
    };
    match number(value, "made") {
        Some(made) => Ok(Some(DeskState {
            node,
            made,
            queue,
            answered,
        })),
        None => Ok(None),
    }
}

/// The state of the node of a site, where the calls of these requests wait.
fn read_node(
    alloc: Global,
    catalogue: &Catalogue,
    site: u32,
    queue: &[Request],
    value: &Value,
) -> Result<Option<NodeState>, Memory>
    ensures { IfOk result (λ o. option_map plain_node o ≡ node_of (plain_workload catalogue.now) site queue.now (view value.now)) }
{
    let Some(round) = number(value, "round") else {
        return Ok(None);
    };
    let Some(mode) = read_mode(catalogue, value) else {
        return Ok(None);
    };
    let Some(decided) = read_decided(catalogue, value) else {
        return Ok(None);
    };
    let Some(base) = read_database(alloc, catalogue, value, "base")? else {
        return Ok(None);
    };
    let Some(deltas) = read_database(alloc, catalogue, value, "deltas")? else {
        return Ok(None);
    };
    let Some(states) = read_states(alloc, catalogue, value)? else {
        return Ok(None);
    };
    let Some(past) = read_left(alloc, catalogue, value)? else {
        return Ok(None);
    };
    Ok(Some(NodeState {
        site,
        round,
        base,
        deltas,
        mode,
        decided,
        states,
        past,
        queue: calls_of(alloc, queue)?,
    }))
}

/// The calls of requests.
fn calls_of(alloc: Global, requests: &[Request]) -> Result<Vec<CallId>, Memory>
    ensures { IfOk result (λ v. v.items ≡ map (λ r. r.call) requests.now) }
{
    let mut calls = Vec::new(alloc);
    for request in requests {
        calls.push(request.call)?;
    }
    Ok(calls)
}

fn read_mode(catalogue: &Catalogue, value: &Value) -> Option<Mode>
    ensures { result ≡ mode_of (plain_workload catalogue.now) (view value.now) }
{
    match text(value, "mode")? {
        "running" => Some(Mode::Running),
        "waiting" => Some(Mode::Waiting(read_breach(catalogue, value.get("breach")?)?)),
        "stopped" => Some(Mode::Stopped(read_breach(catalogue, value.get("breach")?)?)),
        _ => None,
    }
}

/// The call that is chosen, or none where that is null; there is no answer where it is neither.
fn read_decided(catalogue: &Catalogue, value: &Value) -> Option<Option<Breach>>
    ensures { result ≡ option_and_then (maybe (breach_of (plain_workload catalogue.now))) (get (codes "decided") (view value.now)) }
{
    let decided = value.get("decided")?;
    if decided.is_null() {
        return Some(None);
    }
    Some(Some(read_breach(catalogue, decided)?))
}

/// What each site has said, where the node keeps it.
fn read_states(
    alloc: Global,
    catalogue: &Catalogue,
    value: &Value,
) -> Result<Option<Vec<Option<Said>>>, Memory>
    ensures { IfOk result (λ o. option_map (λ l. map plain_kept l.items) o ≡ option_and_then (all_kept (plain_workload catalogue.now)) (list_at (codes "states") (view value.now))) }
{
    match list(value, "states") {
        Some(items) => read_all_kept(alloc, catalogue, items),
        None => Ok(None),
    }
}

fn read_all_kept(
    alloc: Global,
    catalogue: &Catalogue,
    items: &[Value],
) -> Result<Option<Vec<Option<Said>>>, Memory>
    ensures { IfOk result (λ o. option_map (λ l. map plain_kept l.items) o ≡ all_kept (plain_workload catalogue.now) (map view items.now)) }
{
    if items.len() != catalogue.sites() as usize {
        return Ok(None);
    }
    let mut states = Vec::new(alloc);
    for (site, item) in items.iter().enumerate() {
        match read_maybe_said(alloc, catalogue, site as u32, item)? {
            Some(state) => states.push(state)?,
            None => return Ok(None),
        }
    }
    Ok(Some(states))
}

/// What a site has said, or nothing where the value is null; there is no answer where it is neither.
fn read_maybe_said(
    alloc: Global,
    catalogue: &Catalogue,
    site: u32,
    value: &Value,
) -> Result<Option<Option<Said>>, Memory>
    ensures { IfOk result (λ o. option_map plain_kept o ≡ maybe (said_of (plain_workload catalogue.now) site) (view value.now)) }
{
    if value.is_null() {
        return Ok(Some(None));
    }
    match read_said(alloc, catalogue, site, value)? {
        Some(said) => Ok(Some(Some(said))),
        None => Ok(None),
    }
}

/// How the node has left a round, or nothing where that is null; there is no answer where it is neither.
fn read_left(
    alloc: Global,
    catalogue: &Catalogue,
    value: &Value,
) -> Result<Option<Option<Past>>, Memory>
    ensures { IfOk result (λ o. option_map (option_map plain_past) o ≡ option_and_then (maybe (past_of (plain_workload catalogue.now))) (get (codes "left") (view value.now))) }
{
    let Some(left) = value.get("left") else {
        return Ok(None);
    };
    if left.is_null() {
        return Ok(Some(None));
    }
    match read_past(alloc, catalogue, left)? {
        Some(past) => Ok(Some(Some(past))),
        None => Ok(None),
    }
}
