//! Packets, read from JSON values.
#![tactic(auto, using(crate::proofs::Lists::list_steps), unfolding(homeo_live::specs::Key::definitions))]

ghost use Rattle.std.specs.Prelude.{◌≡◌, ◌^◌, map, option_map, codes, IfOk};
ghost use Rattle.std.specs.Option.{option_and_then};
ghost use Rattle.serde_json.specs.View.{view};
ghost use Rattle.serde_json.specs.Find.{get};
ghost use Rattle.homeo_syntax.specs.SourceView.{plain_workload};
ghost use Rattle.homeo_carry.specs.CarryView.{plain_said};
ghost use Rattle.homeo_live.specs.LiveView.{plain_packet, plain_past};
ghost use Rattle.homeo_lines.specs.Members.{whole, below};
ghost use Rattle.homeo_lines.specs.Read.{finding_of, call_of, named_call_of, breach_of, values_of, database_at, calls_of, calls_in, said_of, stopped_of, all_said, past_of};

use crate::catalogue::Catalogue;
use crate::members::{integer, items, list, number, small, text, values};
use homeo_carry::Said;
use homeo_live::{MOST_WAITING, Packet, Past};
use homeo_meaning::{CallId, Database};
use homeo_nodes::Breach;
use homeo_plan::Broken;
use homeo_syntax::Memory;
use serde_json::Value;
use std::alloc::Global;

/// The breach whose members an object has.
pub(crate) fn read_breach(catalogue: &Catalogue, object: &Value) -> Option<Breach>
    ensures { result ≡ breach_of (plain_workload catalogue.now) (view object.now) }
{
    let round = number(object, "round")?;
    let site = small(object, "site")?;
    let call = read_named_call(catalogue, site, object)?;
    let broken = read_finding(object.get("finding")?)?;
    Some(Breach {
        round,
        site,
        call,
        broken,
    })
}

/// The call of a client at a site that the members `client` and `call` name.
pub(crate) fn read_named_call(catalogue: &Catalogue, site: u32, object: &Value) -> Option<CallId>
    ensures { result ≡ named_call_of (plain_workload catalogue.now) site (view object.now) }
{
    let client = catalogue.client_of(text(object, "client")?)?;
    catalogue.call_at(site, client, number(object, "call")?)
}

/// What fails first of a treaty: a number, a sum and a bound.
pub(crate) fn read_finding(value: &Value) -> Option<Broken>
    ensures { result ≡ finding_of (view value.now) }
{
    match items(value)? {
        [clause, sum, bound] => Some(Broken {
            clause: read_clause(clause)?,
            sum: integer(sum)?,
            bound: integer(bound)?,
        }),
        _ => None,
    }
}

/// The number of what fails.
fn read_clause(value: &Value) -> Option<u32>
    ensures { result ≡ option_and_then (below (2 ^ 32)) (whole (view value.now)) }
{
    match u32::try_from(value.as_u64()?) {
        Ok(clause) => Some(clause),
        Err(_) => None,
    }
}

/// A value for each object of the workload.
fn read_values(
    alloc: Global,
    catalogue: &Catalogue,
    items: &[Value],
) -> Result<Option<Database>, Memory>
    ensures { IfOk result (λ o. option_map (λ l. l.items) o ≡ values_of (plain_workload catalogue.now) (map view items.now)) }
{
    if items.len() == catalogue.objects() {
        values(alloc, items)
    } else {
        Ok(None)
    }
}

/// The member of an object that has a value for each object of the workload.
pub(crate) fn read_database(
    alloc: Global,
    catalogue: &Catalogue,
    object: &Value,
    key: &str,
) -> Result<Option<Database>, Memory>
    ensures { IfOk result (λ o. option_map (λ l. l.items) o ≡ database_at (plain_workload catalogue.now) key.now (view object.now)) }
{
    match list(object, key) {
        Some(items) => read_values(alloc, catalogue, items),
        None => Ok(None),
    }
}

/// A call of a client at a site: the client's name, and the place in its list.
fn read_call(catalogue: &Catalogue, site: u32, value: &Value) -> Option<CallId>
    ensures { result ≡ call_of (plain_workload catalogue.now) site (view value.now) }
{
    match items(value)? {
        [client, place] => {
            let client = catalogue.client_of(client.as_str()?)?;
            catalogue.call_at(site, client, place.as_u64()?)
        }
        _ => None,
    }
}

/// Calls of clients at a site, not more than may wait.
fn read_calls(
    alloc: Global,
    catalogue: &Catalogue,
    site: u32,
    items: &[Value],
) -> Result<Option<Vec<CallId>>, Memory>
    ensures { IfOk result (λ o. option_map (λ l. l.items) o ≡ calls_of (plain_workload catalogue.now) site (map view items.now)) }
{
    if items.len() > MOST_WAITING {
        return Ok(None);
    }
    let mut calls = Vec::new(alloc);
    for item in items {
        match read_call(catalogue, site, item) {
            Some(call) => calls.push(call)?,
            None => return Ok(None),
        }
    }
    Ok(Some(calls))
}

/// The calls of the member `calls`, which may be left out.
fn read_maybe_calls(
    alloc: Global,
    catalogue: &Catalogue,
    site: u32,
    object: &Value,
) -> Result<Option<Vec<CallId>>, Memory>
    ensures { IfOk result (λ o. option_map (λ l. l.items) o ≡ calls_in (plain_workload catalogue.now) site (get (codes "calls") (view object.now))) }
{
    let Some(calls) = object.get("calls") else {
        return Ok(Some(Vec::new(alloc)));
    };
    match items(calls) {
        Some(items) => read_calls(alloc, catalogue, site, items),
        None => Ok(None),
    }
}

/// What a site has said, by the members of an object.
pub(crate) fn read_said(
    alloc: Global,
    catalogue: &Catalogue,
    site: u32,
    object: &Value,
) -> Result<Option<Said>, Memory>
    ensures { IfOk result (λ o. option_map plain_said o ≡ said_of (plain_workload catalogue.now) site (view object.now)) }
{
    let Some(deltas) = read_database(alloc, catalogue, object, "deltas")? else {
        return Ok(None);
    };
    let Some(calls) = read_maybe_calls(alloc, catalogue, site, object)? else {
        return Ok(None);
    };
    Ok(Some(Said { deltas, calls }))
}

/// A packet `state`.
pub(crate) fn read_stopped(
    alloc: Global,
    catalogue: &Catalogue,
    body: &Value,
) -> Result<Option<Packet>, Memory>
    ensures { IfOk result (λ o. option_map plain_packet o ≡ stopped_of (plain_workload catalogue.now) (view body.now)) }
{
    let Some(round) = number(body, "round") else {
        return Ok(None);
    };
    let Some(site) = small(body, "site") else {
        return Ok(None);
    };
    if site >= catalogue.sites() {
        return Ok(None);
    }
    match read_said(alloc, catalogue, site, body)? {
        Some(said) => Ok(Some(Packet::State { round, site, said })),
        None => Ok(None),
    }
}

/// What all sites have said.
fn read_all_said(
    alloc: Global,
    catalogue: &Catalogue,
    items: &[Value],
) -> Result<Option<Vec<Said>>, Memory>
    ensures { IfOk result (λ o. option_map (λ l. map plain_said l.items) o ≡ all_said (plain_workload catalogue.now) (map view items.now)) }
{
    if items.len() != catalogue.sites() as usize {
        return Ok(None);
    }
    let mut states = Vec::new(alloc);
    for (site, item) in items.iter().enumerate() {
        match read_said(alloc, catalogue, site as u32, item)? {
            Some(said) => states.push(said)?,
            None => return Ok(None),
        }
    }
    Ok(Some(states))
}

/// How a round was closed: the breach, and what all sites have said.
pub(crate) fn read_past(
    alloc: Global,
    catalogue: &Catalogue,
    body: &Value,
) -> Result<Option<Past>, Memory>
    ensures { IfOk result (λ o. option_map plain_past o ≡ past_of (plain_workload catalogue.now) (view body.now)) }
{
    let Some(breach) = read_breach(catalogue, body) else {
        return Ok(None);
    };
    let Some(items) = list(body, "states") else {
        return Ok(None);
    };
    match read_all_said(alloc, catalogue, items)? {
        Some(states) => Ok(Some(Past { breach, states })),
        None => Ok(None),
    }
}
