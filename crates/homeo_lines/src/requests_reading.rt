//! Requests that wait and answers that were given, read from JSON values.

ghost use Rattle.std.specs.Prelude.{◌≡◌, map, option_map, codes, IfOk};
ghost use Rattle.std.specs.Option.{option_and_then};
ghost use Rattle.serde_json.specs.View.{view};
ghost use Rattle.homeo_syntax.specs.SourceView.{plain_workload};
ghost use Rattle.homeo_lines.specs.LineView.{plain_answer};
ghost use Rattle.homeo_lines.specs.Members.{list_at, each};
ghost use Rattle.homeo_lines.specs.Read.{request_of, path_of, prints_of, answer_of};

use crate::catalogue::Catalogue;
use crate::members::{list, number, text};
use crate::packets::{read_finding, read_named_call};
use homeo_desk::{Answer, Path, Request};
use homeo_syntax::{List, Memory, Prints, Text};
use serde_json::Value;
use std::alloc::Global;

/// The requests of the member `queue`, each of a call of a client at the site.
pub(crate) fn read_queue(
    alloc: Global,
    catalogue: &Catalogue,
    site: u32,
    value: &Value,
) -> Result<Option<Vec<Request>>, Memory>
    ensures { IfOk result (λ o. option_map (λ l. l.items) o ≡ option_and_then (each (request_of (plain_workload catalogue.now) site)) (list_at (codes "queue") (view value.now))) }
{
    let Some(items) = list(value, "queue") else {
        return Ok(None);
    };
    let mut queue = Vec::new(alloc);
    for item in items {
        match read_request(alloc, catalogue, site, item)? {
            Some(request) => queue.push(request)?,
            None => return Ok(None),
        }
    }
    Ok(Some(queue))
}

fn read_request(
    alloc: Global,
    catalogue: &Catalogue,
    site: u32,
    value: &Value,
) -> Result<Option<Request>, Memory>
    ensures { IfOk result (λ o. o ≡ request_of (plain_workload catalogue.now) site (view value.now)) }
{
    let Some(caller) = text(value, "src") else {
        return Ok(None);
    };
    let Some(number) = number(value, "msg_id") else {
        return Ok(None);
    };
    let Some(call) = read_named_call(catalogue, site, value) else {
        return Ok(None);
    };
    Ok(Some(Request {
        caller: Text::of(alloc, caller)?,
        number,
        call,
    }))
}

/// The answers of the member `answered`, each to a call of a client at the site.
pub(crate) fn read_answered(
    alloc: Global,
    catalogue: &Catalogue,
    site: u32,
    value: &Value,
) -> Result<Option<Vec<Answer>>, Memory>
    ensures { IfOk result (λ o. option_map (λ l. map plain_answer l.items) o ≡ option_and_then (each (answer_of (plain_workload catalogue.now) site)) (list_at (codes "answered") (view value.now))) }
{
    let Some(items) = list(value, "answered") else {
        return Ok(None);
    };
    let mut answered = Vec::new(alloc);
    for item in items {
        match read_answer(alloc, catalogue, site, item)? {
            Some(answer) => answered.push(answer)?,
            None => return Ok(None),
        }
    }
    Ok(Some(answered))
}

fn read_answer(
    alloc: Global,
    catalogue: &Catalogue,
    site: u32,
    value: &Value,
) -> Result<Option<Answer>, Memory>
    ensures { IfOk result (λ o. option_map plain_answer o ≡ answer_of (plain_workload catalogue.now) site (view value.now)) }
{
    let Some(asked) = number(value, "msg_id") else {
        return Ok(None);
    };
    let Some(call) = read_named_call(catalogue, site, value) else {
        return Ok(None);
    };
    let Some(round) = number(value, "round") else {
        return Ok(None);
    };
    let Some(path) = read_path(value) else {
        return Ok(None);
    };
    match read_prints(alloc, value)? {
        Some(prints) => Ok(Some(Answer {
            number: asked,
            call,
            prints,
            round,
            path,
        })),
        None => Ok(None),
    }
}

/// What a call printed: numbers of 64 bits, which may be larger than those of databases.
fn read_prints(alloc: Global, value: &Value) -> Result<Option<Prints>, Memory>
    ensures { IfOk result (λ o. option_map (λ l. l.items) o ≡ prints_of (view value.now)) }
{
    let Some(items) = list(value, "prints") else {
        return Ok(None);
    };
    let mut prints = Vec::new(alloc);
    for item in items {
        match item.as_i64() {
            Some(n) => prints.push(n)?,
            None => return Ok(None),
        }
    }
    Ok(Some(List::from_vec(prints)))
}

fn read_path(value: &Value) -> Option<Path>
    ensures { result ≡ path_of (view value.now) }
{
    match text(value, "path")? {
        "local" => Some(Path::Local {
            place: number(value, "place")?,
        }),
        "closing" => Some(Path::Closing(read_finding(value.get("finding")?)?)),
        _ => None,
    }
}
