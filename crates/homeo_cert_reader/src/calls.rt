//! Calls, read from JSON values.

ghost use Rattle.std.specs.Prelude.{IfOk, option_map, map};
ghost use Rattle.serde_json.specs.View.{view};
ghost use Rattle.homeo_certificate.specs.Json.{list_data};
ghost use Rattle.homeo_certificate.specs.Shape.{CallInShape};
ghost use Rattle.homeo_certificate.specs.Text.{call_data};
ghost use Rattle.homeo_cert_reader.specs.CertificateView.{plain_call};
ghost use Rattle.homeo_cert_reader.specs.Read.{IsRead};
ghost use Rattle.homeo_cert_reader.specs.inner.Reading.{AreCalls};

use crate::extents::Extents;
use crate::items::{items, read_list};
use crate::members::read_pair;
use crate::named_nodes::read_nodes;
use crate::numbers::number_below;
use crate::parsing_commands::whole_command;
use homeo_syntax::{LCommand, Memory};
use serde_json::Value;
use std::alloc::Global;

/// A ground call: its site, and its command, transformed for that site.
#[derive(Drop)]
pub struct Call {
    /// The site of its client, below the number of sites.
    pub site: u32,
    /// What it does there, over bases and deltas.
    pub command: LCommand,
}

/// A call: its command's nodes, and its site.
fn read_call(alloc: Global, value: &Value, extents: Extents) -> Result<Option<Call>, Memory>
    ensures { IfOk result (λ o. IsRead (CallInShape extents.objects extents.sites) call_data (view value.now) (option_map plain_call o)) }
{
    let Some((command, site)) = read_pair(value, "command", "site") else {
        return Ok(None);
    };
    let Some(site) = number_below(site, extents.sites) else {
        return Ok(None);
    };
    let Some(nodes) = read_nodes(alloc, command, extents)? else {
        return Ok(None);
    };
    match whole_command(alloc, nodes.as_slice())? {
        Some(command) => Ok(Some(Call { site, command })),
        None => Ok(None),
    }
}

/// A list of at most 1,024 calls.
pub(crate) fn read_calls(
    alloc: Global,
    value: &Value,
    extents: Extents,
) -> Result<Option<Vec<Call>>, Memory>
    ensures { IfOk result (λ o. IsRead (AreCalls extents.objects extents.sites) (λ gs. list_data (map call_data gs)) (view value.now) (option_map (λ l. map plain_call l.items) o)) }
{
    let Some(items) = items(value) else {
        return Ok(None);
    };
    if items.len() > 1024 {
        return Ok(None);
    }
    read_list(alloc, value, |item| read_call(alloc, item, extents))
}
