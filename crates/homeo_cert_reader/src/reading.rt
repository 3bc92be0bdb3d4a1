//! Certificates, read from JSON values.

ghost use Rattle.std.specs.Prelude.{◌≡◌, pos, MatchBool, IfOk, option_map};
ghost use Rattle.serde_json.specs.View.{view};
ghost use Rattle.homeo_certificate.specs.Json.{whole_data, wholes_data};
ghost use Rattle.homeo_certificate.specs.Shape.{InShape};
ghost use Rattle.homeo_certificate.specs.Text.{certificate_data};
ghost use Rattle.homeo_cert_reader.specs.CertificateView.{plain_certificate};
ghost use Rattle.homeo_cert_reader.specs.Read.{IsRead};
ghost use Rattle.homeo_cert_reader.specs.inner.Reading.{IsBase, IsSiteCount};

use crate::calls::{Call, read_calls};
use crate::clauses::{read_all_bounds, read_clauses};
use crate::deltas::read_freezes;
use crate::extents::Extents;
use crate::freezes::Freezes;
use crate::members::certificate_parts;
use crate::numbers::{number_below, whole, wholes};
use homeo_plan::Clause;
use homeo_syntax::Memory;
use serde_json::Value;
use std::alloc::Global;

/// A certificate in shape.
#[derive(Drop)]
pub struct Certificate {
    /// How many sites there are, from 1 to 16.
    pub sites: u32,
    /// The round's base: a value for each object, of which there are at most 1,024.
    pub base: Vec<i64>,
    /// The clauses of the treaty, in the order of their numbers.
    pub clauses: Vec<Clause>,
    /// For each clause, in the same order, a bound for each site.
    pub bounds: Vec<Vec<i64>>,
    /// The deltas that are frozen.
    pub freezes: Freezes,
    /// The ground calls, at most 1,024.
    pub calls: Vec<Call>,
}

/// The number of sites, from 1 to 16.
fn read_sites(value: &Value) -> Option<u32>
    ensures { IsRead IsSiteCount (λ n. whole_data (pos n)) (view value.now) result }
{
    let sites = number_below(value, 17)?;
    if sites == 0 { None } else { Some(sites) }
}

/// Whether the version is 1.
fn is_first(value: &Value) -> bool
    ensures { MatchBool result (whole_data (pos 1) ≡ view value.now) (whole_data (pos 1) ≡ view value.now → ⊥) }
{
    match whole(value) {
        Some(version) => version == 1,
        None => false,
    }
}

/// The values of at most 1,024 objects.
fn read_base(alloc: Global, value: &Value) -> Result<Option<Vec<i64>>, Memory>
    ensures { IfOk result (λ o. IsRead IsBase wholes_data (view value.now) (option_map (λ l. l.items) o)) }
{
    let Some(base) = wholes(alloc, value)? else {
        return Ok(None);
    };
    if base.len() > 1024 {
        return Ok(None);
    }
    Ok(Some(base))
}

/// The certificate, if the value is one in shape.
///
/// # Errors
///
/// `Memory` when out of memory.
pub fn read_certificate(alloc: Global, value: &Value) -> Result<Option<Certificate>, Memory>
    ensures { IfOk result (λ o. IsRead InShape certificate_data (view value.now) (option_map plain_certificate o)) }
{
    let Some(parts) = certificate_parts(value) else {
        return Ok(None);
    };
    if !is_first(parts.version) {
        return Ok(None);
    }
    let Some(sites) = read_sites(parts.sites) else {
        return Ok(None);
    };
    let Some(base) = read_base(alloc, parts.base)? else {
        return Ok(None);
    };
    let extents = Extents {
        objects: base.len() as u32,
        sites,
    };
    let Some(clauses) = read_clauses(alloc, parts.clauses, extents)? else {
        return Ok(None);
    };
    let Some(bounds) = read_all_bounds(alloc, parts.bounds, sites)? else {
        return Ok(None);
    };
    if bounds.len() != clauses.len() {
        return Ok(None);
    }
    let Some(freezes) = read_freezes(alloc, parts.freezes, extents)? else {
        return Ok(None);
    };
    let Some(calls) = read_calls(alloc, parts.calls, extents)? else {
        return Ok(None);
    };
    Ok(Some(Certificate {
        sites,
        base,
        clauses,
        bounds,
        freezes,
        calls,
    }))
}
