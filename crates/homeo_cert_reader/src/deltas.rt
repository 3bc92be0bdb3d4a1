//! Deltas, read from JSON values.

ghost use Rattle.std.specs.Prelude.{◌≡◌, ◌∷◌, [], IfOk, option_map, map};
ghost use Rattle.serde_json.specs.View.{view};
ghost use Rattle.homeo_plan.specs.Each.{Each};
ghost use Rattle.homeo_plan.specs.Linear.{delta_before};
ghost use Rattle.homeo_certificate.specs.Json.{list_data};
ghost use Rattle.homeo_certificate.specs.Shape.{DeltaInShape};
ghost use Rattle.homeo_certificate.specs.Text.{delta_data};
ghost use Rattle.homeo_cert_reader.specs.Read.{IsRead};
ghost use Rattle.homeo_cert_reader.specs.inner.Reading.{AreFreezes};

use crate::extents::Extents;
use crate::freezes::Freezes;
use crate::items::{items, read_list};
use crate::numbers::number_below;
use homeo_plan::Delta;
use homeo_syntax::Memory;
use serde_json::Value;
use std::alloc::Global;

/// A delta: a list of its object and its site.
fn read_delta(value: &Value, extents: Extents) -> Option<Delta>
    ensures { IsRead (DeltaInShape extents.objects extents.sites) delta_data (view value.now) result }
{
    let items = items(value)?;
    if items.len() == 2 {
        delta_of(&items[0], &items[1], extents)
    } else {
        None
    }
}

/// The delta of an object and a site.
pub(crate) fn delta_of(object: &Value, site: &Value, extents: Extents) -> Option<Delta>
    ensures { IsRead (DeltaInShape extents.objects extents.sites) delta_data (list_data (view object.now ∷ view site.now ∷ [])) result }
{
    let object = number_below(object, extents.objects)?;
    let site = number_below(site, extents.sites)?;
    Some(Delta { object, site })
}

/// A list of deltas.
fn read_deltas(alloc: Global, value: &Value, extents: Extents) -> Result<Option<Vec<Delta>>, Memory>
    ensures { IfOk result (λ o. IsRead (Each (DeltaInShape extents.objects extents.sites)) (λ ds. list_data (map delta_data ds)) (view value.now) (option_map (λ l. l.items) o)) }
{
    read_list(alloc, value, |item| Ok(read_delta(item, extents)))
}

/// A list of deltas in order, each once.
pub(crate) fn read_freezes(
    alloc: Global,
    value: &Value,
    extents: Extents,
) -> Result<Option<Freezes>, Memory>
    ensures { IfOk result (λ o. IsRead (AreFreezes extents.objects extents.sites) (λ ds. list_data (map delta_data ds)) (view value.now) o) }
{
    match read_deltas(alloc, value, extents)? {
        Some(deltas) => Ok(Freezes::of(deltas)),
        None => Ok(None),
    }
}

/// The order is by object, and then by site.
#[tactic(auto, unfolding(homeo_plan::specs::Key::definitions))]
pub(crate) fn is_before(a: Delta, b: Delta) -> bool
    ensures { result ≡ delta_before a b }
{
    a.object < b.object || (a.object == b.object && a.site < b.site)
}
