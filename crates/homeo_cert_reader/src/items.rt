//! The items of a list.

ghost use Rattle.std.specs.Prelude.{◌≡◌, List, map, Ok, IfOk, option_map, MatchOption};
ghost use Rattle.std.specs.Fn.{FnReturnsAt};
ghost use Rattle.serde_json.specs.Data.{Data};
ghost use Rattle.serde_json.specs.View.{view};
ghost use Rattle.homeo_certificate.specs.Json.{list_data};
ghost use Rattle.homeo_cert_reader.specs.inner.Reading.{ListGave};

use homeo_syntax::Memory;
use serde_json::Value;
use std::alloc::Global;

/// The items, if the value is a list.
pub(crate) fn items(value: &Value) -> Option<&[Value]>
    ensures { MatchOption result
        ((ds : List Data) → list_data ds ≡ view value.now → ⊥)
        (λ s. list_data (map view s.now) ≡ view value.now) }
{
    match value.as_array() {
        Some(items) => Some(items.as_slice()),
        None => None,
    }
}

/// What the items are read as, if the value is a list and each of its items is read.
pub(crate) fn read_list<T: Drop, R: Fn(&Value) -> Result<Option<T>, Memory>>(
    alloc: Global,
    value: &Value,
    read: R,
) -> Result<Option<Vec<T>>, Memory>
    requires { R.IsAlwaysCallable read }
    ensures { IfOk result (λ o. ListGave view (λ v o. FnReturnsAt R.Fn read v (Ok o)) (view value.now) (option_map (λ l. l.items) o)) }
{
    let Some(items) = items(value) else {
        return Ok(None);
    };
    let mut all = Vec::with_capacity(alloc, items.len())?;
    for item in items {
        match read(item)? {
            Some(x) => all.push(x)?,
            None => return Ok(None),
        }
    }
    Ok(Some(all))
}
