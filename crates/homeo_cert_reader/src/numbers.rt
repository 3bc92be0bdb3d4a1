//! Numbers of a certificate, read from JSON values.

ghost use Rattle.std.specs.Prelude.{◌<◌, ◌^◌, pos, IfOk, option_map};
ghost use Rattle.serde_json.specs.View.{view};
ghost use Rattle.homeo_plan.specs.Each.{Each};
ghost use Rattle.homeo_certificate.specs.Json.{whole_data, wholes_data};
ghost use Rattle.homeo_certificate.specs.Shape.{IsWord, IsCount};
ghost use Rattle.homeo_cert_reader.specs.Read.{IsRead};

use crate::items::items;
use homeo_syntax::Memory;
use serde_json::Value;
use std::alloc::Global;

/// A whole number of 64 bits.
pub(crate) fn whole(value: &Value) -> Option<i64>
    ensures { IsRead IsWord whole_data (view value.now) result }
{
    value.as_i64()
}

/// A count that fits a word.
pub(crate) fn count(value: &Value) -> Option<u64>
    ensures { IsRead IsCount (λ n. whole_data (pos n)) (view value.now) result }
{
    let n = value.as_i64()?;
    if 0 <= n { Some(n as u64) } else { None }
}

/// The number of a temporary.
pub(crate) fn temp_number(value: &Value) -> Option<u32>
    ensures { IsRead (λ n. n < 2 ^ 32) (λ n. whole_data (pos n)) (view value.now) result }
{
    let n = value.as_i64()?;
    if 0 <= n && n < 0x1_0000_0000 {
        Some(n as u32)
    } else {
        None
    }
}

/// A whole number from 0 to below a limit.
pub(crate) fn number_below(value: &Value, limit: u32) -> Option<u32>
    ensures { IsRead (λ n. n < limit) (λ n. whole_data (pos n)) (view value.now) result }
{
    let n = value.as_i64()?;
    if 0 <= n && n < limit as i64 {
        Some(n as u32)
    } else {
        None
    }
}

/// A list of whole numbers of 64 bits.
pub(crate) fn wholes(alloc: Global, value: &Value) -> Result<Option<Vec<i64>>, Memory>
    ensures { IfOk result (λ o. IsRead (Each IsWord) wholes_data (view value.now) (option_map (λ l. l.items) o)) }
{
    let Some(items) = items(value) else {
        return Ok(None);
    };
    let mut numbers = Vec::with_capacity(alloc, items.len())?;
    for item in items {
        match whole(item) {
            Some(n) => numbers.push(n)?,
            None => return Ok(None),
        }
    }
    Ok(Some(numbers))
}
