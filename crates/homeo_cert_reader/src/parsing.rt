//! The JSON value of bytes.

ghost use Rattle.std.specs.Prelude.{IfOk, MatchOption};
ghost use Rattle.serde_json.specs.Data.{Data};
ghost use Rattle.serde_json.specs.View.{view};
ghost use Rattle.homeo_certificate.specs.Text.{IsJsonOf};

use homeo_syntax::Memory;
use serde_json::{Category, Value};
use std::alloc::Global;

/// The JSON value that the bytes are, if they are one.
///
/// # Errors
///
/// `Memory` when out of memory.
pub fn parse(alloc: Global, bytes: &[u8]) -> Result<Option<Value>, Memory>
    ensures { IfOk result (λ o. MatchOption o ((d : Data) → IsJsonOf bytes.now d → ⊥) (λ v. IsJsonOf bytes.now (view v))) }
{
    match Value::from_slice(alloc, bytes) {
        Ok(value) => Ok(Some(value)),
        Err(e) => {
            if e.classify() == Category::Memory {
                Err(Memory)
            } else {
                Ok(None)
            }
        }
    }
}
