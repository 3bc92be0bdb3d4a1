//! The line of a refusal.

ghost use Rattle.std.specs.Prelude.{◌≡◌, IfOk};
ghost use Rattle.std.specs.String.{string_bytes};
ghost use Rattle.homeo_accept.specs.RefusalLine.{refusal_line};

use homeo_syntax::{Memory, Refusal};
use std::alloc::Global;

/// What the line of a refusal begins with, before the code's number.
const REFUSED: &str = "refused E";

/// What stands between a refusal's code and its offset.
const AT: &str = " at ";

/// The line that tells a refusal, with a newline at its end: `refused E7 at 120`.
///
/// # Errors
///
/// `Memory` when out of memory.
pub fn refusal_line(alloc: Global, refusal: Refusal) -> Result<String, Memory>
    ensures { IfOk result (λ line. string_bytes line ≡ refusal_line refusal) }
{
    let Refusal { code, offset } = refusal;
    let line = format!(in alloc; "{REFUSED}{code}{AT}{offset}\n")?;
    Ok(line)
}
