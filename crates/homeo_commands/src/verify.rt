//! The verdict on a certificate.

ghost use Rattle.std.specs.Prelude.{◌≡◌, ◌+◌, ℕ, List, Some, IfOk, IsErrOf};
ghost use Rattle.std.specs.String.{string_bytes};
ghost use Rattle.homeo_io.specs.Faults.{Rose};
ghost use Rattle.homeo_io.specs.Moved.{GaveAtMost};
ghost use Rattle.homeo_syntax.specs.declared.workload.Refusal.{Refusal};
ghost use Rattle.homeo_commands.specs.Certified.{certificate_limit, unended, verdict_text, IsUnverified, IsVerdictLine};
ghost use Rattle.homeo_commands.specs.Made.{OfStream};

use crate::stop::Stop;
use homeo_certificate::Verdict;
use homeo_io::{ReadError, Source, read_all};
use homeo_syntax::{Memory, Refusal};
use homeo_verify::verify;
use std::alloc::Global;

/// The most bytes that a certificate may have, and a newline.
const CERTIFICATE_LIMIT: usize = 16_777_217;

/// What is told where there are more bytes.
const LONG_SOURCE: Refusal = Refusal {
    code: 2,
    offset: 16_777_216,
};

/// The line of the verdict on what the source gives.
pub(crate) fn verdict<S: Source>(alloc: Global, source: &mut S) -> Result<Vec<u8>, Stop>
    ensures made { IfOk result (λ out. OfStream (S.left source.old) (S.left source.new) (λ bytes. IsVerdictLine bytes out.items)) }
    ensures no_usage { IsErrOf result Stop.Usage → ⊥ }
    ensures refused { (r : Refusal) → IsErrOf result (Stop.Refused r) → (bytes : List ℕ) → S.left source.old ≡ Some bytes → IsUnverified bytes r }
    ensures fault { IsErrOf result Stop.ReadFault → Rose (S.faults source.old) (S.faults source.new) }
    ensures gave { GaveAtMost (S.left source.old) (S.left source.new) (certificate_limit + 2) }
{
    match read_all(alloc, source, CERTIFICATE_LIMIT) {
        Ok(bytes) => verdict_on(alloc, &bytes),
        Err(ReadError::Fault) => Err(Stop::ReadFault),
        Err(ReadError::TooLong { .. }) => Err(Stop::Refused(LONG_SOURCE)),
        Err(ReadError::Memory) => Err(Stop::Memory),
    }
}

/// The line of the verdict on bytes, but for a newline at their end.
fn verdict_on(alloc: Global, bytes: &[u8]) -> Result<Vec<u8>, Stop>
    ensures made { IfOk result (λ out. IsVerdictLine bytes.now out.items) }
    ensures refused { (r : Refusal) → IsErrOf result (Stop.Refused r) → IsUnverified bytes.now r }
    ensures no_other { (IsErrOf result Stop.Usage → ⊥) × (IsErrOf result Stop.ReadFault → ⊥) }
{
    let bytes = unended(bytes);
    if bytes.len() > 16_777_216 {
        return Err(Stop::Refused(LONG_SOURCE));
    }
    let line = verdict_line(alloc, verify(alloc, bytes)?)?;
    Ok(line.into_bytes())
}

/// The bytes, but for a newline at their end.
fn unended(bytes: &[u8]) -> &[u8]
    ensures { result.now ≡ unended bytes.now }
{
    bytes.strip_suffix(b"\n").unwrap_or(bytes)
}

/// The line of a verdict.
fn verdict_line(alloc: Global, verdict: Verdict) -> Result<String, Memory>
    ensures { IfOk result (λ line. string_bytes line ≡ verdict_text verdict) }
{
    let line = match verdict {
        Verdict::Valid => String::from_str(alloc, "valid\n")?,
        Verdict::Json => String::from_str(alloc, "invalid json\n")?,
        Verdict::Shape => String::from_str(alloc, "invalid shape\n")?,
        Verdict::Bounds { clause } => format!(in alloc; "invalid bounds {clause}\n")?,
        Verdict::Size { call } => format!(in alloc; "invalid size {call}\n")?,
        Verdict::Freeze { call, delta } => format!(in alloc;
            "invalid freeze {call} {} {}\n",
            delta.object, delta.site
        )?,
        Verdict::Clause { call } => format!(in alloc; "invalid clause {call}\n")?,
        Verdict::Foreign { call } => format!(in alloc; "invalid foreign {call}\n")?,
    };
    Ok(line)
}
