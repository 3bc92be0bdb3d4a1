//! From the bytes of a text to an accepted workload.

ghost use Rattle.std.specs.Prelude.{◌≤◌, length, IfOk, IsErrOf};
ghost use Rattle.homeo_syntax.specs.declared.workload.Refusal.{Refusal};
ghost use Rattle.homeo_syntax.specs.SourceView.{plain_workload};
ghost use Rattle.homeo_syntax.specs.WellFormed.{IsWellFormed};
ghost use Rattle.homeo_meaning.specs.Verdict.{Accepts, IsRefused, text_limit};

use homeo_meaning::{Accepted, Purpose};
use homeo_reader::{ReadRefusal, read};
use homeo_rules::{RuleRefusal, accept};
use homeo_syntax::Refusal;
use std::alloc::Global;

/// Why a text is not accepted.
#[derive(Clone, Copy, Debug, PartialEq, Eq)]
pub enum TextRefusal {
    /// It is no workload, or it breaks a rule: the code and the offset of the fault that decides.
    Refused(Refusal),
    /// Out of memory.
    Memory,
}

/// The workload as which a text of at most 1,048,576 bytes is accepted for a purpose.
///
/// # Errors
///
/// `Refused` exactly where the text is refused for the purpose, as it never is both. `Memory` when out of memory, which says
/// nothing of the text.
pub fn accepted(alloc: Global, text: &[u8], purpose: Purpose) -> Result<Accepted, TextRefusal>
    requires { length text.now ≤ text_limit }
    ensures well_formed { IfOk result (λ w. IsWellFormed (plain_workload w)) }
    ensures accepted { IfOk result (λ w. Accepts text.now purpose (plain_workload w)) }
    ensures refused { (r : Refusal) → IsErrOf result (TextRefusal.Refused r) → IsRefused text.now purpose r }
{
    let workload = match read(alloc, text) {
        Ok(workload) => workload,
        Err(ReadRefusal::Refused(refusal)) => return Err(TextRefusal::Refused(refusal)),
        Err(ReadRefusal::Memory) => return Err(TextRefusal::Memory),
    };
    match accept(alloc, workload, purpose) {
        Ok(accepted) => Ok(accepted),
        Err(RuleRefusal::Refused(refusal)) => Err(TextRefusal::Refused(refusal)),
        Err(RuleRefusal::Memory) => Err(TextRefusal::Memory),
    }
}
