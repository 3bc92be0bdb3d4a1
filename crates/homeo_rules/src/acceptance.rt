//! Acceptance.

ghost use Rattle.std.specs.Prelude.{◌≡◌, [], IfOk, IsErrOf};
ghost use Rattle.homeo_syntax.specs.SourceView.{plain_workload};
ghost use Rattle.homeo_syntax.specs.WellFormed.{IsWellFormed};
ghost use Rattle.homeo_meaning.specs.Faults.{faults, IsRefusedBy};
ghost use Rattle.homeo_syntax.specs.declared.workload.Refusal.{Refusal};

use crate::deciding::code;
use crate::decision::decide;
use homeo_meaning::{Accepted, Purpose};
use homeo_syntax::{Refusal, Workload};
use std::alloc::Global;

/// Why a workload is not accepted.
#[derive(Clone, Copy, Debug, PartialEq, Eq)]
pub enum RuleRefusal {
    /// The rule that decides is broken, with its number and the place in the text.
    Refused(Refusal),
    /// Out of memory.
    Memory,
}

/// Accepts a workload that breaks no rule for the purpose, and gives it back as it was. The rules are this project's.
///
/// # Errors
///
/// `Refused`, by the fault that decides: one of the first phase that has one, and in it the one with the least offset.
/// `Memory` when out of memory, which says nothing of the workload.
pub fn accept(alloc: Global, w: Workload, purpose: Purpose) -> Result<Accepted, RuleRefusal>
    requires { IsWellFormed (plain_workload w) }
    ensures same { IfOk result (λ a. plain_workload a ≡ plain_workload w) }
    ensures accepted { IfOk result (λ a. faults purpose (plain_workload w) ≡ []) }
    ensures refused { (r : Refusal) → IsErrOf result (RuleRefusal.Refused r) →
        IsRefusedBy purpose (plain_workload w) r }
{
    let Ok(decided) = decide(alloc, purpose, &w) else {
        return Err(RuleRefusal::Memory);
    };
    match decided {
        Ok(findings) => Ok(Accepted::with_findings(w, findings)),
        Err(fault) => Err(RuleRefusal::Refused(Refusal {
            code: code(fault.phase),
            offset: fault.offset,
        })),
    }
}
