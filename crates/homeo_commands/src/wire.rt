//! The calls of a workload, made at nodes that send each other packets.

ghost use Rattle.std.specs.Prelude.{◌≤◌, length, IfOk, IsErrOf};
ghost use Rattle.homeo_syntax.specs.declared.workload.Refusal.{Refusal};
ghost use Rattle.homeo_syntax.specs.SourceView.{plain_workload};
ghost use Rattle.homeo_wire.specs.Drive.{calls_in};
ghost use Rattle.homeo_commands.specs.Wired.{IsExcess, IsWireReport};

use crate::stop::Stop;
use homeo_build::compile::compile;
use homeo_meaning::Accepted;
use homeo_report::report;
use homeo_syntax::{Memory, Refusal};
use homeo_wire::{count_calls, drive};
use std::alloc::Global;
use std::sync::Arc;

/// The code of a workload with too many calls.
const TOO_MANY_CALLS: u8 = 18;

/// The report of the rounds of nodes, after the events that a number chooses; or the stop of a workload with too many calls.
pub(crate) fn wire(alloc: Global, w: Accepted, number: u64) -> Result<Vec<u8>, Stop>
    ensures made { IfOk result (λ bytes. IsWireReport (plain_workload w) number bytes.items) }
    ensures refused { (r : Refusal) → IsErrOf result (Stop.Refused r) → IsExcess (plain_workload w) r }
    ensures no_other { (IsErrOf result Stop.Usage → ⊥) × (IsErrOf result Stop.ReadFault → ⊥) }
{
    match count_calls(&w) {
        Ok(_) => Ok(wire_report(alloc, w, number)?),
        Err(name) => Err(Stop::Refused(Refusal {
            code: TOO_MANY_CALLS,
            offset: name.offset,
        })),
    }
}

// The report of a workload with few calls.
fn wire_report(alloc: Global, w: Accepted, number: u64) -> Result<Vec<u8>, Memory>
    requires { length (calls_in (plain_workload w)) ≤ 200 }
    ensures { IfOk result (λ bytes. IsWireReport (plain_workload w) number bytes.items) }
{
    let compiled = Arc::new(alloc, compile(alloc, w)?)?;
    let history = drive(alloc, Arc::try_clone(&compiled)?, number)?;
    report(alloc, &history, compiled.workload())
}
