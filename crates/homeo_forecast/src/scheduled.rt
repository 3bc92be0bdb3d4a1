//! The calls of a schedule, and their forecast.

ghost use Rattle.std.specs.Prelude.{◌≡◌, ◌+◌, ◌<◌, ◌^◌, [], length, replicate, slice_index_or, slice_set, IfOk};
ghost use Rattle.homeo_syntax.specs.SourceView.{plain_workload};
ghost use Rattle.homeo_syntax.specs.WellFormed.{IsWellFormed};
ghost use Rattle.homeo_meaning.specs.Faults.{faults};
ghost use Rattle.homeo_meaning.specs.Initial.{initial};
ghost use Rattle.homeo_meaning.specs.declared.call.Purpose.TheVariants as purpose;
ghost use Rattle.homeo_order.specs.Order.{scheduled_calls};
ghost use Rattle.homeo_order.specs.Scheduled.{IsWholeOrder};
ghost use Rattle.homeo_forecast.specs.Text.{IsForecastText};

use crate::text::forecast_text;
use homeo_build::compile::compile;
use homeo_eval::initial;
use homeo_meaning::{Accepted, CallId};
use homeo_order::{client_places, order};
use homeo_syntax::{Memory, Workload};
use std::alloc::Global;

/// The calls of a workload in the order of its schedule: each name stands for the next call of its client.
fn scheduled(alloc: Global, w: &Workload) -> Result<Vec<CallId>, Memory>
    requires { IsWholeOrder (plain_workload w.now) }
    ensures { IfOk result (λ calls. calls.items ≡ scheduled_calls (plain_workload w.now)) }
{
    let clients = client_places(alloc, w)?;
    let mut made = counts(alloc, w.clients.as_slice().len())?;
    let mut calls = Vec::new(alloc);
    for name in order(w) {
        let client = clients.get(name.name);
        let seq = count(&mut made, client);
        calls.push(CallId {
            client: client as u32,
            seq,
        })?;
    }
    Ok(calls)
}

/// Counts one call more of a client, and gives how many of its calls there are then.
fn count(made: &mut Vec<u64>, client: usize) -> u64
    requires there { client < length made.old.items }
    requires fits { slice_index_or made.old.items client 0 + 1 < 2 ^ 64 }
    ensures number { result ≡ slice_index_or made.old.items client 0 + 1 }
    ensures counted { made.new.items ≡ slice_set made.old.items client result }
{
    let seq = made[client] + 1;
    made[client] = seq;
    seq
}

/// A 0 for each of so many clients.
fn counts(alloc: Global, count: usize) -> Result<Vec<u64>, Memory>
    ensures { IfOk result (λ z. z.items ≡ replicate count 0) }
{
    Ok(vec![in alloc; 0; count]?)
}

/// The text of the forecast of all calls of a workload that is accepted for `steps`, from its initial database, in the order of
/// its schedule.
///
/// # Errors
///
/// `Memory` when out of memory.
pub fn scheduled_forecast(alloc: Global, w: Accepted) -> Result<Vec<u8>, Memory>
    requires well_formed { IsWellFormed (plain_workload w) }
    requires sound { faults purpose.Steps (plain_workload w) ≡ [] }
    ensures { let v = plain_workload w in IfOk result (λ out. IsForecastText v (initial v) (scheduled_calls v) out.items) }
{
    let c = compile(alloc, w)?;
    let base = initial(alloc, c.workload())?;
    let calls = scheduled(alloc, c.workload().workload())?;
    forecast_text(alloc, &c, &base, &calls)
}
