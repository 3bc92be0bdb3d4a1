//! How far a list of calls goes.

ghost use Rattle.std.specs.Prelude.{option_map, IfOk};
ghost use Rattle.homeo_syntax.specs.SourceView.{plain_workload};
ghost use Rattle.homeo_meaning.specs.Acceptance.{IsAccepted};
ghost use Rattle.homeo_meaning.specs.Bounds.{IsWithin};
ghost use Rattle.homeo_meaning.specs.Calls.{CallExists};
ghost use Rattle.homeo_meaning.specs.Schema.{schema_of};
ghost use Rattle.homeo_plan.specs.Each.{Each};
ghost use Rattle.homeo_plan.specs.PlanView.{plain_config};
ghost use Rattle.homeo_build.specs.Plan.{IsObjectPlan};
ghost use Rattle.homeo_forecast.specs.Forecast.{IsForecast};
ghost use Rattle.homeo_forecast.specs.View.{plain_stop};

use crate::outlook::Outlook;
use crate::replay::Replay;
use homeo_build::Compiled;
use homeo_build::treaties::plan_at;
use homeo_meaning::{CallId, Database};
use homeo_outline::ObjectPlan;
use homeo_syntax::Memory;
use std::alloc::Global;

/// How far a list of calls goes from a base without a cleanup, by the configuration that serves it best: the length of the
/// longest prefix that some fitting configuration serves, each call replayed at its own site, with one that serves it, and what
/// stops the next call (this project's rule). Each call takes time in proportion to its L form, to the objects, and to the clauses
/// and freezes that stand on what it writes.
///
/// Each call must be one of the workload, and the base must be within its bounds.
///
/// # Errors
///
/// `Memory` when out of memory.
pub fn forecast(
    alloc: Global,
    c: &Compiled,
    base: &Database,
    calls: &[CallId],
) -> Result<Outlook, Memory>
    requires exist { Each (λ call. CallExists (plain_workload c.now) call) calls.now }
    requires within { IsWithin (schema_of (plain_workload c.now)) base.now.items }
    ensures { IfOk result (λ o. IsForecast (plain_workload c.now) base.now.items calls.now o.kept (plain_config o.config)
        (option_map plain_stop o.stop)) }
{
    // its rules hold
    let _workload = c.workload().workload();
    let plan = plan_at(alloc, c, base)?;
    forecast_on(alloc, c, &plan, calls)
}

/// How far a list of calls goes from the base of a plan.
fn forecast_on(
    alloc: Global,
    c: &Compiled,
    plan: &ObjectPlan,
    calls: &[CallId],
) -> Result<Outlook, Memory>
    requires accepted { IsAccepted (plain_workload c.now) }
    requires exist { Each (λ call. CallExists (plain_workload c.now) call) calls.now }
    requires plan { IsObjectPlan (plain_workload c.now) plan.now.base.items plan.now }
    ensures { IfOk result (λ o. IsForecast (plain_workload c.now) plan.now.base.items calls.now o.kept
        (plain_config o.config) (option_map plain_stop o.stop)) }
{
    let mut replay = Replay::begin(alloc, plan)?;
    for (kept, call) in calls.iter().enumerate() {
        let stop = replay.call(alloc, c, plan, *call)?;
        if stop.is_some() {
            let config = replay.config(alloc)?;
            return Ok(Outlook {
                kept: kept as u64,
                config,
                stop,
            });
        }
    }
    let config = replay.config(alloc)?;
    Ok(Outlook {
        kept: calls.len() as u64,
        config,
        stop: None,
    })
}
