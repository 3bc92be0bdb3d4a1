//! The treaties at a workload's initial database, as a text.

ghost use Rattle.std.specs.Prelude.{◌≡◌, IfOk};
ghost use Rattle.homeo_syntax.specs.SourceView.{plain_workload};
ghost use Rattle.homeo_outline.specs.ObjectPlan.{template_in, config_in};
ghost use Rattle.homeo_print.specs.Plans.{HasBounds};
ghost use Rattle.homeo_print.specs.Treaties.{template_text, treaty_text};

use homeo_build::Compiled;
use homeo_build::compile::compile;
use homeo_build::treaties::plan_at;
use homeo_eval::initial;
use homeo_meaning::Accepted;
use homeo_outline::ObjectPlan;
use homeo_print::{ObjectNames, print_plan};
use homeo_syntax::{Memory, Workload};
use std::alloc::Global;

/// The treaties of the round that begins at the initial database.
pub fn treaty(alloc: Global, w: Accepted) -> Result<Vec<u8>, Memory>
    ensures { IfOk result (λ bytes. bytes.items ≡ treaty_text (plain_workload w)) }
{
    let compiled = compile(alloc, w)?;
    first_treaty(alloc, &compiled)
}

/// The same of a compiled workload.
fn first_treaty(alloc: Global, c: &Compiled) -> Result<Vec<u8>, Memory>
    ensures { IfOk result (λ bytes. bytes.items ≡ treaty_text (plain_workload c.now)) }
{
    let base = initial(alloc, c.workload())?;
    let plan = plan_at(alloc, c, &base)?;
    plan_text(alloc, c.workload().workload(), &plan)
}

/// The treaties of a plan, as a text.
fn plan_text(alloc: Global, w: &Workload, plan: &ObjectPlan) -> Result<Vec<u8>, Memory>
    requires bounds { HasBounds plan.now }
    ensures { IfOk result (λ bytes. bytes.items ≡
        template_text (plain_workload w.now) (template_in plan.now) (config_in plan.now)) }
{
    let objects = ObjectNames::of(alloc, w)?;
    let mut out = Vec::new(alloc);
    print_plan(&mut out, w, &objects, plan)?;
    Ok(out)
}
