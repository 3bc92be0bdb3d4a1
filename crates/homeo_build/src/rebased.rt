//! The outline of a plan that is made from another plan.

ghost use Rattle.std.specs.Prelude.{◌≡◌, IfOk, IfSome, IsTrue};
ghost use Rattle.homeo_syntax.specs.SourceView.{plain_workload};
ghost use Rattle.homeo_meaning.specs.Acceptance.{IsAccepted};
ghost use Rattle.homeo_meaning.specs.Bounds.{IsWithin};
ghost use Rattle.homeo_meaning.specs.Schema.{schema_of};
ghost use Rattle.homeo_plan.specs.Planned.{sites_of};
ghost use Rattle.homeo_build.specs.Plan.{AreParts, IsObjectPlan};
ghost use Rattle.homeo_build.specs.inner.Rebased.{AreRebased};
ghost use Rattle.homeo_build.specs.inner.SharedTemplate.{IsTemplateAt};

use crate::calls::{SharedTemplate, template_of_parts};
use crate::compiled::Compiled;
use crate::parts::PartsAfter;
use homeo_meaning::Database;
use homeo_outline::{ObjectPlan, rebased_slacks};
use homeo_syntax::Memory;
use std::alloc::Global;
use std::sync::Arc;

/// The outline and slacks of what the forms bring at a base. Where that is what they brought to the plan of another base, rebased,
/// the outline is that plan's, and no clauses are told apart.
pub(crate) fn outline_after(
    alloc: Global,
    c: &Compiled,
    last: &ObjectPlan,
    base: &Database,
    made: &PartsAfter,
    sites: u32,
) -> Result<SharedTemplate, Memory>
    requires accepted { IsAccepted (plain_workload c.now) }
    requires last { IsObjectPlan (plain_workload c.now) last.now.base.items last.now }
    requires within { IsWithin (schema_of (plain_workload c.now)) base.now.items }
    requires parts { AreParts (plain_workload c.now) base.now.items made.now.parts.items }
    requires rebased { IsTrue made.now.are_rebased → AreRebased last.now.base.items base.now.items last.now.parts.items made.now.parts.items }
    requires sites { sites ≡ sites_of (plain_workload c.now) }
    ensures { IfOk result (IsTemplateAt (plain_workload c.now) base.now.items) }
{
    match rebased_outline(alloc, c, last, base, made)? {
        Some(template) => Ok(template),
        None => template_of_parts(alloc, c, base, made.parts.as_slice(), sites),
    }
}

/// That plan's outline with the slacks at this base; none where a part isn't rebased or a slack is out of the range of i128.
fn rebased_outline(
    alloc: Global,
    c: &Compiled,
    last: &ObjectPlan,
    base: &Database,
    made: &PartsAfter,
) -> Result<Option<SharedTemplate>, Memory>
    requires accepted { IsAccepted (plain_workload c.now) }
    requires last { IsObjectPlan (plain_workload c.now) last.now.base.items last.now }
    requires parts { AreParts (plain_workload c.now) base.now.items made.now.parts.items }
    requires rebased { IsTrue made.now.are_rebased → AreRebased last.now.base.items base.now.items last.now.parts.items made.now.parts.items }
    ensures { IfOk result (λ found. IfSome found (IsTemplateAt (plain_workload c.now) base.now.items)) }
{
    // each ground call has its form among them
    let _forms = c.forms();
    if !made.are_rebased {
        return Ok(None);
    }
    let slacks = last.slacks.as_slice();
    let (from, to) = (last.base.as_slice(), base.as_slice());
    let Some(slacks) = rebased_slacks(alloc, &last.outline, slacks, from, to)? else {
        return Ok(None);
    };
    let outline = Arc::try_clone(&last.outline)?;
    let leaders = Arc::try_clone(&last.leaders)?;
    Ok(Some(SharedTemplate {
        outline,
        slacks,
        leaders,
    }))
}
