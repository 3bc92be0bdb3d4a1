//! The template of what ground calls bring.

ghost use Rattle.std.specs.Prelude.{◌≡◌, IfOk};
ghost use Rattle.homeo_syntax.specs.SourceView.{plain_workload};
ghost use Rattle.homeo_meaning.specs.Acceptance.{IsAccepted};
ghost use Rattle.homeo_meaning.specs.Bounds.{IsWithin};
ghost use Rattle.homeo_meaning.specs.Schema.{schema_of};
ghost use Rattle.homeo_plan.specs.PlanView.{plain_template};
ghost use Rattle.homeo_plan.specs.Planned.{sites_of, template_at};
ghost use Rattle.homeo_follow.specs.ObjectTemplate.{expanded_template};
ghost use Rattle.homeo_build.specs.Plan.{AreParts};
ghost use Rattle.homeo_build.specs.inner.SharedTemplate.{IsTemplateAt};

use crate::compiled::Compiled;
use crate::frozen::FrozenObjects;
use homeo_follow::PlanPart;
use homeo_meaning::Database;
use homeo_outline::{Leaders, Outline, outlined};
use homeo_plan::Template;
use homeo_syntax::{List, Memory};
use homeo_template::object_clauses;
use std::alloc::Global;
use std::sync::Arc;

/// The template, over whole objects, of what the ground calls ask and need at a base. Calls of one form ask the same, and need the
/// same objects of other sites.
pub(crate) fn object_template(
    alloc: Global,
    c: &Compiled,
    base: &Database,
    parts: &[Arc<PlanPart>],
    sites: u32,
) -> Result<Template, Memory>
    requires accepted { IsAccepted (plain_workload c.now) }
    requires within { IsWithin (schema_of (plain_workload c.now)) base.now.items }
    requires parts { AreParts (plain_workload c.now) base.now.items parts.now }
    requires sites { sites ≡ sites_of (plain_workload c.now) }
    ensures sites { IfOk result (λ t. t.sites ≡ sites) }
    ensures template { IfOk result (λ t. expanded_template sites (plain_template t) ≡ template_at (plain_workload c.now) base.now.items) }
{
    let places = c.forms().places.as_slice();
    let clauses = object_clauses(alloc, parts, places)?;
    let mut frozen = FrozenObjects::new(alloc);
    for (i, call) in c.calls().iter().enumerate() {
        let part = &parts[places[i]];
        frozen.mix(part.atoms.atoms.as_slice())?;
        frozen.need(part.needs.deltas.as_slice(), call.site)?;
    }
    let freezes = frozen.deltas(alloc, sites)?;
    Ok(Template {
        sites,
        clauses,
        freezes: List::from_vec(freezes),
    })
}

/// A template over whole objects, as an outline that plans share, the slacks of its clauses, and which of these lead others, which plans
/// share too.
#[derive(Drop)]
pub(crate) struct SharedTemplate {
    pub(crate) outline: Arc<Outline>,
    pub(crate) slacks: List<i128>,
    pub(crate) leaders: Arc<Leaders>,
}

/// The template of what the ground calls ask and need at a base, with an outline of its own.
pub(crate) fn template_of_parts(
    alloc: Global,
    c: &Compiled,
    base: &Database,
    parts: &[Arc<PlanPart>],
    sites: u32,
) -> Result<SharedTemplate, Memory>
    requires accepted { IsAccepted (plain_workload c.now) }
    requires within { IsWithin (schema_of (plain_workload c.now)) base.now.items }
    requires parts { AreParts (plain_workload c.now) base.now.items parts.now }
    requires sites { sites ≡ sites_of (plain_workload c.now) }
    ensures { IfOk result (IsTemplateAt (plain_workload c.now) base.now.items) }
{
    let template = object_template(alloc, c, base, parts, sites)?;
    let (outline, slacks) = outlined(alloc, template)?;
    let leaders = Leaders::of(alloc, &outline, slacks.as_slice())?;
    Ok(SharedTemplate {
        outline: Arc::new(alloc, outline)?,
        slacks,
        leaders: Arc::new(alloc, leaders)?,
    })
}
