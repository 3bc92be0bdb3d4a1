//! The treaties of a round.

ghost use Rattle.std.specs.Prelude.{◌≡◌, Some, IfOk};
ghost use Rattle.homeo_syntax.specs.SourceView.{plain_workload};
ghost use Rattle.homeo_meaning.specs.Acceptance.{IsAccepted};
ghost use Rattle.homeo_meaning.specs.Bounds.{IsWithin};
ghost use Rattle.homeo_meaning.specs.Schema.{schema_of};
ghost use Rattle.homeo_meaning.specs.Small.{IsSmall};
ghost use Rattle.homeo_plan.specs.Config.{Fits, HaveSlack, even, split_by};
ghost use Rattle.homeo_plan.specs.Each.{Each};
ghost use Rattle.homeo_plan.specs.Limit.{form_limit};
ghost use Rattle.homeo_plan.specs.PlanView.{plain_template, plain_config};
ghost use Rattle.homeo_plan.specs.Planned.{sites_of, template_at, shares_of, policy};
ghost use Rattle.homeo_plan.specs.declared.templates.Config.{Config};
ghost use Rattle.homeo_plan.specs.Linear.{AreInOrder};
ghost use Rattle.homeo_outline.specs.ObjectPlan.{config_or, config_in};
ghost use Rattle.homeo_build.specs.Plan.{AreParts, IsPlanOf, IsObjectPlan};
ghost use Rattle.homeo_build.specs.inner.SharedTemplate.{spread, IsTemplateAt};

use crate::calls::{SharedTemplate, object_template, template_of_parts};
use crate::compiled::Compiled;
use crate::parts::{parts_after, parts_at};
use crate::rebased::outline_after;
use crate::shares::shares;
use crate::sites::site_count;
use homeo_config::{split_even, split_weighted};
use homeo_follow::PlanPart;
use homeo_meaning::Database;
use homeo_outline::{ObjectPlan, whole_template};
use homeo_plan::{Config, RoundPlan, Template};
use homeo_syntax::{List, Memory};
use homeo_template::at_sites;
use std::alloc::Global;
use std::sync::Arc;

/// The plan of the round that begins at a base (Roy et al., SIGMOD 2015). Of each ground call the row of its symbolic table
/// that holds there is found by following the branches that are taken, without the table; the template is made of the
/// atoms of all these rows' formulas and of what their residuals need. The configuration is the given one, or else the
/// policy, which splits each slack by the sites' shares of it (this project's rule). The plan has a copy of the base.
///
/// The base must be within the workload's bounds, and a configuration that is given must fit the template: for each clause a
/// bound for each site, none negative, which add up to the slack.
///
/// # Errors
///
/// `Memory` when out of memory.
pub fn treaties(
    alloc: Global,
    c: &Compiled,
    base: &Database,
    config: Option<Config>,
) -> Result<RoundPlan, Memory>
    requires within { IsWithin (schema_of (plain_workload c.now)) base.now.items }
    requires fits { (given : Config) → config ≡ Some given → Fits (sites_of (plain_workload c.now))
        (template_at (plain_workload c.now) base.now.items).clauses (plain_config given) }
    ensures base { IfOk result (λ p. p.base.items ≡ base.now.items) }
    ensures sites { IfOk result (λ p. p.template.sites ≡ sites_of (plain_workload c.now)) }
    ensures template { IfOk result (λ p. plain_template p.template ≡ template_at (plain_workload c.now) base.now.items) }
    ensures order { IfOk result (λ p. AreInOrder p.template.freezes.items) }
    ensures config { IfOk result (λ p. plain_config p.config ≡ config_or (policy (plain_workload c.now) base.now.items) config) }
    ensures fits { IfOk result (λ p. Fits (sites_of (plain_workload c.now))
        (template_at (plain_workload c.now) base.now.items).clauses (plain_config p.config)) }
    ensures plan { IfOk result (IsPlanOf (plain_workload c.now) base.now.items) }
{
    let sites = site_count(c.workload());
    let template = template_of(alloc, c, base, sites)?;
    let config = config_for(alloc, c, &template, config)?;
    let values = Vec::from_slice(alloc, base.as_slice())?;
    Ok(RoundPlan {
        base: List::from_vec(values),
        template,
        config,
    })
}

/// The plan, over whole objects and with the bounds of the policy, of the round that begins at a base, to be shared. Its clauses take
/// time and memory without regard to how many sites there are, and its bounds none, unless sites have weights; of frozen objects the
/// deltas of all sites are listed. The base must be within the workload's bounds.
///
/// # Errors
///
/// `Memory` when out of memory.
pub fn plan_at(alloc: Global, c: &Compiled, base: &Database) -> Result<Arc<ObjectPlan>, Memory>
    requires within { IsWithin (schema_of (plain_workload c.now)) base.now.items }
    ensures plan { IfOk result (λ p. IsObjectPlan (plain_workload c.now) base.now.items p.value) }
    ensures policy { IfOk result (λ p. config_in p.value ≡ policy (plain_workload c.now) base.now.items) }
{
    let sites = site_count(c.workload());
    let parts = parts_at(alloc, c, base)?;
    let template = template_of_parts(alloc, c, base, parts.as_slice(), sites)?;
    object_plan(alloc, c, base, parts, template)
}

/// The same plan, made from that of another base of the workload: what a form brings stays, shared with that plan, where no object
/// that it names has another value; and where all forms bring what they brought there, but for what the objects gained, so does the
/// outline, and only the slacks are made. The base must be within the workload's bounds.
///
/// # Errors
///
/// `Memory` when out of memory.
pub fn plan_after(
    alloc: Global,
    c: &Compiled,
    last: &ObjectPlan,
    base: &Database,
) -> Result<Arc<ObjectPlan>, Memory>
    requires last { IsObjectPlan (plain_workload c.now) last.now.base.items last.now }
    requires within { IsWithin (schema_of (plain_workload c.now)) base.now.items }
    ensures plan { IfOk result (λ p. IsObjectPlan (plain_workload c.now) base.now.items p.value) }
    ensures policy { IfOk result (λ p. config_in p.value ≡ policy (plain_workload c.now) base.now.items) }
{
    let sites = site_count(c.workload());
    let made = parts_after(alloc, c, last, base)?;
    let template = outline_after(alloc, c, last, base, &made, sites)?;
    object_plan(alloc, c, base, made.parts, template)
}

/// The plan of what the forms bring at a base, and of the template of that.
fn object_plan(
    alloc: Global,
    c: &Compiled,
    base: &Database,
    parts: List<Arc<PlanPart>>,
    template: SharedTemplate,
) -> Result<Arc<ObjectPlan>, Memory>
    requires accepted { IsAccepted (plain_workload c.now) }
    requires within { IsWithin (schema_of (plain_workload c.now)) base.now.items }
    requires parts { AreParts (plain_workload c.now) base.now.items parts.items }
    requires template { IsTemplateAt (plain_workload c.now) base.now.items template }
    ensures plan { IfOk result (λ p. IsObjectPlan (plain_workload c.now) base.now.items p.value) }
    ensures policy { IfOk result (λ p. config_in p.value ≡ policy (plain_workload c.now) base.now.items) }
{
    let bounds = bounds_by_weights(alloc, c, &template)?;
    let values = Vec::from_slice(alloc, base.as_slice())?;
    let plan = ObjectPlan {
        base: List::from_vec(values),
        parts,
        outline: template.outline,
        slacks: template.slacks,
        leaders: template.leaders,
        bounds,
    };
    Ok(Arc::new(alloc, plan)?)
}

/// The template of what the ground calls ask and need at a base, over the deltas of the sites.
fn template_of(alloc: Global, c: &Compiled, base: &Database, sites: u32) -> Result<Template, Memory>
    requires accepted { IsAccepted (plain_workload c.now) }
    requires within { IsWithin (schema_of (plain_workload c.now)) base.now.items }
    requires sites { sites ≡ sites_of (plain_workload c.now) }
    ensures sites { IfOk result (λ t. t.sites ≡ sites) }
    ensures template { IfOk result (λ t. plain_template t ≡ template_at (plain_workload c.now) base.now.items) }
    ensures small { IfOk result (λ t. Each (λ c. IsSmall form_limit c.slack) (plain_template t).clauses) }
    ensures order { IfOk result (λ t. AreInOrder t.freezes.items) }
{
    let parts = parts_at(alloc, c, base)?;
    let whole = object_template(alloc, c, base, parts.as_slice(), sites)?;
    at_sites(alloc, &whole)
}

/// The bounds, by the sites' weights, of a template over whole objects; without weights none, as they are even.
fn bounds_by_weights(
    alloc: Global,
    c: &Compiled,
    t: &SharedTemplate,
) -> Result<Option<Config>, Memory>
    requires sites { t.now.outline.value.sites ≡ sites_of (plain_workload c.now) }
    requires not_negative { HaveSlack (spread t.now).clauses }
    requires small { Each (λ c. IsSmall form_limit c.slack) (spread t.now).clauses }
    ensures { let clauses = (spread t.now).clauses in IfOk result (λ bounds.
        config_or (even t.now.outline.value.sites clauses) bounds ≡ split_by (shares_of (plain_workload c.now)) clauses) }
{
    if c.workload().workload().weights.as_slice().is_empty() {
        return Ok(None);
    }
    let whole = whole_template(alloc, &t.outline, t.slacks.as_slice())?;
    let template = at_sites(alloc, &whole)?;
    let bounds = split_by_weights(alloc, c, &template)?;
    Ok(Some(bounds))
}

/// The given configuration, or else the one by shares.
fn config_for(
    alloc: Global,
    c: &Compiled,
    t: &Template,
    config: Option<Config>,
) -> Result<Config, Memory>
    requires sites { t.now.sites ≡ sites_of (plain_workload c.now) }
    requires not_negative { HaveSlack (plain_template t.now).clauses }
    requires small { Each (λ c. IsSmall form_limit c.slack) (plain_template t.now).clauses }
    ensures { IfOk result (λ made. plain_config made ≡
        config_or (split_by (shares_of (plain_workload c.now)) (plain_template t.now).clauses) config) }
{
    match config {
        Some(config) => Ok(config),
        None => split_by_shares(alloc, c, t),
    }
}

/// Splits the slack of each clause by the sites' shares of it, which are even where the workload has no weights.
fn split_by_shares(alloc: Global, c: &Compiled, t: &Template) -> Result<Config, Memory>
    requires sites { t.now.sites ≡ sites_of (plain_workload c.now) }
    requires not_negative { HaveSlack (plain_template t.now).clauses }
    requires small { Each (λ c. IsSmall form_limit c.slack) (plain_template t.now).clauses }
    ensures { IfOk result (λ made. plain_config made ≡ split_by (shares_of (plain_workload c.now)) (plain_template t.now).clauses) }
{
    if c.workload().workload().weights.as_slice().is_empty() {
        return split_even(alloc, t);
    }
    split_by_weights(alloc, c, t)
}

/// Splits the slack of each clause by the weights of the sites that take part in it.
fn split_by_weights(alloc: Global, c: &Compiled, t: &Template) -> Result<Config, Memory>
    requires sites { t.now.sites ≡ sites_of (plain_workload c.now) }
    requires not_negative { HaveSlack (plain_template t.now).clauses }
    requires small { Each (λ c. IsSmall form_limit c.slack) (plain_template t.now).clauses }
    ensures { IfOk result (λ made. plain_config made ≡ split_by (shares_of (plain_workload c.now)) (plain_template t.now).clauses) }
{
    let shares = shares(alloc, c, t)?;
    split_weighted(alloc, t, shares.as_slice())
}
