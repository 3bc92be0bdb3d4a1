//! The starts of sites in the rounds that they go on to.

ghost use Rattle.std.specs.Prelude.{◌≡◌, ◌<◌, IfOk, IfSome};
ghost use Rattle.homeo_syntax.specs.SourceView.{plain_workload};
ghost use Rattle.homeo_meaning.specs.Bounds.{IsWithin};
ghost use Rattle.homeo_meaning.specs.Schema.{schema_of};
ghost use Rattle.homeo_plan.specs.Planned.{sites_of, policy};
ghost use Rattle.homeo_outline.specs.ObjectPlan.{config_in};
ghost use Rattle.homeo_build.specs.Plan.{IsObjectPlan};
ghost use Rattle.homeo_site.specs.inner.Planning.{IsPlan};

use crate::start::SiteStart;
use homeo_build::Compiled;
use homeo_build::treaties::{plan_after, plan_at};
use homeo_meaning::Database;
use homeo_outline::ObjectPlan;
use homeo_syntax::Memory;
use std::alloc::Global;
use std::marker::Model;
use std::sync::Arc;

/// A workload with the plan that was made last for one of its rounds. All nodes that go on to a round have one base, so the plan
/// that the first of them makes serves the others.
#[derive(Drop)]
pub struct Planner {
    compiled: Arc<Compiled>,
    last: Option<Arc<ObjectPlan>>,
}

impl Model for Planner {
    ghost use Rattle.std.specs.Prelude.{IfSome};
    ghost use Rattle.homeo_syntax.specs.declared.workload.Workload.{Workload};
    ghost use Rattle.homeo_syntax.specs.contracts.workload.Workload.{the_row};
    ghost use Rattle.homeo_syntax.specs.SourceView.{plain_workload};
    ghost use Rattle.homeo_site.specs.inner.Planning.{IsPlan};

    ghost Value = { Workload };

    ghost coded = { the_row.coded };

    ghost view = { λ p. p.compiled.value };

    ghost invariant = { λ p. IfSome p.last (λ plan. IsPlan (plain_workload p.compiled.value) plan.value) };
}

impl Planner {
    /// A planner that has made no plan. It takes no memory.
    pub fn new(compiled: Arc<Compiled>) -> Planner
        ensures { result ≡ compiled.value }
    {
        Planner {
            compiled,
            last: None,
        }
    }

    /// Lends the workload with what is fixed for all its rounds.
    pub fn compiled(&self) -> &Compiled
        ensures { result.now ≡ self.now }
    {
        &self.compiled
    }

    /// The start of a site in the round of this number, which begins at a base within the workload's bounds. Where the plan
    /// made last is of another base, one is made from it.
    ///
    /// # Errors
    ///
    /// `Memory` when out of memory.
    pub fn start(
        &mut self,
        alloc: Global,
        base: &Database,
        site: u32,
        round: u64,
    ) -> Result<SiteStart, Memory>
        requires within { IsWithin (schema_of (plain_workload self.old)) base.now.items }
        requires site { site < sites_of (plain_workload self.old) }
        ensures start { IfOk result (λ s. s ≡ record { work = self.old; number = site; round = round; base = base.now.items }) }
        ensures planner { self.new ≡ self.old }
    {
        if let Some(plan) = &self.last {
            if plan.base.as_slice() == base.as_slice() {
                return SiteStart::new(alloc, &self.compiled, plan, site, round);
            }
        }
        let plan = plan_from(alloc, &self.compiled, &self.last, base)?;
        let start = SiteStart::new(alloc, &self.compiled, &plan, site, round)?;
        self.last = Some(plan);
        Ok(start)
    }
}

/// The plan of a round that begins at a base, made from the one made last, if there is one.
fn plan_from(
    alloc: Global,
    c: &Compiled,
    last: &Option<Arc<ObjectPlan>>,
    base: &Database,
) -> Result<Arc<ObjectPlan>, Memory>
    requires last { IfSome last.now (λ plan. IsPlan (plain_workload c.now) plan.value) }
    requires within { IsWithin (schema_of (plain_workload c.now)) base.now.items }
    ensures plan { IfOk result (λ p. IsObjectPlan (plain_workload c.now) base.now.items p.value) }
    ensures policy { IfOk result (λ p. config_in p.value ≡ policy (plain_workload c.now) base.now.items) }
{
    match last {
        Some(last) => plan_after(alloc, c, last, base),
        None => plan_at(alloc, c, base),
    }
}
