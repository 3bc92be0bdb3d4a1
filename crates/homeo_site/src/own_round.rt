//! What a site keeps of a round besides its deltas.

ghost use Rattle.std.specs.Prelude.{◌≡◌, ◌<◌, ◌≤◌, ◌+ℤ◌, ℕ, false, length, IfOk, IfSome};
ghost use Rattle.homeo_syntax.specs.SourceView.{plain_workload};
ghost use Rattle.homeo_meaning.specs.Acceptance.{IsAccepted};
ghost use Rattle.homeo_meaning.specs.Bounds.{AllWithin, IsWithin};
ghost use Rattle.homeo_meaning.specs.Ground.{grounds};
ghost use Rattle.homeo_meaning.specs.Schema.{schema_of};
ghost use Rattle.homeo_meaning.specs.Serial.{values_of};
ghost use Rattle.homeo_plan.specs.Planned.{sites_of, policy};
ghost use Rattle.homeo_outline.specs.Numbers.{has};
ghost use Rattle.homeo_outline.specs.ObjectPlan.{config_in};
ghost use Rattle.homeo_build.specs.Plan.{IsObjectPlan};
ghost use Rattle.homeo_history.specs.Legal.{IsCallAt};
ghost use Rattle.homeo_history.specs.Replayed.{finding_at};
ghost use Rattle.homeo_site.specs.SiteState.{step_prints, step_deltas, step_finding};
ghost use Rattle.homeo_site.specs.inner.Effects.{IsEffectAt};
ghost use Rattle.homeo_site.specs.inner.Ready.{IsReady, IsAfterStep};
ghost use Rattle.homeo_site.specs.SiteView.{with_deltas};

use crate::effects::{Effects, step_by};
use crate::own_deltas::OwnDeltas;
use crate::own_treaty::first_failure;
use homeo_build::Compiled;
use homeo_linear::{Effect, Follower};
use homeo_local::{LocalStep, Scratch, local_step_in};
use homeo_meaning::{CallId, Database};
use homeo_outline::ObjectPlan;
use homeo_plan::Broken;
use homeo_syntax::Memory;
use std::alloc::Global;
use std::marker::Model;
use std::sync::Arc;

/// A site's part of a round: what all sites share, and the numbers of the site and of the round.
#[derive(Drop)]
pub(crate) struct OwnRound {
    compiled: Arc<Compiled, Global>,
    plan: Arc<ObjectPlan, Global>,
    site: u32,
    round: u64,
    effects: Effects,
}

impl Model for OwnRound {
    ghost use Rattle.std.specs.Coded.{codes};
    ghost use Rattle.homeo_syntax.specs.contracts.workload.Workload as workload;
    ghost use Rattle.homeo_site.specs.SiteView.{StartValue};
    ghost use Rattle.homeo_site.specs.inner.OwnRound.{KeepsRound};

    ghost Value = { StartValue };

    ghost coded = { Prim.hlevel (codes, workload.the_row.coded) };

    ghost view = { λ r. record {
      work = r.compiled.value;
      number = r.site;
      round = r.round;
      base = r.plan.value.base.items;
    } };

    ghost invariant = { λ r. KeepsRound (record {
      work = r.compiled.value;
      number = r.site;
      round = r.round;
      base = r.plan.value.base.items;
    }) r.plan.value r.effects };
}

impl OwnRound {
    /// A site's part of the round that this plan is of. It takes no memory but the shares of workload and plan.
    pub(crate) fn new(
        alloc: Global,
        compiled: &Arc<Compiled, Global>,
        plan: &Arc<ObjectPlan, Global>,
        site: u32,
        round: u64,
    ) -> Result<OwnRound, Memory>
        requires plan { IsObjectPlan (plain_workload compiled.now.value) plan.now.value.base.items plan.now.value }
        requires policy { config_in plan.now.value ≡ policy (plain_workload compiled.now.value) plan.now.value.base.items }
        requires site { site < sites_of (plain_workload compiled.now.value) }
        ensures { IfOk result (λ r. r ≡ record {
          work = compiled.now.value;
          number = site;
          round = round;
          base = plan.now.value.base.items;
        }) }
    {
        // its rules hold
        let _workload = compiled.workload().workload();
        Ok(OwnRound {
            compiled: Arc::try_clone(compiled)?,
            plan: Arc::try_clone(plan)?,
            site,
            round,
            effects: Effects::new(alloc),
        })
    }

    pub(crate) fn number(&self) -> u32
        ensures { result ≡ self.now.number }
    {
        self.site
    }

    pub(crate) fn round(&self) -> u64
        ensures { result ≡ self.now.round }
    {
        self.round
    }

    /// Lends the workload with what is fixed for all its rounds.
    pub(crate) fn compiled(&self) -> &Compiled
        ensures work { result.now ≡ self.now.work }
        ensures accepted { IsAccepted (plain_workload self.now.work) }
    {
        &self.compiled
    }

    /// Lends the plan of the round, which all sites share.
    pub(crate) fn plan(&self) -> &ObjectPlan
        ensures { IsObjectPlan (plain_workload self.now.work) self.now.base result.now }
    {
        &self.plan
    }

    /// Makes the effect of a call's L form, where the site ran that form before in the round.
    pub(crate) fn prepare(&mut self, alloc: Global, call: CallId) -> Result<(), Memory>
        requires { IsCallAt (plain_workload self.old.work) self.old.number call }
        ensures { self.new ≡ self.old }
    {
        let place = self.compiled.place(call) as usize;
        let places = self.compiled.calls().len();
        if self.effects.is_due(place, places)? {
            let effect = self.effect(alloc, place)?;
            self.effects.keep(place, effect);
        }
        Ok(())
    }

    /// The effect of the form at a place, if it has one.
    fn effect(&self, alloc: Global, place: usize) -> Result<Option<Effect>, Memory>
        requires { place < length (grounds (plain_workload self.now.work)) }
        ensures { IfOk result (λ o. IfSome o (IsEffectAt self.now place)) }
    {
        let form = self.compiled.form(place);
        let mut follower = Follower::new(alloc, &self.plan.base);
        follower.effect(alloc, form)
    }

    /// The local step of a call of one of the site's clients, from these deltas of the site, of which it takes a copy: by the effect of
    /// its L form, where that was made, and else the form is run.
    pub(crate) fn step(
        &self,
        alloc: Global,
        call: CallId,
        before: &OwnDeltas,
        deltas: Database,
        scratch: &mut Scratch,
    ) -> Result<LocalStep, Memory>
        requires call { IsCallAt (plain_workload self.now.work) self.now.number call }
        requires ready { IsReady (plain_workload self.now.work) (with_deltas self.now deltas.items) }
        requires copy { deltas.items ≡ before.now }
        ensures prints { IfOk result (λ s. s.prints.items ≡ step_prints (plain_workload self.now.work) (with_deltas self.now deltas.items) call) }
        ensures deltas { IfOk result (λ s. s.deltas.items ≡ step_deltas (plain_workload self.now.work) (with_deltas self.now deltas.items) call) }
        ensures written { IfOk result (λ s. (n : ℕ) → has n s.written.items ≡ false →
            values_of s.deltas.items n ≡ values_of deltas.items n) }
    {
        let place = self.compiled.place(call) as usize;
        match self.effects.at(place) {
            Some(effect) => {
                let base = self.plan.base.as_slice();
                step_by(alloc, effect, base, before.list().as_slice(), deltas)
            }
            None => self.run(alloc, call, deltas, scratch),
        }
    }

    /// The same, where the L form of the call is run on base plus deltas, with the lists of an earlier step.
    fn run(
        &self,
        alloc: Global,
        call: CallId,
        deltas: Database,
        scratch: &mut Scratch,
    ) -> Result<LocalStep, Memory>
        requires call { IsCallAt (plain_workload self.now.work) self.now.number call }
        requires ready { IsReady (plain_workload self.now.work) (with_deltas self.now deltas.items) }
        ensures prints { IfOk result (λ s. s.prints.items ≡ step_prints (plain_workload self.now.work) (with_deltas self.now deltas.items) call) }
        ensures deltas { IfOk result (λ s. s.deltas.items ≡ step_deltas (plain_workload self.now.work) (with_deltas self.now deltas.items) call) }
        ensures written { IfOk result (λ s. (n : ℕ) → has n s.written.items ≡ false →
            values_of s.deltas.items n ≡ values_of deltas.items n) }
    {
        let place = self.compiled.place(call) as usize;
        let form = self.compiled.form(place);
        local_step_in(alloc, form, self.plan.base.as_slice(), deltas, scratch)
    }

    /// What fails first of the site's treaty after a call's local step, where these are all objects that it wrote, and these the
    /// deltas that it left.
    pub(crate) fn failure(&self, written: &[u32], deltas: &[i64]) -> Option<Broken>
        requires { IsAfterStep (plain_workload self.now.work) self.now written.now deltas.now }
        ensures { (s : IsAfterStep (plain_workload self.now.work) self.now written.now deltas.now) →
            result ≡ step_finding (plain_workload self.now.work) (with_deltas self.now s.before) s.call }
    {
        first_failure(&self.plan, self.site, written, deltas)
    }

    /// What fails first of the site's treaty at these deltas.
    pub(crate) fn failure_at(&self, alloc: Global, deltas: &[i64]) -> Result<Option<Broken>, Memory>
        requires within { AllWithin (schema_of (plain_workload self.now.work)) (λ n. values_of self.now.base n +ℤ values_of deltas.now n) }
        requires count { length deltas.now ≡ length self.now.base }
        requires base { IsWithin (schema_of (plain_workload self.now.work)) self.now.base }
        requires few { length deltas.now ≤ 1024 }
        ensures { IfOk result (λ o. o ≡ finding_at (plain_workload self.now.work) self.now.base self.now.number (values_of deltas.now)) }
    {
        let mut objects = Vec::new(alloc);
        for object in 0..deltas.len() as u32 {
            objects.push(object)?;
        }
        Ok(first_failure(&self.plan, self.site, objects.as_slice(), deltas))
    }
}
