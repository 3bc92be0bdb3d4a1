//! Sites that keep nothing of what they ran.

ghost use Rattle.std.specs.Prelude.{◌≡◌, ◌<◌, ◌+ℤ◌, true, length, is_some, IfOk, IfSome, OnErr};
ghost use Rattle.homeo_syntax.specs.SourceView.{plain_workload};
ghost use Rattle.homeo_meaning.specs.Acceptance.{IsAccepted};
ghost use Rattle.homeo_meaning.specs.Bounds.{AllWithin, IsWithin};
ghost use Rattle.homeo_meaning.specs.Schema.{schema_of};
ghost use Rattle.homeo_meaning.specs.Serial.{values_of};
ghost use Rattle.homeo_plan.specs.Planned.{sites_of};
ghost use Rattle.homeo_history.specs.Legal.{IsCallAt};
ghost use Rattle.homeo_history.specs.Replayed.{MeetsTreaty};
ghost use Rattle.homeo_site.specs.BareView.{bare_begun, IsRan, after_ran};
ghost use Rattle.homeo_site.specs.SiteView.{with_deltas};

use crate::own_deltas::OwnDeltas;
use crate::own_round::OwnRound;
use crate::start::SiteStart;
use homeo_build::Compiled;
use homeo_local::{LocalStep, Scratch};
use homeo_meaning::{CallId, Database};
use homeo_plan::Broken;
use homeo_syntax::{Memory, Prints};
use std::alloc::Global;
use std::marker::Model;

/// What a call comes to at its site.
#[derive(Drop)]
pub enum Ran {
    /// The site's treaty holds after the call, which was made and printed this.
    Kept(Prints),
    /// It doesn't: this fails first, and the site is as it was.
    Breaks(Broken),
}

/// A site in a round without a segment: the calls of its own clients are run on its own deltas, as long as these meet its treaty.
#[derive(Drop)]
pub struct BareSite {
    own: OwnRound,
    deltas: OwnDeltas,
    scratch: Scratch,
}

impl Model for BareSite {
    ghost use Rattle.std.specs.Coded.{codes};
    ghost use Rattle.homeo_syntax.specs.SourceView.{plain_workload};
    ghost use Rattle.homeo_syntax.specs.contracts.workload.Workload as workload;
    ghost use Rattle.homeo_site.specs.BareView.{BareValue};
    ghost use Rattle.homeo_site.specs.SiteView.{with_deltas};
    ghost use Rattle.homeo_site.specs.inner.Bare.{IsBare};

    ghost Value = { BareValue };

    ghost coded = { Prim.hlevel (codes, workload.the_row.coded) };

    ghost view = { λ s. record { work = s.own.work; state = with_deltas s.own s.deltas } };

    ghost invariant = { λ s. IsBare s.own s.deltas };
}

impl BareSite {
    /// The site as it begins a round: its deltas are 0. It takes no memory.
    pub fn begin(start: SiteStart) -> BareSite
        ensures { result ≡ bare_begun start }
    {
        let SiteStart {
            own,
            deltas,
            segment: _,
            scratch,
        } = start;
        BareSite {
            own,
            deltas,
            scratch,
        }
    }

    /// The site with these deltas in the round of a start, where they meet its treaty.
    ///
    /// # Errors
    ///
    /// `Memory` when out of memory.
    pub fn begin_at(
        alloc: Global,
        start: SiteStart,
        deltas: Database,
    ) -> Result<Option<BareSite>, Memory>
        requires count { length deltas.items ≡ length start.base }
        requires within { AllWithin (schema_of (plain_workload start.work)) (λ n. values_of start.base n +ℤ values_of deltas.items n) }
        ensures at { IfOk result (λ o. IfSome o (λ s. s ≡ record { work = start.work; state = with_deltas start deltas.items })) }
        ensures meets { MeetsTreaty (plain_workload start.work) start.base start.number (values_of deltas.items) →
            IfOk result (λ o. is_some o ≡ true) }
    {
        let SiteStart {
            own,
            deltas: _,
            segment: _,
            scratch,
        } = start;
        match own.failure_at(alloc, deltas.as_slice())? {
            Some(_) => Ok(None),
            None => Ok(Some(BareSite {
                own,
                deltas: OwnDeltas::new(alloc, deltas),
                scratch,
            })),
        }
    }

    /// The number of the site, from 0.
    pub fn number(&self) -> u32
        ensures number { result ≡ self.now.state.number }
        ensures below { result < sites_of (plain_workload self.now.work) }
    {
        self.own.number()
    }

    /// The number of the round, from 0.
    pub fn round(&self) -> u64
        ensures { result ≡ self.now.state.round }
    {
        self.own.round()
    }

    /// Lends the base of the round.
    pub fn base(&self) -> &Database
        ensures base { result.now.items ≡ self.now.state.base }
        ensures within { IsWithin (schema_of (plain_workload self.now.work)) result.now.items }
    {
        &self.own.plan().base
    }

    /// Lends the site's deltas, one for each object.
    pub fn deltas(&self) -> &Database
        ensures deltas { result.now.items ≡ self.now.state.deltas }
        ensures count { length result.now.items ≡ length self.now.state.base }
    {
        self.deltas.list()
    }

    /// Lends the workload with what is fixed for all its rounds.
    pub fn compiled(&self) -> &Compiled
        ensures work { result.now ≡ self.now.work }
        ensures accepted { IsAccepted (plain_workload self.now.work) }
    {
        self.own.compiled()
    }

    /// Runs a call of one of the site's clients on the site's deltas, and keeps what it leaves where the site's treaty holds
    /// afterwards.
    ///
    /// # Errors
    ///
    /// `Memory` when out of memory. Nothing has changed.
    pub fn run(&mut self, alloc: Global, call: CallId) -> Result<Ran, Memory>
        requires { IsCallAt (plain_workload self.old.work) self.old.state.number call }
        ensures ran { IfOk result (IsRan (plain_workload self.old.work) self.old.state call) }
        ensures state { IfOk result (λ r. self.new.state ≡ after_ran (plain_workload self.old.work) self.old.state call r) }
        ensures work { self.new.work ≡ self.old.work }
        ensures unchanged { OnErr result (self.new ≡ self.old) }
    {
        self.prepare(alloc, call)?;
        self.step(alloc, call)
    }

    /// Makes the effect of a call's L form, where the site ran that form before in the round.
    fn prepare(&mut self, alloc: Global, call: CallId) -> Result<(), Memory>
        requires { IsCallAt (plain_workload self.old.work) self.old.state.number call }
        ensures { self.new ≡ self.old }
    {
        self.own.prepare(alloc, call)
    }

    /// The same as `run`, where effects stay what they are.
    fn step(&mut self, alloc: Global, call: CallId) -> Result<Ran, Memory>
        requires { IsCallAt (plain_workload self.old.work) self.old.state.number call }
        ensures ran { IfOk result (IsRan (plain_workload self.old.work) self.old.state call) }
        ensures state { IfOk result (λ r. self.new.state ≡ after_ran (plain_workload self.old.work) self.old.state call r) }
        ensures work { self.new.work ≡ self.old.work }
        ensures unchanged { OnErr result (self.new ≡ self.old) }
    {
        let copy = self.deltas.copy(alloc)?;
        let LocalStep {
            deltas,
            written,
            prints,
        } = self
            .own
            .step(alloc, call, &self.deltas, copy, &mut self.scratch)?;
        match self.own.failure(written.as_slice(), deltas.as_slice()) {
            Some(broken) => Ok(Ran::Breaks(broken)),
            None => {
                self.deltas.go_on(deltas, written.as_slice());
                Ok(Ran::Kept(prints))
            }
        }
    }

    /// Goes on to the round of a start. It takes no memory.
    pub fn renew(&mut self, start: SiteStart)
        ensures { self.new ≡ bare_begun start }
    {
        let SiteStart {
            own,
            deltas,
            segment: _,
            scratch: _,
        } = start;
        self.own = own;
        self.deltas.renew(deltas);
    }
}
