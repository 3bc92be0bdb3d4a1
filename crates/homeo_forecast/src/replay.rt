//! Calls, replayed one after another.

ghost use Rattle.std.specs.Prelude.{◌≡◌, ◌<◌, ◌++◌, ◌∷◌, [], ℕ, List, IsSome, None, length, map, pos, replicate, option_map, IfOk, slice_set};
ghost use Rattle.homeo_syntax.specs.SourceView.{plain_workload};
ghost use Rattle.homeo_meaning.specs.Acceptance.{IsAccepted};
ghost use Rattle.homeo_meaning.specs.Calls.{CallExists};
ghost use Rattle.homeo_meaning.specs.declared.call.CallId.{CallId};
ghost use Rattle.homeo_plan.specs.PlanView.{plain_config};
ghost use Rattle.homeo_plan.specs.Planned.{sites_of, planned_at, template_at};
ghost use Rattle.homeo_plan.specs.Template.{Clause as PlainClause};
ghost use Rattle.homeo_build.specs.Plan.{IsObjectPlan};
ghost use Rattle.homeo_forecast.specs.Peaks.{first_stop, peak_config};
ghost use Rattle.homeo_forecast.specs.View.{plain_stop};
ghost use Rattle.homeo_forecast.specs.Visits.{Visit, visits, next_visit};
ghost use Rattle.homeo_forecast.specs.inner.Replays.{IsReplay, IsSomeReplay, IsStep, CanBound};
ghost use Rattle.homeo_forecast.specs.inner.Rooms.{AreRooms, HaveRooms};

use crate::outlook::Stop;
use crate::raising::raise_all;
use crate::rooms::Room;
use crate::stops::first_stop;
use homeo_build::Compiled;
use homeo_local::{LocalStep, local_step};
use homeo_meaning::padded::item_or;
use homeo_meaning::{CallId, Database};
use homeo_outline::ObjectPlan;
use homeo_plan::Config;
use homeo_syntax::Memory;
use std::alloc::Global;

/// What calls have left so far: the deltas of each site, and the room in each clause.
#[derive(Drop)]
pub(crate) struct Replay {
    pub(crate) deltas: Vec<Database>,
    pub(crate) rooms: Vec<Room>,
}

/// A 0 for each object, for each site.
fn no_deltas(alloc: Global, sites: u32, objects: usize) -> Result<Vec<Database>, Memory>
    ensures { IfOk result (λ ds. map (λ d. d.items) ds.items ≡ replicate sites (replicate objects (pos 0))) }
{
    let mut deltas = Vec::new(alloc);
    for _ in 0..sites {
        deltas.push(zeros(alloc, objects)?)?;
    }
    Ok(deltas)
}

fn zeros(alloc: Global, count: usize) -> Result<Database, Memory>
    ensures { IfOk result (λ z. z.items ≡ replicate count (pos 0)) }
{
    Ok(homeo_syntax::List::from_vec(vec![in alloc; 0; count]?))
}

/// A room for each clause of a plan, where no site has made a call.
fn new_rooms(alloc: Global, plan: &ObjectPlan) -> Result<Vec<Room>, Memory>
    ensures { IfOk result (λ rs. AreRooms plan.now [] rs.items) }
{
    let mut rooms = Vec::new(alloc);
    for clause in 0..plan.outline.terms().len() {
        let slack = item_or(plan.slacks.as_slice(), clause, 0);
        rooms.push(Room::new(alloc, plan.outline.sites(), slack)?)?;
    }
    Ok(rooms)
}

/// The configuration that the peaks give.
fn config_of(alloc: Global, rooms: &[Room]) -> Result<Config, Memory>
    requires { CanBound rooms.now }
    ensures { (k : ℕ) (vs : List Visit) (cs : List PlainClause) → HaveRooms k vs cs rooms.now → IfOk result (λ c. plain_config c ≡ peak_config k vs cs) }
{
    let mut bounds = homeo_syntax::List::new(alloc);
    for room in rooms {
        bounds.push(room.bounds(alloc)?)?;
    }
    Ok(Config { bounds })
}

/// The site of a call of the workload.
fn site_of(c: &Compiled, call: CallId) -> u32
    requires { CallExists (plain_workload c.now) call }
    ensures { result ≡ (planned_at (plain_workload c.now) call).site }
{
    let place = c.place(call) as usize;
    c.calls()[place].site
}

/// Puts deltas in the place of those of a site.
fn put(deltas: &mut Vec<Database>, site: usize, new: Database)
    requires { site < length deltas.old.items }
    ensures { deltas.new.items ≡ slice_set deltas.old.items site new }
{
    deltas[site] = new;
}

impl Replay {
    /// Before any call, at the base of a plan.
    pub(crate) fn begin(alloc: Global, plan: &ObjectPlan) -> Result<Replay, Memory>
        ensures deltas { IfOk result (λ r. map (λ d. d.items) r.deltas.items ≡
            replicate plan.now.outline.value.sites (replicate (length plan.now.base.items) (pos 0))) }
        ensures rooms { IfOk result (λ r. AreRooms plan.now [] r.rooms.items) }
    {
        let objects = plan.base.as_slice().len();
        let deltas = no_deltas(alloc, plan.outline.sites(), objects)?;
        let rooms = new_rooms(alloc, plan)?;
        Ok(Replay { deltas, rooms })
    }

    /// The local step of a call, whose site has this number, from what its site has so far.
    fn step(
        &self,
        alloc: Global,
        c: &Compiled,
        plan: &ObjectPlan,
        call: CallId,
        site: u32,
    ) -> Result<LocalStep, Memory>
        requires accepted { IsAccepted (plain_workload c.now) }
        requires plan { IsObjectPlan (plain_workload c.now) plan.now.base.items plan.now }
        requires exists { CallExists (plain_workload c.now) call }
        requires site { site ≡ (planned_at (plain_workload c.now) call).site }
        requires replay { IsSomeReplay (plain_workload c.now) plan.now.base.items self.now }
        ensures { (before : List CallId) → let w = plain_workload c.now in let base = plan.now.base.items in
            IsReplay w base before self.now → IfOk result (λ s. IsStep w base before call s.deltas.items s.written.items) }
    {
        let place = c.place(call) as usize;
        let deltas = self.deltas[site as usize].as_slice();
        local_step(alloc, c.form(place), plan.base.as_slice(), deltas)
    }

    /// Makes one call more, unless something stops it: this is then answered, and nothing is changed.
    pub(crate) fn call(
        &mut self,
        alloc: Global,
        c: &Compiled,
        plan: &ObjectPlan,
        call: CallId,
    ) -> Result<Option<Stop>, Memory>
        requires accepted { IsAccepted (plain_workload c.now) }
        requires plan { IsObjectPlan (plain_workload c.now) plan.now.base.items plan.now }
        requires exists { CallExists (plain_workload c.now) call }
        requires replay { IsSomeReplay (plain_workload c.now) plan.now.base.items self.old }
        ensures kept { (before : List CallId) → let w = plain_workload c.now in let base = plan.now.base.items in
            IsReplay w base before self.old → IfOk result (λ o. o ≡ None → IsReplay w base (before ++ call ∷ []) self.new) }
        ensures stop { (before : List CallId) → let w = plain_workload c.now in let base = plan.now.base.items in
            IsReplay w base before self.old → IfOk result (λ o. option_map plain_stop o ≡
            first_stop (sites_of w) (template_at w base) (visits w base before) (next_visit w base before call)) }
        ensures unchanged { IfOk result (λ o. IsSome o → self.new ≡ self.old) }
    {
        let site = site_of(c, call);
        let step = self.step(alloc, c, plan, call, site)?;
        let written = step.written.as_slice();
        let deltas = step.deltas.as_slice();
        let stop = first_stop(alloc, plan, self.rooms.as_slice(), written, site, deltas)?;
        if stop.is_some() {
            return Ok(stop);
        }
        raise_all(self.rooms.as_mut_slice(), plan, written, site, deltas);
        put(&mut self.deltas, site as usize, step.deltas);
        Ok(None)
    }

    /// The configuration that the peaks so far give.
    pub(crate) fn config(&self, alloc: Global) -> Result<Config, Memory>
        requires { CanBound self.now.rooms.items }
        ensures { (k : ℕ) (vs : List Visit) (cs : List PlainClause) → HaveRooms k vs cs self.now.rooms.items →
            IfOk result (λ c. plain_config c ≡ peak_config k vs cs) }
    {
        config_of(alloc, self.rooms.as_slice())
    }
}
