//! The next call of a client, over all sites.

ghost use Rattle.std.specs.Prelude.{◌≡◌, ◌+◌, ◌<◌, [], length, replicate, slice_index_or, IfOk, OnOk, OnErr};
ghost use Rattle.homeo_syntax.specs.SourceView.{plain_workload};
ghost use Rattle.homeo_meaning.specs.Acceptance.{IsAccepted};
ghost use Rattle.homeo_meaning.specs.Bounds.{IsWithin};
ghost use Rattle.homeo_meaning.specs.Initial.{initial};
ghost use Rattle.homeo_meaning.specs.Schema.{schema_of};
ghost use Rattle.homeo_plan.specs.Planned.{sites_of, policy};
ghost use Rattle.homeo_outline.specs.ObjectPlan.{config_in};
ghost use Rattle.homeo_build.specs.Plan.{IsObjectPlan};
ghost use Rattle.homeo_history.specs.Follows.{Follows};
ghost use Rattle.homeo_history.specs.HistoryView.{plain_answer, plain_history};
ghost use Rattle.homeo_history.specs.Legal.{IsCallAt, call_count, IsLegalFrom};
ghost use Rattle.homeo_core.specs.CoreView.{begun_sites, core_at, core_history, start_of, next_call, GoesOnBy, IsCallMade, WasCallMade, IsStep, IsSomeStep};
ghost use Rattle.homeo_core.specs.Events.{OneMore};
ghost use Rattle.homeo_core.specs.Joined.{AreJoined};
ghost use Rattle.homeo_core.specs.Books.{book_of};
ghost use Rattle.homeo_core.specs.SiteLists.{states, AreOf};

use crate::clients::{call_count, client_count, site_count, site_of};
use crate::rounds::{close_round, gathered_values, into_segments};
use homeo_build::Compiled;
use homeo_build::treaties::plan_at;
use homeo_eval::initial;
use homeo_history::{Answer, History, Path, Round};
use homeo_meaning::{Accepted, CallId, Database};
use homeo_outline::ObjectPlan;
use homeo_round::{Tried, try_call, try_unasked};
use homeo_site::{Site, SiteStart};
use homeo_syntax::{List, Memory};
use std::alloc::Global;
use std::marker::Model;
use std::sync::Arc;

/// All sites of a program, and the rounds that they have closed. It makes the calls of the clients, one at a time (Roy et al.,
/// SIGMOD 2015).
#[derive(Drop)]
pub struct Core {
    compiled: Arc<Compiled>,
    closed: List<Round>,
    base: Database,
    sites: Vec<Site>,
    counts: Vec<u64>,
}

impl Model for Core {
    ghost use Rattle.std.specs.Coded.{codes};
    ghost use Rattle.homeo_syntax.specs.contracts.workload.Workload as workload;
    ghost use Rattle.homeo_core.specs.CoreView.{CoreValue, CoreHolds};

    ghost Value = { CoreValue };

    ghost coded = { Prim.hlevel (codes, workload.the_row.coded) };

    ghost use Rattle.homeo_core.specs.Books.{book_of};
    ghost use Rattle.homeo_core.specs.SiteLists.{states, AreOf};

    ghost view = { λ c. record {
      work = c.compiled.value;
      book = book_of c.closed.items c.base.items;
      sites = states c.sites.items;
      counts = c.counts.items;
    } };

    ghost invariant = { λ c. AreOf c.compiled.value c.sites.items × CoreHolds (record {
      work = c.compiled.value;
      book = book_of c.closed.items c.base.items;
      sites = states c.sites.items;
      counts = c.counts.items;
    }) };
}

impl Core {
    /// All sites in a first round on the initial database, before any call.
    ///
    /// # Errors
    ///
    /// `Memory` when out of memory.
    pub fn begin(alloc: Global, c: Arc<Compiled>) -> Result<Core, Memory>
        ensures core { IfOk result (λ x. x ≡ core_at c.value (initial (plain_workload c.value))) }
        ensures legal { IfOk result (λ x.
            IsLegalFrom (plain_workload c.value) (initial (plain_workload c.value)) x.counts (core_history x)) }
        ensures follows { IfOk result (λ x. Follows (plain_workload c.value) (core_history x) []) }
    {
        let base = initial(alloc, c.workload())?;
        Core::begin_at(alloc, c, base)
    }

    /// All sites in a first round on a given database, which is within the workload's bounds.
    ///
    /// # Errors
    ///
    /// `Memory` when out of memory.
    pub fn begin_at(alloc: Global, c: Arc<Compiled>, base: Database) -> Result<Core, Memory>
        requires within { IsWithin (schema_of (plain_workload c.value)) base.items }
        ensures core { IfOk result (λ x. x ≡ core_at c.value base.items) }
        ensures legal { IfOk result (λ x. IsLegalFrom (plain_workload c.value) base.items x.counts (core_history x)) }
        ensures follows { IfOk result (λ x. Follows (plain_workload c.value) (core_history x) []) }
    {
        let plan = plan_at(alloc, &c, &base)?;
        let counts = zero_counts(alloc, c.workload())?;
        let sites = begin_sites(alloc, &c, &plan)?;
        Ok(Core {
            compiled: c,
            closed: List::new(alloc),
            base,
            sites,
            counts,
        })
    }

    /// The history of the calls that were made.
    ///
    /// # Errors
    ///
    /// `Memory` when out of memory.
    pub fn finish(self, alloc: Global) -> Result<History, Memory>
        ensures history { IfOk result (λ h. plain_history h ≡ core_history self) }
        ensures legal { IfOk result (λ h. IsLegalFrom (plain_workload self.work) (start_of self.book) self.counts (plain_history h)) }
        ensures within { IfOk result (λ h. IsWithin (schema_of (plain_workload self.work)) (plain_history h).last) }
    {
        let Core {
            compiled: _,
            mut closed,
            base,
            sites,
            counts: _,
        } = self;
        let last = gathered_values(
            alloc,
            closed.as_slice().len() as u64,
            &base,
            sites.as_slice(),
        )?;
        let segments = into_segments(alloc, sites)?;
        closed.push(Round {
            base,
            segments,
            closing: None,
        })?;
        Ok(History {
            rounds: closed,
            last,
        })
    }

    /// How many calls a client has left. It takes no memory.
    pub fn left(&self, client: u32) -> u64
        requires exists { client < length (plain_workload self.now.work).clients }
        ensures { result + slice_index_or self.now.counts client 0 ≡ call_count (plain_workload self.now.work) client }
    {
        call_count(self.compiled.workload(), client) - self.counts[client as usize]
    }

    /// Makes the next call of a client, which has one left: by the client's site alone where that keeps the site's treaty, and
    /// else on the gathered database, where it closes the round. After the attempt at the site a local call can't fail.
    ///
    /// # Errors
    ///
    /// `Memory` when out of memory. The core is as it was.
    pub fn step(&mut self, alloc: Global, client: u32) -> Result<Answer, Memory>
        requires exists { client < length (plain_workload self.old.work).clients }
        requires left { slice_index_or self.old.counts client 0 < call_count (plain_workload self.old.work) client }
        ensures step { IfOk result (λ a. IsStep self.old client (plain_answer a) self.new) }
        ensures answered { IfOk result (λ a. OneMore (plain_answer a) (core_history self.old).rounds (core_history self.new).rounds) }
        ensures follows { OnOk result (GoesOnBy (plain_workload self.old.work) (core_history self.old) (next_call self.old client)
            (core_history self.new)) }
        ensures legal { IsLegalFrom (plain_workload self.old.work) (start_of self.old.book) self.new.counts (core_history self.new) }
        ensures start { start_of self.new.book ≡ start_of self.old.book }
        ensures unchanged { OnErr result (self.new ≡ self.old) }
    {
        let home = site_of(self.compiled.workload(), client);
        let last = self.counts[client as usize];
        prove!(last < call_count(self.compiled.workload(), client));
        let seq = last + 1;
        let call = CallId { client, seq };
        let answer = make_call(
            alloc,
            &self.compiled,
            &mut self.closed,
            &mut self.base,
            self.sites.as_mut_slice(),
            home,
            call,
        )?;
        self.counts[client as usize] = seq;
        Ok(answer)
    }

    /// Makes the next call of a client as `step` does, where nobody asks for the answer: what it prints stands in the history alone.
    ///
    /// # Errors
    ///
    /// `Memory` when out of memory. The core is as it was.
    pub fn step_unasked(&mut self, alloc: Global, client: u32) -> Result<(), Memory>
        requires exists { client < length (plain_workload self.old.work).clients }
        requires left { slice_index_or self.old.counts client 0 < call_count (plain_workload self.old.work) client }
        ensures step { OnOk result (IsSomeStep self.old client self.new) }
        ensures follows { OnOk result (GoesOnBy (plain_workload self.old.work) (core_history self.old) (next_call self.old client)
            (core_history self.new)) }
        ensures legal { IsLegalFrom (plain_workload self.old.work) (start_of self.old.book) self.new.counts (core_history self.new) }
        ensures start { start_of self.new.book ≡ start_of self.old.book }
        ensures unchanged { OnErr result (self.new ≡ self.old) }
    {
        let home = site_of(self.compiled.workload(), client);
        let last = self.counts[client as usize];
        prove!(last < call_count(self.compiled.workload(), client));
        make_unasked(
            alloc,
            &self.compiled,
            &mut self.closed,
            &mut self.base,
            self.sites.as_mut_slice(),
            home,
            CallId {
                client,
                seq: last + 1,
            },
        )?;
        self.counts[client as usize] = last + 1;
        Ok(())
    }
}

/// Makes a call at its site where it keeps the site's treaty, and else closes the round by it.
#[tactic(auto, unfolding(homeo_round::specs::Key::definitions, crate::specs::Key::definitions))]
fn make_call(
    alloc: Global,
    c: &Arc<Compiled>,
    closed: &mut List<Round>,
    base: &mut Database,
    sites: &mut [Site],
    home: u32,
    call: CallId,
) -> Result<Answer, Memory>
    requires accepted { IsAccepted (plain_workload c.now.value) }
    requires of { AreOf c.now.value sites.old }
    requires joined { let b = book_of closed.old.items base.old.items in
        AreJoined (plain_workload c.now.value) (start_of b) b (states sites.old) }
    requires at_home { IsCallAt (plain_workload c.now.value) home call }
    ensures made { IfOk result (λ a. IsCallMade (plain_workload c.now.value) (book_of closed.old.items base.old.items) (states sites.old)
        home call (plain_answer a) (book_of closed.new.items base.new.items) (states sites.new)) }
    ensures of { AreOf c.now.value sites.new }
    ensures unclosed { OnErr result (closed.new.items ≡ closed.old.items) }
    ensures unmoved { OnErr result (base.new ≡ base.old) }
    ensures unchanged { OnErr result (states sites.new ≡ states sites.old) }
{
    let site = &mut sites[home as usize];
    match try_call(alloc, site, call)? {
        Tried::Made(prints) => Ok(Answer {
            client: call.client,
            seq: call.seq,
            site: home,
            round: closed.as_slice().len() as u64,
            path: Path::Local,
            prints,
        }),
        Tried::Refused(broken) => close_round(alloc, c, closed, base, sites, call, broken),
    }
}

/// Makes a call so, where nobody asks for the answer.
#[tactic(auto, unfolding(homeo_round::specs::Key::definitions, crate::specs::Key::definitions))]
fn make_unasked(
    alloc: Global,
    c: &Arc<Compiled>,
    closed: &mut List<Round>,
    base: &mut Database,
    sites: &mut [Site],
    home: u32,
    call: CallId,
) -> Result<(), Memory>
    requires accepted { IsAccepted (plain_workload c.now.value) }
    requires of { AreOf c.now.value sites.old }
    requires joined { let b = book_of closed.old.items base.old.items in
        AreJoined (plain_workload c.now.value) (start_of b) b (states sites.old) }
    requires at_home { IsCallAt (plain_workload c.now.value) home call }
    ensures made { OnOk result (WasCallMade (plain_workload c.now.value) (book_of closed.old.items base.old.items) (states sites.old)
        home call (book_of closed.new.items base.new.items) (states sites.new)) }
    ensures of { AreOf c.now.value sites.new }
    ensures unclosed { OnErr result (closed.new.items ≡ closed.old.items) }
    ensures unmoved { OnErr result (base.new ≡ base.old) }
    ensures unchanged { OnErr result (states sites.new ≡ states sites.old) }
{
    let site = &mut sites[home as usize];
    let finding = try_unasked(alloc, site, call)?;
    match finding {
        None => Ok(()),
        Some(broken) => {
            close_round(alloc, c, closed, base, sites, call, broken)?;
            Ok(())
        }
    }
}

/// Each site of a plan, in the round 0, before any call.
fn begin_sites(
    alloc: Global,
    c: &Arc<Compiled>,
    plan: &Arc<ObjectPlan>,
) -> Result<Vec<Site>, Memory>
    requires plan { IsObjectPlan (plain_workload c.now.value) plan.now.value.base.items plan.now.value }
    requires policy { config_in plan.now.value ≡ policy (plain_workload c.now.value) plan.now.value.base.items }
    ensures states { IfOk result (λ s. states s.items ≡
        begun_sites (sites_of (plain_workload c.now.value)) plan.now.value.base.items) }
    ensures of { IfOk result (λ s. AreOf c.now.value s.items) }
{
    let mut sites = Vec::new(alloc);
    for site in 0..site_count(c.workload()) {
        let start = SiteStart::new(alloc, c, plan, site, 0)?;
        sites.push(Site::begin(start))?;
    }
    Ok(sites)
}

/// A 0 for each client.
fn zero_counts(alloc: Global, w: &Accepted) -> Result<Vec<u64>, Memory>
    ensures counts { IfOk result (λ c. c.items ≡ replicate (length (plain_workload w.now).clients) 0) }
    ensures accepted { IsAccepted (plain_workload w.now) }
{
    let mut counts = Vec::new(alloc);
    for _ in 0..client_count(w) {
        counts.push(0)?;
    }
    Ok(counts)
}
