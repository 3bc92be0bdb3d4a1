//! A node that runs by itself.

ghost use Rattle.std.specs.Prelude.{◌≡◌, ◌<◌, ◌==◌, All, ◌%◌, ◌&&◌, not, ◌∷◌, ◌++◌, [], Some, None, is_some, true, IsTrue, length, map, option_map, slice_index_or, IfOk, IfSome, IsSome, OnOk, OnErr};
ghost use Rattle.homeo_syntax.specs.SourceView.{plain_workload};
ghost use Rattle.homeo_plan.specs.Planned.{sites_of};
ghost use Rattle.homeo_history.specs.Legal.{IsCallAt};
ghost use Rattle.homeo_nodes.specs.declared.breach.Mode.TheVariants.{Stopped};
ghost use Rattle.homeo_nodes.specs.Coming.{CanCome};
ghost use Rattle.homeo_nodes.specs.Nodes as n;
ghost use Rattle.homeo_nodes.specs.Nodes.{asked, served, served_by, received, taken, resent, of_mode, of_own, said_by, first_node, all_of, settled, closing_step};
ghost use Rattle.homeo_nodes.specs.Small.{small, grown};
ghost use Rattle.homeo_carry.specs.CarryView.{plain_said};
ghost use Rattle.homeo_live.specs.LiveView.{plain_packet, plain_step, plain_state, plain_past, plain_node, IsReached, IsReaction, HasNext};
ghost use Rattle.homeo_live.specs.inner.Standing.{IsModeOf, CanSettle, placed};

use crate::fits::is_fit;
use crate::packet::{Packet, Step};
use crate::queue::{MOST_WAITING, count_made, still_waiting};
use crate::resends::{resend_choice, resend_past};
use crate::state::{NodeState, Past};
use crate::states::{
    all_kept, copy_states, has_place, has_state, kept_states, no_states, states_with,
};
use homeo_build::Compiled;
use homeo_carry::{Bounds, Said, all_bounds, close};
use homeo_core::clients::{client_count, is_call_at, site_count};
use homeo_eval::initial;
use homeo_meaning::{CallId, Database};
use homeo_nodes::{Breach, Mode};
use homeo_site::{BareSite, Planner, Ran};
use homeo_syntax::{List, Memory};
use std::alloc::Global;
use std::marker::Model;
use std::sync::Arc;

/// A node: its site in the present round, without what it ran; whether it runs calls; the call that it has chosen to close the
/// round, as the round's arbiter; what each site has said, where it keeps it; how it closed the round that it stopped in last; and
/// the calls that wait.
#[derive(Drop)]
pub struct LiveNode {
    planner: Planner,
    bounds: Vec<Bounds>,
    site: BareSite,
    mode: Mode,
    decided: Option<Breach>,
    states: Vec<Option<Said>>,
    past: Option<Past>,
    queue: Vec<CallId>,
}

impl Model for LiveNode {
    ghost use Rattle.std.specs.Coded.{codes};
    ghost use Rattle.homeo_syntax.specs.contracts.workload.Workload as workload;
    ghost use Rattle.homeo_live.specs.LiveView.{LiveValue};
    ghost use Rattle.homeo_live.specs.inner.Standing.{node_of, IsLive};

    ghost Value = { LiveValue };

    ghost coded = { Prim.hlevel (codes, workload.the_row.coded) };

    ghost view = { λ x. record { work = x.planner; node = node_of x.site.state x.mode x.decided x.states.items x.past x.queue.items } };

    ghost invariant = { λ x. IsLive x.planner x.bounds.items x.site x.mode x.states.items x.past x.queue.items };
}

impl LiveNode {
    /// The node of a site in the round 0 on the initial database.
    ///
    /// # Errors
    ///
    /// `Memory` when out of memory.
    pub fn begin(alloc: Global, c: Arc<Compiled>, site: u32) -> Result<LiveNode, Memory>
        requires { site < sites_of (plain_workload c.value) }
        ensures { IfOk result (λ x. x ≡ record { work = c.value; node = small (first_node (plain_workload c.value) site) }) }
    {
        // the workload is accepted
        let _clients = client_count(c.workload());
        let base = initial(alloc, c.workload())?;
        let states = no_states(alloc, site_count(c.workload()))?;
        let bounds = all_bounds(alloc, c.workload())?;
        let mut planner = Planner::new(c);
        let start = planner.start(alloc, &base, site, 0)?;
        Ok(LiveNode {
            planner,
            bounds,
            site: BareSite::begin(start),
            mode: Mode::Running,
            decided: None,
            states,
            past: None,
            queue: Vec::new(alloc),
        })
    }

    /// The node that has this state, where one of the workload can have it: of a state that nodes have led to there is one.
    ///
    /// # Errors
    ///
    /// `Memory` when out of memory.
    pub fn begin_at(
        alloc: Global,
        c: Arc<Compiled>,
        state: NodeState,
    ) -> Result<Option<LiveNode>, Memory>
        ensures state { IfOk result (λ o. IfSome o (λ x. x ≡ record { work = c.value; node = plain_node state })) }
        ensures reached { IsReached (plain_workload c.value) (plain_node state) → IfOk result IsSome }
    {
        // the workload is accepted
        let _clients = client_count(c.workload());
        let bounds = all_bounds(alloc, c.workload())?;
        if !is_fit(alloc, c.workload(), bounds.as_slice(), &state)? {
            return Ok(None);
        }
        let NodeState {
            site,
            round,
            base,
            deltas,
            mode,
            decided,
            states,
            past,
            queue,
        } = state;
        let mut planner = Planner::new(c);
        let start = planner.start(alloc, &base, site, round)?;
        match BareSite::begin_at(alloc, start, deltas)? {
            Some(site) => Ok(Some(LiveNode {
                planner,
                bounds,
                site,
                mode,
                decided,
                states,
                past,
                queue,
            })),
            None => Ok(None),
        }
    }

    /// Lends the workload with what is fixed for all its rounds.
    pub fn compiled(&self) -> &Compiled
        ensures { result.now ≡ self.now.work }
    {
        self.planner.compiled()
    }

    /// The number of its site, from 0. The node has a place for what each site says, and the calls that wait are of its own clients.
    pub fn number(&self) -> u32
        ensures number { result ≡ self.now.node.number }
        ensures below { result < sites_of (plain_workload self.now.work) }
        ensures states { length self.now.node.states ≡ sites_of (plain_workload self.now.work) }
        ensures calls { All (IsCallAt (plain_workload self.now.work) self.now.node.number) self.now.node.queue }
    {
        self.site.number()
    }

    /// The number of its round, from 0.
    pub fn round(&self) -> u64
        ensures { result ≡ self.now.node.round }
    {
        self.site.round()
    }

    /// Lends the base of its round.
    pub fn base(&self) -> &Database
        ensures { result.now.items ≡ self.now.node.base }
    {
        self.site.base()
    }

    /// Lends its deltas, one for each object.
    pub fn deltas(&self) -> &Database
        ensures { result.now.items ≡ self.now.node.deltas }
    {
        self.site.deltas()
    }

    /// Whether it runs calls, and if not, by which call it doesn't.
    pub fn mode(&self) -> Mode
        ensures { result ≡ self.now.node.mode }
    {
        self.mode
    }

    /// The call that it has chosen to close the round, as the round's arbiter.
    pub fn decided(&self) -> Option<Breach>
        ensures { result ≡ self.now.node.decided }
    {
        self.decided
    }

    /// Lends how it closed the round that it stopped in last, if there was one.
    pub fn past(&self) -> Option<&Past>
        ensures { option_map (λ p. plain_past p.now) result ≡ self.now.node.past }
    {
        self.past.as_ref()
    }

    /// Lends the calls that wait, in order.
    pub fn queue(&self) -> &[CallId]
        ensures { result.now ≡ self.now.node.queue }
    {
        self.queue.as_slice()
    }

    /// Whether a client of its site has the call.
    pub fn can_ask(&self, call: CallId) -> bool
        ensures yes { IsTrue result → IsCallAt (plain_workload self.now.work) self.now.node.number call }
        ensures no { IsCallAt (plain_workload self.now.work) self.now.node.number call → IsTrue result }
    {
        is_call_at(self.compiled().workload(), self.number(), call)
    }

    /// Takes on a call of a client of its site, which waits behind the others, where not too many wait.
    ///
    /// # Errors
    ///
    /// `Memory` when out of memory. Nothing has changed.
    pub fn ask(&mut self, call: CallId) -> Result<Step, Memory>
        requires { IsCallAt (plain_workload self.old.work) self.old.node.number call }
        ensures node { IfOk result (λ s. self.new.node ≡ small (asked call (grown self.old.node)).node) }
        ensures came_to { IfOk result (λ s. plain_step s ≡ (asked call (grown self.old.node)).step) }
        ensures work { self.new.work ≡ self.old.work }
        ensures unchanged { OnErr result (self.new ≡ self.old) }
    {
        if self.queue.len() >= MOST_WAITING {
            return Ok(Step::Held);
        }
        self.queue.push(call)?;
        Ok(Step::Queued)
    }

    /// Goes on with the first call that waits, where the node is running: it is made where it keeps the treaty; where it breaks it,
    /// the node asks that the call close the round.
    ///
    /// # Errors
    ///
    /// `Memory` when out of memory. Nothing has changed, and nothing was sent.
    pub fn serve(&mut self, alloc: Global, packets: &mut List<Packet>) -> Result<Step, Memory>
        ensures reaction { IfOk result (IsReaction (served (plain_workload self.old.work) (grown self.old.node)) self.new.node packets.old.items packets.new.items) }
        ensures work { self.new.work ≡ self.old.work }
        ensures unchanged { OnErr result (self.new ≡ self.old) }
        ensures unsent { OnErr result (packets.new.items ≡ packets.old.items) }
    {
        if self.queue.is_empty() {
            return Ok(Step::Held);
        }
        match self.mode {
            Mode::Running => self.attempt(alloc, packets),
            _ => Ok(Step::Held),
        }
    }

    /// Makes the first call that waits, or asks that it close the round.
    fn attempt(&mut self, alloc: Global, packets: &mut List<Packet>) -> Result<Step, Memory>
        requires { 0 < length self.old.node.queue }
        ensures reaction { IfOk result (IsReaction (served_by (plain_workload self.old.work) (grown self.old.node) self.old.node.queue) self.new.node packets.old.items packets.new.items) }
        ensures work { self.new.work ≡ self.old.work }
        ensures unchanged { OnErr result (self.new ≡ self.old) }
        ensures unsent { OnErr result (packets.new.items ≡ packets.old.items) }
    {
        let call = self.queue[0];
        packets.reserve(1)?;
        match self.site.run(alloc, call)? {
            Ran::Kept(prints) => {
                self.queue.remove(0);
                Ok(Step::Kept(call, prints))
            }
            Ran::Breaks(broken) => {
                let breach = Breach {
                    round: self.site.round(),
                    site: self.site.number(),
                    call,
                    broken,
                };
                push_packet(packets, Packet::Want(breach));
                self.mode = Mode::Waiting(breach);
                Ok(Step::Wanted(broken))
            }
        }
    }

    /// Takes a packet of its own round, or ignores it. There is no answer, and nothing has changed, where no node can have sent the
    /// packet.
    ///
    /// # Errors
    ///
    /// `Memory` when out of memory. Nothing has changed, and nothing was sent.
    pub fn receive(
        &mut self,
        alloc: Global,
        packet: Packet,
        packets: &mut List<Packet>,
    ) -> Result<Option<Step>, Memory>
        ensures reaction { IfOk result (λ o. IfSome o (IsReaction (received (plain_workload self.old.work) (plain_packet packet) (grown self.old.node)) self.new.node packets.old.items packets.new.items)) }
        ensures comes { CanCome (plain_workload self.old.work) (grown self.old.node) (plain_packet packet) → HasNext self.old.node → IfOk result IsSome }
        ensures left { IfOk result (λ o. o ≡ None → self.new ≡ self.old) }
        ensures unchanged { OnErr result (self.new ≡ self.old) }
        ensures unsent { OnErr result (packets.new.items ≡ packets.old.items) }
        ensures work { self.new.work ≡ self.old.work }
    {
        if packet.round() != self.site.round() {
            return Ok(Some(Step::Ignored));
        }
        match packet {
            Packet::Want(b) => self.choose(b, packets),
            Packet::Stop(b) => self.stop(alloc, b, packets),
            Packet::State {
                round: _,
                site,
                said,
            } => self.keep(alloc, site, &said),
        }
    }

    /// Chooses the call that closes the round, where the node is the round's arbiter and hasn't chosen one.
    fn choose(&mut self, b: Breach, packets: &mut List<Packet>) -> Result<Option<Step>, Memory>
        ensures reaction { IfOk result (λ o. IfSome o (IsReaction (taken (plain_workload self.old.work) (grown self.old.node) (n.Want b)) self.new.node packets.old.items packets.new.items)) }
        ensures comes { CanCome (plain_workload self.old.work) (grown self.old.node) (n.Want b) → HasNext self.old.node → IfOk result IsSome }
        ensures left { IfOk result (λ o. o ≡ None → self.new ≡ self.old) }
        ensures unchanged { OnErr result (self.new ≡ self.old) }
        ensures unsent { OnErr result (packets.new.items ≡ packets.old.items) }
        ensures work { self.new.work ≡ self.old.work }
    {
        let w = self.planner.compiled().workload();
        if !is_call_at(w, b.site, b.call) {
            return Ok(None);
        }
        let sites = site_count(w);
        if !may_choose(self.site.number(), self.site.round(), sites, &self.decided) {
            return Ok(Some(Step::Ignored));
        }
        packets.push(Packet::Stop(b))?;
        self.decided = Some(b);
        Ok(Some(Step::Taken))
    }

    /// Stops by a call that closes the round, where the node isn't stopped, and sends its state.
    fn stop(
        &mut self,
        alloc: Global,
        b: Breach,
        packets: &mut List<Packet>,
    ) -> Result<Option<Step>, Memory>
        ensures reaction { IfOk result (λ o. IfSome o (IsReaction (taken (plain_workload self.old.work) (grown self.old.node) (n.Stop b)) self.new.node packets.old.items packets.new.items)) }
        ensures comes { CanCome (plain_workload self.old.work) (grown self.old.node) (n.Stop b) → HasNext self.old.node → IfOk result IsSome }
        ensures left { IfOk result (λ o. o ≡ None → self.new ≡ self.old) }
        ensures unchanged { OnErr result (self.new ≡ self.old) }
        ensures unsent { OnErr result (packets.new.items ≡ packets.old.items) }
        ensures work { self.new.work ≡ self.old.work }
    {
        if !is_call_at(self.planner.compiled().workload(), b.site, b.call) {
            return Ok(None);
        }
        match self.mode {
            Mode::Stopped(_) => Ok(Some(Step::Ignored)),
            _ => {
                let round = self.site.round();
                let site = self.site.number();
                let said = self.said(alloc)?;
                let states = states_with(alloc, self.states.as_slice(), site, &said)?;
                packets.reserve(1)?;
                match self.settle(alloc, Mode::Stopped(b), states)? {
                    Some(step) => {
                        push_packet(packets, Packet::State { round, site, said });
                        Ok(Some(step))
                    }
                    None => Ok(None),
                }
            }
        }
    }

    /// What the node says when it stops.
    fn said(&self, alloc: Global) -> Result<Said, Memory>
        ensures { IfOk result (λ s. plain_said s ≡ said_by (grown self.now.node)) }
    {
        Ok(Said {
            deltas: copy_values(alloc, self.site.deltas())?,
            calls: Vec::from_slice(alloc, self.queue.as_slice())?,
        })
    }

    /// Keeps what a site has said, where the node keeps none of it.
    fn keep(&mut self, alloc: Global, site: u32, said: &Said) -> Result<Option<Step>, Memory>
        ensures node { IfOk result (λ o. IfSome o (λ s. self.new.node ≡
            small (taken (plain_workload self.old.work) (grown self.old.node) (n.State self.old.node.round site (plain_said said.now))).node)) }
        ensures came_to { IfOk result (λ o. IfSome o (λ s. plain_step s ≡
            (taken (plain_workload self.old.work) (grown self.old.node) (n.State self.old.node.round site (plain_said said.now))).step)) }
        ensures comes { CanCome (plain_workload self.old.work) (grown self.old.node) (n.State self.old.node.round site (plain_said said.now)) →
            HasNext self.old.node → IfOk result IsSome }
        ensures left { IfOk result (λ o. o ≡ None → self.new ≡ self.old) }
        ensures unchanged { OnErr result (self.new ≡ self.old) }
        ensures work { self.new.work ≡ self.old.work }
    {
        if !has_place(self.states.as_slice(), site) {
            return Ok(None);
        }
        if has_state(self.states.as_slice(), site) {
            return Ok(Some(Step::Ignored));
        }
        let states = states_with(alloc, self.states.as_slice(), site, said)?;
        self.settle(alloc, self.mode, states)
    }

    /// Is in this mode and keeps these states, and closes the round where it is stopped and keeps what each site has said.
    fn settle(
        &mut self,
        alloc: Global,
        mode: Mode,
        states: Vec<Option<Said>>,
    ) -> Result<Option<Step>, Memory>
        requires mode { IsModeOf (plain_workload self.old.work) mode }
        requires states { length states.items ≡ sites_of (plain_workload self.old.work) }
        ensures node { IfOk result (λ o. IfSome o (λ s. self.new.node ≡
            small (settled (plain_workload self.old.work) (placed self.old.node mode (map plain_state states.items))))) }
        ensures came_to { IfOk result (λ o. IfSome o (λ s. plain_step s ≡
            closing_step (plain_workload self.old.work) (placed self.old.node mode (map plain_state states.items)))) }
        ensures closes { CanSettle (plain_workload self.old.work) self.old.node mode (map plain_state states.items) → HasNext self.old.node → IfOk result IsSome }
        ensures left { IfOk result (λ o. o ≡ None → self.new ≡ self.old) }
        ensures unchanged { OnErr result (self.new ≡ self.old) }
        ensures work { self.new.work ≡ self.old.work }
    {
        match mode {
            Mode::Stopped(u) => {
                if all_kept(states.as_slice()) {
                    return self.go_on(alloc, u, states.as_slice());
                }
                self.mode = mode;
                self.states = states;
                Ok(Some(Step::Taken))
            }
            _ => {
                self.mode = mode;
                self.states = states;
                Ok(Some(Step::Taken))
            }
        }
    }

    /// Closes the round by a call on what all sites have said, and goes on to the round that the carried calls lead to.
    fn go_on(
        &mut self,
        alloc: Global,
        u: Breach,
        states: &[Option<Said>],
    ) -> Result<Option<Step>, Memory>
        requires call { IsCallAt (plain_workload self.old.work) u.site u.call }
        requires kept { is_some (all_of (map plain_state states.now)) ≡ true }
        requires count { length states.now ≡ sites_of (plain_workload self.old.work) }
        ensures node { IfOk result (λ o. IfSome o (λ s. self.new.node ≡
            small (settled (plain_workload self.old.work) (placed self.old.node (Stopped u) (map plain_state states.now))))) }
        ensures came_to { IfOk result (λ o. IfSome o (λ s. plain_step s ≡
            closing_step (plain_workload self.old.work) (placed self.old.node (Stopped u) (map plain_state states.now)))) }
        ensures closes { CanSettle (plain_workload self.old.work) self.old.node (Stopped u) (map plain_state states.now) → HasNext self.old.node → IfOk result IsSome }
        ensures left { IfOk result (λ o. o ≡ None → self.new ≡ self.old) }
        ensures unchanged { OnErr result (self.new ≡ self.old) }
        ensures work { self.new.work ≡ self.old.work }
    {
        let all = kept_states(alloc, states)?;
        let none = no_states(alloc, site_count(self.planner.compiled().workload()))?;
        let made = count_made(u, all.as_slice(), self.site.number());
        let queue = still_waiting(alloc, self.queue.as_slice(), made)?;
        match close(
            alloc,
            &mut self.planner,
            self.bounds.as_slice(),
            &self.site,
            u,
            all.as_slice(),
        )? {
            Some(closed) => {
                self.site = closed.site;
                self.mode = Mode::Running;
                self.decided = None;
                self.states = none;
                self.past = Some(Past {
                    breach: u,
                    states: all,
                });
                self.queue = queue;
                Ok(Some(Step::Closed(closed.answers)))
            }
            None => Ok(None),
        }
    }

    /// Sends again what the node has sent and others may still need, and how it closed the round that it stopped in last.
    ///
    /// # Errors
    ///
    /// `Memory` when out of memory. Some packets may have been sent.
    pub fn resend(&self, alloc: Global, packets: &mut List<Packet>) -> Result<(), Memory>
        ensures { OnOk result (map plain_packet packets.new.items ≡ map plain_packet packets.old.items ++ resent (grown self.now.node)) }
    {
        // there are few sites
        let _sites = site_count(self.planner.compiled().workload());
        self.resend_mode(alloc, packets)?;
        resend_choice(&self.decided, packets)?;
        resend_past(alloc, &self.past, packets)
    }

    /// Sends again what its mode says.
    fn resend_mode(&self, alloc: Global, packets: &mut List<Packet>) -> Result<(), Memory>
        ensures { OnOk result (map plain_packet packets.new.items ≡ map plain_packet packets.old.items ++ of_mode (grown self.now.node) self.now.node.mode) }
    {
        match self.mode {
            Mode::Running => Ok(()),
            Mode::Waiting(b) => packets.push(Packet::Want(b)),
            Mode::Stopped(b) => {
                packets.push(Packet::Stop(b))?;
                self.resend_own(alloc, packets)
            }
        }
    }

    /// Sends again what the node has said in its round, where it keeps it.
    fn resend_own(&self, alloc: Global, packets: &mut List<Packet>) -> Result<(), Memory>
        ensures { OnOk result (map plain_packet packets.new.items ≡ map plain_packet packets.old.items ++
            of_own (grown self.now.node) (slice_index_or self.now.node.states self.now.node.number None)) }
    {
        match &self.states[self.site.number() as usize] {
            Some(said) => packets.push(Packet::State {
                round: self.site.round(),
                site: self.site.number(),
                said: said.copy(alloc)?,
            }),
            None => Ok(()),
        }
    }

    /// All that the node is.
    ///
    /// # Errors
    ///
    /// `Memory` when out of memory.
    pub fn state(&self, alloc: Global) -> Result<NodeState, Memory>
        ensures { IfOk result (λ s. plain_node s ≡ self.now.node) }
    {
        Ok(NodeState {
            site: self.site.number(),
            round: self.site.round(),
            base: copy_values(alloc, self.site.base())?,
            deltas: copy_values(alloc, self.site.deltas())?,
            mode: self.mode,
            decided: self.decided,
            states: copy_states(alloc, self.states.as_slice())?,
            past: copy_past(alloc, &self.past)?,
            queue: Vec::from_slice(alloc, self.queue.as_slice())?,
        })
    }
}

/// Whether the site is the arbiter of the round and hasn't chosen the call that closes it.
#[tactic(auto, unfolding(homeo_nodes::specs::Key::definitions))]
fn may_choose(number: u32, round: u64, sites: u32, decided: &Option<Breach>) -> bool
    requires { 0 < sites }
    ensures { result ≡ ((number == (round % sites)) && not (is_some decided.now)) }
{
    u64::from(number) == round % u64::from(sites) && decided.is_none()
}

/// An equal list of values.
fn copy_values(alloc: Global, values: &Database) -> Result<Database, Memory>
    ensures { IfOk result (λ d. d.items ≡ values.now.items) }
{
    let copy = Vec::from_slice(alloc, values.as_slice())?;
    Ok(List::from_vec(copy))
}

/// An equal past.
fn copy_past(alloc: Global, past: &Option<Past>) -> Result<Option<Past>, Memory>
    ensures { IfOk result (λ p. option_map plain_past p ≡ option_map plain_past past.now) }
{
    match past {
        Some(past) => Ok(Some(past.copy(alloc)?)),
        None => Ok(None),
    }
}

/// Appends a packet, for which the list has room.
fn push_packet(packets: &mut List<Packet>, packet: Packet)
    requires { 0 < packets.old.spare }
    ensures { packets.new.items ≡ packets.old.items ++ packet ∷ [] }
{
    match packets.push(packet) {
        Ok(()) => {}
        Err(_) => unreachable!(),
    }
}
