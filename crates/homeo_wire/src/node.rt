//! Nodes.

ghost use Rattle.std.specs.Prelude.{◌≡◌, ◌<◌, ◌^◌, ◌∷◌, ◌++◌, [], cond, length, slice_set, map, IfOk, OnOk, OnErr};
ghost use Rattle.homeo_syntax.specs.SourceView.{plain_workload};
ghost use Rattle.homeo_meaning.specs.Acceptance.{IsAccepted};
ghost use Rattle.homeo_plan.specs.Planned.{sites_of};
ghost use Rattle.homeo_history.specs.Legal.{IsCallAt, IsClientAt, call_count};
ghost use Rattle.homeo_site.specs.SiteState.{step_finding};
ghost use Rattle.homeo_wire.specs.Nodes.{settled, tried, called, taken, Want, Stop, State};
ghost use Rattle.homeo_wire.specs.WireView.{plain_state, plain_packet, plain_step, plain_node};
ghost use Rattle.homeo_wire.specs.inner.Reactions.{IsReaction, gone_on, plain_next, StartsNext};
ghost use Rattle.homeo_wire.specs.inner.Ready.{CanSettle, CanTake, IsFrom, counted_by, placed};

use crate::breach::{Breach, Mode};
use crate::closing::{Next, close};
use crate::events::{Packet, Step};
use crate::states::{copy_values, has_state, states_with};
use homeo_history::{Closing, Segment};
use homeo_meaning::{CallId, Database};
use homeo_round::{Tried, try_call};
use homeo_site::{Planner, Site};
use homeo_syntax::{List, Memory};
use std::alloc::Global;
use std::mem;

/// A round that a node has left: its base, what the node itself ran in it, and the call that closed it.
#[derive(Drop)]
pub(crate) struct Left {
    pub(crate) base: Database,
    pub(crate) segment: Segment,
    pub(crate) closing: Closing,
}

/// A node: its site, with the base of its round; the rounds that it has left; of each client the number of the last call that
/// was made, which it knows of its own clients; whether it runs calls; whether it has chosen the call that closes the round, as
/// the round's arbiter; and the states that it keeps.
#[derive(Drop)]
pub(crate) struct Node {
    pub(crate) site: Site,
    pub(crate) base: Database,
    pub(crate) left: List<Left>,
    pub(crate) made: Vec<u64>,
    pub(crate) mode: Mode,
    pub(crate) decided: bool,
    pub(crate) states: Vec<Option<Database>>,
}

impl Node {
    /// The number of its round: as many as it has left.
    pub(crate) fn round(&self) -> u64
        ensures left { result ≡ length self.now.left.items }
        ensures few { result < 2 ^ 63 }
    {
        self.left.as_slice().len() as u64
    }

    /// The number of the last call of one of its clients that stands in a history up to this round: where the node is behind, the
    /// call that closes its round counts too.
    #[tactic(auto, unfolding(crate::specs::Key::definitions))]
    pub(crate) fn counted(&self, client: u32, last: u64) -> u64
        requires { client < length self.now.made.items }
        ensures { result ≡ counted_by last client (plain_node self.now) self.now.mode }
    {
        let made = self.made[client as usize];
        match self.mode {
            Mode::Stopped(b) => {
                if self.site.round() < last && b.call.client == client {
                    b.call.seq
                } else {
                    made
                }
            }
            _ => made,
        }
    }

    /// Makes the next call of a client of this node, which has so many calls, if it has one left and the node runs calls.
    ///
    /// # Errors
    ///
    /// `Memory` when out of memory. Nothing has changed.
    pub(crate) fn call(
        &mut self,
        alloc: Global,
        client: u32,
        count: u64,
        packets: &mut List<Packet>,
    ) -> Result<Step, Memory>
        requires client { IsClientAt (plain_workload self.old.site.work) self.old.site.state.number client }
        requires made { client < length self.old.made.items }
        requires count { count ≡ call_count (plain_workload self.old.site.work) client }
        requires few { count < 2 ^ 63 }
        ensures reaction { IfOk result (IsReaction (called (plain_workload self.old.site.work) client (plain_node self.old))
            self.new packets.old.items packets.new.items) }
        ensures unchanged { OnErr result (plain_node self.new ≡ plain_node self.old) }
        ensures unsent { OnErr result (packets.new.items ≡ packets.old.items) }
        ensures work { self.new.site.work ≡ self.old.site.work }
        ensures base { self.new.base ≡ self.old.base }
    {
        let made = self.made[client as usize];
        match self.mode {
            Mode::Running => {
                if made >= count {
                    return Ok(Step::Held);
                }
                let call = CallId {
                    client,
                    seq: made + 1,
                };
                self.attempt(alloc, call, packets)
            }
            _ => Ok(Step::Held),
        }
    }

    /// Makes a call where it keeps the treaty, and else asks that it close the round.
    fn attempt(
        &mut self,
        alloc: Global,
        call: CallId,
        packets: &mut List<Packet>,
    ) -> Result<Step, Memory>
        requires call { IsCallAt (plain_workload self.old.site.work) self.old.site.state.number call }
        requires made { call.client < length self.old.made.items }
        ensures reaction { IfOk result (IsReaction (tried (plain_workload self.old.site.work) (plain_node self.old) call
            (step_finding (plain_workload self.old.site.work) self.old.site.state call)) self.new packets.old.items packets.new.items) }
        ensures unchanged { OnErr result (plain_node self.new ≡ plain_node self.old) }
        ensures unsent { OnErr result (packets.new.items ≡ packets.old.items) }
        ensures work { self.new.site.work ≡ self.old.site.work }
        ensures base { self.new.base ≡ self.old.base }
    {
        match try_call(alloc, &mut self.site, call)? {
            Tried::Made(prints) => {
                self.made[call.client as usize] = call.seq;
                Ok(Step::Kept(prints))
            }
            Tried::Refused(broken) => {
                packets.push(Packet::Want {
                    round: self.site.round(),
                    site: self.site.number(),
                    call,
                    broken,
                })?;
                self.mode = Mode::Waiting;
                Ok(Step::Wanted(broken))
            }
        }
    }

    /// Takes a packet of its own round, or ignores it.
    ///
    /// # Errors
    ///
    /// `Memory` when out of memory. Nothing has changed.
    pub(crate) fn receive(
        &mut self,
        alloc: Global,
        planner: &mut Planner,
        sites: u32,
        packet: Packet,
        packets: &mut List<Packet>,
    ) -> Result<Step, Memory>
        requires work { self.old.site.work ≡ planner.old }
        requires accepted { IsAccepted (plain_workload planner.old) }
        requires base { self.old.base.items ≡ self.old.site.state.base }
        requires own { self.old.site.state.number < sites_of (plain_workload planner.old) }
        requires round { self.old.site.state.round < 2 ^ 63 }
        requires sites { sites ≡ sites_of (plain_workload planner.old) }
        requires some { 0 < sites }
        requires states { length self.old.states.items ≡ sites }
        requires from { IsFrom sites (plain_packet packet) }
        requires can { CanTake (plain_workload planner.old) (plain_node self.old) (plain_packet packet) }
        ensures reaction { IfOk result (IsReaction (taken (plain_workload planner.old) (plain_node self.old) (plain_packet packet))
            self.new packets.old.items packets.new.items) }
        ensures unchanged { OnErr result (plain_node self.new ≡ plain_node self.old) }
        ensures unsent { OnErr result (packets.new.items ≡ packets.old.items) }
        ensures work { self.new.site.work ≡ self.old.site.work }
        ensures base { self.new.base.items ≡ self.new.site.state.base }
        ensures planner { planner.new ≡ planner.old }
    {
        match packet {
            Packet::Want {
                round,
                site,
                call,
                broken,
            } => {
                let breach = Breach {
                    round,
                    site,
                    call,
                    broken,
                };
                self.choose(breach, sites, packets)
            }
            Packet::Stop {
                round,
                site,
                call,
                broken,
            } => {
                let breach = Breach {
                    round,
                    site,
                    call,
                    broken,
                };
                self.stop(alloc, planner, breach, packets)
            }
            Packet::State {
                round,
                site,
                deltas,
            } => self.keep(alloc, planner, round, site, deltas.as_slice()),
        }
    }

    /// Chooses the call that closes the round, where the node is the round's arbiter and hasn't chosen one.
    #[tactic(auto, unfolding(crate::specs::Key::definitions))]
    fn choose(&mut self, b: Breach, sites: u32, packets: &mut List<Packet>) -> Result<Step, Memory>
        requires sites { sites ≡ sites_of (plain_workload self.old.site.work) }
        requires some { 0 < sites }
        ensures reaction { IfOk result (IsReaction (taken (plain_workload self.old.site.work) (plain_node self.old) (Want b))
            self.new packets.old.items packets.new.items) }
        ensures unchanged { OnErr result (self.new ≡ self.old) }
        ensures unsent { OnErr result (packets.new.items ≡ packets.old.items) }
        ensures site { self.new.site ≡ self.old.site }
        ensures base { self.new.base ≡ self.old.base }
    {
        let arbiter = self.site.round() % u64::from(sites);
        if u64::from(self.site.number()) != arbiter || self.decided {
            return Ok(Step::Ignored);
        }
        packets.push(Packet::Stop {
            round: b.round,
            site: b.site,
            call: b.call,
            broken: b.broken,
        })?;
        self.decided = true;
        Ok(Step::Taken)
    }

    /// Stops by a call that closes the round, where the node isn't stopped, and sends its state.
    fn stop(
        &mut self,
        alloc: Global,
        planner: &mut Planner,
        b: Breach,
        packets: &mut List<Packet>,
    ) -> Result<Step, Memory>
        requires work { self.old.site.work ≡ planner.old }
        requires accepted { IsAccepted (plain_workload planner.old) }
        requires base { self.old.base.items ≡ self.old.site.state.base }
        requires own { self.old.site.state.number < sites_of (plain_workload planner.old) }
        requires round { self.old.site.state.round < 2 ^ 63 }
        requires states { length self.old.states.items ≡ sites_of (plain_workload planner.old) }
        requires can { CanTake (plain_workload planner.old) (plain_node self.old) (Stop b) }
        ensures reaction { IfOk result (IsReaction (taken (plain_workload planner.old) (plain_node self.old) (Stop b))
            self.new packets.old.items packets.new.items) }
        ensures unchanged { OnErr result (plain_node self.new ≡ plain_node self.old) }
        ensures unsent { OnErr result (packets.new.items ≡ packets.old.items) }
        ensures work { self.new.site.work ≡ self.old.site.work }
        ensures base { self.new.base.items ≡ self.new.site.state.base }
        ensures planner { planner.new ≡ planner.old }
    {
        match self.mode {
            Mode::Stopped(_) => Ok(Step::Ignored),
            _ => {
                let round = self.site.round();
                let site = self.site.number();
                let deltas = copy_values(alloc, self.site.deltas())?;
                let states = states_with(alloc, self.states.as_slice(), site, deltas.as_slice())?;
                packets.reserve(1)?;
                self.settle(alloc, planner, Mode::Stopped(b), states)?;
                push_packet(
                    packets,
                    Packet::State {
                        round,
                        site,
                        deltas,
                    },
                );
                Ok(Step::Taken)
            }
        }
    }

    /// Keeps the state of a site, where the node keeps none of it.
    fn keep(
        &mut self,
        alloc: Global,
        planner: &mut Planner,
        round: u64,
        site: u32,
        deltas: &[i64],
    ) -> Result<Step, Memory>
        requires work { self.old.site.work ≡ planner.old }
        requires accepted { IsAccepted (plain_workload planner.old) }
        requires base { self.old.base.items ≡ self.old.site.state.base }
        requires own { self.old.site.state.number < sites_of (plain_workload planner.old) }
        requires round { self.old.site.state.round < 2 ^ 63 }
        requires kept { site < length self.old.states.items }
        requires can { CanTake (plain_workload planner.old) (plain_node self.old) (State round site deltas.now) }
        ensures reaction { IfOk result (λ s. (plain_node self.new ≡ (taken (plain_workload planner.old) (plain_node self.old) (State round site deltas.now)).node)
            × (plain_step s ≡ (taken (plain_workload planner.old) (plain_node self.old) (State round site deltas.now)).step)) }
        ensures unchanged { OnErr result (plain_node self.new ≡ plain_node self.old) }
        ensures work { self.new.site.work ≡ self.old.site.work }
        ensures base { self.new.base.items ≡ self.new.site.state.base }
        ensures planner { planner.new ≡ planner.old }
    {
        if has_state(self.states.as_slice(), site) {
            return Ok(Step::Ignored);
        }
        let states = states_with(alloc, self.states.as_slice(), site, deltas)?;
        self.settle(alloc, planner, self.mode, states)?;
        Ok(Step::Taken)
    }

    /// Is in this mode and keeps these states, and closes the round where it is stopped and keeps the states of all sites.
    ///
    /// # Errors
    ///
    /// `Memory` when out of memory. Nothing has changed.
    fn settle(
        &mut self,
        alloc: Global,
        planner: &mut Planner,
        mode: Mode,
        states: Vec<Option<Database>>,
    ) -> Result<(), Memory>
        requires work { self.old.site.work ≡ planner.old }
        requires accepted { IsAccepted (plain_workload planner.old) }
        requires base { self.old.base.items ≡ self.old.site.state.base }
        requires own { self.old.site.state.number < sites_of (plain_workload planner.old) }
        requires round { self.old.site.state.round < 2 ^ 63 }
        requires can { CanSettle (plain_workload planner.old) (plain_node self.old).journal mode (map plain_state states.items) }
        ensures node { OnOk result (plain_node self.new ≡ settled (plain_workload planner.old)
            (placed (plain_node self.old) mode (map plain_state states.items))) }
        ensures unchanged { OnErr result (plain_node self.new ≡ plain_node self.old) }
        ensures work { self.new.site.work ≡ self.old.site.work }
        ensures base { self.new.base.items ≡ self.new.site.state.base }
        ensures planner { planner.new ≡ planner.old }
    {
        match mode {
            Mode::Stopped(b) => match close(alloc, planner, self, b, states.as_slice())? {
                Some(next) => {
                    self.left.reserve(1)?;
                    self.go_on(b, next);
                }
                None => {
                    self.mode = mode;
                    self.states = states;
                }
            },
            _ => {
                self.mode = mode;
                self.states = states;
            }
        }
        Ok(())
    }

    /// Goes on to the next round by a call that closes this one. It takes no memory.
    fn go_on(&mut self, b: Breach, next: Next)
        requires starts { StartsNext self.old.site.work (plain_node self.old) next }
        requires base { self.old.base.items ≡ self.old.site.state.base }
        requires made { b.call.client < length self.old.made.items }
        requires room { 0 < self.old.left.spare }
        ensures node { plain_node self.new ≡ gone_on (plain_node self.old) b (plain_next next) }
        ensures work { self.new.site.work ≡ self.old.site.work }
        ensures base { self.new.base.items ≡ self.new.site.state.base }
    {
        let Next {
            start,
            base,
            closing,
            states,
        } = next;
        let segment = self.site.renew(start);
        let base = mem::replace(&mut self.base, base);
        push_left(
            &mut self.left,
            Left {
                base,
                segment,
                closing,
            },
        );
        let own = b.site == self.site.number();
        count_call(&mut self.made, own, b.call);
        self.mode = Mode::Running;
        self.decided = false;
        self.states = states;
    }
}

/// Counts a call among its client's, where it is one of the node's own clients.
fn count_call(made: &mut Vec<u64>, own: bool, call: CallId)
    requires { call.client < length made.old.items }
    ensures { made.new.items ≡ cond own (slice_set made.old.items call.client call.seq) made.old.items }
{
    if own {
        made[call.client as usize] = call.seq;
    }
}

/// Appends a packet, for which the list has room.
fn push_packet(packets: &mut List<Packet>, packet: Packet)
    requires { 0 < packets.old.spare }
    ensures { packets.new.items ≡ packets.old.items ++ packet ∷ [] }
{
    match packets.push(packet) {
        Ok(()) => {}
        Err(_) => unreachable!(),
    }
}

/// Appends a round, for which the list has room.
fn push_left(rounds: &mut List<Left>, round: Left)
    requires { 0 < rounds.old.spare }
    ensures { rounds.new.items ≡ rounds.old.items ++ round ∷ [] }
{
    match rounds.push(round) {
        Ok(()) => {}
        Err(_) => unreachable!(),
    }
}
