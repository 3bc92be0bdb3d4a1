//! A desk.

ghost use Rattle.std.specs.Prelude.{◌≡◌, ◌<◌, ◌∷◌, ◌++◌, [], None, Some, length, replicate, IfOk, IfSome, IsSome, OnOk};
ghost use Rattle.homeo_syntax.specs.SourceView.{plain_workload};
ghost use Rattle.homeo_plan.specs.Planned.{sites_of};
ghost use Rattle.homeo_history.specs.Legal.{IsCallAt};
ghost use Rattle.homeo_history.specs.Answers.{local_answer};
ghost use Rattle.homeo_history.specs.HistoryView.{plain_answer};
ghost use Rattle.homeo_nodes.specs.Nodes as n;
ghost use Rattle.homeo_nodes.specs.Nodes.{first_node, of_past};
ghost use Rattle.homeo_nodes.specs.Small.{small};
ghost use Rattle.homeo_live.specs.LiveView.{plain_node, plain_packet, plain_past, IsReached};
ghost use Rattle.homeo_desk.specs.declared.output.Output.TheVariants as o;
ghost use Rattle.homeo_desk.specs.DeskView.{desk_of, CanBegin, IsPaired};
ghost use Rattle.homeo_desk.specs.Moves.{IsMove};
ghost use Rattle.homeo_desk.specs.Requests.{standing, taken_on, Replies};
ghost use Rattle.homeo_desk.specs.inner.Delivering.{Delivers, IsTaken};

use crate::callers::{Callers, Known};
use crate::fits::{fits_queue, keeps_first};
use crate::output::{Output, Request, Why};
use crate::sending::{arbiter, let_out, let_out_all, sites, tell_left, tell_stop};
use crate::state::{DeskState, are_of};
use homeo_build::Compiled;
use homeo_core::clients::client_count;
use homeo_history::{Answer as Made, Path as Way};
use homeo_live::{LiveNode, MOST_WAITING, Packet, Past, Step};
use homeo_meaning::CallId;
use homeo_nodes::{Breach, Mode};
use homeo_syntax::{List, Memory, Prints};
use std::alloc::Global;
use std::marker::Model;
use std::sync::Arc;

/// A node with its callers.
#[derive(Drop)]
pub struct Desk {
    node: LiveNode,
    callers: Callers,
}

/// What became of a packet: no node can have sent it, or it was taken, and maybe the node has chosen by it which call closes the round.
#[derive(Clone, Copy)]
enum Delivered {
    No,
    Yes,
    Chose(Breach),
}

impl Model for Desk {
    ghost use Rattle.std.specs.Coded.{codes};
    ghost use Rattle.homeo_syntax.specs.contracts.workload.Workload as workload;
    ghost use Rattle.homeo_desk.specs.DeskView.{DeskValue};
    ghost use Rattle.homeo_desk.specs.inner.Keeping.{IsKept, value_of};

    ghost Value = { DeskValue };

    ghost coded = { Prim.hlevel (codes, workload.the_row.coded) };

    ghost view = { λ d. value_of d.node.work d.node.node d.callers.places d.callers.queue.items d.callers.answered };

    ghost invariant = { λ d. IsKept d.callers.places (value_of d.node.work d.node.node d.callers.places d.callers.queue.items d.callers.answered) };
}

impl Desk {
    /// The desk of a site in the round 0 on the initial database.
    ///
    /// # Errors
    ///
    /// `Memory` when out of memory.
    pub fn begin(alloc: Global, c: Arc<Compiled>, site: u32) -> Result<Desk, Memory>
        requires { site < sites_of (plain_workload c.value) }
        ensures { IfOk result (λ d. d ≡ record {
          work = c.value;
          node = small (first_node (plain_workload c.value) site);
          made = 0;
          queue = [];
          answered = replicate (length (plain_workload c.value).clients) None;
        }) }
    {
        let clients = client_count(c.workload());
        let callers = Callers::of(alloc, clients, 0, 0, Vec::new(alloc))?;
        let node = LiveNode::begin(alloc, c, site)?;
        Ok(Desk { node, callers })
    }

    /// The desk that has this state, where a desk of the workload can have it: of a state of a desk whose node is one that nodes have
    /// led to there is one.
    ///
    /// # Errors
    ///
    /// `Memory` when out of memory.
    pub fn begin_at(
        alloc: Global,
        c: Arc<Compiled>,
        state: DeskState,
    ) -> Result<Option<Desk>, Memory>
        ensures state { IfOk result (λ o. IfSome o (λ d. d ≡ desk_of c.value state)) }
        ensures reached { IsReached (plain_workload c.value) (plain_node state.node) → CanBegin (plain_workload c.value) state → IfOk result IsSome }
    {
        let DeskState {
            node,
            made,
            queue: requests,
            answered: answers,
        } = state;
        if !are_of(requests.as_slice(), node.queue.as_slice()) {
            return Ok(None);
        }
        if !keeps_first(&node) {
            return Ok(None);
        }
        let clients = client_count(c.workload());
        let mut callers = Callers::of(alloc, clients, node.round, made, requests)?;
        let Some(node) = LiveNode::begin_at(alloc, c, node)? else {
            return Ok(None);
        };
        if !callers.keep(&node, answers) {
            return Ok(None);
        }
        Ok(Some(Desk { node, callers }))
    }

    /// All that the desk is.
    ///
    /// # Errors
    ///
    /// `Memory` when out of memory.
    pub fn state(&self, alloc: Global) -> Result<DeskState, Memory>
        ensures state { IfOk result (λ s. desk_of self.now.work s ≡ self.now) }
        ensures can_begin { IfOk result (CanBegin (plain_workload self.now.work)) }
    {
        let node = self.node.state(alloc)?;
        let made = self.callers.made_in(self.node.round());
        let queue = self.callers.requests(alloc)?;
        let answered = self.callers.answers(alloc)?;
        Ok(DeskState {
            node,
            made,
            queue,
            answered,
        })
    }

    /// Lends the node.
    pub fn node(&self) -> &LiveNode
        ensures work { result.now.work ≡ self.now.work }
        ensures node { result.now.node ≡ self.now.node }
    {
        &self.node
    }

    /// How many requests wait: one for each of the node's calls that wait.
    pub fn waiting(&self) -> usize
        ensures count { result ≡ length self.now.queue }
        ensures paired { IsPaired self.now }
    {
        self.callers.waiting()
    }

    /// Takes a request: it is answered at once, or waits, or was answered already, or is refused.
    ///
    /// # Errors
    ///
    /// `Memory` when out of memory. The desk may have changed, and some outputs may have been given.
    pub fn ask(
        &mut self,
        alloc: Global,
        request: Request,
        outputs: &mut List<Output>,
    ) -> Result<(), Memory>
        requires { IsCallAt (plain_workload self.old.work) self.old.node.number request.call }
        ensures work { self.new.work ≡ self.old.work }
        ensures replies { OnOk result (Replies (standing self.old request) request self.old self.new outputs.old.items outputs.new.items) }
        ensures moves { OnOk result (IsMove (taken_on (standing self.old request) request) [] self.old self.new outputs.old.items outputs.new.items) }
    {
        match self.callers.known(&request) {
            Known::Answered(answer) => {
                let again = answer.copy(alloc)?;
                outputs.push(Output::Again(request.caller, again))?;
                Ok(())
            }
            Known::Waits => Ok(()),
            Known::Late => {
                refuse(request, Why::Late, outputs)?;
                Ok(())
            }
            Known::Full => {
                refuse(request, Why::Full, outputs)?;
                Ok(())
            }
            Known::New => self.take_on(alloc, request, outputs),
        }
    }

    /// Takes on a request that is new, where not too many wait.
    fn take_on(
        &mut self,
        alloc: Global,
        request: Request,
        outputs: &mut List<Output>,
    ) -> Result<(), Memory>
        requires call { IsCallAt (plain_workload self.old.work) self.old.node.number request.call }
        requires room { length self.old.queue < 64 }
        ensures work { self.new.work ≡ self.old.work }
        ensures moves { OnOk result (IsMove (request ∷ []) [] self.old self.new outputs.old.items outputs.new.items) }
    {
        self.callers.reserve()?;
        let _queued = self.node.ask(request.call)?;
        self.callers.add(request);
        self.serve(alloc, outputs)?;
        Ok(())
    }

    /// Takes a packet from a site. It says whether a node can have sent it; if none can, nothing has changed, but that a want may
    /// have been chosen.
    ///
    /// # Errors
    ///
    /// `Memory` when out of memory. The desk may have changed, and some outputs may have been given.
    pub fn receive(
        &mut self,
        alloc: Global,
        from: u32,
        packet: Packet,
        outputs: &mut List<Output>,
    ) -> Result<bool, Memory>
        ensures work { self.new.work ≡ self.old.work }
        ensures moves { OnOk result (IsMove [] (plain_packet packet ∷ []) self.old self.new outputs.old.items outputs.new.items) }
    {
        if packet.round() != self.node.round() {
            tell_left(&self.node, alloc, from, packet.round(), outputs)?;
            return Ok(true);
        }
        match (&packet, self.node.decided()) {
            (Packet::Want(_), Some(chosen)) => {
                tell_stop(&self.node, from, chosen, outputs)?;
                Ok(true)
            }
            _ => {
                let fits = self.take(alloc, packet, outputs)?;
                self.serve(alloc, outputs)?;
                Ok(fits)
            }
        }
    }

    /// Takes how a site closed the round that it stopped in last. It says whether nodes can have closed it so; if they can't, the
    /// desk may have taken a part of it.
    ///
    /// # Errors
    ///
    /// `Memory` when out of memory. The desk may have changed, and some outputs may have been given.
    pub fn receive_left(
        &mut self,
        alloc: Global,
        past: Past,
        outputs: &mut List<Output>,
    ) -> Result<bool, Memory>
        ensures work { self.new.work ≡ self.old.work }
        ensures moves { OnOk result (IsMove [] (of_past (Some (plain_past past))) self.old self.new outputs.old.items outputs.new.items) }
    {
        if past.breach.round != self.node.round() {
            return Ok(true);
        }
        let fits = self.take_left(alloc, past, outputs)?;
        self.serve(alloc, outputs)?;
        Ok(fits)
    }

    /// Makes the node take how its round was closed: the stop, and what each site has said.
    fn take_left(
        &mut self,
        alloc: Global,
        past: Past,
        outputs: &mut List<Output>,
    ) -> Result<bool, Memory>
        ensures work { self.new.work ≡ self.old.work }
        ensures moves { OnOk result (IsMove [] (of_past (Some (plain_past past))) self.old self.new outputs.old.items outputs.new.items) }
    {
        if past.states.len() != sites(&self.node) as usize {
            return Ok(false);
        }
        let Past { breach, states } = past;
        let round = breach.round;
        if !self.take(alloc, Packet::Stop(breach), outputs)? {
            return Ok(false);
        }
        let mut fits = true;
        let mut site = 0;
        for said in states {
            let fit = self.take(alloc, Packet::State { round, site, said }, outputs)?;
            fits = fits && fit;
            site += 1;
        }
        Ok(fits)
    }

    /// Sends again what others may still lack of the round. The desk stays.
    ///
    /// # Errors
    ///
    /// `Memory` when out of memory. Some outputs may have been given.
    pub fn tick(&self, alloc: Global, outputs: &mut List<Output>) -> Result<(), Memory>
        ensures moves { OnOk result (IsMove [] [] self.now self.now outputs.old.items outputs.new.items) }
    {
        let count = sent_by(self.node.mode());
        if count == 0 {
            return Ok(());
        }
        let mut sent = List::new(alloc);
        self.node.resend(alloc, &mut sent)?;
        let mut first = sent.into_vec();
        first.truncate(count);
        let_out_all(&self.node, List::from_vec(first), outputs)?;
        Ok(())
    }

    /// Makes the node take a packet, and then its own stop, if it sends one.
    fn take(
        &mut self,
        alloc: Global,
        packet: Packet,
        outputs: &mut List<Output>,
    ) -> Result<bool, Memory>
        ensures work { self.new.work ≡ self.old.work }
        ensures moves { OnOk result (IsMove [] (plain_packet packet ∷ []) self.old self.new outputs.old.items outputs.new.items) }
    {
        let delivered = self.deliver(alloc, packet, outputs)?;
        match delivered {
            Delivered::No => Ok(false),
            Delivered::Yes => Ok(true),
            Delivered::Chose(breach) => {
                let fits = self.stop(alloc, breach, outputs)?;
                Ok(fits)
            }
        }
    }

    /// Makes the node take its own stop.
    fn stop(
        &mut self,
        alloc: Global,
        breach: Breach,
        outputs: &mut List<Output>,
    ) -> Result<bool, Memory>
        ensures work { self.new.work ≡ self.old.work }
        ensures moves { OnOk result (IsMove [] (n.Stop breach ∷ []) self.old self.new outputs.old.items outputs.new.items) }
    {
        let delivered = self.deliver(alloc, Packet::Stop(breach), outputs)?;
        match delivered {
            Delivered::No => Ok(false),
            _ => Ok(true),
        }
    }

    /// Makes the node take a packet, where it fits the calls that wait. The requests that wait stay those of these calls, also where
    /// memory lacks.
    fn deliver(
        &mut self,
        alloc: Global,
        packet: Packet,
        outputs: &mut List<Output>,
    ) -> Result<Delivered, Memory>
        ensures work { self.new.work ≡ self.old.work }
        ensures delivers { IfOk result (λ d. Delivers (plain_packet packet) d self.old self.new outputs.old.items outputs.new.items) }
    {
        if !fits_queue(&packet, self.node.number(), self.node.queue()) {
            return Ok(Delivered::No);
        }
        let mut sent = List::new(alloc);
        let Some(step) = self.node.receive(alloc, packet, &mut sent)? else {
            return Ok(Delivered::No);
        };
        let chosen = let_out_all(&self.node, sent, outputs);
        self.callers.tell(alloc, step, outputs)?;
        let stop = chosen?;
        Ok(taken_by(stop))
    }

    /// Goes on with the requests that wait, one after another, while the node runs.
    fn serve(&mut self, alloc: Global, outputs: &mut List<Output>) -> Result<(), Memory>
        ensures work { self.new.work ≡ self.old.work }
        ensures moves { OnOk result (IsMove [] [] self.old self.new outputs.old.items outputs.new.items) }
    {
        for _ in 0..MOST_WAITING {
            if !self.serve_one(alloc, outputs)? {
                break;
            }
        }
        Ok(())
    }

    /// Goes on with the first request that waits, and says whether it may go on with the next.
    fn serve_one(&mut self, alloc: Global, outputs: &mut List<Output>) -> Result<bool, Memory>
        ensures work { self.new.work ≡ self.old.work }
        ensures moves { OnOk result (IsMove [] [] self.old self.new outputs.old.items outputs.new.items) }
    {
        let site = self.node.number();
        let round = self.node.round();
        let mut sent = List::new(alloc);
        match self.node.serve(alloc, &mut sent)? {
            Step::Kept(call, prints) => {
                let made = kept(site, round, call, prints);
                self.callers.answer(alloc, made, outputs)?;
                Ok(true)
            }
            Step::Wanted(_) => {
                self.want(alloc, outputs)?;
                Ok(true)
            }
            _ => Ok(false),
        }
    }

    /// Sends the want by which the node waits to the arbiter, which may be the node itself.
    fn want(&mut self, alloc: Global, outputs: &mut List<Output>) -> Result<(), Memory>
        ensures work { self.new.work ≡ self.old.work }
        ensures moves { OnOk result (IsMove [] [] self.old self.new outputs.old.items outputs.new.items) }
    {
        let Mode::Waiting(breach) = self.node.mode() else {
            return Ok(());
        };
        if arbiter(&self.node) == self.node.number() {
            self.take(alloc, Packet::Want(breach), outputs)?;
            return Ok(());
        }
        let_out(&self.node, Packet::Want(breach), outputs)?;
        Ok(())
    }
}

/// A packet was taken, by which the node has maybe chosen a call.
fn taken_by(chosen: Option<Breach>) -> Delivered
    ensures { IsTaken chosen result }
{
    match chosen {
        Some(breach) => Delivered::Chose(breach),
        None => Delivered::Yes,
    }
}

/// The answer to a call that its site has made alone.
#[tactic(auto, unfolding(homeo_history::specs::Key::definitions))]
fn kept(site: u32, round: u64, call: CallId, prints: Prints) -> Made
    ensures { plain_answer result ≡ local_answer round site (record { call = call; prints = prints.items }) }
{
    Made {
        client: call.client,
        seq: call.seq,
        site,
        round,
        path: Way::Local,
        prints,
    }
}

/// How many packets a node in this mode sends again of its round.
fn sent_by(mode: Mode) -> usize {
    match mode {
        Mode::Running => 0,
        Mode::Waiting(_) => 1,
        Mode::Stopped(_) => 2,
    }
}

/// Refuses a request.
fn refuse(request: Request, why: Why, outputs: &mut List<Output>) -> Result<(), Memory>
    ensures { OnOk result (outputs.new.items ≡ outputs.old.items ++ o.Refusal request.caller request.number why ∷ []) }
{
    outputs.push(Output::Refusal(request.caller, request.number, why))?;
    Ok(())
}
