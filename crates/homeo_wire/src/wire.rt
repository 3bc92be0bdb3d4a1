//! All nodes, and the packets between them.

ghost use Rattle.std.specs.Prelude.{◌≡◌, ◌+◌, ◌<◌, Some, All, length, map, replicate, slice_get, slice_index_or, IfOk, OnOk, OnErr};
ghost use Rattle.homeo_syntax.specs.SourceView.{plain_workload};
ghost use Rattle.homeo_meaning.specs.Acceptance.{IsAccepted};
ghost use Rattle.homeo_meaning.specs.Bounds.{IsWithin};
ghost use Rattle.homeo_meaning.specs.Initial.{initial};
ghost use Rattle.homeo_meaning.specs.Schema.{schema_of};
ghost use Rattle.homeo_plan.specs.Planned.{sites_of, policy};
ghost use Rattle.homeo_outline.specs.ObjectPlan.{config_in};
ghost use Rattle.homeo_build.specs.Plan.{IsObjectPlan};
ghost use Rattle.homeo_history.specs.HistoryView.{plain_history};
ghost use Rattle.homeo_history.specs.Legal.{call_count, IsLegal};
ghost use Rattle.homeo_wire.specs.Laws.{HasOneBase};
ghost use Rattle.homeo_wire.specs.declared.events.Event.TheVariants as event;
ghost use Rattle.homeo_wire.specs.Nodes as nodes;
ghost use Rattle.homeo_wire.specs.Nodes.{in_round, first_journal, at_start, happens};
ghost use Rattle.homeo_wire.specs.Read.{history_in, counts_in};
ghost use Rattle.homeo_wire.specs.WireView.{plain_step, plain_node, CanHappen};
ghost use Rattle.homeo_wire.specs.inner.Stale.{AreStale};
ghost use Rattle.homeo_wire.specs.inner.Standing.{IsNode};

use crate::breach::Mode;
use crate::events::{Event, Packet, Step};
use crate::history::{history_of, last_round};
use crate::node::Node;
use crate::stale::count_stale;
use crate::states::{copy_values, no_states};
use homeo_build::Compiled;
use homeo_build::treaties::plan_at;
use homeo_core::clients::{call_count, client_count, site_count, site_of};
use homeo_eval::initial;
use homeo_history::History;
use homeo_meaning::{Accepted, Database};
use homeo_outline::ObjectPlan;
use homeo_site::{Planner, Site, SiteStart};
use homeo_syntax::{List, Memory};
use std::alloc::Global;
use std::marker::Model;
use std::sync::Arc;

/// The sites of a program as nodes that send each other packets, and each packet that was ever sent. A packet may come to any
/// node, any number of times, in any order, or never (the rounds and treaties are those of Roy et al., SIGMOD 2015; the packets are
/// this project's).
#[derive(Drop)]
pub struct Wire {
    planner: Planner,
    nodes: Vec<Node>,
    packets: List<Packet>,
}

impl Model for Wire {
    ghost use Rattle.std.specs.Coded.{codes};
    ghost use Rattle.homeo_syntax.specs.contracts.workload.Workload as workload;
    ghost use Rattle.homeo_wire.specs.WireView.{WireValue};

    ghost Value = { WireValue };

    ghost coded = { Prim.hlevel (codes, workload.the_row.coded) };

    ghost use Rattle.homeo_wire.specs.WireView.{world_of};
    ghost use Rattle.homeo_wire.specs.inner.Standing.{IsWire};

    ghost view = { λ x. record { work = x.planner; world = world_of x.nodes.items x.packets.items } };

    ghost invariant = { λ x. IsWire x.planner x.nodes.items x.packets.items };
}

impl Wire {
    /// All nodes in the round 0 on the initial database; nothing was sent.
    ///
    /// # Errors
    ///
    /// `Memory` when out of memory.
    pub fn begin(alloc: Global, c: Arc<Compiled>) -> Result<Wire, Memory>
        ensures { IfOk result (λ x. x ≡ record { work = c.value; world = at_start (plain_workload c.value) }) }
    {
        let nodes = first_nodes(alloc, &c)?;
        Ok(Wire {
            planner: Planner::new(c),
            nodes,
            packets: List::new(alloc),
        })
    }

    /// Lends the workload.
    pub fn workload(&self) -> &Accepted
        ensures work { result.now ≡ self.now.work }
        ensures accepted { IsAccepted (plain_workload self.now.work) }
    {
        self.planner.compiled().workload()
    }

    /// Lets an event happen: a client that there is makes its next call, or a packet that was sent comes to a site that there is.
    ///
    /// # Errors
    ///
    /// `Memory` when out of memory. Nothing has changed.
    pub fn event(&mut self, alloc: Global, e: Event) -> Result<Step, Memory>
        requires { CanHappen (plain_workload self.old.work) self.old.world e }
        ensures step { IfOk result (λ s. plain_step s ≡ (happens (plain_workload self.old.work) self.old.world e).step) }
        ensures world { OnOk result (self.new.world ≡ (happens (plain_workload self.old.work) self.old.world e).world) }
        ensures work { self.new.work ≡ self.old.work }
        ensures unchanged { OnErr result (self.new ≡ self.old) }
        ensures one_base { HasOneBase self.new.world }
    {
        match e {
            Event::Call { client } => self.call(alloc, client),
            Event::Deliver { site, packet } => self.deliver(alloc, site, packet),
        }
    }

    /// A client makes its next call.
    fn call(&mut self, alloc: Global, client: u32) -> Result<Step, Memory>
        requires { client < length (plain_workload self.old.work).clients }
        ensures step { IfOk result (λ s. plain_step s ≡ (happens (plain_workload self.old.work) self.old.world (event.Call client)).step) }
        ensures world { OnOk result (self.new.world ≡ (happens (plain_workload self.old.work) self.old.world (event.Call client)).world) }
        ensures work { self.new.work ≡ self.old.work }
        ensures unchanged { OnErr result (self.new ≡ self.old) }
        ensures one_base { HasOneBase self.new.world }
    {
        let w = self.planner.compiled().workload();
        let home = site_of(w, client);
        let count = call_count(w, client);
        self.nodes[home as usize].call(alloc, client, count, &mut self.packets)
    }

    /// A packet comes to a site. It is copied where it is of the site's round.
    fn deliver(&mut self, alloc: Global, site: u32, packet: u64) -> Result<Step, Memory>
        requires site { site < sites_of (plain_workload self.old.work) }
        requires packet { packet < length self.old.world.packets }
        ensures step { IfOk result (λ s. plain_step s ≡ (happens (plain_workload self.old.work) self.old.world (event.Deliver site packet)).step) }
        ensures world { OnOk result (self.new.world ≡ (happens (plain_workload self.old.work) self.old.world (event.Deliver site packet)).world) }
        ensures work { self.new.work ≡ self.old.work }
        ensures unchanged { OnErr result (self.new ≡ self.old) }
        ensures one_base { HasOneBase self.new.world }
    {
        let sent = &self.packets.as_slice()[packet as usize];
        let node = &mut self.nodes[site as usize];
        if sent.round() != node.round() {
            return Ok(Step::Ignored);
        }
        let packet = sent.copy(alloc)?;
        let sites = site_count(self.planner.compiled().workload());
        node.receive(alloc, &mut self.planner, sites, packet, &mut self.packets)
    }

    /// How many packets were sent. It takes no memory.
    pub fn sent(&self) -> u64
        ensures { result ≡ length self.now.world.packets }
    {
        self.packets.as_slice().len() as u64
    }

    /// How many packets at the front are of rounds that all nodes have left. It takes no memory.
    pub(crate) fn stale(&self) -> u64
        ensures { AreStale self.now.world result }
    {
        count_stale(self.nodes.as_slice(), self.packets.as_slice())
    }

    /// The node of a site that there is.
    fn node(&self, site: u32) -> &Node
        requires { site < sites_of (plain_workload self.now.work) }
        ensures view { (m : nodes.Node) → slice_get self.now.world.nodes site ≡ Some m → plain_node result.now ≡ m }
        ensures base { result.now.base.items ≡ result.now.site.state.base }
    {
        &self.nodes[site as usize]
    }

    /// The round of a site that there is. It takes no memory.
    pub fn round(&self, site: u32) -> u64
        requires { site < sites_of (plain_workload self.now.work) }
        ensures { (m : nodes.Node) → slice_get self.now.world.nodes site ≡ Some m → result ≡ m.journal.site.round }
    {
        self.node(site).site.round()
    }

    /// Lends the base of the round in which a site is. It takes no memory.
    pub fn base(&self, site: u32) -> &Database
        requires { site < sites_of (plain_workload self.now.work) }
        ensures { (m : nodes.Node) → slice_get self.now.world.nodes site ≡ Some m → result.now.items ≡ m.journal.site.base }
    {
        &self.node(site).base
    }

    /// How many calls a client has that aren't in the history. It takes no memory.
    pub fn left(&self, client: u32) -> u64
        requires { client < length (plain_workload self.now.work).clients }
        ensures { result + slice_index_or (counts_in (plain_workload self.now.work) (history_in self.now.world).rounds) client 0
            ≡ call_count (plain_workload self.now.work) client }
    {
        let w = self.planner.compiled().workload();
        let nodes = self.nodes.as_slice();
        let counted = nodes[site_of(w, client) as usize].counted(client, last_round(nodes));
        call_count(w, client) - counted
    }

    /// The history of what was done: legal, of as many calls of each client as stand in it.
    ///
    /// # Errors
    ///
    /// `Memory` when out of memory.
    pub fn finish(self, alloc: Global) -> Result<History, Memory>
        ensures history { IfOk result (λ h. plain_history h ≡ history_in self.world) }
        ensures legal { let w = plain_workload self.work in
            IfOk result (λ h. IsLegal w (counts_in w (plain_history h).rounds) (plain_history h)) }
        ensures within { IfOk result (λ h. IsWithin (schema_of (plain_workload self.work)) (plain_history h).last) }
    {
        history_of(alloc, self.nodes.as_slice())
    }
}

/// All nodes before any event.
fn first_nodes(alloc: Global, c: &Arc<Compiled>) -> Result<Vec<Node>, Memory>
    ensures nodes { IfOk result (λ n. map plain_node n.items ≡ (at_start (plain_workload c.now.value)).nodes) }
    ensures each { IfOk result (λ n. All (IsNode c.now.value) n.items) }
    ensures accepted { IsAccepted (plain_workload c.now.value) }
{
    let clients = client_count(c.workload());
    let base = initial(alloc, c.workload())?;
    let plan = plan_at(alloc, c, &base)?;
    let mut nodes = Vec::new(alloc);
    for site in 0..site_count(c.workload()) {
        let node = first_node(alloc, c, &plan, &base, clients, site)?;
        nodes.push(node)?;
    }
    Ok(nodes)
}

/// The node of a site before any event.
fn first_node(
    alloc: Global,
    c: &Arc<Compiled>,
    plan: &Arc<ObjectPlan>,
    base: &Database,
    clients: u64,
    site: u32,
) -> Result<Node, Memory>
    requires plan { IsObjectPlan (plain_workload c.now.value) plan.now.value.base.items plan.now.value }
    requires policy { config_in plan.now.value ≡ policy (plain_workload c.now.value) plan.now.value.base.items }
    requires at { plan.now.value.base.items ≡ initial (plain_workload c.now.value) }
    requires base { base.now.items ≡ initial (plain_workload c.now.value) }
    requires clients { clients ≡ length (plain_workload c.now.value).clients }
    requires site { site < sites_of (plain_workload c.now.value) }
    ensures node { IfOk result (λ n. plain_node n ≡ in_round (plain_workload c.now.value) (first_journal (plain_workload c.now.value) site)) }
    ensures is { IfOk result (IsNode c.now.value) }
{
    let base = copy_values(alloc, base.as_slice())?;
    let made = no_calls(alloc, clients)?;
    let states = no_states(alloc, site_count(c.workload()))?;
    let start = SiteStart::new(alloc, c, plan, site, 0)?;
    Ok(Node {
        site: Site::begin(start),
        base,
        left: List::new(alloc),
        made,
        mode: Mode::Running,
        decided: false,
        states,
    })
}

/// A 0 for each of so many clients.
fn no_calls(alloc: Global, clients: u64) -> Result<Vec<u64>, Memory>
    ensures { IfOk result (λ c. c.items ≡ replicate clients 0) }
{
    let mut counts = Vec::new(alloc);
    for _ in 0..clients {
        counts.push(0)?;
    }
    Ok(counts)
}
