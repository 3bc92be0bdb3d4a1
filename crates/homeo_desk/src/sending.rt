//! What a node sends, as outputs of its desk.

ghost use Rattle.std.specs.Prelude.{◌≡◌, ◌<◌, ◌≤◌, ◌∷◌, ◌⊎◌, [], Some, map, Contains, IfOk, IfSome, OnOk};
ghost use Rattle.homeo_syntax.specs.SourceView.{plain_workload};
ghost use Rattle.homeo_plan.specs.Planned.{sites_of};
ghost use Rattle.homeo_nodes.specs.Nodes as n;
ghost use Rattle.homeo_nodes.specs.Nodes.{of_past};
ghost use Rattle.homeo_live.specs.LiveView.{plain_packet};
ghost use Rattle.homeo_desk.specs.Outputs.{Gives};

use crate::output::{Output, To};
use homeo_core::clients::{client_count, site_count};
use homeo_live::{LiveNode, Packet};
use homeo_nodes::Breach;
use homeo_syntax::{List, Memory};
use std::alloc::Global;

/// How many sites there are, from 1 to 16.
#[tactic(auto, using(homeo_plan::proofs::Policy::some_sites))]
pub(crate) fn sites(node: &LiveNode) -> u32
    ensures count { result ≡ sites_of (plain_workload node.now.work) }
    ensures some { 0 < result }
    ensures few { result ≤ 16 }
{
    let w = node.compiled().workload();
    // the workload is accepted
    let _clients = client_count(w);
    site_count(w)
}

/// The site of the round's arbiter.
pub(crate) fn arbiter(node: &LiveNode) -> u32
    ensures { result < sites_of (plain_workload node.now.work) }
{
    (node.round() % u64::from(sites(node))) as u32
}

/// Those that a packet is for; there are none where that is the node itself.
fn receiver(node: &LiveNode, packet: &Packet) -> Option<To> {
    match packet {
        Packet::Want(_) => {
            let arbiter = arbiter(node);
            if arbiter == node.number() {
                return None;
            }
            Some(To::Site(arbiter))
        }
        _ => Some(To::Others),
    }
}

/// Lets out a packet to those that it is for.
pub(crate) fn let_out(
    node: &LiveNode,
    packet: Packet,
    outputs: &mut List<Output>,
) -> Result<(), Memory>
    ensures { OnOk result (Gives (plain_packet packet ∷ []) [] outputs.old.items outputs.new.items) }
{
    match receiver(node, &packet) {
        Some(to) => {
            outputs.push(Output::Packet(to, packet))?;
            Ok(())
        }
        None => Ok(()),
    }
}

/// Lets out what the node has sent, and gives the stop that is among it.
pub(crate) fn let_out_all(
    node: &LiveNode,
    sent: List<Packet>,
    outputs: &mut List<Output>,
) -> Result<Option<Breach>, Memory>
    ensures gives { OnOk result (Gives (map plain_packet sent.items) [] outputs.old.items outputs.new.items) }
    ensures chosen { IfOk result (λ o. IfSome o (λ b. Contains (map plain_packet sent.items) (n.Stop b))) }
{
    let mut chosen = None;
    for packet in sent.into_vec() {
        chosen = stop_in(&packet, chosen);
        let_out(node, packet, outputs)?;
    }
    Ok(chosen)
}

/// The call by which a packet stops a round, or else this one.
#[tactic(auto, unfolding(homeo_live::specs::Key::definitions))]
fn stop_in(packet: &Packet, before: Option<Breach>) -> Option<Breach>
    ensures { IfSome result (λ b. (plain_packet packet.now ≡ n.Stop b) ⊎ (before ≡ Some b)) }
{
    match packet {
        Packet::Stop(breach) => Some(*breach),
        _ => before,
    }
}

/// Tells a site which call was chosen to close the round.
pub(crate) fn tell_stop(
    node: &LiveNode,
    to: u32,
    chosen: Breach,
    outputs: &mut List<Output>,
) -> Result<(), Memory>
    ensures { OnOk result (Gives (n.Stop chosen ∷ []) [] outputs.old.items outputs.new.items) }
{
    if to == node.number() {
        return Ok(());
    }
    outputs.push(Output::Packet(To::Site(to), Packet::Stop(chosen)))?;
    Ok(())
}

/// Tells a site how the node closed this round, if it is the one that it stopped in last.
pub(crate) fn tell_left(
    node: &LiveNode,
    alloc: Global,
    to: u32,
    round: u64,
    outputs: &mut List<Output>,
) -> Result<(), Memory>
    ensures { OnOk result (Gives (of_past node.now.node.past) [] outputs.old.items outputs.new.items) }
{
    let Some(past) = node.past() else {
        return Ok(());
    };
    if past.breach.round != round || to == node.number() {
        return Ok(());
    }
    outputs.push(Output::Left(to, past.copy(alloc)?))?;
    Ok(())
}
