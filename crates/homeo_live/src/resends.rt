//! What a node sends again.

ghost use Rattle.std.specs.Prelude.{◌≡◌, ◌++◌, ◌≤◌, length, map, option_map, IfSome, OnOk};
ghost use Rattle.homeo_nodes.specs.Nodes.{of_choice, of_states, of_past};
ghost use Rattle.homeo_carry.specs.CarryView.{plain_said};
ghost use Rattle.homeo_live.specs.LiveView.{plain_packet, plain_past};

use crate::packet::Packet;
use crate::state::Past;
use homeo_carry::Said;
use homeo_nodes::Breach;
use homeo_syntax::{List, Memory};
use std::alloc::Global;

/// Sends the call that was chosen, if one was.
pub(crate) fn resend_choice(
    decided: &Option<Breach>,
    packets: &mut List<Packet>,
) -> Result<(), Memory>
    ensures { OnOk result (map plain_packet packets.new.items ≡ map plain_packet packets.old.items ++ of_choice decided.now) }
{
    match decided {
        Some(b) => packets.push(Packet::Stop(*b)),
        None => Ok(()),
    }
}

/// Sends how a node has closed the round that it stopped in last, if there was one.
pub(crate) fn resend_past(
    alloc: Global,
    past: &Option<Past>,
    packets: &mut List<Packet>,
) -> Result<(), Memory>
    requires { IfSome past.now (λ p. length p.states.items ≤ 16) }
    ensures { OnOk result (map plain_packet packets.new.items ≡
        map plain_packet packets.old.items ++ of_past (option_map plain_past past.now)) }
{
    match past {
        Some(past) => {
            packets.push(Packet::Stop(past.breach))?;
            resend_states(alloc, past.breach.round, past.states.as_slice(), packets)
        }
        None => Ok(()),
    }
}

/// Sends what all sites have said in a round.
fn resend_states(
    alloc: Global,
    round: u64,
    states: &[Said],
    packets: &mut List<Packet>,
) -> Result<(), Memory>
    requires { length states.now ≤ 16 }
    ensures { OnOk result (map plain_packet packets.new.items ≡
        map plain_packet packets.old.items ++ of_states round 0 (map plain_said states.now)) }
{
    for (site, said) in states.iter().enumerate() {
        packets.push(Packet::State {
            round,
            site: site as u32,
            said: said.copy(alloc)?,
        })?;
    }
    Ok(())
}
