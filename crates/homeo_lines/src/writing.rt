//! Lines, written.

ghost use Rattle.std.specs.Prelude.{◌≡◌, ◌++◌, List, ℕ, None, length, option_map, OnOk};
ghost use Rattle.serde_json.specs.Events.{SendsValue};
ghost use Rattle.homeo_syntax.specs.SourceView.{plain_workload};
ghost use Rattle.homeo_carry.specs.CarryView.{plain_said};
ghost use Rattle.homeo_nodes.specs.Nodes.{State};
ghost use Rattle.homeo_live.specs.LiveView.{plain_packet, plain_past};
ghost use Rattle.homeo_lines.specs.Lines as l;
ghost use Rattle.homeo_lines.specs.LineView.{plain_answer, plain_body, plain_state};
ghost use Rattle.homeo_lines.specs.Written.{object_of, type_fields, breach_fields, body_data, line_data, line_text};

use crate::catalogue::Catalogue;
use crate::packets_writing::{said_count, write_breach, write_past, write_said};
use crate::state_writing::write_answer;
use crate::status_writing::write_status;
use crate::written::{Written, begin_typed, write_member};
use crate::wrong::{FORMAT, Wrong};
use homeo_carry::Said;
use homeo_desk::{Answer, Desk, DeskState};
use homeo_live::{Packet, Past};
use homeo_nodes::Breach;
use homeo_syntax::Memory;
use serde::{Described, Serialize, Serializer};
use serde_json::to_vec;
use std::alloc::Global;

/// What a line that is written says, with the number of what it answers, where that has one.
#[derive(Drop)]
pub enum Body<'a> {
    InitOk(Option<u64>),
    CallOk(&'a Answer),
    Error(Option<u64>, Wrong),
    Packet(&'a Packet),
    Left(&'a Past),
    SnapshotOk(Option<u64>, &'a DeskState),
    StatusOk(Option<u64>, &'a Desk),
}

/// Appends a line, which ends with a newline: from whom it comes, to whom it goes, and what it says.
///
/// # Errors
///
/// `Memory` when out of memory. Some bytes may have been appended.
pub fn write_line(
    alloc: Global,
    catalogue: &Catalogue,
    from: Option<&str>,
    to: Option<&str>,
    body: &Body<'_>,
    out: &mut Vec<u8>,
) -> Result<(), Memory>
    ensures written { OnOk result (out.new.items ≡ out.old.items
        ++ line_text (plain_workload catalogue.now) (option_map (λ s. s.now) from.entry) (option_map (λ s. s.now) to.entry) (plain_body body.now)) }
    ensures kept { (more : List ℕ) × (out.new.items ≡ out.old.items ++ more) }
{
    let envelope = Envelope {
        catalogue,
        from,
        to,
        body,
    };
    match to_vec(alloc, &envelope) {
        Ok(text) => {
            out.extend_from_slice(text.as_slice())?;
            Ok(out.push(b'\n')?)
        }
        Err(_) => Err(Memory),
    }
}

#[derive(Drop)]
struct Envelope<'a> {
    catalogue: &'a Catalogue,
    from: Option<&'a str>,
    to: Option<&'a str>,
    body: &'a Body<'a>,
}

impl Described for Envelope<'_> {
    ghost writes = { λ e. SendsValue (line_data (plain_workload e.catalogue.now) (option_map (λ s. s.now) e.from) (option_map (λ s. s.now) e.to) (plain_body e.body.now)) };
}

impl Serialize for Envelope<'_> {
    fn serialize<S: Serializer>(&self, out: &mut S) -> Result<(), S::Error> {
        out.begin_map(Some(3))?;
        write_member(self.catalogue, "src", &self.from, out)?;
        write_member(self.catalogue, "dest", &self.to, out)?;
        write_member(self.catalogue, "body", self.body, out)?;
        out.end_map()
    }
}

impl Written for Body<'_> {
    ghost json = { λ w b. body_data w (plain_body b) };

    fn write<S: Serializer>(&self, catalogue: &Catalogue, out: &mut S) -> Result<(), S::Error> {
        match self {
            Body::InitOk(number) => write_init_ok(catalogue, *number, out),
            Body::CallOk(answer) => write_call_ok(catalogue, answer, out),
            Body::Error(number, wrong) => write_error(catalogue, *number, *wrong, out),
            Body::Packet(packet) => write_packet(catalogue, packet, out),
            Body::Left(past) => write_left(catalogue, past, out),
            Body::SnapshotOk(number, state) => write_snapshot_ok(catalogue, *number, state, out),
            Body::StatusOk(number, desk) => write_status_ok(catalogue, *number, desk, out),
        }
    }
}

fn write_init_ok<S: Serializer>(
    catalogue: &Catalogue,
    number: Option<u64>,
    out: &mut S,
) -> Result<(), S::Error>
    ensures { OnOk result (SendsValue (body_data (plain_workload catalogue.now) (l.InitOk number)) (S.written out.old) (S.written out.new)) }
{
    begin_typed(catalogue, "init_ok", number, 1, out)?;
    write_member(catalogue, "format", &FORMAT, out)?;
    out.end_map()
}

fn write_call_ok<S: Serializer>(
    catalogue: &Catalogue,
    answer: &Answer,
    out: &mut S,
) -> Result<(), S::Error>
    ensures { OnOk result (SendsValue (body_data (plain_workload catalogue.now) (l.CallOk (plain_answer answer.now))) (S.written out.old) (S.written out.new)) }
{
    begin_typed(catalogue, "call_ok", Some(answer.number), 5, out)?;
    write_answer(catalogue, answer, out)?;
    write_member(catalogue, "call", &answer.call.seq, out)?;
    out.end_map()
}

fn write_error<S: Serializer>(
    catalogue: &Catalogue,
    number: Option<u64>,
    wrong: Wrong,
    out: &mut S,
) -> Result<(), S::Error>
    ensures { OnOk result (SendsValue (body_data (plain_workload catalogue.now) (l.Error number wrong.code wrong.text.now)) (S.written out.old) (S.written out.new)) }
{
    begin_typed(catalogue, "error", number, 2, out)?;
    write_member(catalogue, "code", &wrong.code, out)?;
    write_member(catalogue, "text", &wrong.text, out)?;
    out.end_map()
}

#[tactic(auto, unfolding(homeo_live::specs::Key::definitions))]
fn write_packet<S: Serializer>(
    catalogue: &Catalogue,
    packet: &Packet,
    out: &mut S,
) -> Result<(), S::Error>
    ensures { OnOk result (SendsValue (body_data (plain_workload catalogue.now) (l.Sent (plain_packet packet.now))) (S.written out.old) (S.written out.new)) }
{
    match packet {
        Packet::Want(b) => write_chosen(catalogue, "want", b, out),
        Packet::Stop(b) => write_chosen(catalogue, "stop", b, out),
        Packet::State { round, site, said } => write_stopped(catalogue, *round, *site, said, out),
    }
}

/// Writes a packet of this type that names a call which breaks a treaty.
fn write_chosen<S: Serializer>(
    catalogue: &Catalogue,
    name: &str,
    b: &Breach,
    out: &mut S,
) -> Result<(), S::Error>
    ensures { OnOk result (SendsValue (object_of (type_fields name.now None ++ breach_fields (plain_workload catalogue.now) b.now)) (S.written out.old) (S.written out.new)) }
{
    begin_typed(catalogue, name, None, 5, out)?;
    write_breach(catalogue, b, out)?;
    out.end_map()
}

/// Writes what a site says that has stopped in this round.
fn write_stopped<S: Serializer>(
    catalogue: &Catalogue,
    round: u64,
    site: u32,
    said: &Said,
    out: &mut S,
) -> Result<(), S::Error>
    ensures { OnOk result (SendsValue (body_data (plain_workload catalogue.now) (l.Sent (State round site (plain_said said.now)))) (S.written out.old) (S.written out.new)) }
{
    begin_typed(catalogue, "state", None, 2 + said_count(said), out)?;
    write_member(catalogue, "round", &round, out)?;
    write_member(catalogue, "site", &site, out)?;
    write_said(catalogue, said, out)?;
    out.end_map()
}

fn write_left<S: Serializer>(
    catalogue: &Catalogue,
    past: &Past,
    out: &mut S,
) -> Result<(), S::Error>
    ensures { OnOk result (SendsValue (body_data (plain_workload catalogue.now) (l.Left (plain_past past.now))) (S.written out.old) (S.written out.new)) }
{
    begin_typed(catalogue, "left", None, 6, out)?;
    write_past(catalogue, past, out)?;
    out.end_map()
}

fn write_snapshot_ok<S: Serializer>(
    catalogue: &Catalogue,
    number: Option<u64>,
    state: &DeskState,
    out: &mut S,
) -> Result<(), S::Error>
    ensures { OnOk result (SendsValue (body_data (plain_workload catalogue.now) (l.SnapshotOk number (plain_state state.now))) (S.written out.old) (S.written out.new)) }
{
    begin_typed(catalogue, "snapshot_ok", number, 1, out)?;
    write_member(catalogue, "state", state, out)?;
    out.end_map()
}

fn write_status_ok<S: Serializer>(
    catalogue: &Catalogue,
    number: Option<u64>,
    desk: &Desk,
    out: &mut S,
) -> Result<(), S::Error>
    ensures { OnOk result (SendsValue (body_data (plain_workload catalogue.now) (l.StatusOk number desk.now.node (length desk.now.queue))) (S.written out.old) (S.written out.new)) }
{
    begin_typed(catalogue, "status_ok", number, 5, out)?;
    write_status(catalogue, desk, out)?;
    out.end_map()
}
