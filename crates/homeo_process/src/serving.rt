//! What a node that has begun does with a message.

ghost use Rattle.std.specs.Prelude.{◌≡◌, None, Some, OnOk};
ghost use Rattle.homeo_history.specs.Legal.{IsCallAt};
ghost use Rattle.homeo_syntax.specs.SourceView.{plain_workload};
ghost use Rattle.homeo_live.specs.LiveView.{plain_packet, plain_past};
ghost use Rattle.homeo_lines.specs.Lines as l;
ghost use Rattle.homeo_lines.specs.LineView.{plain_message};
ghost use Rattle.homeo_process.specs.Taking.{Asks};
ghost use Rattle.homeo_process.specs.inner.Voices.{Appends, IsServed, IsTicked, IsTold, begun};

use crate::voice::Voice;
use homeo_desk::{Desk, Output, Request};
use homeo_lines::{Body, Head, Message, UNLISTED, malformed};
use homeo_live::{Packet, Past};
use homeo_meaning::CallId;
use homeo_syntax::{List, Memory};
use std::alloc::Global;

const NO_CALLER: &str = "a call has the text src and the number msg_id";

const NO_NODE: &str = "a packet comes from one of the node_ids";

const UNFIT: &str = "no node of the text can have sent this";

/// Does what a message asks, and appends the lines that this gives.
pub(crate) fn serve(
    alloc: Global,
    voice: &Voice,
    desk: &mut Desk,
    head: Head,
    message: Message,
    out: &mut Vec<u8>,
) -> Result<(), Memory>
    ensures { OnOk result (IsServed voice.now desk.old (plain_message message) head.from head.number desk.new out.old.items out.new.items) }
{
    match message {
        Message::Call(call) => serve_call(alloc, voice, desk, head, call, out),
        Message::Packet(packet) => serve_packet(alloc, voice, desk, &head, packet, out),
        Message::Left(past) => serve_left(alloc, voice, desk, &head, past, out),
        Message::Tick => serve_tick(alloc, voice, desk, out),
        Message::Snapshot => serve_snapshot(alloc, voice, desk, &head, out),
        Message::Status => serve_status(alloc, voice, desk, &head, out),
        Message::Wrong(wrong) => voice.fail(alloc, &head, wrong, out),
        Message::Init(_) => voice.fail(alloc, &head, malformed("the node has begun"), out),
    }
}

fn serve_call(
    alloc: Global,
    voice: &Voice,
    desk: &mut Desk,
    head: Head,
    call: CallId,
    out: &mut Vec<u8>,
) -> Result<(), Memory>
    ensures { OnOk result (IsServed voice.now desk.old (l.Call call) head.from head.number desk.new out.old.items out.new.items) }
{
    if !desk.node().can_ask(call) {
        return voice.fail(alloc, &head, UNLISTED, out);
    }
    ask(alloc, voice, desk, head, call, out)
}

/// Asks a call of a client of the site.
fn ask(
    alloc: Global,
    voice: &Voice,
    desk: &mut Desk,
    head: Head,
    call: CallId,
    out: &mut Vec<u8>,
) -> Result<(), Memory>
    requires { IsCallAt (plain_workload desk.old.work) desk.old.node.number call }
    ensures { OnOk result (Appends (Asks (begun voice.now desk.old) desk.old call head.from head.number (begun voice.now desk.new)) out.old.items out.new.items) }
{
    let Some(number) = head.number else {
        return voice.fail(alloc, &head, malformed(NO_CALLER), out);
    };
    let Some(caller) = head.from else {
        return voice.fail(alloc, &nobody(number), malformed(NO_CALLER), out);
    };
    let mut outputs = List::new(alloc);
    let request = Request {
        caller,
        number,
        call,
    };
    desk.ask(alloc, request, &mut outputs)?;
    voice.tell_all(alloc, outputs, out)
}

/// A line of this number that doesn't say from whom it comes.
fn nobody(number: u64) -> Head
    ensures from { result.from ≡ None }
    ensures number { result.number ≡ Some number }
{
    Head {
        from: None,
        number: Some(number),
    }
}

fn serve_packet(
    alloc: Global,
    voice: &Voice,
    desk: &mut Desk,
    head: &Head,
    packet: Packet,
    out: &mut Vec<u8>,
) -> Result<(), Memory>
    ensures { OnOk result (IsServed voice.now desk.old (l.Came (plain_packet packet)) head.now.from head.now.number desk.new out.old.items out.new.items) }
{
    let Some(site) = voice.site_of(head) else {
        return voice.fail(alloc, head, malformed(NO_NODE), out);
    };
    let mut outputs = List::new(alloc);
    let fits = desk.receive(alloc, site, packet, &mut outputs)?;
    tell(alloc, voice, head, outputs, fits, out)
}

fn serve_left(
    alloc: Global,
    voice: &Voice,
    desk: &mut Desk,
    head: &Head,
    past: Past,
    out: &mut Vec<u8>,
) -> Result<(), Memory>
    ensures { OnOk result (IsServed voice.now desk.old (l.HasLeft (plain_past past)) head.now.from head.now.number desk.new out.old.items out.new.items) }
{
    if voice.site_of(head).is_none() {
        return voice.fail(alloc, head, malformed(NO_NODE), out);
    }
    let mut outputs = List::new(alloc);
    let fits = desk.receive_left(alloc, past, &mut outputs)?;
    tell(alloc, voice, head, outputs, fits, out)
}

/// Gives the lines of what came of a packet, and says so where no node can have sent it.
fn tell(
    alloc: Global,
    voice: &Voice,
    head: &Head,
    outputs: List<Output>,
    fits: bool,
    out: &mut Vec<u8>,
) -> Result<(), Memory>
    ensures { OnOk result (Appends (IsTold voice.now outputs.items head.now.from head.now.number) out.old.items out.new.items) }
{
    voice.tell_all(alloc, outputs, out)?;
    if fits {
        return Ok(());
    }
    voice.fail(alloc, head, malformed(UNFIT), out)
}

fn serve_tick(alloc: Global, voice: &Voice, desk: &Desk, out: &mut Vec<u8>) -> Result<(), Memory>
    ensures { OnOk result (IsTicked voice.now desk.now out.old.items out.new.items) }
{
    let mut outputs = List::new(alloc);
    desk.tick(alloc, &mut outputs)?;
    voice.tell_all(alloc, outputs, out)
}

fn serve_snapshot(
    alloc: Global,
    voice: &Voice,
    desk: &Desk,
    head: &Head,
    out: &mut Vec<u8>,
) -> Result<(), Memory>
    ensures { OnOk result (IsServed voice.now desk.now l.Snapshot head.now.from head.now.number desk.now out.old.items out.new.items) }
{
    let state = desk.state(alloc)?;
    voice.reply(alloc, head, &Body::SnapshotOk(head.number, &state), out)
}

fn serve_status(
    alloc: Global,
    voice: &Voice,
    desk: &Desk,
    head: &Head,
    out: &mut Vec<u8>,
) -> Result<(), Memory>
    ensures { OnOk result (IsServed voice.now desk.now l.Status head.now.from head.now.number desk.now out.old.items out.new.items) }
{
    voice.reply(alloc, head, &Body::StatusOk(head.number, desk), out)
}
