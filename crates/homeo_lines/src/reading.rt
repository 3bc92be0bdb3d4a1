//! Lines, read.

ghost use Rattle.std.specs.Prelude.{◌≡◌, option_map, codes, IfOk};
ghost use Rattle.std.specs.Option.{option_and_then};
ghost use Rattle.serde_json.specs.Find.{get};
ghost use Rattle.serde_json.specs.View.{view};
ghost use Rattle.homeo_syntax.specs.SourceView.{plain_workload};
ghost use Rattle.homeo_nodes.specs.Nodes.{Want, Stop};
ghost use Rattle.homeo_lines.specs.Lines as l;
ghost use Rattle.homeo_lines.specs.LineView.{plain_message, plain_line, plain_state};
ghost use Rattle.homeo_lines.specs.Members.{text_at};
ghost use Rattle.homeo_lines.specs.Read.{or_malformed, asked_of, breach_of, stopped_of, past_of, init_of, maybe_state, message_of, line_of, no_line, IsReadAs, IsNoJson};

use crate::catalogue::Catalogue;
use crate::line::{Head, Init, Line, Message};
use crate::members::{list, number, text, texts, values_at};
use crate::packets::{read_breach, read_past, read_stopped};
use crate::state_reading::{read_desk, read_format};
use crate::wrong::{UNLISTED, malformed};
use homeo_desk::DeskState;
use homeo_live::Packet;
use homeo_syntax::{Memory, Text};
use serde_json::Value;
use std::alloc::Global;

/// What a line says. Bytes that are no line of the format say that something is wrong.
///
/// # Errors
///
/// `Memory` when out of memory.
pub fn read(alloc: Global, catalogue: &Catalogue, bytes: &[u8]) -> Result<Line, Memory>
    ensures json { (x : l.Line) → IsReadAs (plain_workload catalogue.now) bytes.now x → IfOk result (λ line. plain_line line ≡ x) }
    ensures no_json { IsNoJson bytes.now → IfOk result (λ line. plain_line line ≡ no_line) }
{
    match Value::from_slice(alloc, bytes) {
        Ok(value) => read_line(alloc, catalogue, &value),
        Err(error) => {
            if error.is_memory() {
                return Err(Memory);
            }
            let head = Head {
                from: None,
                number: None,
            };
            Ok(Line {
                head,
                message: wrong("the line is no JSON"),
            })
        }
    }
}

/// Nothing that can be done, since the line isn't of the format.
fn wrong(text: &'static str) -> Message
    ensures { plain_message result ≡ l.Wrong 12 }
{
    Message::Wrong(malformed(text))
}

fn read_line(alloc: Global, catalogue: &Catalogue, value: &Value) -> Result<Line, Memory>
    ensures { IfOk result (λ x. plain_line x ≡ line_of (plain_workload catalogue.now) (view value.now)) }
{
    let from = read_from(alloc, value)?;
    match value.get("body") {
        Some(body) => Ok(Line {
            head: Head {
                from,
                number: number(body, "msg_id"),
            },
            message: read_message(alloc, catalogue, body)?,
        }),
        None => Ok(Line {
            head: Head { from, number: None },
            message: wrong("the line has no body"),
        }),
    }
}

/// From whom a line comes, where it says so.
fn read_from(alloc: Global, value: &Value) -> Result<Option<Text>, Memory>
    ensures { IfOk result (λ from. from ≡ text_at (codes "src") (view value.now)) }
{
    match text(value, "src") {
        Some(from) => Ok(Some(Text::of(alloc, from)?)),
        None => Ok(None),
    }
}

fn read_message(alloc: Global, catalogue: &Catalogue, body: &Value) -> Result<Message, Memory>
    ensures { IfOk result (λ m. plain_message m ≡ message_of (plain_workload catalogue.now) (view body.now)) }
{
    match text(body, "type") {
        Some("call") => read_call(alloc, catalogue, body),
        Some("want") => Ok(read_want(catalogue, body)),
        Some("stop") => Ok(read_stop(catalogue, body)),
        Some("state") => read_state(alloc, catalogue, body),
        Some("left") => read_left(alloc, catalogue, body),
        Some("tick") => Ok(Message::Tick),
        Some("snapshot") => Ok(Message::Snapshot),
        Some("status") => Ok(Message::Status),
        Some("init") => read_init(alloc, catalogue, body),
        Some(_) => Ok(wrong("there is no such type")),
        None => Ok(wrong("the body has no type")),
    }
}

#[tactic(auto, unfolding(homeo_live::specs::Key::definitions))]
fn read_want(catalogue: &Catalogue, body: &Value) -> Message
    ensures { plain_message result ≡ or_malformed (λ b. l.Came (Want b)) (breach_of (plain_workload catalogue.now) (view body.now)) }
{
    match read_breach(catalogue, body) {
        Some(breach) => Message::Packet(Packet::Want(breach)),
        None => wrong("the want is of no call of the text"),
    }
}

#[tactic(auto, unfolding(homeo_live::specs::Key::definitions))]
fn read_stop(catalogue: &Catalogue, body: &Value) -> Message
    ensures { plain_message result ≡ or_malformed (λ b. l.Came (Stop b)) (breach_of (plain_workload catalogue.now) (view body.now)) }
{
    match read_breach(catalogue, body) {
        Some(breach) => Message::Packet(Packet::Stop(breach)),
        None => wrong("the stop is of no call of the text"),
    }
}

fn read_state(alloc: Global, catalogue: &Catalogue, body: &Value) -> Result<Message, Memory>
    ensures { IfOk result (λ m. plain_message m ≡ or_malformed l.Came (stopped_of (plain_workload catalogue.now) (view body.now))) }
{
    match read_stopped(alloc, catalogue, body)? {
        Some(packet) => Ok(Message::Packet(packet)),
        None => Ok(wrong("the state is none of a site of the text")),
    }
}

fn read_left(alloc: Global, catalogue: &Catalogue, body: &Value) -> Result<Message, Memory>
    ensures { IfOk result (λ m. plain_message m ≡ or_malformed l.HasLeft (past_of (plain_workload catalogue.now) (view body.now))) }
{
    match read_past(alloc, catalogue, body)? {
        Some(past) => Ok(Message::Left(past)),
        None => Ok(wrong("a round of the text isn't left so")),
    }
}

fn read_call(alloc: Global, catalogue: &Catalogue, body: &Value) -> Result<Message, Memory>
    ensures { IfOk result (λ m. plain_message m ≡ or_malformed (λ x. x) (asked_of (plain_workload catalogue.now) (view body.now))) }
{
    let Some(client) = text(body, "client") else {
        return Ok(wrong("a call has the text client"));
    };
    let Some(transaction) = text(body, "transaction") else {
        return Ok(wrong("a call has the text transaction"));
    };
    let Some(args) = values_at(alloc, body, "args")? else {
        return Ok(wrong("a call has the list args of numbers of the language"));
    };
    match catalogue.listed_of(client, transaction, args.as_slice()) {
        Some(call) => Ok(Message::Call(call)),
        None => Ok(Message::Wrong(UNLISTED)),
    }
}

fn read_init(alloc: Global, catalogue: &Catalogue, body: &Value) -> Result<Message, Memory>
    ensures { IfOk result (λ m. plain_message m ≡ or_malformed (λ x. x) (init_of (plain_workload catalogue.now) (view body.now))) }
{
    if read_format(body).is_none() {
        return Ok(wrong("an init has the format 1"));
    }
    let Some(node) = text(body, "node_id") else {
        return Ok(wrong("an init has the text node_id"));
    };
    let Some(items) = list(body, "node_ids") else {
        return Ok(wrong("an init has the list node_ids"));
    };
    let Some(nodes) = texts(alloc, items)? else {
        return Ok(wrong("the node_ids are distinct texts"));
    };
    let Some(state) = read_maybe_desk(alloc, catalogue, body)? else {
        return Ok(wrong("the state is none of a snapshot of the text"));
    };
    let node = Text::of(alloc, node)?;
    Ok(Message::Init(Init { node, nodes, state }))
}

/// The state from which a node is to begin, where one is given, or that there is none; there is no answer where it has no form.
fn read_maybe_desk(
    alloc: Global,
    catalogue: &Catalogue,
    body: &Value,
) -> Result<Option<Option<DeskState>>, Memory>
    ensures { IfOk result (λ o. option_map (option_map plain_state) o ≡ maybe_state (plain_workload catalogue.now) (get (codes "state") (view body.now))) }
{
    let Some(state) = body.get("state") else {
        return Ok(Some(None));
    };
    if state.is_null() {
        return Ok(Some(None));
    }
    match read_desk(alloc, catalogue, state)? {
        Some(state) => Ok(Some(Some(state))),
        None => Ok(None),
    }
}
