//! Requests, answers and the state of a desk, written as JSON.

ghost use Rattle.std.specs.Prelude.{◌≡◌, OnOk};
ghost use Rattle.homeo_syntax.specs.SourceView.{plain_workload};
ghost use Rattle.homeo_live.specs.LiveView.{plain_node};
ghost use Rattle.homeo_lines.specs.LineView.{plain_answer, plain_state};
ghost use Rattle.homeo_lines.specs.Written.{mode_name, breach_of, path_fields, answer_fields, given_data, request_data, site_fields, closing_fields, state_data};
ghost use Rattle.homeo_lines.specs.inner.Sends.{SendsFields};

use crate::catalogue::Catalogue;
use crate::packets_writing::write_named_call;
use crate::written::{Written, write_member};
use crate::wrong::FORMAT;
use homeo_desk::{Answer, DeskState, Path, Request};
use homeo_live::NodeState;
use homeo_nodes::{Breach, Mode};
use serde::Serializer;

/// Writes the members that say where an answer's call stands.
fn write_path<S: Serializer>(catalogue: &Catalogue, path: Path, out: &mut S) -> Result<(), S::Error>
    ensures { OnOk result (SendsFields (path_fields path) (S.written out.old) (S.written out.new)) }
{
    match path {
        Path::Local { place } => {
            write_member(catalogue, "path", &"local", out)?;
            write_member(catalogue, "place", &place, out)
        }
        Path::Closing(broken) => {
            write_member(catalogue, "path", &"closing", out)?;
            write_member(catalogue, "finding", &broken, out)
        }
    }
}

/// Writes the members of an answer that say what the call printed and where it stands.
pub(crate) fn write_answer<S: Serializer>(
    catalogue: &Catalogue,
    answer: &Answer,
    out: &mut S,
) -> Result<(), S::Error>
    ensures { OnOk result (SendsFields (answer_fields (plain_answer answer.now)) (S.written out.old) (S.written out.new)) }
{
    write_member(catalogue, "prints", &answer.prints, out)?;
    write_member(catalogue, "round", &answer.round, out)?;
    write_path(catalogue, answer.path, out)
}

/// The number of its request, its call, and what is said of that.
impl Written for Answer {
    ghost json = { λ w a. given_data w (plain_answer a) };

    fn write<S: Serializer>(&self, catalogue: &Catalogue, out: &mut S) -> Result<(), S::Error> {
        out.begin_map(Some(7))?;
        write_member(catalogue, "msg_id", &self.number, out)?;
        write_named_call(catalogue, self.call, out)?;
        write_answer(catalogue, self, out)?;
        out.end_map()
    }
}

impl Written for Request {
    ghost json = { request_data };

    fn write<S: Serializer>(&self, catalogue: &Catalogue, out: &mut S) -> Result<(), S::Error> {
        out.begin_map(Some(4))?;
        write_member(catalogue, "src", &self.caller, out)?;
        write_member(catalogue, "msg_id", &self.number, out)?;
        write_named_call(catalogue, self.call, out)?;
        out.end_map()
    }
}

/// The name of a mode.
pub(crate) fn mode_name(mode: Mode) -> &'static str
    ensures { result.now ≡ mode_name mode }
{
    match mode {
        Mode::Running => "running",
        Mode::Waiting(_) => "waiting",
        Mode::Stopped(_) => "stopped",
    }
}

/// The call by which a node doesn't run.
fn breach_of(mode: Mode) -> Option<Breach>
    ensures { result ≡ breach_of mode }
{
    match mode {
        Mode::Running => None,
        Mode::Waiting(b) | Mode::Stopped(b) => Some(b),
    }
}

/// The state of a desk.
impl Written for DeskState {
    ghost json = { λ w s. state_data w (plain_state s) };

    fn write<S: Serializer>(&self, catalogue: &Catalogue, out: &mut S) -> Result<(), S::Error> {
        out.begin_map(Some(13))?;
        write_member(catalogue, "format", &FORMAT, out)?;
        write_site(catalogue, &self.node, out)?;
        write_member(catalogue, "made", &self.made, out)?;
        write_closing(catalogue, &self.node, out)?;
        write_member(catalogue, "queue", &self.queue, out)?;
        write_member(catalogue, "answered", &self.answered, out)?;
        out.end_map()
    }
}

/// Writes the members of a node's site.
fn write_site<S: Serializer>(
    catalogue: &Catalogue,
    node: &NodeState,
    out: &mut S,
) -> Result<(), S::Error>
    ensures { OnOk result (SendsFields (site_fields (plain_node node.now)) (S.written out.old) (S.written out.new)) }
{
    write_member(catalogue, "site", &node.site, out)?;
    write_member(catalogue, "round", &node.round, out)?;
    write_member(catalogue, "base", &node.base, out)?;
    write_member(catalogue, "deltas", &node.deltas, out)
}

/// Writes the members by which a node closes its round, and has closed one.
fn write_closing<S: Serializer>(
    catalogue: &Catalogue,
    node: &NodeState,
    out: &mut S,
) -> Result<(), S::Error>
    ensures { OnOk result (SendsFields (closing_fields (plain_workload catalogue.now) (plain_node node.now)) (S.written out.old) (S.written out.new)) }
{
    write_member(catalogue, "mode", &mode_name(node.mode), out)?;
    write_member(catalogue, "breach", &breach_of(node.mode), out)?;
    write_member(catalogue, "decided", &node.decided, out)?;
    write_member(catalogue, "states", &node.states, out)?;
    write_member(catalogue, "left", &node.past, out)
}
