//! Calls and what sites say, written as JSON.

ghost use Rattle.std.specs.Prelude.{◌≡◌, ◌≤◌, length, OnOk, codes};
ghost use Rattle.serde_json.specs.Data.{string};
ghost use Rattle.homeo_syntax.specs.Source.{Workload};
ghost use Rattle.homeo_syntax.specs.SourceView.{plain_workload};
ghost use Rattle.homeo_carry.specs.CarryView.{plain_said};
ghost use Rattle.homeo_live.specs.LiveView.{plain_past};
ghost use Rattle.homeo_lines.specs.Named.{client_name};
ghost use Rattle.homeo_lines.specs.Written.{finding_data, call_data, named_call_fields, breach_fields, breach_data, said_fields, said_data, calls_fields, past_fields, past_data};
ghost use Rattle.homeo_lines.specs.inner.Sends.{SendsField, SendsFields};

use crate::catalogue::Catalogue;
use crate::written::{Written, write_member};
use homeo_carry::Said;
use homeo_live::Past;
use homeo_meaning::CallId;
use homeo_nodes::Breach;
use homeo_plan::Broken;
use serde::Serializer;

impl Written for Broken {
    ghost json = { λ _. finding_data };

    fn write<S: Serializer>(&self, catalogue: &Catalogue, out: &mut S) -> Result<(), S::Error> {
        out.begin_seq(Some(3))?;
        self.clause.write(catalogue, out)?;
        self.sum.write(catalogue, out)?;
        self.bound.write(catalogue, out)?;
        out.end_seq()
    }
}

/// The name of its client, and its place in the client's list.
impl Written for CallId {
    ghost json = { call_data };

    fn write<S: Serializer>(&self, catalogue: &Catalogue, out: &mut S) -> Result<(), S::Error> {
        out.begin_seq(Some(2))?;
        out.str(catalogue.client_name(self.client))?;
        self.seq.write(catalogue, out)?;
        out.end_seq()
    }
}

/// Writes the member that names a call's client.
fn write_client<S: Serializer>(
    catalogue: &Catalogue,
    client: u32,
    out: &mut S,
) -> Result<(), S::Error>
    ensures { OnOk result (SendsField (codes "client", string (client_name (plain_workload catalogue.now) client)) (S.written out.old) (S.written out.new)) }
{
    out.key("client")?;
    out.str(catalogue.client_name(client))
}

/// Writes the members that name a call.
pub(crate) fn write_named_call<S: Serializer>(
    catalogue: &Catalogue,
    call: CallId,
    out: &mut S,
) -> Result<(), S::Error>
    ensures { OnOk result (SendsFields (named_call_fields (plain_workload catalogue.now) call) (S.written out.old) (S.written out.new)) }
{
    write_client(catalogue, call.client, out)?;
    write_member(catalogue, "call", &call.seq, out)
}

/// Writes the members of a breach.
pub(crate) fn write_breach<S: Serializer>(
    catalogue: &Catalogue,
    b: &Breach,
    out: &mut S,
) -> Result<(), S::Error>
    ensures { OnOk result (SendsFields (breach_fields (plain_workload catalogue.now) b.now) (S.written out.old) (S.written out.new)) }
{
    write_member(catalogue, "round", &b.round, out)?;
    write_member(catalogue, "site", &b.site, out)?;
    write_named_call(catalogue, b.call, out)?;
    write_member(catalogue, "finding", &b.broken, out)
}

impl Written for Breach {
    ghost json = { breach_data };

    fn write<S: Serializer>(&self, catalogue: &Catalogue, out: &mut S) -> Result<(), S::Error> {
        out.begin_map(Some(5))?;
        write_breach(catalogue, self, out)?;
        out.end_map()
    }
}

/// How many members say what a site has said, which is 1 or 2.
pub(crate) fn said_count(said: &Said) -> usize
    ensures count { (w : Workload) → result ≡ length (said_fields w (plain_said said.now)) }
    ensures few { result ≤ 2 }
{
    if said.calls.is_empty() { 1 } else { 2 }
}

/// Writes the member `calls`, which is left out where there are none.
fn write_calls<S: Serializer>(
    catalogue: &Catalogue,
    calls: &Vec<CallId>,
    out: &mut S,
) -> Result<(), S::Error>
    ensures { OnOk result (SendsFields (calls_fields (plain_workload catalogue.now) calls.now.items) (S.written out.old) (S.written out.new)) }
{
    if calls.is_empty() {
        return Ok(());
    }
    write_member(catalogue, "calls", calls, out)
}

/// Writes the members of what a site has said.
pub(crate) fn write_said<S: Serializer>(
    catalogue: &Catalogue,
    said: &Said,
    out: &mut S,
) -> Result<(), S::Error>
    ensures { OnOk result (SendsFields (said_fields (plain_workload catalogue.now) (plain_said said.now)) (S.written out.old) (S.written out.new)) }
{
    write_member(catalogue, "deltas", &said.deltas, out)?;
    write_calls(catalogue, &said.calls, out)
}

impl Written for Said {
    ghost json = { λ w s. said_data w (plain_said s) };

    fn write<S: Serializer>(&self, catalogue: &Catalogue, out: &mut S) -> Result<(), S::Error> {
        out.begin_map(Some(said_count(self)))?;
        write_said(catalogue, self, out)?;
        out.end_map()
    }
}

/// Writes the members of a past.
pub(crate) fn write_past<S: Serializer>(
    catalogue: &Catalogue,
    past: &Past,
    out: &mut S,
) -> Result<(), S::Error>
    ensures { OnOk result (SendsFields (past_fields (plain_workload catalogue.now) (plain_past past.now)) (S.written out.old) (S.written out.new)) }
{
    write_breach(catalogue, &past.breach, out)?;
    write_member(catalogue, "states", &past.states, out)
}

impl Written for Past {
    ghost json = { λ w p. past_data w (plain_past p) };

    fn write<S: Serializer>(&self, catalogue: &Catalogue, out: &mut S) -> Result<(), S::Error> {
        out.begin_map(Some(6))?;
        write_past(catalogue, self, out)?;
        out.end_map()
    }
}
