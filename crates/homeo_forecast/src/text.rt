//! The text of a forecast.
#![tactic(auto, using(homeo_syntax::proofs::SourceViews::workload_views, crate::proofs::TextSteps::text_steps), unfolding(crate::specs::Key::definitions, homeo_print::specs::Key::definitions))]

ghost use Rattle.std.specs.Prelude.{◌≡◌, ◌++◌, [], slice_get, option_map, IfOk, OnOk};
ghost use Rattle.std.specs.Option.{option_copied, option_map_or};
ghost use Rattle.homeo_syntax.specs.SourceView.{plain_workload};
ghost use Rattle.homeo_meaning.specs.Bounds.{IsWithin};
ghost use Rattle.homeo_meaning.specs.Calls.{CallExists};
ghost use Rattle.homeo_meaning.specs.Schema.{schema_of};
ghost use Rattle.homeo_plan.specs.Each.{Each};
ghost use Rattle.homeo_plan.specs.PlanView.{plain_config};
ghost use Rattle.homeo_print.specs.Names.{numbers_text, object_names, name_text};
ghost use Rattle.homeo_print.specs.Treaties.{delta_text};
ghost use Rattle.homeo_forecast.specs.Text.{kept_line, bounds_line, bounds_lines, caller_text, cause_text, stop_line, forecast_text, IsForecastText};
ghost use Rattle.homeo_forecast.specs.View.{plain_stop};

use crate::forecasting::forecast;
use crate::outlook::{Outlook, Stop};
use homeo_build::Compiled;
use homeo_meaning::{CallId, Database};
use homeo_plan::{Config, Delta};
use homeo_print::{ObjectNames, name_of, push_bytes, push_integer, push_number, push_signed};
use homeo_syntax::{Client, Memory, Workload};
use std::alloc::Global;

fn push_numbers(out: &mut Vec<u8>, numbers: &[i128]) -> Result<(), Memory>
    ensures { OnOk result (out.new.items ≡ out.old.items ++ numbers_text numbers.now) }
{
    for number in numbers {
        push_bytes(out, b" ")?;
        push_integer(out, *number)?;
    }
    Ok(())
}

fn push_kept(out: &mut Vec<u8>, kept: u64, count: u64) -> Result<(), Memory>
    ensures { OnOk result (out.new.items ≡ out.old.items ++ kept_line kept count) }
{
    push_bytes(out, b"kept ")?;
    push_number(out, kept)?;
    push_bytes(out, b" of ")?;
    push_number(out, count)?;
    push_bytes(out, b"\n")
}

fn push_clause(out: &mut Vec<u8>, clause: u64, bounds: &[i128]) -> Result<(), Memory>
    ensures { OnOk result (out.new.items ≡ out.old.items ++ bounds_line clause bounds.now) }
{
    push_number(out, clause)?;
    push_bytes(out, b" bounds")?;
    push_numbers(out, bounds)?;
    push_bytes(out, b"\n")
}

fn push_config(out: &mut Vec<u8>, config: &Config) -> Result<(), Memory>
    ensures { OnOk result (out.new.items ≡ out.old.items ++ bounds_lines (plain_config config.now)) }
{
    for (clause, bounds) in config.bounds.as_slice().iter().enumerate() {
        push_clause(out, clause as u64, bounds.as_slice())?;
    }
    Ok(())
}

fn client_of(w: &Workload, call: CallId) -> Option<&Client>
    ensures { option_copied result ≡ slice_get w.now.clients.items call.client }
{
    w.clients.as_slice().get(call.client as usize)
}

/// The name of a call's client, which is empty where there is no such client.
fn caller_of(w: &Workload, call: CallId) -> &[u8]
    ensures { result.now ≡ option_map_or (λ client. name_text (plain_workload w.now) client.name) (slice_get (plain_workload w.now).clients call.client) [] }
{
    match client_of(w, call) {
        Some(client) => name_of(w, client.name),
        None => b"",
    }
}

fn push_caller(out: &mut Vec<u8>, w: &Workload, call: CallId) -> Result<(), Memory>
    ensures { OnOk result (out.new.items ≡ out.old.items ++ caller_text (plain_workload w.now) call) }
{
    push_bytes(out, caller_of(w, call))?;
    push_bytes(out, b" ")?;
    push_number(out, call.seq)
}

fn push_delta(
    out: &mut Vec<u8>,
    w: &Workload,
    objects: &ObjectNames,
    delta: Delta,
) -> Result<(), Memory>
    requires { objects.now ≡ object_names (plain_workload w.now) }
    ensures { OnOk result (out.new.items ≡ out.old.items ++ delta_text (plain_workload w.now) delta) }
{
    push_bytes(out, objects.get(delta.object as usize))?;
    push_bytes(out, b"@")?;
    push_number(out, u64::from(delta.site))
}

fn push_cause(
    out: &mut Vec<u8>,
    w: &Workload,
    objects: &ObjectNames,
    stop: &Stop,
) -> Result<(), Memory>
    requires { objects.now ≡ object_names (plain_workload w.now) }
    ensures { OnOk result (out.new.items ≡ out.old.items ++ cause_text (plain_workload w.now) (plain_stop stop.now)) }
{
    match stop {
        Stop::Spent {
            clause,
            peaks,
            slack,
        } => {
            push_bytes(out, b"clause ")?;
            push_integer(out, *clause)?;
            push_bytes(out, b" peaks")?;
            push_numbers(out, peaks.as_slice())?;
            push_bytes(out, b" slack ")?;
            push_integer(out, *slack)
        }
        Stop::Frozen {
            freeze,
            delta,
            value,
        } => {
            push_bytes(out, b"freeze ")?;
            push_integer(out, *freeze)?;
            push_bytes(out, b" ")?;
            push_delta(out, w, objects, *delta)?;
            push_bytes(out, b" value ")?;
            push_signed(out, *value)
        }
    }
}

/// Appends a call, where there is one.
fn push_next(out: &mut Vec<u8>, w: &Workload, next: Option<CallId>) -> Result<(), Memory>
    ensures { OnOk result (out.new.items ≡ out.old.items ++ option_map_or (caller_text (plain_workload w.now)) next []) }
{
    match next {
        Some(call) => push_caller(out, w, call),
        None => Ok(()),
    }
}

/// Appends what stops the next call.
fn push_stop(
    out: &mut Vec<u8>,
    w: &Workload,
    objects: &ObjectNames,
    next: Option<CallId>,
    stop: &Option<Stop>,
) -> Result<(), Memory>
    requires { objects.now ≡ object_names (plain_workload w.now) }
    ensures { OnOk result (out.new.items ≡ out.old.items ++ stop_line (plain_workload w.now) next (option_map plain_stop stop.now)) }
{
    match stop {
        Some(stop) => {
            push_bytes(out, b"stop ")?;
            push_next(out, w, next)?;
            push_bytes(out, b" ")?;
            push_cause(out, w, objects, stop)?;
            push_bytes(out, b"\n")
        }
        None => push_bytes(out, b"stop none\n"),
    }
}

/// Appends a forecast of calls: how many of them are kept, a line with the bounds of each clause, and what stops the next call,
/// by the names of the workload's clients and objects.
///
/// # Errors
///
/// `Memory` when out of memory, and then some of the bytes may be appended.
pub fn print_forecast(
    out: &mut Vec<u8>,
    w: &Workload,
    objects: &ObjectNames,
    calls: &[CallId],
    outlook: &Outlook,
) -> Result<(), Memory>
    requires named { objects.now ≡ object_names (plain_workload w.now) }
    ensures text { OnOk result (out.new.items ≡ out.old.items ++ forecast_text (plain_workload w.now) calls.now outlook.now.kept
        (plain_config outlook.now.config) (option_map plain_stop outlook.now.stop)) }
{
    push_kept(out, outlook.kept, calls.len() as u64)?;
    push_config(out, &outlook.config)?;
    push_stop(out, w, objects, call_at(calls, outlook.kept), &outlook.stop)
}

fn call_at(calls: &[CallId], place: u64) -> Option<CallId>
    ensures { result ≡ slice_get calls.now place }
{
    calls.get(place as usize).copied()
}

/// The text of the forecast of calls from a base.
///
/// Each call must be one of the workload, and the base must be within its bounds.
///
/// # Errors
///
/// `Memory` when out of memory.
pub fn forecast_text(
    alloc: Global,
    c: &Compiled,
    base: &Database,
    calls: &[CallId],
) -> Result<Vec<u8>, Memory>
    requires exist { Each (λ call. CallExists (plain_workload c.now) call) calls.now }
    requires within { IsWithin (schema_of (plain_workload c.now)) base.now.items }
    ensures { IfOk result (λ out. IsForecastText (plain_workload c.now) base.now.items calls.now out.items) }
{
    let outlook = forecast(alloc, c, base, calls)?;
    let w = c.workload().workload();
    let objects = ObjectNames::of(alloc, w)?;
    let mut out = Vec::new(alloc);
    print_forecast(&mut out, w, &objects, calls, &outlook)?;
    Ok(out)
}
