//! Appending calls and entries.
#![tactic(auto, using(homeo_syntax::proofs::SourceViews::workload_views), unfolding(crate::specs::Key::definitions, homeo_meaning::specs::Key::definitions))]

ghost use Rattle.std.specs.Prelude.{◌≡◌, ◌++◌, map, OnOk, option_map, slice_get};
ghost use Rattle.std.specs.Option.{option_copied};
ghost use Rattle.homeo_syntax.specs.SourceView.{plain_call, plain_workload};
ghost use Rattle.homeo_meaning.specs.Serial.{arguments, numbered, call_of};
ghost use Rattle.homeo_history.specs.HistoryView.{plain_entry};
ghost use Rattle.homeo_print.specs.Calls.{more_arguments_text, arguments_text, call_text};
ghost use Rattle.homeo_report.specs.Report.{client_text, made_text, entry_line};

use homeo_history::Entry;
use homeo_meaning::CallId;
use homeo_print::{name_of, push_byte, push_bytes, push_number, push_numbers, push_signed};
use homeo_syntax::{Call, Client, Memory, Number, Workload};

fn client_of(w: &Workload, id: CallId) -> Option<&Client>
    ensures { option_copied result ≡ slice_get w.now.clients.items id.client }
{
    w.clients.as_slice().get(id.client as usize)
}

/// The name of a call's client, which is empty where there is no such client.
fn caller_of(w: &Workload, id: CallId) -> &[u8]
    ensures { result.now ≡ client_text (plain_workload w.now) id }
{
    match client_of(w, id) {
        Some(client) => name_of(w, client.name),
        None => b"",
    }
}

fn at_place(calls: &[Call], place: u64) -> Option<&Call>
    ensures { option_copied result ≡ slice_get calls.now place }
{
    calls.get(place as usize)
}

/// The call of this number, counted from 1.
fn call_numbered(calls: &[Call], seq: u64) -> Option<&Call>
    ensures { option_map plain_call (option_copied result)
        ≡ numbered seq (map plain_call calls.now) }
{
    if seq == 0 {
        None
    } else {
        at_place(calls, seq - 1)
    }
}

fn call_of(w: &Workload, id: CallId) -> Option<&Call>
    ensures { option_map plain_call (option_copied result) ≡ call_of (plain_workload w.now) id }
{
    match client_of(w, id) {
        Some(client) => call_numbered(client.calls.as_slice(), id.seq),
        None => None,
    }
}

/// Appends the values of arguments, each behind a comma and a space.
#[tactic(auto, unfolding(homeo_print::specs::Key::definitions))]
fn push_more_values(out: &mut Vec<u8>, args: &[Number]) -> Result<(), Memory>
    ensures { OnOk result (out.new.items ≡ out.old.items ++ more_arguments_text (map (λ a. a.value) args.now)) }
{
    for argument in args {
        push_bytes(out, b", ")?;
        push_signed(out, argument.value)?;
    }
    Ok(())
}

/// Appends the values of arguments, with a comma and a space between each two.
#[tactic(auto, unfolding(homeo_print::specs::Key::definitions))]
fn push_values(out: &mut Vec<u8>, args: &[Number]) -> Result<(), Memory>
    ensures { OnOk result (out.new.items ≡ out.old.items ++ arguments_text (map (λ a. a.value) args.now)) }
{
    match args {
        [] => Ok(()),
        [first, more @ ..] => {
            push_signed(out, first.value)?;
            push_more_values(out, more)
        }
    }
}

/// Appends a call, with no list of its arguments' values.
#[tactic(auto, unfolding(homeo_print::specs::Key::definitions, homeo_syntax::specs::Key::definitions))]
fn push_call(out: &mut Vec<u8>, w: &Workload, call: &Call) -> Result<(), Memory>
    ensures { OnOk result (out.new.items
        ≡ out.old.items ++ call_text (plain_workload w.now) (plain_call call.now).name (arguments (plain_call call.now))) }
{
    push_bytes(out, name_of(w, call.name))?;
    push_byte(out, b'(')?;
    push_values(out, call.args.as_slice())?;
    push_byte(out, b')')
}

/// Appends a client's call, and nothing where there is no such call.
fn push_made(out: &mut Vec<u8>, w: &Workload, id: CallId) -> Result<(), Memory>
    ensures { OnOk result (out.new.items ≡ out.old.items ++ made_text (plain_workload w.now) id) }
{
    match call_of(w, id) {
        Some(call) => push_call(out, w, call),
        None => Ok(()),
    }
}

/// Appends the line of an entry.
pub(crate) fn push_entry(out: &mut Vec<u8>, w: &Workload, entry: &Entry) -> Result<(), Memory>
    ensures { OnOk result (out.new.items
        ≡ out.old.items ++ entry_line (plain_workload w.now) (plain_entry entry.now)) }
{
    push_bytes(out, caller_of(w, entry.call))?;
    push_byte(out, b' ')?;
    push_number(out, entry.call.seq)?;
    push_byte(out, b' ')?;
    push_made(out, w, entry.call)?;
    push_byte(out, b':')?;
    push_numbers(out, entry.prints.as_slice())?;
    push_byte(out, b'\n')
}
