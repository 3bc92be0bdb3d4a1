//! The texts of names and calls.
#![tactic(auto, using(homeo_syntax::proofs::SourceViews::workload_views), unfolding(crate::specs::Key::definitions, homeo_meaning::specs::Key::definitions))]

ghost use Rattle.std.specs.Prelude.{◌≡◌, ◌++◌, OnOk, slice_get};
ghost use Rattle.std.specs.Option.{option_copied};
ghost use Rattle.homeo_syntax.specs.SourceView.{plain_workload};
ghost use Rattle.homeo_meaning.specs.Ground.{plain_ground};
ghost use Rattle.homeo_print.specs.Names.{name_text};
ghost use Rattle.homeo_print.specs.Calls.{more_arguments_text, arguments_text, call_text, ground_text};

use crate::append::{push_byte, push_bytes, push_signed};
use homeo_meaning::GroundCall;
use homeo_syntax::{Ident, Memory, Text, Transaction, Workload};

fn text_of(w: &Workload, name: Ident) -> Option<&Text>
    ensures { option_copied result ≡ slice_get w.now.names.items name.name }
{
    w.names.as_slice().get(name.name as usize)
}

/// The text of a name, which is empty where the workload has no such name.
pub fn name_of(w: &Workload, name: Ident) -> &[u8]
    ensures { result.now ≡ name_text (plain_workload w.now) name }
{
    match text_of(w, name) {
        Some(text) => text.as_str().as_bytes(),
        None => b"",
    }
}

/// Appends arguments, each behind a comma and a space.
fn push_more_arguments(out: &mut Vec<u8>, args: &[i64]) -> Result<(), Memory>
    ensures { OnOk result (out.new.items ≡ out.old.items ++ more_arguments_text args.now) }
{
    for argument in args {
        push_bytes(out, b", ")?;
        push_signed(out, *argument)?;
    }
    Ok(())
}

/// Appends arguments, with a comma and a space between each two.
fn push_arguments(out: &mut Vec<u8>, args: &[i64]) -> Result<(), Memory>
    ensures { OnOk result (out.new.items ≡ out.old.items ++ arguments_text args.now) }
{
    match args {
        [] => Ok(()),
        [first, more @ ..] => {
            push_signed(out, *first)?;
            push_more_arguments(out, more)
        }
    }
}

/// Appends a call: its name, which has no bytes where the workload has no such name, and its arguments in parentheses.
///
/// # Errors
///
/// `Memory` when out of memory, and then some of the bytes may be appended.
pub fn push_call(out: &mut Vec<u8>, w: &Workload, name: Ident, args: &[i64]) -> Result<(), Memory>
    ensures { OnOk result (out.new.items
        ≡ out.old.items ++ call_text (plain_workload w.now) name args.now) }
{
    push_bytes(out, name_of(w, name))?;
    push_byte(out, b'(')?;
    push_arguments(out, args)?;
    push_byte(out, b')')
}

fn transaction_at(w: &Workload, number: u32) -> Option<&Transaction>
    ensures { option_copied result ≡ slice_get w.now.transactions.items number }
{
    w.transactions.as_slice().get(number as usize)
}

/// Appends a ground call by the name of its transaction, and nothing where the workload has no such transaction. Its site
/// isn't told.
///
/// # Errors
///
/// `Memory` when out of memory, and then some of the bytes may be appended.
pub fn print_call(out: &mut Vec<u8>, w: &Workload, call: &GroundCall) -> Result<(), Memory>
    ensures text { OnOk result (out.new.items
        ≡ out.old.items ++ ground_text (plain_workload w.now) (plain_ground call.now)) }
{
    match transaction_at(w, call.transaction) {
        Some(transaction) => {
            push_call(out, w, transaction.name, call.args.as_slice())?;
            Ok(())
        }
        None => Ok(()),
    }
}
