//! The texts of rows, and of the lines in front of tables.
#![tactic(auto, using(homeo_syntax::proofs::LowViews::low_command_views, crate::proofs::TableSteps::table_steps))]

ghost use Rattle.std.specs.Prelude.{◌≡◌, ◌++◌, map, OnOk};
ghost use Rattle.homeo_syntax.specs.SourceView.{plain_workload};
ghost use Rattle.homeo_syntax.specs.LowView.{low_tests, low_commands, plain_ltest, plain_lcommand};
ghost use Rattle.homeo_meaning.specs.Ground.{plain_ground};
ghost use Rattle.homeo_print.specs.Names.{object_names};
ghost use Rattle.homeo_print.specs.Tables.{command_text, commands_text, residual_text, row_text, table_heading};

use crate::append::{push_bytes, push_heading, push_number};
use crate::calls::print_call;
use crate::formulas::{push_expr, push_split_name, push_temp, push_tests};
use crate::objects::ObjectNames;
use crate::position::Position;
use homeo_meaning::GroundCall;
use homeo_syntax::{LCommand, LTest, Memory, Workload};

/// Appends a command of a residual, and nothing for a command that no residual has.
fn push_command(
    out: &mut Vec<u8>,
    w: &Workload,
    objects: &ObjectNames,
    c: &LCommand,
) -> Result<(), Memory>
    requires named { objects.now ≡ object_names (plain_workload w.now) }
    ensures { OnOk result (out.new.items
        ≡ out.old.items ++ command_text (plain_workload w.now) (plain_lcommand c.now)) }
{
    match c {
        LCommand::Assign { target, value } => {
            push_temp(out, w, *target)?;
            push_bytes(out, b" := ")?;
            push_expr(out, w, objects, value, Position::Alone)
        }
        LCommand::Write { target, value } => {
            push_bytes(out, b"write(")?;
            push_split_name(out, w, objects, *target)?;
            push_bytes(out, b" = ")?;
            push_expr(out, w, objects, value, Position::Alone)?;
            push_bytes(out, b")")
        }
        LCommand::Print { value } => {
            push_bytes(out, b"print(")?;
            push_expr(out, w, objects, value, Position::Alone)?;
            push_bytes(out, b")")
        }
        LCommand::Skip | LCommand::Seq { .. } | LCommand::If { .. } => Ok(()),
    }
}

/// Appends commands, with a semicolon and a space between each two.
fn push_commands(
    out: &mut Vec<u8>,
    w: &Workload,
    objects: &ObjectNames,
    commands: &[&LCommand],
) -> Result<(), Memory>
    requires named { objects.now ≡ object_names (plain_workload w.now) }
    ensures { OnOk result (out.new.items
        ≡ out.old.items ++ commands_text (plain_workload w.now) (low_commands (map (λ c. plain_lcommand c.now) commands.now))) }
{
    match commands {
        [] => Ok(()),
        [first, more @ ..] => {
            push_command(out, w, objects, first)?;
            for c in more {
                push_bytes(out, b"; ")?;
                push_command(out, w, objects, c)?;
            }
            Ok(())
        }
    }
}

fn push_residual(
    out: &mut Vec<u8>,
    w: &Workload,
    objects: &ObjectNames,
    commands: &[&LCommand],
) -> Result<(), Memory>
    requires named { objects.now ≡ object_names (plain_workload w.now) }
    ensures { OnOk result (out.new.items
        ≡ out.old.items ++ residual_text (plain_workload w.now) (low_commands (map (λ c. plain_lcommand c.now) commands.now))) }
{
    if commands.is_empty() {
        push_bytes(out, b"{}")
    } else {
        push_bytes(out, b"{ ")?;
        push_commands(out, w, objects, commands)?;
        push_bytes(out, b" }")
    }
}

/// Appends a row of a symbolic table, in three lines: its number, its formula, which has these tests, its residual. The names
/// are those of the workload's objects.
///
/// # Errors
///
/// `Memory` when out of memory, and then some of the bytes may be appended.
pub fn print_row(
    out: &mut Vec<u8>,
    w: &Workload,
    objects: &ObjectNames,
    number: u64,
    formula: &[LTest],
    residual: &[&LCommand],
) -> Result<(), Memory>
    requires named { objects.now ≡ object_names (plain_workload w.now) }
    ensures text { OnOk result (out.new.items ≡ out.old.items ++ row_text (plain_workload w.now) number record {
      formula = low_tests (map plain_ltest formula.now);
      residual = low_commands (map (λ c. plain_lcommand c.now) residual.now);
    }) }
{
    push_heading(out, b"row ", number)?;
    push_bytes(out, b"when ")?;
    push_tests(out, w, objects, formula)?;
    push_bytes(out, b"\ndo ")?;
    push_residual(out, w, objects, residual)?;
    push_bytes(out, b"\n")
}

/// Appends the line in front of a symbolic table: the ground call's number, the call, its site and how many rows there are.
///
/// # Errors
///
/// `Memory` when out of memory, and then some of the bytes may be appended.
pub fn print_table_heading(
    out: &mut Vec<u8>,
    w: &Workload,
    number: u64,
    call: &GroundCall,
    rows: u64,
) -> Result<(), Memory>
    ensures text { OnOk result (out.new.items ≡ out.old.items
        ++ table_heading (plain_workload w.now) number (plain_ground call.now) rows) }
{
    push_bytes(out, b"call ")?;
    push_number(out, number)?;
    push_bytes(out, b" ")?;
    print_call(out, w, call)?;
    push_bytes(out, b" at ")?;
    push_number(out, call.site as u64)?;
    push_heading(out, b" rows ", rows)
}
