//! The symbolic tables of a workload's ground calls, and their joint table, as a text.

ghost use Rattle.std.specs.Prelude.{◌≡◌, ◌<◌, ◌≤◌, ◌^◌, ◌++◌, [], All, map, length, IfOk, OnOk};
ghost use Rattle.homeo_syntax.specs.LowView.{plain_lcommand};
ghost use Rattle.homeo_syntax.specs.SourceView.{plain_workload};
ghost use Rattle.homeo_meaning.specs.declared.call.Purpose.TheVariants as purpose;
ghost use Rattle.homeo_meaning.specs.Faults.{faults};
ghost use Rattle.homeo_meaning.specs.Ground.{grounds};
ghost use Rattle.homeo_meaning.specs.LowSizes.{rows};
ghost use Rattle.homeo_plan.specs.Table.{table};
ghost use Rattle.homeo_print.specs.Names.{object_names};
ghost use Rattle.homeo_print.specs.Tables.{call_table, rows_text, tables_text};
ghost use Rattle.homeo_commands.specs.inner.Tabulated.{HasFewRows, AddsJoint, calls_text};

use homeo_build::Compiled;
use homeo_build::compile::compile;
use homeo_joint::{JointError, joint_of_counts};
use homeo_meaning::Accepted;
use homeo_print::{
    ObjectNames, print_joint, print_row, print_table_heading, print_too_many_choices,
};
use homeo_syntax::{LCommand, Memory, Workload};
use homeo_table::{Rows, row_count};
use std::alloc::Global;

/// The tables of a workload's ground calls, one after another, and their joint table behind them.
pub fn tables(alloc: Global, w: Accepted) -> Result<Vec<u8>, Memory>
    requires { faults purpose.Tables (plain_workload w) ≡ [] }
    ensures { IfOk result (λ bytes. bytes.items ≡ tables_text (plain_workload w)) }
{
    let compiled = compile(alloc, w)?;
    compiled_tables(alloc, &compiled)
}

/// The same of a compiled workload.
fn compiled_tables(alloc: Global, c: &Compiled) -> Result<Vec<u8>, Memory>
    requires { faults purpose.Tables (plain_workload c.now) ≡ [] }
    ensures { IfOk result (λ bytes. bytes.items ≡ tables_text (plain_workload c.now)) }
{
    let mut out = Vec::new(alloc);
    let counts = push_calls(alloc, &mut out, c)?;
    push_joint(alloc, &mut out, counts.as_slice())?;
    Ok(out)
}

// Appends the table of each ground call, and gives how many rows each has.
fn push_calls(alloc: Global, out: &mut Vec<u8>, c: &Compiled) -> Result<Vec<u64>, Memory>
    requires few { All (HasFewRows (plain_workload c.now)) (grounds (plain_workload c.now)) }
    ensures text { OnOk result (out.new.items ≡ out.old.items ++ calls_text (plain_workload c.now) (grounds (plain_workload c.now))) }
    ensures counts { IfOk result (λ ns. map length (map (call_table (plain_workload c.now)) (grounds (plain_workload c.now))) ≡ ns.items) }
    ensures some { IfOk result (λ ns. All (λ n. 1 ≤ n) ns.items) }
    ensures counted { IfOk result (λ ns. All (λ n. n < 2 ^ 32) ns.items) }
{
    let w = c.workload().workload();
    let objects = ObjectNames::of(alloc, w)?;
    let calls = c.calls();
    let mut counts = Vec::new(alloc);
    for (number, call) in calls.iter().enumerate() {
        let command = c.command(alloc, number)?;
        let rows = row_count(&command);
        print_table_heading(out, w, number as u64, call, rows)?;
        push_rows(alloc, out, w, &objects, &command)?;
        counts.push(rows)?;
    }
    Ok(counts)
}

// Appends the rows of a command's table, each as it is reached.
fn push_rows(
    alloc: Global,
    out: &mut Vec<u8>,
    w: &Workload,
    objects: &ObjectNames,
    c: &LCommand,
) -> Result<(), Memory>
    requires named { objects.now ≡ object_names (plain_workload w.now) }
    requires few { rows (plain_lcommand c.now) < 2 ^ 32 }
    ensures { OnOk result (out.new.items ≡ out.old.items ++ rows_text (plain_workload w.now) (table (plain_lcommand c.now))) }
{
    let mut rows = Rows::of(alloc, c)?;
    let mut number = 0;
    while rows.next(alloc)? {
        print_row(out, w, objects, number, rows.formula(), rows.residual())?;
        number += 1;
    }
    Ok(())
}

// Appends the joint table of tables of so many rows, or that it has too many rows.
fn push_joint(alloc: Global, out: &mut Vec<u8>, counts: &[u64]) -> Result<(), Memory>
    requires few { length counts.now < 2 ^ 32 }
    requires some { All (λ n. 1 ≤ n) counts.now }
    requires counted { All (λ n. n < 2 ^ 32) counts.now }
    ensures { OnOk result (AddsJoint counts.now out.old.items out.new.items) }
{
    match joint_of_counts(alloc, counts) {
        Ok(rows) => print_joint(out, rows.as_slice()),
        Err(JointError::TooMany { .. }) => print_too_many_choices(out),
        Err(JointError::Memory) => Err(Memory),
    }
}
