//! Which objects the ground calls can write at each site.

ghost use Rattle.std.specs.Prelude.{◌≡◌, ◌||◌, ℕ, [], false, replicate, map, slice_index_or, IfOk, OnOk};
ghost use Rattle.homeo_syntax.specs.LowView.{low_commands, plain_lcommand};
ghost use Rattle.homeo_syntax.specs.SourceView.{plain_workload};
ghost use Rattle.homeo_meaning.specs.Ground.{plain_ground, grounds};
ghost use Rattle.homeo_meaning.specs.Forms.{AreForms};
ghost use Rattle.homeo_build.specs.Written.{AreWritten};
ghost use Rattle.homeo_build.specs.inner.WrittenObjects.{names_whole, writes_object, any_writes_object};

use crate::forms::Forms;
use crate::sites::site_count;
use homeo_meaning::padded::put;
use homeo_meaning::{Accepted, GroundCall};
use homeo_syntax::{LCommand, Memory, SplitName};
use std::alloc::Global;

/// For each site a row with an entry for each object, by its number: whether the L form of a ground call of the site can write
/// the object, in any of its branches, as its delta transform then writes the object's delta there. A row may end before the last
/// object; past its end nothing is written.
pub(crate) fn written_objects(
    alloc: Global,
    w: &Accepted,
    calls: &[GroundCall],
    forms: &Forms,
) -> Result<Vec<Vec<bool>>, Memory>
    requires calls { map plain_ground calls.now ≡ grounds (plain_workload w.now) }
    requires forms { AreForms (plain_workload w.now) (map plain_lcommand forms.now.forms.items) forms.now.places.items }
    ensures { IfOk result (λ v. AreWritten (plain_workload w.now) (map (λ row. row.items) v.items)) }
{
    let sites = site_count(w);
    let mut rows = empty_rows(alloc, sites)?;
    for (i, call) in calls.iter().enumerate() {
        let form = forms.form(i);
        mark(form, &mut rows[call.site as usize])?;
    }
    Ok(rows)
}

/// So many rows without an entry.
fn empty_rows(alloc: Global, count: u32) -> Result<Vec<Vec<bool>>, Memory>
    ensures { IfOk result (λ v. map (λ row. row.items) v.items ≡ replicate count []) }
{
    let mut rows = Vec::new(alloc);
    for _ in 0..count {
        rows.push(Vec::new(alloc))?;
    }
    Ok(rows)
}

/// Marks the objects that a command can write.
#[cycle(marks)]
fn mark(command: &LCommand, row: &mut Vec<bool>) -> Result<(), Memory>
    ensures { OnOk result ((x : ℕ) → slice_index_or row.new.items x false ≡
        (slice_index_or row.old.items x false || writes_object x (plain_lcommand command.now))) }
{
    match command {
        LCommand::Skip => Ok(()),
        LCommand::Assign { .. } => Ok(()),
        LCommand::Print { .. } => Ok(()),
        LCommand::Write { target, .. } => mark_name(*target, row),
        LCommand::Seq { commands } => mark_all(commands.as_slice(), row),
        LCommand::If { yes, no, .. } => {
            mark(yes, row)?;
            mark(no, row)
        }
    }
}

#[cycle(marks)]
fn mark_all(commands: &[LCommand], row: &mut Vec<bool>) -> Result<(), Memory>
    ensures { OnOk result ((x : ℕ) → slice_index_or row.new.items x false ≡
        (slice_index_or row.old.items x false || any_writes_object x (low_commands (map plain_lcommand commands.now)))) }
{
    for command in commands {
        mark(command, row)?;
    }
    Ok(())
}

/// Marks a whole object. The names of L forms are all whole.
fn mark_name(name: SplitName, row: &mut Vec<bool>) -> Result<(), Memory>
    ensures { OnOk result ((x : ℕ) → slice_index_or row.new.items x false ≡
        (slice_index_or row.old.items x false || names_whole x name)) }
{
    match name {
        SplitName::Whole(object) => put(row, object as usize, true, false),
        SplitName::Base(_) | SplitName::Delta { .. } => Ok(()),
    }
}
