//! The row of the branch that is taken, without a table.

ghost use Rattle.std.specs.Prelude.{◌≡◌, ◌<◌, true, ◌∷◌, IfOk, OnOk};
ghost use Rattle.homeo_syntax.specs.LowView.{low_commands, plain_lcommand};
ghost use Rattle.homeo_meaning.specs.LowMeaning.{holds, exec, exec_all};
ghost use Rattle.homeo_plan.specs.PlanView.{plain_row};
ghost use Rattle.homeo_plan.specs.Table.{row_at, table, walk};
ghost use Rattle.homeo_split.specs.CanExec.{run_limit, can_exec};
ghost use Rattle.homeo_split.specs.States.{state_of};
ghost use Rattle.homeo_substitution.specs.Bindings.{bound};
ghost use Rattle.homeo_table.specs.inner.Branches.{size_all};
ghost use Rattle.homeo_table.specs.inner.Makings.{completed};
ghost use Rattle.homeo_table.specs.inner.Walks.{CanFollow, Goes, to_come};

use crate::branches::push_all;
use crate::making::Making;
use homeo_plan::Row;
use homeo_split::{Split, place_of, place_of_temp};
use homeo_syntax::{LCommand, Memory};
use std::alloc::Global;

/// The row of a command's symbolic table (Roy et al., SIGMOD 2015) that holds at a split database, where temporaries are 0. It
/// is made by following the branches that are taken there, without the table: its formula says before the command that these
/// are taken, and its residual has their assignments, writes and prints.
///
/// No number that the command meets there may be above 2 * 10^18 in size.
///
/// What is put in is shared until a test reads it, and each test of the branches is made once. So, with a look-up of a name
/// as one step, time and memory are linear in the row and the commands on its way.
///
/// # Errors
///
/// `Memory` when out of memory.
pub fn walk(alloc: Global, c: &LCommand, base: &Split) -> Result<Row, Memory>
    requires { can_exec run_limit (plain_lcommand c.now) (state_of base.now) ≡ true }
    ensures walked { IfOk result (λ r. plain_row r ≡ walk (plain_lcommand c.now) (state_of base.now)) }
    ensures row { IfOk result (λ r. plain_row r ≡ row_at (table (plain_lcommand c.now)) (state_of base.now)) }
    ensures holds { IfOk result (λ r. holds (plain_row r).formula (state_of base.now) ≡ true) }
    ensures means { IfOk result (λ r. exec_all (plain_row r).residual (state_of base.now) ≡ exec (plain_lcommand c.now) (state_of base.now)) }
{
    let mut row = Making::new(alloc);
    let mut left = Vec::new(alloc);
    left.push(c)?;
    while let Some(c) = left.pop() {
        step(alloc, c, base, &mut row, &mut left)?;
    }
    row.row(alloc)
}

/// Follows a command in front of those that are left, which stand from the last to the first.
fn step<'a>(
    alloc: Global,
    c: &'a LCommand,
    base: &Split,
    row: &mut Making<'a>,
    left: &mut Vec<&'a LCommand>,
) -> Result<(), Memory>
    requires { CanFollow (bound row.old.bindings) (plain_lcommand c.now ∷ to_come left.old.items) (state_of base.now) }
    ensures goes { OnOk result (Goes (completed row.old) (completed row.new) (bound row.old.bindings) (bound row.new.bindings)
        (plain_lcommand c.now ∷ to_come left.old.items) (to_come left.new.items) (state_of base.now)) }
    ensures less { OnOk result (size_all (low_commands (to_come left.new.items)) <
        size_all (low_commands (plain_lcommand c.now ∷ to_come left.old.items))) }
{
    match c {
        LCommand::Skip => Ok(()),
        LCommand::Assign { target, value } => {
            row.follow_set(alloc, c, place_of_temp(*target), value)
        }
        LCommand::Write { target, value } => row.follow_set(alloc, c, place_of(*target), value),
        LCommand::Print { .. } => row.follow(c),
        LCommand::Seq { commands } => push_all(left, commands.as_slice()),
        LCommand::If { test, yes, no } => {
            if row.decide(alloc, test, base)? {
                left.push(yes)?;
            } else {
                left.push(no)?;
            }
            Ok(())
        }
    }
}
