//! Symbolic tables.

ghost use Rattle.std.specs.Prelude.{◌≡◌, true, map, length, IfOk};
ghost use Rattle.std.specs.List.{All};
ghost use Rattle.homeo_syntax.specs.LowView.{plain_lcommand, plain_ltest};
ghost use Rattle.homeo_meaning.specs.LowMeaning.{exec, exec_all};
ghost use Rattle.homeo_meaning.specs.LowSizes.{rows};
ghost use Rattle.homeo_plan.specs.Joint.{HasOneRow};
ghost use Rattle.homeo_plan.specs.PlanView.{plain_row};
ghost use Rattle.homeo_plan.specs.Table.{row_at, table};
ghost use Rattle.homeo_split.specs.CanExec.{run_limit, cond_fits, can_exec};
ghost use Rattle.homeo_split.specs.declared.split.Split.{Split};
ghost use Rattle.homeo_split.specs.States.{state_of};
ghost use Rattle.homeo_table.specs.Rows.{reached};

use homeo_plan::Row;
use homeo_syntax::{LCommand, LCond, LTest, List, Memory};
use homeo_table::Rows;
use std::alloc::Global;

/// The symbolic table of a command (Roy et al., SIGMOD 2015): for each of its branches a row, first those where the
/// condition of the first `if` holds. Its formula says before the command when the branch is taken, and its residual has
/// the assignments, writes and prints of the branch. A formula reads no temporary: it has 0 in place of what a temporary
/// has as a call begins. So at each split database, where temporaries are 0, exactly one row holds, and its residual does
/// there what the command does. And where the command meets no number above 2 * 10^18 in size, no formula does up to its first
/// test that fails, so that `row_at` can find the row.
///
/// The rows are copies of those that `Rows` reaches one after another, whose tests and commands are made once where branches
/// share them. So, with a look-up of a name as one step, time and memory are linear in the rows, each with its formula, its
/// residual and the commands on its way.
///
/// # Errors
///
/// `Memory` when out of memory.
pub fn table(alloc: Global, c: &LCommand) -> Result<Vec<Row>, Memory>
    ensures rows { IfOk result (λ rows. map plain_row rows.items ≡ table (plain_lcommand c.now)) }
    ensures one { IfOk result (λ rows. (base : Split) → HasOneRow (state_of base) (map plain_row rows.items)) }
    ensures means { IfOk result (λ rows. (base : Split) → let s = state_of base in
        exec_all (row_at (map plain_row rows.items) s).residual s ≡ exec (plain_lcommand c.now) s) }
    ensures small { IfOk result (λ rows. (base : Split) → can_exec run_limit (plain_lcommand c.now) (state_of base) ≡ true →
        All (λ r. cond_fits run_limit (plain_row r).formula (state_of base) ≡ true) rows.items) }
    ensures count { IfOk result (λ t. length t.items ≡ rows (plain_lcommand c.now)) }
{
    let mut table = Vec::new(alloc);
    let mut rows = Rows::of(alloc, c)?;
    while rows.next(alloc)? {
        table.push(copied_row(alloc, &rows)?)?;
    }
    Ok(table)
}

/// A copy of the row that a cursor stands on.
fn copied_row(alloc: Global, rows: &Rows) -> Result<Row, Memory>
    requires there { rows.now.there ≡ true }
    ensures { IfOk result (λ r. plain_row r ≡ reached rows.now) }
{
    let tests = copied_tests(alloc, rows.formula())?;
    let commands = copied_commands(alloc, rows.residual())?;
    Ok(Row {
        formula: LCond {
            tests: List::from_vec(tests),
        },
        residual: List::from_vec(commands),
    })
}

fn copied_tests(alloc: Global, tests: &[LTest]) -> Result<Vec<LTest>, Memory>
    ensures { IfOk result (λ r. map plain_ltest r.items ≡ map plain_ltest tests.now) }
{
    let mut copies = Vec::with_capacity(alloc, tests.len())?;
    for test in tests {
        copies.push(test.copy(alloc)?)?;
    }
    Ok(copies)
}

fn copied_commands(alloc: Global, commands: &[&LCommand]) -> Result<Vec<LCommand>, Memory>
    ensures { IfOk result (λ r. map plain_lcommand r.items ≡ map (λ c. plain_lcommand c.now) commands.now) }
{
    let mut copies = Vec::with_capacity(alloc, commands.len())?;
    for command in commands {
        copies.push(command.copy(alloc)?)?;
    }
    Ok(copies)
}
