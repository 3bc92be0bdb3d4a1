//! The rows of a command's table, one after another.

use crate::branches::{Branch, Parting};
use homeo_syntax::{LCommand, LTest, Memory};
use std::alloc::Global;
use std::marker::Model;

/// A cursor over the rows of a command's symbolic table (Roy et al., SIGMOD 2015), in their order. It is seen as the command, how
/// many rows of its table were passed, and whether the cursor stands on the last of these. Before the first row and behind the
/// last it stands on none.
///
/// Rows share the tests and commands that stand before their branches part. So the memory is that of the tests of one row, and,
/// for each `if` on its way, of the places that are set there and the commands that are left.
#[derive(Drop)]
pub struct Rows<'a> {
    /// The command whose rows these are.
    command: &'a LCommand,
    branch: Branch<'a>,
    /// The branches that are still to be followed, the next one last.
    partings: Vec<Parting<'a>>,
    /// Whether the branch is that of a row, followed to its end.
    there: bool,
}

impl<'a> Model for Rows<'a> {
    ghost use Rattle.std.specs.Coded.{codes};
    ghost use Rattle.homeo_syntax.specs.contracts.low.LCommand.{the_row};
    ghost use Rattle.homeo_syntax.specs.LowView.{plain_lcommand};
    ghost use Rattle.homeo_plan.specs.Table.{table};
    ghost use Rattle.homeo_table.specs.Rows.{RowsValue};
    ghost use Rattle.homeo_table.specs.inner.Branches.{rows_behind};
    ghost use Rattle.homeo_table.specs.inner.Cursors.{passed, IsCursor};

    ghost Value = { RowsValue };

    ghost coded = { Prim.hlevel (codes, the_row.coded) };

    ghost view = { λ r. record {
      command = r.command.now;
      passed = passed (table (plain_lcommand r.command.now)) (rows_behind r.branch.row r.partings.items);
      there = r.there;
    } };

    ghost invariant = { λ r. IsCursor (table (plain_lcommand r.command.now)) r.branch.row r.partings.items r.there };
}

impl<'a> Rows<'a> {
    ghost use Rattle.std.specs.Prelude.{◌≡◌, ◌+◌, ◌<◌, true, false, map, length, IfOk, OnErr};
    ghost use Rattle.homeo_syntax.specs.LowView.{low_tests, low_commands, plain_ltest, plain_lcommand};
    ghost use Rattle.homeo_table.specs.Rows.{all_rows, reached};

    /// Stands before the first row.
    ///
    /// # Errors
    ///
    /// `Memory` when out of memory.
    pub fn of(alloc: Global, c: &'a LCommand) -> Result<Rows<'a>, Memory>
        ensures command { IfOk result (λ rows. rows.command ≡ c.now) }
        ensures first { IfOk result (λ rows. rows.passed ≡ 0) }
    {
        let mut partings = Vec::new(alloc);
        partings.push(Parting::first(alloc, c)?)?;
        Ok(Rows {
            command: c,
            branch: Branch::new(alloc),
            partings,
            there: false,
        })
    }

    /// Reaches the next row, and says whether there was one. With a look-up of a name as one step, it takes time linear in the
    /// commands from where the row's branch parts, and in the tests that it makes.
    ///
    /// # Errors
    ///
    /// `Memory` when out of memory. Then no rows are to come, and it stands on none.
    pub fn next(&mut self, alloc: Global) -> Result<bool, Memory>
        ensures command { self.new.command ≡ self.old.command }
        ensures there { IfOk result (λ there. self.new.there ≡ there) }
        ensures row { IfOk result (λ there. there ≡ true → self.new.passed ≡ self.old.passed + 1) }
        ensures some { IfOk result (λ there. there ≡ true → self.old.passed < length (all_rows self.old)) }
        ensures none { IfOk result (λ there. there ≡ false → self.old.passed ≡ length (all_rows self.old)) }
        ensures end { self.new.there ≡ false → self.new.passed ≡ length (all_rows self.new) }
        ensures memory { OnErr result (self.new.there ≡ false) }
    {
        self.there = false;
        let Some(parting) = self.partings.pop() else {
            return Ok(false);
        };
        match self.branch.go_on(alloc, parting, &mut self.partings) {
            Ok(()) => {
                self.there = true;
                Ok(true)
            }
            Err(Memory) => {
                // a branch that wasn't followed to its end may have fewer tests than those behind it share
                self.partings.clear();
                Err(Memory)
            }
        }
    }

    /// The tests of the formula of the row that it stands on.
    pub fn formula(&self) -> &[LTest]
        requires there { self.now.there ≡ true }
        ensures { low_tests (map plain_ltest result.now) ≡ (reached self.now).formula }
    {
        self.branch.row.tests()
    }

    /// The commands of the residual of the row that it stands on.
    pub fn residual(&self) -> &[&'a LCommand]
        requires there { self.now.there ≡ true }
        ensures { low_commands (map (λ c. plain_lcommand c.now) result.now) ≡ (reached self.now).residual }
    {
        self.branch.row.commands()
    }
}
