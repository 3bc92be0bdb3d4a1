//! The branches of a command.

ghost use Rattle.std.specs.Prelude.{◌≡◌, ◌+◌, ◌<◌, ◌≤◌, [], List, ◌∷◌, ◌++◌, map, take, length, reverse, IfOk, OnOk};
ghost use Rattle.homeo_syntax.specs.Low.{Test, Command};
ghost use Rattle.homeo_syntax.specs.LowView.{plain_lcond, plain_lcommand};
ghost use Rattle.homeo_plan.specs.Table.{last_row, test_before, otherwise, before, table};
ghost use Rattle.homeo_table.specs.inner.Partings.{tests_of, commands_of, left_before, rows_from, rows_of_all};
ghost use Rattle.homeo_table.specs.inner.Branches.{left_of, rows_of, rows_behind, size, left_size, Nested, AreNested};
ghost use Rattle.homeo_table.specs.inner.Makings.{completed};

use crate::making::{Making, Mark};
use homeo_split::{place_of, place_of_temp};
use homeo_syntax::{LCommand, LCond, Memory};
use std::alloc::Global;

/// A branch of a command, as far as it was followed.
#[derive(Drop)]
pub(crate) struct Branch<'a> {
    pub(crate) row: Making<'a>,
    /// The commands that are left, from the last to the first.
    left: Vec<&'a LCommand>,
}

/// A branch that is still to be followed, from where it parts from another.
#[derive(Drop)]
pub(crate) struct Parting<'a> {
    mark: Mark,
    /// The condition that doesn't hold there; the first branch of a command has none.
    failed: Option<&'a LCond>,
    /// The commands that are left, from the last to the first.
    left: Vec<&'a LCommand>,
}

impl<'a> Parting<'a> {
    /// The first branch of a command.
    pub(crate) fn first(alloc: Global, c: &'a LCommand) -> Result<Parting<'a>, Memory>
        ensures rows { IfOk result (λ p. (ts : List Test) → (cs : List Command) → rows_from ts cs p ≡ table (plain_lcommand c.now)) }
        ensures tests { IfOk result (λ p. p.mark.tests ≡ 0) }
        ensures commands { IfOk result (λ p. p.mark.commands ≡ 0) }
    {
        let mut left = Vec::new(alloc);
        left.push(c)?;
        Ok(Parting {
            mark: Mark::start(alloc),
            failed: None,
            left,
        })
    }
}

impl<'a> Branch<'a> {
    /// Nothing was followed, and nothing is left.
    pub(crate) fn new(alloc: Global) -> Branch<'a> {
        Branch {
            row: Making::new(alloc),
            left: Vec::new(alloc),
        }
    }

    /// Goes back to where another branch parted, and follows that to its end. What parts from it stands behind the other
    /// partings then, the first last.
    pub(crate) fn go_on(
        &mut self,
        alloc: Global,
        parting: Parting<'a>,
        partings: &mut Vec<Parting<'a>>,
    ) -> Result<(), Memory>
        requires { Nested (length (tests_of self.old.row)) (length (commands_of self.old.row)) (parting ∷ reverse partings.old.items) }
        ensures nested { OnOk result (AreNested self.new.row partings.new.items) }
        ensures rows { OnOk result (completed self.new.row last_row ∷ rows_behind self.new.row partings.new.items ≡
            rows_of_all (tests_of self.old.row) (commands_of self.old.row) (parting.entry ∷ reverse partings.old.items)) }
    {
        self.go_back(alloc, parting)?;
        self.follow(alloc, partings)
    }

    /// Goes back to where another branch parted.
    fn go_back(&mut self, alloc: Global, parting: Parting<'a>) -> Result<(), Memory>
        requires tests { parting.mark.tests ≤ length (tests_of self.old.row) }
        requires commands { parting.mark.commands ≤ length (commands_of self.old.row) }
        ensures rows { OnOk result (rows_of self.new ≡ rows_from (tests_of self.old.row) (commands_of self.old.row) parting.entry) }
        ensures tests { OnOk result (take parting.entry.mark.tests (tests_of self.new.row) ≡ take parting.entry.mark.tests (tests_of self.old.row)) }
        ensures commands { OnOk result (take parting.entry.mark.commands (commands_of self.new.row) ≡ take parting.entry.mark.commands (commands_of self.old.row)) }
    {
        self.row.go_back(parting.mark);
        self.left = parting.left;
        match parting.failed {
            Some(test) => self.row.where_fails(alloc, test),
            None => Ok(()),
        }
    }

    /// Follows the branch to its end.
    fn follow(&mut self, alloc: Global, partings: &mut Vec<Parting<'a>>) -> Result<(), Memory>
        requires { AreNested self.old.row partings.old.items }
        ensures nested { OnOk result (AreNested self.new.row partings.new.items) }
        ensures rows { OnOk result (completed self.new.row last_row ∷ rows_behind self.new.row partings.new.items ≡
            rows_of self.old ++ rows_behind self.old.row partings.old.items) }
    {
        while let Some(c) = self.left.pop() {
            self.step(alloc, c, partings)?;
        }
        Ok(())
    }

    /// Follows a command in front of those that are left.
    fn step(
        &mut self,
        alloc: Global,
        c: &'a LCommand,
        partings: &mut Vec<Parting<'a>>,
    ) -> Result<(), Memory>
        requires { AreNested self.old.row partings.old.items }
        ensures nested { OnOk result (AreNested self.new.row partings.new.items) }
        ensures rows { OnOk result (rows_of self.new ++ rows_behind self.new.row partings.new.items ≡
            map (completed self.old.row) (before (plain_lcommand c.now) (left_before (left_of self.old) (last_row ∷ [])))
            ++ rows_behind self.old.row partings.old.items) }
        ensures less { OnOk result (left_size (left_of self.new) < size (plain_lcommand c.now) + left_size (left_of self.old)) }
    {
        match c {
            LCommand::Skip => Ok(()),
            LCommand::Assign { target, value } => {
                self.row.follow_set(alloc, c, place_of_temp(*target), value)
            }
            LCommand::Write { target, value } => {
                self.row.follow_set(alloc, c, place_of(*target), value)
            }
            LCommand::Print { .. } => self.row.follow(c),
            LCommand::Seq { commands } => push_all(&mut self.left, commands.as_slice()),
            LCommand::If { test, yes, no } => {
                partings.push(self.parted(alloc, test, no)?)?;
                self.row.where_holds(alloc, test)?;
                self.left.push(yes)?;
                Ok(())
            }
        }
    }

    /// The branch that parts from this one where a condition doesn't hold, in front of the command there.
    fn parted(
        &self,
        alloc: Global,
        test: &'a LCond,
        no: &'a LCommand,
    ) -> Result<Parting<'a>, Memory>
        ensures rows { IfOk result (λ p. rows_from (tests_of self.now.row) (commands_of self.now.row) p ≡ map (completed self.now.row)
            (map (test_before (otherwise (plain_lcond test.now))) (before (plain_lcommand no.now) (left_before (left_of self.now) (last_row ∷ []))))) }
        ensures tests { IfOk result (λ p. p.mark.tests ≡ length (tests_of self.now.row)) }
        ensures commands { IfOk result (λ p. p.mark.commands ≡ length (commands_of self.now.row)) }
    {
        let mut left = Vec::from_slice(alloc, self.left.as_slice())?;
        left.push(no)?;
        Ok(Parting {
            mark: self.row.mark()?,
            failed: Some(test),
            left,
        })
    }
}

/// Pushes commands in front of those that are left.
pub(crate) fn push_all<'a>(
    left: &mut Vec<&'a LCommand>,
    commands: &'a [LCommand],
) -> Result<(), Memory>
    ensures { OnOk result (map (λ c. plain_lcommand c.now) left.new.items ≡
        map (λ c. plain_lcommand c.now) left.old.items ++ reverse (map plain_lcommand commands.now)) }
{
    let mut place = commands.len();
    while place > 0 {
        place -= 1;
        left.push(&commands[place])?;
    }
    Ok(())
}
