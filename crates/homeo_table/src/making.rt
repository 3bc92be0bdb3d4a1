//! Rows in the making.

ghost use Rattle.std.specs.Prelude.{◌≡◌, true, cond, ◌++◌, Some, None, map, take, length, IfOk, OnOk};
ghost use Rattle.homeo_syntax.specs.LowView.{low_tests, low_commands, plain_lexpr, plain_ltest, plain_lcond, plain_lcommand};
ghost use Rattle.homeo_meaning.specs.LowMeaning.{put, holds};
ghost use Rattle.homeo_plan.specs.PlanView.{plain_row};
ghost use Rattle.homeo_plan.specs.Table.{last_row, set_before, test_before, otherwise, clear_row};
ghost use Rattle.homeo_split.specs.CanExec.{run_limit, cond_fits};
ghost use Rattle.homeo_split.specs.States.{state_of};
ghost use Rattle.homeo_substitution.specs.Bindings.{bound};
ghost use Rattle.homeo_table.specs.inner.Partings.{tests_of, commands_of, row_from};
ghost use Rattle.homeo_table.specs.inner.Makings.{completed, command_before, Begins};
ghost use Rattle.homeo_split.specs.Places.{plain_place};
ghost use Rattle.homeo_substitution.specs.Substitution.{substituted, substituted_test, substituted_cond};

use homeo_plan::Row;
use homeo_split::{Place, Split, holds};
use homeo_substitution::{Bindings, condition, shared_value, test};
use homeo_syntax::{LCommand, LCond, LExpr, LTest, List, Memory};
use std::alloc::Global;

/// The tests and commands of a row as far as a branch was followed. The tests speak of the state before the command.
#[derive(Drop)]
pub(crate) struct Making<'a> {
    tests: Vec<LTest>,
    commands: Vec<&'a LCommand>,
    bindings: Bindings,
}

/// How far a branch was followed: how many tests and commands it had, and what stood at the places that were set.
#[derive(Drop)]
pub(crate) struct Mark {
    tests: usize,
    commands: usize,
    bindings: Bindings,
}

impl Mark {
    /// Nothing was followed. Temporaries are 0.
    pub(crate) fn start(alloc: Global) -> Mark
        ensures bound { bound result.bindings ≡ (λ l. None) }
        ensures tests { result.tests ≡ 0 }
        ensures commands { result.commands ≡ 0 }
    {
        Mark {
            tests: 0,
            commands: 0,
            bindings: Bindings::new(alloc),
        }
    }
}

impl<'a> Making<'a> {
    /// Nothing was followed. Temporaries are 0.
    pub(crate) fn new(alloc: Global) -> Making<'a>
        ensures row { completed result ≡ clear_row }
        ensures bound { bound result.bindings ≡ (λ l. None) }
    {
        Making {
            tests: Vec::new(alloc),
            commands: Vec::new(alloc),
            bindings: Bindings::new(alloc),
        }
    }

    pub(crate) fn tests(&self) -> &[LTest]
        ensures { map plain_ltest result.now ≡ tests_of self.now }
    {
        self.tests.as_slice()
    }

    pub(crate) fn commands(&self) -> &[&'a LCommand]
        ensures { map (λ c. plain_lcommand c.now) result.now ≡ commands_of self.now }
    {
        self.commands.as_slice()
    }

    /// Marks how far it was followed.
    pub(crate) fn mark(&self) -> Result<Mark, Memory>
        ensures row { IfOk result (λ m. row_from (tests_of self.now) (commands_of self.now) m ≡ completed self.now) }
        ensures tests { IfOk result (λ m. m.tests ≡ length (tests_of self.now)) }
        ensures commands { IfOk result (λ m. m.commands ≡ length (commands_of self.now)) }
    {
        Ok(Mark {
            tests: self.tests.len(),
            commands: self.commands.len(),
            bindings: self.bindings.copy()?,
        })
    }

    /// Goes back to a mark.
    pub(crate) fn go_back(&mut self, mark: Mark)
        ensures row { completed self.new ≡ row_from (tests_of self.old) (commands_of self.old) mark }
        ensures tests { tests_of self.new ≡ take mark.tests (tests_of self.old) }
        ensures commands { commands_of self.new ≡ take mark.commands (commands_of self.old) }
    {
        self.tests.truncate(mark.tests);
        self.commands.truncate(mark.commands);
        self.bindings = mark.bindings;
    }

    /// Follows a command that sets no value.
    pub(crate) fn follow(&mut self, c: &'a LCommand) -> Result<(), Memory>
        ensures row { OnOk result (completed self.new ≡ (λ r. completed self.old (command_before (plain_lcommand c.now) r))) }
        ensures bound { OnOk result (bound self.new.bindings ≡ bound self.old.bindings) }
        ensures begins { OnOk result (Begins self.old self.new) }
    {
        self.commands.push(c)?;
        Ok(())
    }

    /// Follows a command that sets a place to a value.
    pub(crate) fn follow_set(
        &mut self,
        alloc: Global,
        c: &'a LCommand,
        place: Place,
        value: &LExpr,
    ) -> Result<(), Memory>
        ensures row { OnOk result (completed self.new ≡ (λ r. completed self.old (set_before (plain_lcommand c.now) (plain_place place) (plain_lexpr value.now) r))) }
        ensures bound { OnOk result (bound self.new.bindings ≡
            put (bound self.old.bindings) (plain_place place) (Some (substituted (bound self.old.bindings) (plain_lexpr value.now)))) }
        ensures begins { OnOk result (Begins self.old self.new) }
    {
        let value = shared_value(alloc, &self.bindings, value)?;
        self.bindings.bind(place, value)?;
        self.commands.push(c)?;
        Ok(())
    }

    /// Follows the branch where a condition holds.
    pub(crate) fn where_holds(&mut self, alloc: Global, test: &LCond) -> Result<(), Memory>
        ensures row { OnOk result (completed self.new ≡ (λ r. completed self.old (test_before (plain_lcond test.now) r))) }
        ensures begins { OnOk result (Begins self.old self.new) }
    {
        push_tests(
            alloc,
            &self.bindings,
            test.tests.as_slice(),
            &mut self.tests,
        )
    }

    /// Follows the branch where a condition doesn't hold.
    pub(crate) fn where_fails(&mut self, alloc: Global, test: &LCond) -> Result<(), Memory>
        ensures row { OnOk result (completed self.new ≡ (λ r. completed self.old (test_before (otherwise (plain_lcond test.now)) r))) }
        ensures begins { OnOk result (Begins self.old self.new) }
    {
        let test = condition(alloc, &self.bindings, test)?;
        self.tests.push(LTest::Not(test))?;
        Ok(())
    }

    /// Follows the branch that is taken at a split database, and says whether it is the one where a condition holds.
    pub(crate) fn decide(
        &mut self,
        alloc: Global,
        test: &LCond,
        base: &Split,
    ) -> Result<bool, Memory>
        requires { cond_fits run_limit (substituted_cond (bound self.old.bindings) (plain_lcond test.now)) (state_of base.now) ≡ true }
        ensures taken { IfOk result (λ yes. yes ≡ holds (substituted_cond (bound self.old.bindings) (plain_lcond test.now)) (state_of base.now)) }
        ensures row { IfOk result (λ yes. completed self.new ≡
            (λ r. completed self.old (test_before (cond yes (plain_lcond test.now) (otherwise (plain_lcond test.now))) r))) }
        ensures bound { IfOk result (λ yes. bound self.new.bindings ≡ bound self.old.bindings) }
    {
        let asked = condition(alloc, &self.bindings, test)?;
        if holds(&asked, base) {
            move_tests(asked.tests, &mut self.tests)?;
            Ok(true)
        } else {
            self.tests.push(LTest::Not(asked))?;
            Ok(false)
        }
    }

    /// The row, where the branch ends.
    pub(crate) fn row(self, alloc: Global) -> Result<Row, Memory>
        ensures { IfOk result (λ r. plain_row r ≡ completed self.entry last_row) }
    {
        let commands = copied_commands(alloc, self.commands.as_slice())?;
        Ok(row_of(self.tests, commands))
    }
}

fn row_of(tests: Vec<LTest>, commands: Vec<LCommand>) -> Row
    ensures { plain_row result ≡ record { formula = low_tests (map plain_ltest tests.items); residual = low_commands (map plain_lcommand commands.items) } }
{
    Row {
        formula: LCond {
            tests: List::from_vec(tests),
        },
        residual: List::from_vec(commands),
    }
}

fn push_tests(
    alloc: Global,
    put: &Bindings,
    tests: &[LTest],
    made: &mut Vec<LTest>,
) -> Result<(), Memory>
    ensures { OnOk result (map plain_ltest made.new.items ≡
        map plain_ltest made.old.items ++ map (substituted_test (bound put.now)) (map plain_ltest tests.now)) }
{
    for t in tests {
        made.push(test(alloc, put, t)?)?;
    }
    Ok(())
}

fn move_tests(tests: List<LTest>, made: &mut Vec<LTest>) -> Result<(), Memory>
    ensures { OnOk result (map plain_ltest made.new.items ≡ map plain_ltest made.old.items ++ map plain_ltest tests.items) }
{
    for test in tests.into_vec() {
        made.push(test)?;
    }
    Ok(())
}

fn copied_commands(alloc: Global, commands: &[&LCommand]) -> Result<Vec<LCommand>, Memory>
    ensures { IfOk result (λ r. map plain_lcommand r.items ≡ map (λ c. plain_lcommand c.now) commands.now) }
{
    let mut copies = Vec::with_capacity(alloc, commands.len())?;
    for command in commands {
        copies.push(command.copy(alloc)?)?;
    }
    Ok(copies)
}
