//! The parts that an L form is made of.

ghost use Rattle.std.specs.Prelude.{◌≡◌, suc, [], map, IfOk, OnOk};
ghost use Rattle.homeo_syntax.specs.Low.{If, Comparison, NoCommand, NoTest};
ghost use Rattle.homeo_syntax.specs.LowView.{low_tests, plain_lexpr, plain_ltest, plain_lcond, plain_lcommand};
ghost use Rattle.homeo_meaning.specs.LForm.{both, one, in_front, read, fresh, literal_of, equal, one_test, unless_ended, guard, set_flag, within, guarded};
ghost use Rattle.homeo_context.specs.Slots.{plain_spot};
ghost use Rattle.homeo_desugar.specs.inner.Made.{made, both_tests};

use homeo_context::Spot;
use homeo_syntax::{Compare, LCommand, LCond, LExpr, LTest, List, Memory, SplitName, Temp};
use std::alloc::Global;

/// The fresh temporary that says whether the call is ended.
const FLAG: u32 = 0;

/// The commands that are made so far, and the next number of a fresh temporary.
#[derive(Drop)]
pub(crate) struct Making {
    pub(crate) commands: List<LCommand>,
    pub(crate) next: u32,
}

/// A field and the fresh temporary that holds its new value.
#[derive(Clone, Copy)]
pub(crate) struct Target {
    pub(crate) field: Spot,
    pub(crate) temp: u32,
}

impl Making {
    /// Nothing made yet, from a number of a fresh temporary on.
    #[tactic(auto, using(crate::proofs::Equations::makings))]
    pub(crate) fn from(alloc: Global, next: u32) -> Making
        ensures empty { made result ≡ NoCommand }
        ensures next { result.next ≡ next }
    {
        Making {
            commands: List::new(alloc),
            next,
        }
    }

    /// Puts a command behind the others.
    pub(crate) fn push(&mut self, command: LCommand) -> Result<(), Memory>
        ensures pushed { OnOk result (made self.new ≡ both (made self.old) (one (plain_lcommand command))) }
        ensures next { self.new.next ≡ self.old.next }
    {
        self.commands.push(command)?;
        Ok(())
    }

    /// Takes a fresh temporary.
    pub(crate) fn fresh(&mut self) -> Result<u32, Memory>
        ensures taken { IfOk result (λ t. t ≡ self.old.next) }
        ensures next { OnOk result (self.new.next ≡ suc self.old.next) }
        ensures commands { self.new.commands ≡ self.old.commands }
    {
        let temp = self.next;
        // An L form with so many temporaries is larger than any memory.
        self.next = temp.checked_add(1).ok_or(Memory)?;
        Ok(temp)
    }

    /// A command behind the others, and by itself where there are none.
    pub(crate) fn in_front(self, command: LCommand) -> Result<LCommand, Memory>
        ensures { IfOk result (λ c. plain_lcommand c ≡ in_front (made self) (plain_lcommand command)) }
    {
        let mut commands = self.commands;
        if commands.as_slice().is_empty() {
            return Ok(command);
        }
        commands.push(command)?;
        Ok(LCommand::Seq { commands })
    }
}

/// An empty list with room for so many items.
pub(crate) fn list_with_room<T>(alloc: Global, count: usize) -> Result<List<T>, Memory>
    ensures { IfOk result (λ l. l ≡ record { items = []; spare = 0 }) }
{
    Ok(List::from_vec(Vec::with_capacity(alloc, count)?))
}

/// Reads an object.
#[tactic(auto, using(homeo_syntax::proofs::LowViews::low_phrase_views), unfolding(homeo_meaning::specs::Key::definitions))]
pub(crate) fn read(place: u32) -> LExpr
    ensures { plain_lexpr result ≡ read place }
{
    LExpr::Read(SplitName::Whole(place))
}

/// The value of a fresh temporary.
#[tactic(auto, using(homeo_syntax::proofs::LowViews::low_phrase_views), unfolding(homeo_meaning::specs::Key::definitions))]
pub(crate) fn fresh(temp: u32) -> LExpr
    ensures { plain_lexpr result ≡ fresh temp }
{
    LExpr::Temp(Temp::Fresh(temp))
}

/// The number that an expression is, if it is one.
#[tactic(auto, using(homeo_syntax::proofs::LowViews::low_phrase_views), unfolding(homeo_meaning::specs::Key::definitions))]
pub(crate) fn literal_of(e: &LExpr) -> Option<i64>
    ensures { result ≡ literal_of (plain_lexpr e.now) }
{
    match e {
        LExpr::Literal(number) => Some(*number),
        LExpr::Temp(_) | LExpr::Read(_) | LExpr::Sum(_) | LExpr::Product(_) | LExpr::Neg(_) => None,
    }
}

/// Tests whether an expression has a value.
#[tactic(auto, using(homeo_syntax::proofs::LowViews::low_phrase_views), unfolding(homeo_meaning::specs::Key::definitions))]
pub(crate) fn equal(value: LExpr, number: i64) -> LTest
    ensures { plain_ltest result ≡ equal (plain_lexpr value) number }
{
    LTest::Compare {
        op: Compare::Equal,
        left: value,
        right: LExpr::Literal(number),
    }
}

/// A condition of one test.
#[tactic(auto, using(homeo_syntax::proofs::LowViews::low_phrase_views, crate::proofs::Equations::lists))]
pub(crate) fn one_test(alloc: Global, test: LTest) -> Result<LCond, Memory>
    ensures { IfOk result (λ c. plain_lcond c ≡ one_test (plain_ltest test)) }
{
    let mut tests = list_with_room(alloc, 1)?;
    tests.push(test)?;
    Ok(LCond { tests })
}

/// One command or the other.
#[tactic(auto, using(homeo_syntax::proofs::LowViews::low_command_views))]
pub(crate) fn choice(
    alloc: Global,
    test: LCond,
    yes: LCommand,
    no: LCommand,
) -> Result<LCommand, Memory>
    ensures { IfOk result (λ c. plain_lcommand c ≡ If (plain_lcond test) (plain_lcommand yes) (plain_lcommand no)) }
{
    Ok(LCommand::If {
        test,
        yes: Box::new(alloc, yes)?,
        no: Box::new(alloc, no)?,
    })
}

/// Whether the call is ended: 1 from its end on.
#[tactic(auto, unfolding(homeo_meaning::specs::Key::definitions))]
pub(crate) fn flag() -> LExpr
    ensures { plain_lexpr result ≡ fresh 0 }
{
    fresh(FLAG)
}

/// A command that is not done where the call is ended.
#[tactic(auto, using(homeo_syntax::proofs::LowViews::low_command_views, crate::proofs::Equations::guards))]
pub(crate) fn unless_ended(alloc: Global, command: LCommand) -> Result<LCommand, Memory>
    ensures { IfOk result (λ c. plain_lcommand c ≡ unless_ended (plain_lcommand command)) }
{
    let test = one_test(alloc, equal(flag(), 0))?;
    choice(alloc, test, command, LCommand::Skip)
}

/// So where it is guarded, and else the command itself.
#[tactic(auto, using(crate::proofs::Equations::guards))]
pub(crate) fn guard(alloc: Global, guarded: bool, command: LCommand) -> Result<LCommand, Memory>
    ensures { IfOk result (λ c. plain_lcommand c ≡ guard guarded (plain_lcommand command)) }
{
    if guarded {
        unless_ended(alloc, command)
    } else {
        Ok(command)
    }
}

/// Sets the temporary that says whether the call is ended.
#[tactic(auto, using(homeo_syntax::proofs::LowViews::low_command_views, homeo_syntax::proofs::LowViews::low_phrase_views, crate::proofs::Equations::guards))]
pub(crate) fn set_flag(value: i64) -> LCommand
    ensures { plain_lcommand result ≡ set_flag value }
{
    LCommand::Assign {
        target: Temp::Fresh(FLAG),
        value: LExpr::Literal(value),
    }
}

#[tactic(auto, using(homeo_syntax::proofs::LowViews::low_phrase_views))]
fn at_most(left: LExpr, right: LExpr) -> LTest
    ensures { plain_ltest result ≡ Comparison Compare.LessEqual (plain_lexpr left) (plain_lexpr right) }
{
    LTest::Compare {
        op: Compare::LessEqual,
        left,
        right,
    }
}

/// Puts the tests behind others of whether a value is within bounds.
pub(crate) fn push_within(
    alloc: Global,
    tests: &mut List<LTest>,
    bounds: Spot,
    value: &LExpr,
) -> Result<(), Memory>
    ensures { OnOk result (low_tests (map plain_ltest tests.new.items) ≡
        both_tests (low_tests (map plain_ltest tests.old.items)) (within (plain_spot bounds) (plain_lexpr value.now) NoTest)) }
{
    let above = at_most(LExpr::Literal(bounds.lo), value.copy(alloc)?);
    tests.push(above)?;
    let below = at_most(value.copy(alloc)?, LExpr::Literal(bounds.hi));
    tests.push(below)?;
    Ok(())
}

/// Tests whether a value is within bounds.
pub(crate) fn within(alloc: Global, bounds: Spot, value: &LExpr) -> Result<LCond, Memory>
    ensures { IfOk result (λ c. plain_lcond c ≡ within (plain_spot bounds) (plain_lexpr value.now) NoTest) }
{
    let mut tests = list_with_room(alloc, 2)?;
    push_within(alloc, &mut tests, bounds, value)?;
    Ok(LCond { tests })
}

/// Writes a value that is within the bounds to an object, and skips another.
#[tactic(auto, using(homeo_syntax::proofs::LowViews::low_command_views, crate::proofs::Equations::making))]
pub(crate) fn guarded(
    alloc: Global,
    bounds: Spot,
    object: u32,
    value: LExpr,
) -> Result<LCommand, Memory>
    ensures { IfOk result (λ c. plain_lcommand c ≡ guarded (plain_spot bounds) object (plain_lexpr value)) }
{
    let test = within(alloc, bounds, &value)?;
    let write = LCommand::Write {
        target: SplitName::Whole(object),
        value,
    };
    choice(alloc, test, write, LCommand::Skip)
}
