//! Chains of slots: one command for each, and the slot chosen by an index or by its being free.

ghost use Rattle.std.specs.Prelude.{◌≡◌, ◌≤◌, pos, map, length, IfOk};
ghost use Rattle.homeo_syntax.specs.Low.{Write, If, Skip, NoTest};
ghost use Rattle.homeo_syntax.specs.LowView.{plain_lexpr, plain_lcond, plain_lcommand};
ghost use Rattle.homeo_meaning.specs.LForm.{equal, one_test, within, read_chain, write_chain, fill_chain, all_within};
ghost use Rattle.homeo_context.specs.Slots.{plain_spot, plain_slot, slots_of, IsNumbered};
ghost use Rattle.homeo_desugar.specs.inner.Numbers.{IsLow};
ghost use Rattle.homeo_desugar.specs.inner.Made.{plain_target, AreWithin, filled};

use crate::making::{Target, choice, equal, fresh, one_test, push_within, read, within};
use crate::objects::{cell, used};
use homeo_context::{Slot, Slots, Spot};
use homeo_syntax::{LCommand, LCond, LExpr, List, Memory, SplitName, Temp};
use std::alloc::Global;

/// Tests whether an index names a slot.
fn is_slot(alloc: Global, index: &LExpr, slot: Slot<'_>) -> Result<LCond, Memory>
    requires low { IsLow (plain_slot slot) }
    ensures { IfOk result (λ c. plain_lcond c ≡ one_test (equal (plain_lexpr index.now) (pos slot.entry.number))) }
{
    let index = index.copy(alloc)?;
    one_test(alloc, equal(index, slot.number as i64))
}

/// Writes a copy of a value.
#[tactic(auto, using(homeo_syntax::proofs::LowViews::low_command_views))]
fn write(alloc: Global, target: SplitName, value: &LExpr) -> Result<LCommand, Memory>
    ensures { IfOk result (λ c. plain_lcommand c ≡ Write target (plain_lexpr value.now)) }
{
    let value = value.copy(alloc)?;
    Ok(LCommand::Write { target, value })
}

/// Puts the field of the slot that an index names into a fresh temporary, and 0 where there is no such slot.
#[tactic(auto, using(crate::proofs::SlotLists::slot_is_low))]
pub(crate) fn read_chain(
    alloc: Global,
    index: &LExpr,
    slots: Slots<'_>,
    field: Spot,
    target: u32,
) -> Result<LCommand, Memory>
    requires slots { IsNumbered slots }
    requires within { field.place ≤ length slots.fields.now }
    ensures { IfOk result (λ c. plain_lcommand c ≡
        read_chain (plain_spot field) (plain_lexpr index.now) target (slots_of slots.entry)) }
{
    let target = Temp::Fresh(target);
    let mut chain = LCommand::Assign {
        target,
        value: LExpr::Literal(0),
    };
    let mut number = slots.count;
    while number > 0 {
        number -= 1;
        let slot = slots.slot(number);
        let test = is_slot(alloc, index, slot)?;
        let value = read(cell(slot, field));
        chain = choice(alloc, test, LCommand::Assign { target, value }, chain)?;
    }
    Ok(chain)
}

/// Writes a value to the field of the slot that an index names, and nothing where there is no such slot.
fn write_chain(
    alloc: Global,
    index: &LExpr,
    slots: Slots<'_>,
    field: Spot,
    value: &LExpr,
) -> Result<LCommand, Memory>
    requires slots { IsNumbered slots }
    requires within { field.place ≤ length slots.fields.now }
    ensures { IfOk result (λ c. plain_lcommand c ≡
        write_chain (plain_spot field) (plain_lexpr index.now) (plain_lexpr value.now) (slots_of slots.entry)) }
{
    let mut chain = LCommand::Skip;
    let mut number = slots.count;
    while number > 0 {
        number -= 1;
        let slot = slots.slot(number);
        let test = is_slot(alloc, index, slot)?;
        let write = write(alloc, SplitName::Whole(cell(slot, field)), value)?;
        chain = choice(alloc, test, write, chain)?;
    }
    Ok(chain)
}

/// Writes a value that is within its field's bounds to the field of the slot that an index names.
pub(crate) fn write_by_index(
    alloc: Global,
    index: &LExpr,
    slots: Slots<'_>,
    field: Spot,
    value: &LExpr,
) -> Result<LCommand, Memory>
    requires slots { IsNumbered slots }
    requires within { field.place ≤ length slots.fields.now }
    ensures { IfOk result (λ c. plain_lcommand c ≡ If (within (plain_spot field) (plain_lexpr value.now) NoTest)
        (write_chain (plain_spot field) (plain_lexpr index.now) (plain_lexpr value.now) (slots_of slots.entry)) Skip) }
{
    let test = within(alloc, field, value)?;
    let chain = write_chain(alloc, index, slots, field, value)?;
    choice(alloc, test, chain, LCommand::Skip)
}

/// Tests whether all new values are within the bounds of their fields.
pub(crate) fn all_within(alloc: Global, targets: &[Target]) -> Result<LCond, Memory>
    ensures { IfOk result (λ c. plain_lcond c ≡ all_within (map plain_target targets.now)) }
{
    let mut tests = List::new(alloc);
    for target in targets {
        push_within(alloc, &mut tests, target.field, &fresh(target.temp))?;
    }
    Ok(LCond { tests })
}

/// Fills a slot: sets its fields, says that it is used, and puts its number plus 1 into a temporary.
fn fill(alloc: Global, slot: Slot<'_>, targets: &[Target], into: u32) -> Result<LCommand, Memory>
    requires low { IsLow (plain_slot slot) }
    requires within { AreWithin slot.fields.now targets.now }
    ensures { IfOk result (λ c. plain_lcommand c ≡ filled (plain_slot slot.entry) (map plain_target targets.now) into) }
{
    let mut commands = List::new(alloc);
    for target in targets {
        let object = cell(slot, target.field);
        commands.push(LCommand::Write {
            target: SplitName::Whole(object),
            value: fresh(target.temp),
        })?;
    }
    commands.push(LCommand::Write {
        target: SplitName::Whole(used(slot)),
        value: LExpr::Literal(1),
    })?;
    commands.push(LCommand::Assign {
        target: Temp::Named(into),
        value: LExpr::Literal(slot.number as i64 + 1),
    })?;
    Ok(LCommand::Seq { commands })
}

/// Fills the first free slot, and puts 0 into the temporary where there is none.
#[tactic(auto, using(crate::proofs::SlotLists::slot_is_low))]
pub(crate) fn fill_chain(
    alloc: Global,
    slots: Slots<'_>,
    targets: &[Target],
    into: u32,
) -> Result<LCommand, Memory>
    requires slots { IsNumbered slots }
    requires within { AreWithin slots.fields.now targets.now }
    ensures { IfOk result (λ c. plain_lcommand c ≡
        fill_chain (map plain_target targets.now) into (slots_of slots.entry)) }
{
    let mut chain = LCommand::Assign {
        target: Temp::Named(into),
        value: LExpr::Literal(0),
    };
    let mut number = slots.count;
    while number > 0 {
        number -= 1;
        let slot = slots.slot(number);
        let test = one_test(alloc, equal(read(used(slot)), 0))?;
        let filled = fill(alloc, slot, targets, into)?;
        chain = choice(alloc, test, filled, chain)?;
    }
    Ok(chain)
}
