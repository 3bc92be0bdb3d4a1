//! What stands round a body that can end its call: its objects are saved before it, and set again behind it.

ghost use Rattle.std.specs.Prelude.{◌≡◌, ◌+◌, [], map, length, IfOk, OnOk};
ghost use Rattle.homeo_syntax.specs.LowView.{low_commands, plain_lcommand};
ghost use Rattle.homeo_meaning.specs.LowWrites.{object_in, with_number, written, all_written};
ghost use Rattle.homeo_meaning.specs.LForm.{undoing};

use crate::making::{choice, equal, flag, fresh, one_test, read, set_flag};
use homeo_syntax::{LCommand, List, Memory, SplitName, Temp};
use std::alloc::Global;
use std::collections::BTreeSet;

#[tactic(auto, unfolding(homeo_meaning::specs::Key::definitions))]
fn object_in(name: SplitName) -> u32
    ensures { result ≡ object_in name }
{
    match name {
        SplitName::Whole(object) | SplitName::Base(object) => object,
        SplitName::Delta { object, site: _ } => object,
    }
}

/// Adds a number to others, which stay in rising order.
#[tactic(auto, using(homeo_meaning::proofs::RisingNumbers::put))]
fn put_number(numbers: &mut BTreeSet<u32>, number: u32) -> Result<(), Memory>
    ensures { OnOk result (numbers.new.keys ≡ with_number number numbers.old.keys) }
{
    numbers.insert(number)?;
    Ok(())
}

/// Adds the objects that a command writes to others.
#[cycle(written)]
#[tactic(auto, using(homeo_syntax::proofs::LowViews::low_command_views, crate::proofs::Equations::writes))]
fn written(c: &LCommand, objects: &mut BTreeSet<u32>) -> Result<(), Memory>
    ensures { OnOk result (objects.new.keys ≡ written (plain_lcommand c.now) objects.old.keys) }
{
    match c {
        LCommand::Write { target, value: _ } => put_number(objects, object_in(*target)),
        LCommand::Seq { commands } => all_written(commands.as_slice(), objects),
        LCommand::If { test: _, yes, no } => {
            written(yes, objects)?;
            written(no, objects)
        }
        LCommand::Skip | LCommand::Assign { .. } | LCommand::Print { .. } => Ok(()),
    }
}

#[cycle(written)]
#[tactic(auto, using(crate::proofs::Equations::write_lists, homeo_meaning::proofs::Steps::steps))]
fn all_written(cs: &[LCommand], objects: &mut BTreeSet<u32>) -> Result<(), Memory>
    ensures { OnOk result (objects.new.keys ≡ all_written (low_commands (map plain_lcommand cs.now)) objects.old.keys) }
{
    for c in cs {
        written(c, objects)?;
    }
    Ok(())
}

/// The objects that commands write, in rising order.
pub(crate) fn objects_written(alloc: Global, cs: &[LCommand]) -> Result<Vec<u32>, Memory>
    ensures { IfOk result (λ objects. objects.items ≡ all_written (low_commands (map plain_lcommand cs.now)) []) }
{
    let mut objects = BTreeSet::new(alloc);
    all_written(cs, &mut objects)?;
    Ok(objects.iter().copied().collect(alloc)?)
}

/// The first fresh temporary behind that of the flag and those of the saved objects.
pub(crate) fn first_behind(saved: &[u32]) -> Result<u32, Memory>
    ensures { IfOk result (λ n. n ≡ 1 + length saved.now) }
{
    // An L form that writes more objects is larger than any memory.
    let count = saved.len();
    if count >= u32::MAX as usize {
        return Err(Memory);
    }
    Ok(count as u32 + 1)
}

/// The commands of a body between saving these objects and, where the call is ended, setting them again.
pub(crate) fn undoing(
    alloc: Global,
    saved: &[u32],
    body: List<LCommand>,
) -> Result<LCommand, Memory>
    ensures { IfOk result (λ c. plain_lcommand c ≡ undoing saved.now (low_commands (map plain_lcommand body.items))) }
{
    let mut all = List::new(alloc);
    all.push(set_flag(0))?;
    let mut restores = List::new(alloc);
    let mut temp: u32 = 0;
    for object in saved {
        // An L form with so many temporaries is larger than any memory.
        temp = temp.checked_add(1).ok_or(Memory)?;
        all.push(LCommand::Assign {
            target: Temp::Fresh(temp),
            value: read(*object),
        })?;
        restores.push(LCommand::Write {
            target: SplitName::Whole(*object),
            value: fresh(temp),
        })?;
    }
    all.push(LCommand::Seq { commands: body })?;
    let ended = one_test(alloc, equal(flag(), 1))?;
    let undo = choice(
        alloc,
        ended,
        LCommand::Seq { commands: restores },
        LCommand::Skip,
    )?;
    all.push(undo)?;
    Ok(LCommand::Seq { commands: all })
}
