//! The text of a joint table.
#![tactic(auto, using(crate::proofs::ChoiceLines::choice_steps))]

ghost use Rattle.std.specs.Prelude.{◌≡◌, ℕ, ◌<◌, ◌≤◌, List, ◌++◌, map, length, pos, OnOk};
ghost use Rattle.homeo_print.specs.Tables.{most_choices, choices_text};
ghost use Rattle.homeo_print.specs.inner.Choices.{pick_text, picks_text};

use crate::append::{push_bytes, push_heading, push_numbers};
use homeo_plan::JointRow;
use homeo_syntax::Memory;

/// Appends the line of a choice.
fn push_pick(out: &mut Vec<u8>, row: &JointRow) -> Result<(), Memory>
    ensures { OnOk result (out.new.items ≡ out.old.items ++ pick_text row.now.picks.items) }
{
    push_bytes(out, b"pick")?;
    push_numbers(out, row.picks.as_slice())?;
    push_bytes(out, b"\n")
}

fn push_picks(out: &mut Vec<u8>, rows: &[JointRow]) -> Result<(), Memory>
    ensures { OnOk result (out.new.items ≡ out.old.items ++ picks_text (map (λ r. r.picks.items) rows.now)) }
{
    for row in rows {
        push_pick(out, row)?;
    }
    Ok(())
}

/// Appends a joint table of at most 1,024 choices: a line with how many there are, and then a line for each, with the
/// numbers of its rows.
///
/// # Errors
///
/// `Memory` when out of memory, and then some of the bytes may be appended.
pub fn print_joint(out: &mut Vec<u8>, rows: &[JointRow]) -> Result<(), Memory>
    requires few { length rows.now ≤ most_choices }
    ensures text { (picks : List (List ℕ)) → map (λ r. r.picks.items) rows.now ≡ map (map pos) picks
        → OnOk result (out.new.items ≡ out.old.items ++ choices_text picks) }
{
    push_heading(out, b"joint ", rows.len() as u64)?;
    push_picks(out, rows)?;
    Ok(())
}

/// Appends what stands in place of a joint table of more than 1,024 choices.
///
/// # Errors
///
/// `Memory` when out of memory, and then some of the bytes may be appended.
pub fn print_too_many_choices(out: &mut Vec<u8>) -> Result<(), Memory>
    ensures text { (picks : List (List ℕ)) → most_choices < length picks
        → OnOk result (out.new.items ≡ out.old.items ++ choices_text picks) }
{
    push_bytes(out, b"joint too many\n")?;
    Ok(())
}
