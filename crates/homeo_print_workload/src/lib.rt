//! The text of a workload, which reads as the same workload where each of its names and numbers can stand in a text (this
//! project's rule: the layout, and where parentheses stand).
#![tactic(auto)]

ghost use Rattle.std.specs.Prelude.{◌≡◌, ℕ, List, IfOk};
ghost use Rattle.homeo_syntax.specs.SourceView.{plain_workload};
ghost use Rattle.homeo_syntax.specs.Reads.{Reads};
ghost use Rattle.homeo_print_workload.specs.TokensOf.{workload_kinds};
ghost use Rattle.homeo_print_workload.specs.Print.{print};
ghost use Rattle.homeo_print_workload.specs.Printed.{IsPrintable, ScansAs};
ghost use Rattle.homeo_print_workload.specs.ReadingBack.{ReadsBack};

mod commands;
mod declarations;
pub mod laws;
mod layout;
mod phrases;
mod pieces;

use homeo_syntax::{Memory, Workload};
use std::alloc::Global;

/// The text of a workload: its declarations in order, each in a line of its own. Where the workload came from a text,
/// this text reads as it, apart from offsets. A name that isn't among the workload's names has no bytes.
///
/// # Errors
///
/// `Memory` when out of memory.
#[tactic(auto, using(crate::proofs::Laying::print_is))]
pub fn print(alloc: Global, w: &Workload) -> Result<Vec<u8>, Memory>
    ensures text { IfOk result (λ out. out.items ≡ print (plain_workload w.now)) }
    ensures tokens { IfOk result (λ out.
        IsPrintable (plain_workload w.now)
        → ScansAs
        (plain_workload w.now).names
        (workload_kinds (plain_workload w.now))
        out.items) }
    ensures reads_back { IfOk result (λ out.
        (text : List ℕ) → Reads text (plain_workload w.now)
        → ReadsBack out.items (plain_workload w.now)) }
{
    let pieces = declarations::pieces_of(alloc, w)?;
    let text = layout::text_of(alloc, w.names.as_slice(), pieces.as_slice())?;
    Ok(text)
}
