//! Appending rounds, and the whole report.
#![tactic(auto, using(crate::proofs::RoundLines::round_steps), unfolding(crate::specs::Key::definitions, homeo_history::specs::Key::definitions))]

ghost use Rattle.std.specs.Prelude.{◌≡◌, ◌++◌, map, option_map, IfOk, OnOk};
ghost use Rattle.homeo_syntax.specs.SourceView.{plain_workload};
ghost use Rattle.homeo_history.specs.HistoryView.{plain_entry, plain_segment, plain_closing, plain_round, plain_history};
ghost use Rattle.homeo_report.specs.Report.{segment_text, segments_text, closing_heading, closing_text, round_text, rounds_text, totals_line, report, CanReport};

use crate::calls::push_entry;
use crate::objects::push_objects;
use crate::sizes::{likely_size, totals_of};
use homeo_history::{Closing, Entry, History, Round, Segment};
use homeo_meaning::Accepted;
use homeo_plan::Broken;
use homeo_print::{ObjectNames, push_byte, push_bytes, push_heading, push_number, push_wide};
use homeo_syntax::{Memory, Workload};
use std::alloc::Global;

/// Appends the entries of a site, behind its number.
#[tactic(auto, using(crate::proofs::RoundLines::round_steps), unfolding(crate::specs::Key::definitions))]
fn push_segment(out: &mut Vec<u8>, w: &Workload, site: u64, entries: &[Entry]) -> Result<(), Memory>
    ensures { OnOk result (out.new.items
        ≡ out.old.items
        ++ segment_text (plain_workload w.now) site (map plain_entry entries.now)) }
{
    push_heading(out, b"site ", site)?;
    for entry in entries {
        push_entry(out, w, entry)?;
    }
    Ok(())
}

fn push_segments(out: &mut Vec<u8>, w: &Workload, segments: &[Segment]) -> Result<(), Memory>
    ensures { OnOk result (out.new.items
        ≡ out.old.items
        ++ segments_text (plain_workload w.now) (map plain_segment segments.now)) }
{
    for (site, segment) in segments.iter().enumerate() {
        push_segment(out, w, site as u64, segment.entries.as_slice())?;
    }
    Ok(())
}

/// Appends the heading of a closing call at a site, with what the call breaks there.
fn push_closing_heading(out: &mut Vec<u8>, site: u32, broken: Broken) -> Result<(), Memory>
    ensures { OnOk result (out.new.items ≡ out.old.items ++ closing_heading site broken) }
{
    push_bytes(out, b"close ")?;
    push_number(out, site as u64)?;
    push_bytes(out, b" clause ")?;
    push_number(out, broken.clause as u64)?;
    push_bytes(out, b" sum ")?;
    push_wide(out, broken.sum)?;
    push_bytes(out, b" bound ")?;
    push_wide(out, broken.bound)?;
    push_byte(out, b'\n')
}

fn push_closing(out: &mut Vec<u8>, w: &Workload, closing: &Option<Closing>) -> Result<(), Memory>
    ensures { OnOk result (out.new.items
        ≡ out.old.items
        ++ closing_text (plain_workload w.now) (option_map plain_closing closing.now)) }
{
    match closing {
        Some(closing) => {
            push_closing_heading(out, closing.site, closing.broken)?;
            push_entry(out, w, &closing.entry)
        }
        None => Ok(()),
    }
}

fn push_round(out: &mut Vec<u8>, w: &Workload, number: u64, round: &Round) -> Result<(), Memory>
    ensures { OnOk result (out.new.items
        ≡ out.old.items ++ round_text (plain_workload w.now) number (plain_round round.now)) }
{
    push_heading(out, b"round ", number)?;
    push_segments(out, w, round.segments.as_slice())?;
    push_closing(out, w, &round.closing)
}

fn push_totals(out: &mut Vec<u8>, rounds: u64, calls: u64) -> Result<(), Memory>
    ensures { OnOk result (out.new.items ≡ out.old.items ++ totals_line rounds calls) }
{
    push_bytes(out, b"rounds ")?;
    push_number(out, rounds)?;
    push_bytes(out, b" calls ")?;
    push_number(out, calls)?;
    push_bytes(out, b"\n")
}

fn push_rounds(out: &mut Vec<u8>, w: &Workload, rounds: &[Round]) -> Result<(), Memory>
    ensures { OnOk result (out.new.items
        ≡ out.old.items ++ rounds_text (plain_workload w.now) (map plain_round rounds.now)) }
{
    for (number, round) in rounds.iter().enumerate() {
        push_round(out, w, number as u64, round)?;
    }
    Ok(())
}

fn report_of(alloc: Global, history: &History, w: &Workload) -> Result<Vec<u8>, Memory>
    requires { CanReport (plain_workload w.now) (plain_history history.now) }
    ensures { IfOk result (λ bytes.
        bytes.items ≡ report (plain_workload w.now) (plain_history history.now)) }
{
    let rounds = history.rounds.as_slice();
    let totals = totals_of(rounds)?;
    let mut out = Vec::with_capacity(alloc, likely_size(history, w, totals) as usize)?;
    push_rounds(&mut out, w, rounds)?;
    push_bytes(&mut out, b"database\n")?;
    let names = ObjectNames::of(alloc, w)?;
    push_objects(&mut out, &names, history.last.as_slice())?;
    push_totals(&mut out, rounds.len() as u64, totals.calls)?;
    Ok(out)
}

/// The text of the report of a run of a workload. The last database has one value for each object.
///
/// # Errors
///
/// `Memory` where memory is wanting, or where there are 2^64 calls or prints, for which there is no memory.
pub fn report(alloc: Global, history: &History, w: &Accepted) -> Result<Vec<u8>, Memory>
    requires { CanReport (plain_workload w.now) (plain_history history.now) }
    ensures { IfOk result (λ bytes.
        bytes.items ≡ report (plain_workload w.now) (plain_history history.now)) }
{
    report_of(alloc, history, w.workload())
}
