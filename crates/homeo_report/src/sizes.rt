//! How many calls a history has and how much they printed, and about how large its report is.
#![tactic(auto, unfolding(crate::specs::Key::definitions, homeo_history::specs::Key::definitions))]

ghost use Rattle.std.specs.Prelude.{◌≡◌, ◌+◌, map, length, IfOk};
ghost use Rattle.std.specs.List.{flat_map};
ghost use Rattle.homeo_history.specs.HistoryView.{plain_entry, plain_segment, plain_round};
ghost use Rattle.homeo_history.specs.Legal.{entries_of, calls_of};
ghost use Rattle.homeo_report.specs.Summary.{prints_in, prints_of};

use homeo_history::{Entry, History, Round, Segment};
use homeo_syntax::{Memory, Workload};

/// The bytes that the line of a call, beside what it prints, and that of an object have in most reports.
const LINE: u64 = 16;

/// The bytes that the line of a site has.
const SITE: u64 = 8;

/// The bytes that the other lines of a round have in most reports.
const ROUND: u64 = 48;

/// The bytes that a print has at least.
const PRINT: u64 = 2;

/// How many calls, and how many numbers they printed.
#[derive(Clone, Copy)]
pub(crate) struct Totals {
    pub(crate) calls: u64,
    pub(crate) prints: u64,
}

fn add(count: u64, more: usize) -> Result<u64, Memory>
    ensures { IfOk result (λ n. n ≡ count + more) }
{
    match count.checked_add(more as u64) {
        Some(sum) => Ok(sum),
        None => Err(Memory),
    }
}

/// The totals with one entry more.
fn with_entry(totals: Totals, entry: &Entry) -> Result<Totals, Memory>
    ensures calls { IfOk result (λ t. t.calls ≡ totals.calls + 1) }
    ensures prints { IfOk result (λ t. t.prints ≡ totals.prints + length entry.now.prints.items) }
{
    Ok(Totals {
        calls: add(totals.calls, 1)?,
        prints: add(totals.prints, entry.prints.as_slice().len())?,
    })
}

fn with_entries(totals: Totals, entries: &[Entry]) -> Result<Totals, Memory>
    ensures calls { IfOk result (λ t. t.calls ≡ totals.calls + length entries.now) }
    ensures prints { IfOk result (λ t. t.prints ≡ totals.prints + length (prints_in (map plain_entry entries.now))) }
{
    let mut all = totals;
    for entry in entries {
        all = with_entry(all, entry)?;
    }
    Ok(all)
}

fn with_segments(totals: Totals, segments: &[Segment]) -> Result<Totals, Memory>
    ensures calls { IfOk result (λ t. t.calls ≡ totals.calls + length (flat_map plain_segment segments.now)) }
    ensures prints { IfOk result (λ t. t.prints ≡ totals.prints + length (prints_in (flat_map plain_segment segments.now))) }
{
    let mut all = totals;
    for segment in segments {
        all = with_entries(all, segment.entries.as_slice())?;
    }
    Ok(all)
}

fn with_round(totals: Totals, round: &Round) -> Result<Totals, Memory>
    ensures calls { IfOk result (λ t. t.calls ≡ totals.calls + length (entries_of (plain_round round.now))) }
    ensures prints { IfOk result (λ t. t.prints ≡ totals.prints + length (prints_in (entries_of (plain_round round.now)))) }
{
    let all = with_segments(totals, round.segments.as_slice())?;
    match &round.closing {
        Some(closing) => Ok(with_entry(all, &closing.entry)?),
        None => Ok(all),
    }
}

/// How many calls the rounds have, and how many numbers they printed.
///
/// # Errors
///
/// `Memory` where there are 2^64 calls or prints, for which there is no memory.
pub(crate) fn totals_of(rounds: &[Round]) -> Result<Totals, Memory>
    ensures calls { IfOk result (λ t. t.calls ≡ length (calls_of (map plain_round rounds.now))) }
    ensures prints { IfOk result (λ t. t.prints ≡ length (prints_of (map plain_round rounds.now))) }
{
    let mut all = Totals {
        calls: 0,
        prints: 0,
    };
    for round in rounds {
        all = with_round(all, round)?;
    }
    Ok(all)
}

/// About how many bytes the report of a history with these totals has: somewhat more than it has where what is printed is short, and
/// less where it is long.
pub(crate) fn likely_size(history: &History, w: &Workload, totals: Totals) -> u64 {
    let objects = history.last.as_slice().len() as u64;
    let rounds = history.rounds.as_slice().len() as u64;
    let sites = w.sites.value.unsigned_abs().saturating_mul(SITE);
    let lines = totals.calls.saturating_add(objects).saturating_mul(LINE);
    let headings = sites.saturating_add(ROUND).saturating_mul(rounds);
    let prints = totals.prints.saturating_mul(PRINT);
    lines.saturating_add(headings).saturating_add(prints)
}
