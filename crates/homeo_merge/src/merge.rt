//! The merges of a round's segments.
#![tactic(auto, using(homeo_history::proofs::HistoryViews::history_views))]

ghost use Rattle.std.specs.Prelude.{◌≡◌, ℕ, ◌==◌, ◌^◌, ◌<◌, List, [], ◌∷◌, ◌++◌, length, map, replicate, count_by, IfOk, IfSome};
ghost use Rattle.homeo_history.specs.HistoryView.{plain_segment, plain_round};
ghost use Rattle.homeo_history.specs.Merge.{segment_of, interleave, FitsSegments};
ghost use Rattle.homeo_merge.specs.Misfit.{IsMisfit};
ghost use Rattle.homeo_merge.specs.inner.Picks.{calls_at};
ghost use Rattle.homeo_merge.specs.inner.Lowest.{IsLowest};

use homeo_history::{Round, Segment};
use homeo_meaning::CallId;
use homeo_syntax::Memory;
use std::alloc::Global;

/// Why there is no merge.
#[derive(Clone, Copy, Debug, PartialEq, Eq)]
pub enum MergeError {
    /// A site is chosen another number of times than its segment is long: the lowest such number, from 0, how often it is
    /// chosen, and how long its segment is. A number past the last site has length 0.
    Misfit { site: u32, chosen: u64, length: u64 },
    /// Out of memory.
    Memory,
}

/// The calls of the merge of a round's segments that a choice of sites picks (Roy et al., SIGMOD 2015): for each number in
/// the choice the next call of that site, each segment in its own order. The closing call isn't among them. It takes
/// memory linear in the calls and the sites, and goes over the choice once for each site.
///
/// # Errors
///
/// `Misfit` exactly where some site is chosen another number of times than its segment is long, with the lowest such
/// number. Else `Memory` when out of memory.
pub fn interleave(alloc: Global, round: &Round, choice: &[u32]) -> Result<Vec<CallId>, MergeError>
    requires few { length round.now.segments.items < 2 ^ 32 }
    ensures merge { IfOk result (λ calls. calls.items ≡ interleave (plain_round round.now).segments choice.now) }
    ensures fits { IfOk result (λ _. FitsSegments (plain_round round.now).segments choice.now) }
    ensures memory { result ≡ Err MergeError.Memory → FitsSegments (plain_round round.now).segments choice.now }
    ensures misfit { (site chosen long : ℕ) → result ≡ Err (MergeError.Misfit site chosen long) →
        IsMisfit (plain_round round.now).segments choice.now site chosen long }
{
    let segments = round.segments.as_slice();
    match find_misfit(segments, choice) {
        Some(misfit) => Err(MergeError::Misfit {
            site: misfit.site,
            chosen: misfit.chosen,
            length: misfit.length,
        }),
        None => match pick(alloc, segments, choice) {
            Ok(calls) => Ok(calls),
            Err(Memory) => Err(MergeError::Memory),
        },
    }
}

/// A site, how often it is chosen, and how long its segment is.
#[derive(Clone, Copy, Debug, PartialEq, Eq)]
struct Misfit {
    site: u32,
    chosen: u64,
    length: u64,
}

/// The lowest number that a choice doesn't have as often as its segment is long.
fn find_misfit(segments: &[Segment], choice: &[u32]) -> Option<Misfit>
    requires few { length segments.now < 2 ^ 32 }
    ensures fits { result ≡ None → FitsSegments (map plain_segment segments.now) choice.now }
    ensures misfit { IfSome result (λ m. IsMisfit (map plain_segment segments.now) choice.now m.site m.chosen m.length) }
{
    for (site, segment) in segments.iter().enumerate() {
        let chosen = times_in(choice, site as u32);
        let length = segment.entries.as_slice().len() as u64;
        if chosen != length {
            return Some(Misfit {
                site: site as u32,
                chosen,
                length,
            });
        }
    }
    match lowest_past(choice, segments.len() as u32) {
        Some(site) => Some(Misfit {
            site,
            chosen: times_in(choice, site),
            length: 0,
        }),
        None => None,
    }
}

/// How often a number stands in a choice.
fn times_in(choice: &[u32], number: u32) -> u64
    ensures { result ≡ count_by (λ i. number == i) choice.now }
{
    let mut times = 0;
    for site in choice {
        if number == *site {
            times += 1;
        }
    }
    times
}

/// The lowest number in a choice that is past the last of so many sites.
fn lowest_past(choice: &[u32], sites: u32) -> Option<u32>
    ensures { IsLowest sites choice.now result }
{
    let mut lowest = None;
    for site in choice {
        lowest = or_lower(lowest, sites, *site);
    }
    lowest
}

/// The lowest such number with one number more.
fn or_lower(before: Option<u32>, sites: u32, number: u32) -> Option<u32>
    ensures { (choice : List ℕ) → IsLowest sites choice before → IsLowest sites (choice ++ number ∷ []) result }
{
    if number < sites {
        return before;
    }
    match before {
        Some(lowest) => {
            if number < lowest {
                Some(number)
            } else {
                before
            }
        }
        None => Some(number),
    }
}

/// The calls that a choice picks which fits.
fn pick(alloc: Global, segments: &[Segment], choice: &[u32]) -> Result<Vec<CallId>, Memory>
    requires fits { FitsSegments (map plain_segment segments.now) choice.now }
    ensures { IfOk result (λ calls. calls.items ≡ interleave (map plain_segment segments.now) choice.now) }
{
    let mut taken = none_taken(alloc, segments.len())?;
    let mut calls = Vec::new(alloc);
    for site in choice {
        let site = *site as usize;
        let next = taken[site];
        calls.push(call_at(segments, site, next))?;
        taken[site] = next + 1;
    }
    Ok(calls)
}

/// How many entries of each of so many sites are picked at first.
fn none_taken(alloc: Global, sites: usize) -> Result<Vec<usize>, Memory>
    ensures { IfOk result (λ taken. taken.items ≡ replicate sites 0) }
{
    Ok(vec![in alloc; 0; sites]?)
}

/// The call of a site's entry at a place, from 0.
fn call_at(segments: &[Segment], site: usize, place: usize) -> CallId
    requires site { site < length segments.now }
    requires place { place < length (segment_of (map plain_segment segments.now) site) }
    ensures { calls_at (map plain_segment segments.now) site place ≡ result ∷ [] }
{
    segments[site].entries.as_slice()[place].call
}
