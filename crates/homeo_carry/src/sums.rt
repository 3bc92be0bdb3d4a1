//! The base of a round with the deltas of its sites.

ghost use Rattle.std.specs.Prelude.{◌≡◌, ◌+ℤ◌, IfOk, IfSome, IsSome, IsTrue, All, FitsSigned};
ghost use Rattle.std.specs.Int.{w64};
ghost use Rattle.homeo_round.specs.PlusDeltas.{plus_deltas};
ghost use Rattle.homeo_nodes.specs.Nodes.{folded};
ghost use Rattle.homeo_carry.specs.inner.Carrying.{deltas_in, deltas_said, FoldsFit};

use crate::said::Said;
use homeo_meaning::Database;
use homeo_site::BareSite;
use homeo_syntax::{List, Memory};
use std::alloc::Global;

/// The sum, where it fits.
fn sum_of(value: i64, delta: i64) -> Option<i64>
    ensures sum { IfSome result (λ sum. sum ≡ value +ℤ delta) }
    ensures fits { FitsSigned w64 (value +ℤ delta) → IsSome result }
{
    value.checked_add(delta)
}

/// Adds to each value the delta at its place, if there is one, and says whether each sum fits i64; if not, only some are added.
#[tactic(auto, using(homeo_round::proofs::Added::added))]
fn add_fits(values: &mut [i64], deltas: &[i64]) -> bool
    ensures sum { IsTrue result → values.new ≡ plus_deltas values.old deltas.now }
    ensures fits { All (FitsSigned w64) (plus_deltas values.old deltas.now) → IsTrue result }
{
    let count = values.len().min(deltas.len());
    for i in 0..count {
        match sum_of(values[i], deltas[i]) {
            Some(sum) => values[i] = sum,
            None => return false,
        }
    }
    true
}

/// Adds the deltas of all sites, and says whether each sum fits i64; if not, only some are added.
#[tactic(auto, unfolding(homeo_nodes::specs::Key::definitions))]
fn add_sites(values: &mut [i64], sites: &[BareSite]) -> bool
    ensures sum { IsTrue result → values.new ≡ folded values.old (deltas_in sites.now) }
    ensures fits { FoldsFit values.old (deltas_in sites.now) → IsTrue result }
{
    for site in sites {
        if !add_fits(values, site.deltas().as_slice()) {
            return false;
        }
    }
    true
}

/// Adds the deltas that all sites have said, and says whether each sum fits i64; if not, only some are added.
#[tactic(auto, unfolding(homeo_nodes::specs::Key::definitions))]
fn add_said(values: &mut [i64], states: &[Said]) -> bool
    ensures sum { IsTrue result → values.new ≡ folded values.old (deltas_said states.now) }
    ensures fits { FoldsFit values.old (deltas_said states.now) → IsTrue result }
{
    for said in states {
        if !add_fits(values, said.deltas.as_slice()) {
            return false;
        }
    }
    true
}

/// A base with the deltas of all sites, where each sum fits i64.
pub(crate) fn fold_sites(
    alloc: Global,
    base: &[i64],
    sites: &[BareSite],
) -> Result<Option<Database>, Memory>
    ensures sum { IfOk result (λ o. IfSome o (λ d. d.items ≡ folded base.now (deltas_in sites.now))) }
    ensures fits { FoldsFit base.now (deltas_in sites.now) → IfOk result IsSome }
{
    let mut sum = Vec::from_slice(alloc, base)?;
    if !add_sites(sum.as_mut_slice(), sites) {
        return Ok(None);
    }
    Ok(Some(List::from_vec(sum)))
}

/// A base with the deltas that all sites have said, where each sum fits i64.
pub(crate) fn fold_said(
    alloc: Global,
    base: &[i64],
    states: &[Said],
) -> Result<Option<Database>, Memory>
    ensures sum { IfOk result (λ o. IfSome o (λ d. d.items ≡ folded base.now (deltas_said states.now))) }
    ensures fits { FoldsFit base.now (deltas_said states.now) → IfOk result IsSome }
{
    let mut sum = Vec::from_slice(alloc, base)?;
    if !add_said(sum.as_mut_slice(), states) {
        return Ok(None);
    }
    Ok(Some(List::from_vec(sum)))
}

/// The values with the deltas added, where each sum fits i64.
///
/// # Errors
///
/// `Memory` when out of memory.
pub fn plus(alloc: Global, values: &[i64], deltas: &[i64]) -> Result<Option<Database>, Memory>
    ensures sum { IfOk result (λ o. IfSome o (λ d. d.items ≡ plus_deltas values.now deltas.now)) }
    ensures fits { All (FitsSigned w64) (plus_deltas values.now deltas.now) → IfOk result IsSome }
{
    let mut sum = Vec::from_slice(alloc, values)?;
    if !add_fits(sum.as_mut_slice(), deltas) {
        return Ok(None);
    }
    Ok(Some(List::from_vec(sum)))
}
