//! The rules of the sites' weights.

ghost use Rattle.std.specs.Prelude.{◌≡◌, not, pos};
ghost use Rattle.std.specs.List.{list_all};
ghost use Rattle.std.specs.Ordering.{int_eq};
ghost use Rattle.homeo_meaning.specs.ListRules.{when, number_fault};
ghost use Rattle.homeo_meaning.specs.declared.rules.Phase.TheVariants.{Arity};
ghost use Rattle.homeo_meaning.specs.NumberRules.{too_heavy, is_weightless, weight_list_faults, site_weight_faults};
ghost use Rattle.homeo_rules.specs.inner.Deciding.{keep_all};
ghost use Rattle.homeo_rules.specs.inner.Listwise.{along_all};

use crate::deciding::at_number;
use homeo_meaning::{Fault, Phase};
use homeo_syntax::Number;

/// No weight is larger than this.
const LARGEST_WEIGHT: i64 = 1_000;

/// A weight is not too large.
#[tactic(auto, using(crate::proofs::Steps::keeping), unfolding(homeo_meaning::specs::Key::definitions))]
fn check_weight(n: Number, best: Option<Fault>) -> Option<Fault>
    ensures { result ≡ keep_all best (too_heavy n) }
{
    if LARGEST_WEIGHT < n.value {
        at_number(best, Phase::Bounds, n)
    } else {
        best
    }
}

/// No weight is too large.
fn check_each(weights: &[Number], best: Option<Fault>) -> Option<Fault>
    ensures { result ≡ along_all too_heavy best weights.now }
{
    let mut best = best;
    for n in weights {
        best = check_weight(*n, best);
    }
    best
}

fn is_weightless(n: Number) -> bool
    ensures { result ≡ is_weightless n }
{
    n.value == 0
}

/// Whether all weights are 0.
fn are_weightless(weights: &[Number]) -> bool
    ensures { result ≡ list_all is_weightless weights.now }
{
    for n in weights {
        if !is_weightless(*n) {
            return false;
        }
    }
    true
}

/// Whether there are so many sites.
fn is_count(sites: Number, count: usize) -> bool
    ensures { result ≡ int_eq (pos count) sites.value }
{
    count as i128 == sites.value as i128
}

/// There are as many weights as sites; the first of them is given.
#[tactic(auto, using(crate::proofs::Steps::keeping), unfolding(homeo_meaning::specs::Key::definitions))]
fn check_count(sites: Number, count: usize, first: Number, best: Option<Fault>) -> Option<Fault>
    ensures { result ≡ keep_all best (when (not (int_eq (pos count) sites.value)) (number_fault Arity first)) }
{
    if is_count(sites, count) {
        best
    } else {
        at_number(best, Phase::Arity, first)
    }
}

/// Where there are weights, there are as many as sites, and one that isn't 0.
fn check_list(sites: Number, weights: &[Number], best: Option<Fault>) -> Option<Fault>
    ensures { result ≡ keep_all best (weight_list_faults sites weights.now) }
{
    if weights.is_empty() {
        return best;
    }
    let first = weights[0];
    let best = check_count(sites, weights.len(), first, best);
    if are_weightless(weights) {
        at_number(best, Phase::Bounds, first)
    } else {
        best
    }
}

/// The weights of the sites, which a workload may have none of.
pub(crate) fn check_site_weights(
    sites: Number,
    weights: &[Number],
    best: Option<Fault>,
) -> Option<Fault>
    ensures { result ≡ keep_all best (site_weight_faults sites weights.now) }
{
    let best = check_list(sites, weights, best);
    check_each(weights, best)
}
