//! The rules of bounds.

ghost use Rattle.std.specs.Prelude.{◌≡◌, slice_get};
ghost use Rattle.homeo_meaning.specs.NumberRules.{argument_outside, too_large, crossed, range_faults, outside, object_faults, range_bounds, site_faults};
ghost use Rattle.homeo_rules.specs.inner.Deciding.{keep_all};
ghost use Rattle.homeo_rules.specs.inner.Listwise.{along_all, along_arguments};

use crate::deciding::at_number;
use homeo_meaning::{Fault, Phase};
use homeo_syntax::{Number, ObjectDecl, RangeDecl};

/// No bound is larger than this, with or without sign.
const LARGEST_BOUND: i64 = 1_000_000_000_000;

/// A number of a declaration is not larger than bounds may be.
#[tactic(auto, using(crate::proofs::Steps::keeping), unfolding(homeo_meaning::specs::Key::definitions))]
fn check_size(n: Number, best: Option<Fault>) -> Option<Fault>
    ensures { result ≡ keep_all best (too_large n) }
{
    if n.value < -LARGEST_BOUND || LARGEST_BOUND < n.value {
        at_number(best, Phase::Bounds, n)
    } else {
        best
    }
}

/// The lower bound is not above the upper one.
#[tactic(auto, using(crate::proofs::Steps::keeping), unfolding(homeo_meaning::specs::Key::definitions))]
fn check_order(lo: Number, hi: Number, best: Option<Fault>) -> Option<Fault>
    ensures { result ≡ keep_all best (crossed lo hi) }
{
    if hi.value < lo.value {
        at_number(best, Phase::Bounds, lo)
    } else {
        best
    }
}

/// A number stands between two bounds.
#[tactic(auto, using(crate::proofs::Steps::keeping), unfolding(homeo_meaning::specs::Key::definitions))]
fn check_within(lo: Number, hi: Number, n: Number, best: Option<Fault>) -> Option<Fault>
    ensures { result ≡ keep_all best (outside lo hi n) }
{
    if n.value < lo.value || hi.value < n.value {
        at_number(best, Phase::Bounds, n)
    } else {
        best
    }
}

/// Two bounds.
#[tactic(auto, using(crate::proofs::Numbers::bounds))]
fn check_range(lo: Number, hi: Number, best: Option<Fault>) -> Option<Fault>
    ensures { result ≡ keep_all best (range_faults lo hi) }
{
    let best = check_size(lo, best);
    let best = check_size(hi, best);
    check_order(lo, hi, best)
}

/// An object's bounds, and its first value between them.
#[tactic(auto, using(crate::proofs::Numbers::bounds))]
fn check_object(d: ObjectDecl, best: Option<Fault>) -> Option<Fault>
    ensures { result ≡ keep_all best (object_faults d) }
{
    let best = check_range(d.lo, d.hi, best);
    check_within(d.lo, d.hi, d.start, best)
}

#[tactic(auto, using(crate::proofs::Numbers::bounds))]
fn check_declared(d: RangeDecl, best: Option<Fault>) -> Option<Fault>
    ensures { result ≡ keep_all best (range_bounds d) }
{
    check_range(d.lo, d.hi, best)
}

/// The bounds and first values of objects.
pub(crate) fn check_objects(ds: &[ObjectDecl], best: Option<Fault>) -> Option<Fault>
    ensures { result ≡ along_all object_faults best ds.now }
{
    let mut best = best;
    for d in ds {
        best = check_object(*d, best);
    }
    best
}

/// The bounds of parameters or of fields.
pub(crate) fn check_ranges(ds: &[RangeDecl], best: Option<Fault>) -> Option<Fault>
    ensures { result ≡ along_all range_bounds best ds.now }
{
    let mut best = best;
    for d in ds {
        best = check_declared(*d, best);
    }
    best
}

/// The argument at the place of a parameter, where there is one.
#[tactic(auto, using(crate::proofs::Steps::keeping), unfolding(homeo_meaning::specs::Key::definitions))]
fn check_argument(d: RangeDecl, args: &[Number], place: usize, best: Option<Fault>) -> Option<Fault>
    ensures { result ≡ keep_all best (argument_outside d (slice_get args.now place)) }
{
    match args.get(place) {
        Some(a) => check_within(d.lo, d.hi, *a, best),
        None => best,
    }
}

/// Each argument within the bounds of its parameter.
pub(crate) fn check_arguments(
    ds: &[RangeDecl],
    args: &[Number],
    best: Option<Fault>,
) -> Option<Fault>
    ensures { result ≡ along_arguments best 0 ds.now args.now }
{
    let mut best = best;
    for (i, d) in ds.iter().enumerate() {
        best = check_argument(*d, args, i, best);
    }
    best
}

/// The site of a client is one that there is.
#[tactic(auto, using(crate::proofs::Steps::keeping), unfolding(homeo_meaning::specs::Key::definitions))]
pub(crate) fn check_site(sites: Number, site: Number, best: Option<Fault>) -> Option<Fault>
    ensures { result ≡ keep_all best (site_faults sites site) }
{
    if sites.value <= site.value {
        at_number(best, Phase::Bounds, site)
    } else {
        best
    }
}
