//! Sizes, depths and weights of phrases.

ghost use Rattle.std.specs.Prelude.{◌≡◌};
ghost use Rattle.homeo_meaning.specs.LowWeights.{number_weight};
ghost use Rattle.homeo_size.specs.inner.Numbers.{weight_cap};
ghost use Rattle.homeo_size.specs.inner.Parts.{literal, beside, plus, times, around, summed, compared, greater, no_more, unwritten, written};

use crate::numbers::{capped, weight_capped};

/// The size, the depth and the weight of a phrase, each told up to its cap. A test or a condition has the greatest
/// weight of its expressions.
#[derive(Clone, Copy, Debug, PartialEq, Eq)]
pub(crate) struct Extent {
    pub(crate) size: u64,
    pub(crate) depth: u64,
    pub(crate) weight: u64,
}

/// The extent of a temporary that nothing is assigned to.
pub(crate) const SINGLE: Extent = Extent {
    size: 1,
    depth: 1,
    weight: 1,
};

/// The extent of the test that always passes.
pub(crate) const TRUTH: Extent = Extent {
    size: 1,
    depth: 1,
    weight: 0,
};

/// The extent of no phrase at all.
pub(crate) const NOTHING: Extent = Extent {
    size: 0,
    depth: 0,
    weight: 0,
};

/// The extent of no factor.
pub(crate) const NO_FACTOR: Extent = Extent {
    size: 0,
    depth: 0,
    weight: 1,
};

/// The weight of a number: its size, and at least 1.
#[tactic(auto, unfolding(crate::specs::inner::Key::definitions, homeo_meaning::specs::Key::definitions))]
pub(crate) fn number_weight(n: i64) -> u64
    ensures { result ≡ weight_cap (number_weight n) }
{
    weight_capped(n.unsigned_abs().max(1))
}

#[tactic(auto, unfolding(crate::specs::inner::Key::definitions))]
pub(crate) fn literal(n: i64) -> Extent
    ensures { result ≡ literal n }
{
    Extent {
        size: 1,
        depth: 1,
        weight: number_weight(n),
    }
}

/// The extent of tests, or of one beside another.
#[tactic(auto, unfolding(crate::specs::inner::Key::definitions))]
pub(crate) fn beside(a: Extent, b: Extent) -> Extent
    ensures { result ≡ beside a b }
{
    Extent {
        size: capped(a.size.saturating_add(b.size)),
        depth: a.depth.max(b.depth),
        weight: a.weight.max(b.weight),
    }
}

/// The extent with another weight, told up to its cap.
fn weighing(e: Extent, weight: u64) -> Extent
    ensures { result ≡ record { size = e.size; depth = e.depth; weight = weight_cap weight } }
{
    Extent {
        weight: weight_capped(weight),
        ..e
    }
}

/// The extent of terms, with one more.
#[tactic(auto, unfolding(crate::specs::inner::Key::definitions))]
pub(crate) fn plus(a: Extent, b: Extent) -> Extent
    ensures { result ≡ plus a b }
{
    weighing(beside(a, b), a.weight.saturating_add(b.weight))
}

/// The extent of factors, with one more.
#[tactic(auto, unfolding(crate::specs::inner::Key::definitions))]
pub(crate) fn times(a: Extent, b: Extent) -> Extent
    ensures { result ≡ times a b }
{
    weighing(beside(a, b), a.weight.saturating_mul(b.weight))
}

/// The extent of a phrase whose parts have this extent.
#[tactic(auto, unfolding(crate::specs::inner::Key::definitions))]
pub(crate) fn around(parts: Extent) -> Extent
    ensures { result ≡ around parts }
{
    Extent {
        size: capped(parts.size.saturating_add(1)),
        depth: capped(parts.depth.saturating_add(1)),
        weight: parts.weight,
    }
}

/// The extent of a sum whose terms have this extent.
#[tactic(auto, unfolding(crate::specs::inner::Key::definitions))]
pub(crate) fn summed(terms: Extent) -> Extent
    ensures { result ≡ summed terms }
{
    Extent {
        weight: terms.weight.max(1),
        ..around(terms)
    }
}

#[tactic(auto, unfolding(crate::specs::inner::Key::definitions))]
pub(crate) fn compared(a: Extent, b: Extent) -> Extent
    ensures { result ≡ compared a b }
{
    around(beside(a, b))
}

#[tactic(auto, unfolding(crate::specs::inner::Key::definitions))]
pub(crate) fn greater(a: Extent, b: Extent) -> Extent
    ensures { result ≡ greater a b }
{
    Extent {
        size: a.size.max(b.size),
        depth: a.depth.max(b.depth),
        weight: a.weight.max(b.weight),
    }
}

/// Whether the first is in no respect more than the second.
#[tactic(auto, unfolding(crate::specs::inner::Key::definitions))]
pub(crate) fn no_more(a: Extent, b: Extent) -> bool
    ensures { result ≡ no_more a b }
{
    a.size <= b.size && a.depth <= b.depth && a.weight <= b.weight
}

/// The extent of an object that nothing is written to: the sum of its base and its sites' deltas.
#[tactic(auto, unfolding(crate::specs::inner::Key::definitions))]
pub(crate) fn unwritten(sites: u64, weight: u64) -> Extent
    ensures { result ≡ unwritten sites weight }
{
    Extent {
        size: capped(sites.saturating_add(2)),
        depth: 2,
        weight,
    }
}

/// The extent of an object that a value is written to.
#[tactic(auto, unfolding(crate::specs::inner::Key::definitions))]
pub(crate) fn written(sites: u64, value: Extent) -> Extent
    ensures { result ≡ written sites value }
{
    let deltas = sites.saturating_mul(3).saturating_add(2);
    Extent {
        size: capped(value.size.saturating_add(deltas)),
        depth: capped(value.depth.saturating_add(3)),
        weight: value.weight,
    }
}
