//! Measures of commands, made of those of their parts.

ghost use Rattle.std.specs.Prelude.{◌≡◌};
ghost use Rattle.homeo_size.specs.inner.Parts.{valued, writing, chosen, followed};

use crate::extent::Extent;
use crate::numbers::capped;

/// How large the L form of a call is, each number told up to its cap: BEYOND, and TOO_HEAVY for weights.
#[derive(Clone, Copy, Debug, PartialEq, Eq)]
pub struct Measure {
    /// Its size, where an object and a write count for the deltas of all sites.
    pub size: u64,
    /// The greatest depth of an expression or a condition.
    pub depth: u64,
    /// The greatest weight of an expression, and 0 where there is none.
    pub weight: u64,
    /// The rows of its symbolic table.
    pub rows: u64,
}

/// The measure of a command without parts, and of a sequence without commands.
pub(crate) const EMPTY: Measure = Measure {
    size: 1,
    depth: 0,
    weight: 0,
    rows: 1,
};

/// The measure of an assignment or a print.
#[tactic(auto, unfolding(crate::specs::inner::Key::definitions))]
pub(crate) fn valued(value: Extent) -> Measure
    ensures { result ≡ valued value }
{
    Measure {
        size: capped(value.size.saturating_add(1)),
        depth: value.depth,
        weight: value.weight,
        rows: 1,
    }
}

/// The measure of a write.
#[tactic(auto, unfolding(crate::specs::inner::Key::definitions))]
pub(crate) fn writing(sites: u64, value: Extent) -> Measure
    ensures { result ≡ writing sites value }
{
    let deltas = sites.saturating_mul(3).saturating_add(3);
    Measure {
        size: capped(deltas.saturating_add(value.size)),
        depth: value.depth,
        weight: value.weight,
        rows: 1,
    }
}

/// The measure of an `if`.
#[tactic(auto, unfolding(crate::specs::inner::Key::definitions))]
pub(crate) fn chosen(test: Extent, yes: Measure, no: Measure) -> Measure
    ensures { result ≡ chosen test yes no }
{
    let branches = yes.size.saturating_add(no.size);
    Measure {
        size: capped(test.size.saturating_add(branches).saturating_add(2)),
        depth: test.depth.max(yes.depth.max(no.depth)),
        weight: test.weight.max(yes.weight.max(no.weight)),
        rows: capped(yes.rows.saturating_add(no.rows)),
    }
}

/// The measure of a sequence with one more command.
#[tactic(auto, unfolding(crate::specs::inner::Key::definitions))]
pub(crate) fn followed(so_far: Measure, next: Measure) -> Measure
    ensures { result ≡ followed so_far next }
{
    Measure {
        size: capped(so_far.size.saturating_add(next.size)),
        depth: so_far.depth.max(next.depth),
        weight: so_far.weight.max(next.weight),
        rows: capped(so_far.rows.saturating_mul(next.rows)),
    }
}
