//! Which fault decides.

ghost use Rattle.std.specs.Prelude.{◌≡◌};
ghost use Rattle.homeo_meaning.specs.Faults.{rank, code, comes_before};
ghost use Rattle.homeo_rules.specs.inner.Deciding.{keep};
ghost use Rattle.homeo_meaning.specs.NameRules.{fault, number_fault};
ghost use Rattle.homeo_rules.specs.inner.Deciding.{keep_all};

use homeo_meaning::{Fault, Phase};
use homeo_syntax::{Ident, Number};

/// The place of a phase in the order in which phases are tried, from 0.
#[tactic(auto, unfolding(homeo_meaning::specs::Key::definitions))]
pub(crate) fn rank(phase: Phase) -> u8
    ensures { result ≡ rank phase }
{
    match phase {
        Phase::Duplicate => 0,
        Phase::Unknown => 1,
        Phase::Kind => 2,
        Phase::Arity => 3,
        Phase::Bounds => 4,
        Phase::Limits => 5,
        Phase::Schedule => 6,
        Phase::Size => 7,
        Phase::Weight => 8,
        Phase::Rows => 9,
    }
}

/// The number of a phase's refusals, as 5 of `E5`.
#[tactic(auto, unfolding(homeo_meaning::specs::Key::definitions))]
pub(crate) fn code(phase: Phase) -> u8
    ensures { result ≡ code phase }
{
    match phase {
        Phase::Duplicate => 5,
        Phase::Unknown => 6,
        Phase::Kind => 7,
        Phase::Arity => 8,
        Phase::Bounds => 9,
        Phase::Limits => 13,
        Phase::Schedule => 14,
        Phase::Size => 11,
        Phase::Weight => 10,
        Phase::Rows => 12,
    }
}

/// Whether a fault is of an earlier phase, or of the same phase at a lesser offset.
#[tactic(auto, unfolding(homeo_meaning::specs::Key::definitions))]
fn comes_before(f: Fault, g: Fault) -> bool
    ensures { result ≡ comes_before f g }
{
    let (a, b) = (rank(f.phase), rank(g.phase));
    a < b || (a == b && f.offset < g.offset)
}

/// The one of two that decides.
#[tactic(auto, unfolding(homeo_meaning::specs::Key::definitions))]
pub(crate) fn keep(best: Option<Fault>, fault: Fault) -> Option<Fault>
    ensures { result ≡ keep best fault }
{
    match best {
        Some(held) => {
            if comes_before(fault, held) {
                Some(fault)
            } else {
                best
            }
        }
        None => Some(fault),
    }
}

/// With a fault that stands at a name.
#[tactic(auto, unfolding(homeo_meaning::specs::Key::definitions))]
pub(crate) fn at_name(best: Option<Fault>, phase: Phase, x: Ident) -> Option<Fault>
    ensures { result ≡ keep_all best (fault phase x) }
{
    keep(
        best,
        Fault {
            phase,
            offset: x.offset,
        },
    )
}

/// With a fault that stands at a number.
#[tactic(auto, unfolding(homeo_meaning::specs::Key::definitions))]
pub(crate) fn at_number(best: Option<Fault>, phase: Phase, n: Number) -> Option<Fault>
    ensures { result ≡ keep_all best (number_fault phase n) }
{
    keep(
        best,
        Fault {
            phase,
            offset: n.offset,
        },
    )
}
