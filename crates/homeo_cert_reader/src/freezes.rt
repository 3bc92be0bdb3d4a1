//! The deltas that are frozen.

ghost use Rattle.std.specs.Prelude.{◌≡◌, ◌<◌, ◌-◌, ◌↔◌, IsTrue, MatchOption};
ghost use Rattle.std.specs.List.{list_any};
ghost use Rattle.homeo_plan.specs.Linear.{AreInOrder, same_delta};

use crate::deltas::is_before;
use homeo_plan::Delta;
use std::marker::Model;

/// Deltas in order, each once, so that one is found among them by halving.
#[derive(Drop)]
pub struct Freezes {
    deltas: Vec<Delta>,
}

impl Model for Freezes {
    ghost use Rattle.std.specs.Prelude.{List};
    ghost use Rattle.homeo_plan.specs.declared.forms.Delta.{Delta};
    ghost use Rattle.homeo_plan.specs.Linear.{AreInOrder};

    ghost Value = { List Delta };

    ghost view = { λ f. f.deltas.items };

    ghost invariant = { λ f. AreInOrder f.deltas.items };
}

impl Freezes {
    /// The deltas, if they are in order, each once.
    pub(crate) fn of(deltas: Vec<Delta>) -> Option<Freezes>
        ensures { MatchOption result (AreInOrder deltas.items → ⊥) (λ f. AreInOrder deltas.items × (f ≡ deltas.items)) }
    {
        if are_in_order(deltas.as_slice()) {
            Some(Freezes { deltas })
        } else {
            None
        }
    }

    /// Whether the delta is among them.
    pub fn has(&self, delta: Delta) -> bool
        ensures { result ≡ list_any (same_delta delta) self.now }
    {
        let deltas = self.deltas.as_slice();
        let place = deltas.partition_point(|frozen| is_before(*frozen, delta));
        place < deltas.len() && deltas[place] == delta
    }
}

/// Whether deltas are in order, each once.
fn are_in_order(deltas: &[Delta]) -> bool
    ensures { IsTrue result ↔ AreInOrder deltas.now }
{
    for place in 1..deltas.len() {
        if !is_before(deltas[place - 1], deltas[place]) {
            return false;
        }
    }
    true
}
