//! The additions that draws choose.

ghost use Rattle.std.specs.Prelude.{◌≡◌};
ghost use Rattle.homeo_draws.specs.Draws.{next_state};
ghost use Rattle.homeo_load.specs.Additions.{next_addition};

use homeo_draws::Draws;

/// One call: a number from 1 to 9, added to an object from 0 to 7.
#[derive(Clone, Copy)]
pub(crate) struct Addition {
    pub(crate) object: u32,
    pub(crate) number: u32,
}

/// The addition that the next two draws choose.
#[tactic(auto, unfolding(crate::specs::Key::definitions))]
pub(crate) fn next_addition(draws: &mut Draws) -> Addition
    ensures state { draws.new.state ≡ next_state (next_state draws.old.state) }
    ensures object { result.object ≡ (next_addition draws.old.state).object }
    ensures number { result.number ≡ (next_addition draws.old.state).number }
{
    let p = draws.draw();
    let q = draws.draw();
    Addition {
        object: (p % 8) as u32,
        number: 1 + (q % 9) as u32,
    }
}
