//! Draws from a number on.

ghost use Rattle.std.specs.Prelude.{◌≡◌};
ghost use Rattle.homeo_draws.specs.Draws.{next_state, drawn};

/// Draws from a number on, the first state: those of a linear congruential generator modulo 2^64, with Knuth's factor for MMIX.
#[derive(Clone, Copy)]
pub struct Draws {
    pub state: u64,
}

impl Draws {
    /// The next draw, below 2^32: the upper half of the next state.
    pub fn draw(&mut self) -> u64
        ensures state { self.new.state ≡ next_state self.old.state }
        ensures value { result ≡ drawn (next_state self.old.state) }
    {
        self.state = self
            .state
            .wrapping_mul(6364136223846793005)
            .wrapping_add(1442695040888963407);
        self.state >> 32
    }
}
