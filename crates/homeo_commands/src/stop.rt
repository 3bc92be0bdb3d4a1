//! Why there is no output.

use homeo_syntax::{Memory, Refusal};

/// Why a run made no output.
#[derive(Clone, Copy, Debug, PartialEq, Eq)]
pub enum Stop {
    /// The words are no command.
    Usage,
    /// The text is refused.
    Refused(Refusal),
    /// Memory was wanting.
    Memory,
    /// The source failed.
    ReadFault,
}

impl From<Memory> for Stop {
    ghost use Rattle.std.specs.Prelude.{◌≡◌};
    ghost use Rattle.homeo_commands.specs.declared.stop.Stop.TheVariants as Stop;

    ghost from_gives = { λ _ stop. stop ≡ Stop.Memory };

    fn from(_e: Memory) -> Stop {
        Stop::Memory
    }
}
