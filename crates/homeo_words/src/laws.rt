//! What holds of the words of commands.

ghost use Rattle.std.specs.Prelude.{◌≡◌, ℕ, List};
ghost use Rattle.homeo_words.specs.Command.{Say};

use crate::command::Command;

/// Words are one command at most.
pub fn words_are_one_command()
    ensures { (words : List (List ℕ)) (c d : Command) → Say words c → Say words d → c ≡ d }
{}
