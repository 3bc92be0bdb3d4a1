//! What is true of all commands over split names.

ghost use Rattle.std.specs.Prelude.{◌≡◌, ◌≤◌, ℕ, true};
ghost use Rattle.homeo_syntax.specs.Low.{Command};
ghost use Rattle.homeo_meaning.specs.LowComputed.{CanRun};
ghost use Rattle.homeo_meaning.specs.LowMeaning.{State};
ghost use Rattle.homeo_meaning.specs.NamesWithin.{NamesWithin};
ghost use Rattle.homeo_meaning.specs.Small.{IsSmall};
ghost use Rattle.homeo_meaning.specs.Whole.{IsWhole};
ghost use Rattle.homeo_split.specs.CanExec.{run_limit, can_exec};
ghost use Rattle.homeo_split.specs.Shape.{Shape, has_places};

/// A command can be run where each number that stands in it, is read or is computed is at most b in size, with the
/// partial sums and products from left to right and in each branch, and b is at most the largest value of a run.
pub fn small_commands_can_run()
    ensures { (b : ℕ) (c : Command) (s : State) → b ≤ run_limit → CanRun (IsSmall b) (IsSmall b) c s →
        can_exec run_limit c s ≡ true }
{}

/// A command that names whole objects only, and none that the base does not have, writes only places that are there.
pub fn whole_commands_have_places()
    ensures { (objects names : ℕ) (h : Shape) (c : Command) → objects ≤ h.base → IsWhole c →
        NamesWithin objects names c → has_places h c ≡ true }
{}
