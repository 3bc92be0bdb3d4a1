//! What is true of all transformed commands.

ghost use Rattle.std.specs.Prelude.{◌≡◌, ◌<◌, ◌≤◌, ◌+◌, ◌*◌, ℕ, true, slice_index_or};
ghost use Rattle.homeo_syntax.specs.Low.{Command};
ghost use Rattle.homeo_meaning.specs.LowComputed.{CanRun};
ghost use Rattle.homeo_meaning.specs.LowMeaning.{State, exec};
ghost use Rattle.homeo_meaning.specs.NamesWithin.{NamesWithin};
ghost use Rattle.homeo_meaning.specs.Small.{IsSmall};
ghost use Rattle.homeo_meaning.specs.Whole.{IsWhole};
ghost use Rattle.homeo_plan.specs.Split.{fold_state, shift};
ghost use Rattle.homeo_split.specs.CanExec.{run_limit, can_exec};
ghost use Rattle.homeo_split.specs.Shape.{Shape, has_places};
ghost use Rattle.homeo_delta.specs.SmallParts.{HasSmallParts};

/// A transformed command can be run on a split database where the given one computes small numbers on the fold: where each
/// number that it meets there is at most b in size, as is each value of the fold, each base and each delta of another site
/// is at most a, and b + sites * a is at most the largest value of a run. Of the site's own deltas nothing is asked. What
/// the command leaves has parts as small again.
pub fn transformed_commands_can_run()
    ensures runs { (sites site a b : ℕ) (c : Command) (s : State) → site < sites → 1 ≤ b → b + sites * a ≤ run_limit →
        IsWhole c → HasSmallParts sites site a b s → CanRun (IsSmall b) (IsSmall b) c (fold_state sites s) →
        can_exec run_limit (shift sites site c) s ≡ true }
    ensures leaves { (sites site a b : ℕ) (c : Command) (s : State) → site < sites → 1 ≤ b →
        IsWhole c → HasSmallParts sites site a b s → CanRun (IsSmall b) (IsSmall b) c (fold_state sites s) →
        HasSmallParts sites site a b (exec (shift sites site c) s).state }
{}

/// A transformed command writes only places that are there, where the given one names whole objects only and the site has a
/// delta of each.
pub fn transformed_commands_have_places()
    ensures { (objects names : ℕ) (h : Shape) (sites site : ℕ) (c : Command) →
        objects ≤ slice_index_or h.deltas site 0 → IsWhole c → NamesWithin objects names c →
        has_places h (shift sites site c) ≡ true }
{}
