//! What is true of all folds.

ghost use Rattle.std.specs.Prelude.{◌<◌, ◌≤◌, ◌+◌, ◌*◌, ℕ, length};
ghost use Rattle.homeo_split.specs.CanExec.{run_limit};
ghost use Rattle.homeo_split.specs.States.{state_of};
ghost use Rattle.homeo_split.specs.declared.split.Split.{Split};
ghost use Rattle.homeo_delta.specs.SmallParts.{HasSmallParts};
ghost use Rattle.homeo_fold.specs.Folding.{SumsFit};

/// A split database can be folded where the parts of one site are small: each value of the fold is at most b in size, each base and each
/// delta of another site at most a, and b + sites * a is at most the largest value of a run.
pub fn small_parts_can_be_folded()
    ensures { (site a b : ℕ) (s : Split) → site < length s.deltas.items → b + length s.deltas.items * a ≤ run_limit →
        HasSmallParts (length s.deltas.items) site a b (state_of s) → SumsFit s }
{}
