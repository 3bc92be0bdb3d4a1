//! What holds of each generated load.

ghost use Rattle.std.specs.Prelude.{◌≡◌, ◌≤◌, ℕ, length};
ghost use Rattle.homeo_meaning.specs.Acceptance.{IsAccepted};
ghost use Rattle.homeo_history.specs.History.{History};
ghost use Rattle.homeo_history.specs.Legal.{IsFull};
ghost use Rattle.homeo_report.specs.Summary.{summary};
ghost use Rattle.homeo_load.specs.Additions.{additions};
ghost use Rattle.homeo_load.specs.Load.{load_workload};
ghost use Rattle.homeo_load.specs.Output.{HasOutput, load_summary};

/// The workload of each load is accepted where it is to be run.
pub fn load_is_accepted()
    ensures { (number calls : ℕ) → calls ≤ 20000 → IsAccepted (load_workload number calls) }
{}

/// There is one addition for each call.
pub fn one_addition_each()
    ensures { (number calls : ℕ) → length (additions number calls) ≡ calls }
{}

/// Each full history of a load leaves each object with the sum of the numbers that are added to it, and has as many calls and
/// printed numbers as there are additions: which calls met in which round shows nowhere.
pub fn one_output()
    ensures { (number calls : ℕ) → calls ≤ 20000 → (h : History) → IsFull (load_workload number calls) h
        → HasOutput (additions number calls) h }
{}

/// The summary of a full history of a load is a function of the number and of how many calls there are.
pub fn one_summary()
    ensures { (number calls : ℕ) → calls ≤ 20000 → (h : History) → IsFull (load_workload number calls) h
        → summary (load_workload number calls) h ≡ load_summary number calls }
{}
