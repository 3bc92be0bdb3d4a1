//! What is true of the verdicts on all workloads.

ghost use Rattle.std.specs.Prelude.{◌≡◌, ◌⊎◌, List, []};
ghost use Rattle.homeo_syntax.specs.Source as s;
ghost use Rattle.homeo_syntax.specs.declared.workload.Refusal.{Refusal};
ghost use Rattle.homeo_meaning.specs.Faults.{faults, Decides, IsRefusedBy};
ghost use Rattle.homeo_meaning.specs.declared.call.Purpose.{Purpose};
ghost use Rattle.homeo_meaning.specs.declared.rules.Fault.{Fault};

/// Of some faults one decides at most.
pub fn one_decides()
    ensures { (all : List Fault) (f g : Fault) → Decides all f → Decides all g → f ≡ g }
{}

/// A workload has one refusal at most, for each purpose.
pub fn one_refusal()
    ensures { (purpose : Purpose) (w : s.Workload) (r q : Refusal) →
        IsRefusedBy purpose w r → IsRefusedBy purpose w q → r ≡ q }
{}

/// A workload has no fault, or it has a refusal, for each purpose.
pub fn accepted_or_refused()
    ensures { (purpose : Purpose) (w : s.Workload) →
        (faults purpose w ≡ []) ⊎ ((r : Refusal) × IsRefusedBy purpose w r) }
{}

/// A workload without a fault has no refusal.
pub fn not_both()
    ensures { (purpose : Purpose) (w : s.Workload) (r : Refusal) →
        faults purpose w ≡ [] → IsRefusedBy purpose w r → ⊥ }
{}
