//! What is true of all sites.

ghost use Rattle.std.specs.Prelude.{◌≡◌, ℕ, ◌<◌, List, ℤ, ◌+ℤ◌};
ghost use Rattle.homeo_syntax.specs.Source.{Workload};
ghost use Rattle.homeo_meaning.specs.declared.call.CallId.{CallId};
ghost use Rattle.homeo_meaning.specs.Acceptance.{IsAccepted};
ghost use Rattle.homeo_meaning.specs.Bounds.{AllWithin, IsWithin};
ghost use Rattle.homeo_meaning.specs.Schema.{schema_of};
ghost use Rattle.homeo_meaning.specs.Serial.{values_of};
ghost use Rattle.homeo_plan.specs.Planned.{sites_of};
ghost use Rattle.homeo_history.specs.Legal.{IsCallAt};
ghost use Rattle.homeo_site.specs.SiteState.{SiteState, SiteHolds, KeepsCall, step_values, step_deltas, after_local, begun};

/// A site that has made no call in a round keeps what a site keeps.
pub fn sites_begin()
    ensures { (w : Workload) (number round : ℕ) (base : List ℤ) → IsAccepted w → number < sites_of w →
        IsWithin (schema_of w) base → SiteHolds w (begun number round base) }
{}

/// So does a site after a call of one of its clients that keeps its treaty.
pub fn sites_go_on()
    ensures { (w : Workload) (x : SiteState) (call : CallId) → IsAccepted w → SiteHolds w x → IsCallAt w x.number call →
        KeepsCall w x call → SiteHolds w (after_local w x call) }
{}

/// After a call's local step, whether or not it keeps the treaty, base plus own deltas is within bounds; and no delta but of
/// an object that there is is other than 0.
pub fn local_steps_stay_within_bounds()
    ensures within { (w : Workload) (x : SiteState) (call : CallId) → IsAccepted w → SiteHolds w x → IsCallAt w x.number call →
        AllWithin (schema_of w) (λ n. values_of x.base n +ℤ step_values w x call n) }
    ensures deltas { (w : Workload) (x : SiteState) (call : CallId) → IsAccepted w → SiteHolds w x → IsCallAt w x.number call →
        values_of (step_deltas w x call) ≡ step_values w x call }
{}
