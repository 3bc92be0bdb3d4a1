//! What a command brings to a plan.

use homeo_plan::{AtomSet, FreezeSet};

/// What a command over whole objects brings to a plan, whichever site runs it (this project's rule). An object stands for its
/// deltas at all sites, by the delta that it has at site 0.
#[derive(Drop)]
pub struct PlanPart {
    /// What its tests ask, in their order.
    pub atoms: AtomSet,
    /// What it depends on, so that the deltas of other sites have to be 0 there.
    pub needs: FreezeSet,
}
