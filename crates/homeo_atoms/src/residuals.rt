//! What residuals need of other sites.

ghost use Rattle.std.specs.Prelude.{◌≡◌, ℕ, IfOk};
ghost use Rattle.homeo_meaning.specs.LowMeaning.{State, DeltaAt, exec_all};
ghost use Rattle.homeo_meaning.specs.Serial.{values_of};
ghost use Rattle.homeo_meaning.specs.Small.{IsSmall};
ghost use Rattle.homeo_plan.specs.Each.{Each};
ghost use Rattle.homeo_plan.specs.FormSizes.{CanFollow};
ghost use Rattle.homeo_plan.specs.Holding.{IsOn, ZeroInBoth, SameOwn};
ghost use Rattle.homeo_plan.specs.Linear.{base_forms};
ghost use Rattle.homeo_plan.specs.Needs.{needs, IsStraight};
ghost use Rattle.homeo_plan.specs.PlanView.{plain_residual};
ghost use Rattle.homeo_plan.specs.Limit.{form_limit};

use crate::following::Following;
use homeo_meaning::Database;
use homeo_plan::{FreezeSet, Residual};
use homeo_syntax::{List, Memory};
use std::alloc::Global;

/// The deltas of other sites that a residual needs at a base (this project's rule): those on which its prints, and the
/// deltas that it writes, depend. From the same deltas of its own site it prints the same and leaves the same in each two
/// states on the base where they are 0.
///
/// The residual must have assignments, writes of deltas and prints alone. No constant and no factor that is met in the forms
/// of what it assigns, writes and prints may be above 4 * 10^18 in size, with partial sums and products from left to right.
///
/// # Errors
///
/// `Memory` when out of memory.
pub fn needs(alloc: Global, residual: &Residual, base: &Database) -> Result<FreezeSet, Memory>
    requires straight { IsStraight (plain_residual residual.now) }
    requires small { CanFollow (IsSmall form_limit) (base_forms (values_of base.now.items)) (plain_residual residual.now) }
    ensures needs { IfOk result (λ f. f.deltas.items ≡ needs residual.now.site (values_of base.now.items) (plain_residual residual.now)) }
    ensures means { IfOk result (λ f. (s s' : State) → ((x : ℕ) → s (DeltaAt x residual.now.site) ≡ s' (DeltaAt x residual.now.site)) →
        IsOn (values_of base.now.items) s → IsOn (values_of base.now.items) s' → Each (ZeroInBoth s s') f.deltas.items →
        SameOwn residual.now.site (exec_all (plain_residual residual.now) s) (exec_all (plain_residual residual.now) s')) }
{
    let mut following = Following::new(alloc, residual.site, base.as_slice());
    following.follow_all(alloc, residual.commands.as_slice())?;
    let needed = following.needs(alloc)?;
    Ok(FreezeSet {
        deltas: List::from_vec(needed),
    })
}
