//! The atoms of formulas.

ghost use Rattle.std.specs.Prelude.{◌≡◌, true, IfOk};
ghost use Rattle.homeo_syntax.specs.LowView.{plain_lcond};
ghost use Rattle.homeo_meaning.specs.LowMeaning.{State, holds, whole};
ghost use Rattle.homeo_meaning.specs.Serial.{values_of};
ghost use Rattle.homeo_meaning.specs.Small.{IsSmall};
ghost use Rattle.homeo_plan.specs.Atoms.{true_cond};
ghost use Rattle.homeo_plan.specs.Each.{Each};
ghost use Rattle.homeo_plan.specs.FormSizes.{CanCond, Numbers};
ghost use Rattle.homeo_plan.specs.Holding.{IsOn, AtomHolds};
ghost use Rattle.homeo_plan.specs.Linear.{base_forms};
ghost use Rattle.homeo_plan.specs.PlanView.{plain_atoms};
ghost use Rattle.homeo_plan.specs.Limit.{form_limit};
ghost use Rattle.homeo_plan.specs.Tracking.{IsBelowAtBase};

use homeo_form::Standing;
use homeo_linear::condition;
use homeo_meaning::Database;
use homeo_plan::AtomSet;
use homeo_syntax::{LCond, List, Memory};
use std::alloc::Global;

/// The atoms of a formula that holds at a base (this project's rule): forms that are at most 0 there, and the formula holds
/// in each state on the base where they are at most 0 and their mixed deltas are 0. They stand in the order of the
/// formula's tests. A condition that doesn't hold at the base, as one that is negated, is kept so by its first test that
/// fails.
///
/// No constant and no factor that is met in the forms of the formula's tests and in their differences may be above
/// 4 * 10^18 in size, with partial sums and products from left to right.
///
/// # Errors
///
/// `Memory` when out of memory.
pub fn atoms(alloc: Global, formula: &LCond, base: &Database) -> Result<AtomSet, Memory>
    requires holds { holds (plain_lcond formula.now) (whole (values_of base.now.items)) ≡ true }
    requires small { CanCond (IsSmall form_limit) (base_forms (values_of base.now.items)) (plain_lcond formula.now) }
    ensures atoms { IfOk result (λ a. plain_atoms a ≡ true_cond (values_of base.now.items) (plain_lcond formula.now)) }
    ensures below { IfOk result (λ a. Each IsBelowAtBase (plain_atoms a)) }
    ensures small { IfOk result (λ a. Each (Numbers (IsSmall form_limit)) (plain_atoms a)) }
    ensures means { IfOk result (λ a. (s : State) → IsOn (values_of base.now.items) s →
        Each (AtomHolds s) (plain_atoms a) → holds (plain_lcond formula.now) s ≡ true) }
{
    let standing = Standing::new(alloc, base.as_slice());
    let mut atoms = Vec::new(alloc);
    condition(alloc, &standing, formula, &mut atoms)?;
    Ok(AtomSet {
        atoms: List::from_vec(atoms),
    })
}
