//! Templates of many ground calls.

ghost use Rattle.std.specs.Prelude.{◌≡◌, map, IfOk};
ghost use Rattle.std.specs.List.{All};
ghost use Rattle.homeo_meaning.specs.Small.{IsSmall};
ghost use Rattle.homeo_plan.specs.Config.{HaveSlack};
ghost use Rattle.homeo_plan.specs.Each.{Each};
ghost use Rattle.homeo_plan.specs.PlanView.{plain_atoms, plain_template};
ghost use Rattle.homeo_plan.specs.Template.{join_sets};
ghost use Rattle.homeo_plan.specs.Limit.{form_limit};
ghost use Rattle.homeo_plan.specs.Tracking.{IsBelowAtBase};
ghost use Rattle.homeo_plan.specs.Linear.{AreInOrder};

use crate::freezes::join_freezes;
use homeo_plan::{AtomSet, FreezeSet, Template};
use homeo_syntax::Memory;
use homeo_template::join_clauses;
use std::alloc::Global;

/// The template (Roy et al., SIGMOD 2015) of ground calls, given the atoms and the needs of each. Each atom with terms is a
/// clause, whose slack is the atom's constant negated, so not negative where no constant is above 0; equal clauses stand once,
/// where the first of them is. What any atom mixes and any call needs is frozen, by object and then by site, each delta once
/// (this project's rule). But for the order of the frozen deltas, which takes a sorted set, it takes time linear in what it is
/// given.
///
/// # Errors
///
/// `Memory` when out of memory.
pub fn template(
    alloc: Global,
    sets: &[AtomSet],
    freezes: &[FreezeSet],
    sites: u32,
) -> Result<Template, Memory>
    requires small { All (λ s. Each (λ a. IsSmall form_limit a.constant) (plain_atoms s)) sets.now }
    ensures sites { IfOk result (λ t. t.sites ≡ sites) }
    ensures value { IfOk result (λ t. plain_template t ≡
        join_sets (map plain_atoms sets.now) (map (λ f. f.deltas.items) freezes.now)) }
    ensures small { IfOk result (λ t. Each (λ c. IsSmall form_limit c.slack) (plain_template t).clauses) }
    ensures slack { All (λ s. Each IsBelowAtBase (plain_atoms s)) sets.now → IfOk result (λ t. HaveSlack (plain_template t).clauses) }
    ensures order { IfOk result (λ t. AreInOrder t.freezes.items) }
{
    let clauses = join_clauses(alloc, sets)?;
    let freezes = join_freezes(alloc, sets, freezes)?;
    Ok(Template {
        sites,
        clauses,
        freezes,
    })
}
