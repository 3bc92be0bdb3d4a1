//! What is true of all plans.

ghost use Rattle.std.specs.Prelude.{◌≡◌, ◌≤◌, ◌<◌, ◌+◌, ◌^◌, ℕ, ℤ, List, length, slice_get, Some};
ghost use Rattle.homeo_syntax.specs.Source.{Workload};
ghost use Rattle.homeo_meaning.specs.Acceptance.{IsAccepted};
ghost use Rattle.homeo_meaning.specs.Serial.{values_of};
ghost use Rattle.homeo_plan.specs.Each.{Member};
ghost use Rattle.homeo_plan.specs.Joined.{Deltas};
ghost use Rattle.homeo_plan.specs.PlanView.{plain_template, plain_config};
ghost use Rattle.homeo_plan.specs.Planned.{sites_of, planned, template_at};
ghost use Rattle.homeo_plan.specs.Soundness.{IsLocallySound};
ghost use Rattle.homeo_plan.specs.Template.{PlannedCall};
ghost use Rattle.homeo_plan.specs.Treaty.{Treaty};
ghost use Rattle.homeo_plan.specs.declared.rows.Residual.{Residual};
ghost use Rattle.homeo_plan.specs.declared.round.RoundPlan.{RoundPlan};
ghost use Rattle.homeo_outline.specs.declared.plan.ObjectPlan.{ObjectPlan};
ghost use Rattle.homeo_build.specs.Plan.{sited_residual, residuals_at, IsPlanOf, IsObjectPlan};

/// Where each site's deltas keep its treaty of a plan, a ground call of the workload does on the deltas of all sites what its
/// local step does on those of its own site: it prints the same, leaves the same deltas of its site, and changes no other.
pub fn plans_are_sound()
    ensures { (w : Workload) (base : List ℤ) (p : RoundPlan) (d : ℕ → Deltas) → IsPlanOf w base p →
        ((i : ℕ) → i < sites_of w → Treaty (plain_template p.template) (plain_config p.config) i (d i)) →
        (g : PlannedCall) → Member g (planned w) → g.site < sites_of w → IsLocallySound (sites_of w) (values_of base) d g }
{}

/// The template of an accepted workload at each base has at most 4,000,000 clauses, two for each part of its ground calls' L forms,
/// and at most 16,384 freezes, one for each object at each site. So the numbers of a plan's clauses and freezes fit in 32 bits.
pub fn accepted_plans_are_few()
    ensures clauses { (w : Workload) (base : List ℤ) → IsAccepted w → length (template_at w base).clauses ≤ 4000000 }
    ensures freezes { (w : Workload) (base : List ℤ) → IsAccepted w → length (template_at w base).freezes ≤ 16384 }
    ensures plan { (w : Workload) (base : List ℤ) (p : RoundPlan) → IsAccepted w → IsPlanOf w base p →
        length p.template.clauses.items + length p.template.freezes.items < 2 ^ 32 }
    ensures object_plan { (w : Workload) (base : List ℤ) (p : ObjectPlan) → IsAccepted w → IsObjectPlan w base p →
        length p.outline.value.terms + length p.outline.value.freezes < 2 ^ 32 }
{}

/// The residual of an accepted workload's ground call has at most 200,000 commands at each base: no more than its L form is large.
pub fn accepted_residuals_are_short()
    ensures { (w : Workload) (base : List ℤ) (n : ℕ) (r : Residual) → IsAccepted w →
        slice_get (residuals_at w base) n ≡ Some (sited_residual r) → length r.commands.items ≤ 200000 }
{}
