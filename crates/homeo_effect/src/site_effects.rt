//! What a residual does at its own site.

ghost use Rattle.std.specs.Prelude.{◌≡◌, true, length, IfOk};
ghost use Rattle.homeo_meaning.specs.LowMeaning.{whole, exec_all};
ghost use Rattle.homeo_meaning.specs.Serial.{values_of};
ghost use Rattle.homeo_plan.specs.Joined.{Deltas, alone};
ghost use Rattle.homeo_plan.specs.Needs.{IsStraight};
ghost use Rattle.homeo_plan.specs.PlanView.{plain_residual};
ghost use Rattle.homeo_split.specs.CanExec.{run_limit, can_exec_all};
ghost use Rattle.homeo_effect.specs.EffectsView.{plain_all, plain_commands};
ghost use Rattle.homeo_effect.specs.Localized.{localized};
ghost use Rattle.homeo_effect.specs.OwnCommands.{are_own};
ghost use Rattle.homeo_effect.specs.Touched.{written, WritesOwn, touched_clauses, touched_freezes};

use crate::commands::local_commands;
use crate::index::TreatyIndex;
use homeo_meaning::Database;
use homeo_plan::Residual;
use homeo_syntax::{LCommand, List, Memory};
use std::alloc::Global;

/// What a residual does at its own site on a base that stays (this project's rule).
#[derive(Drop)]
pub struct SiteEffects {
    /// Assignments, writes of the site's own deltas, and prints, one after another.
    pub commands: List<LCommand>,
    /// The numbers, from 0, of the clauses of the site's treaty with a term on a delta that is written: rising.
    pub clauses: List<u32>,
    /// The numbers of the treaty's freezes that are written: rising. They go on after those of all clauses.
    pub freezes: List<u32>,
}

/// The commands that a residual is at its own site on a base that stays (this project's rule): those of the residual in their
/// order, where each read of the base is replaced by its number, each read of another site's delta by 0, and, inner phrases
/// first, a negation of a literal and a sum or product of literals alone by one literal. From the same deltas of the site,
/// where all other deltas are 0, they do what the residual does.
///
/// The residual must have assignments, writes of its site's deltas and prints alone, and meet no number above 2 * 10^18 in
/// size on the base.
///
/// # Errors
///
/// `Memory` when out of memory.
fn commands_at_site(
    alloc: Global,
    residual: &Residual,
    base: &Database,
) -> Result<List<LCommand>, Memory>
    requires straight { IsStraight (plain_residual residual.now) }
    requires own { WritesOwn residual.now.site (plain_residual residual.now) }
    requires small { can_exec_all run_limit (plain_residual residual.now) (whole (values_of base.now.items)) ≡ true }
    ensures commands { IfOk result (λ cs. plain_all cs.items ≡
        localized (values_of base.now.items) residual.now.site (plain_residual residual.now)) }
    ensures count { IfOk result (λ cs. length cs.items ≡ length residual.now.commands.items) }
    ensures means { IfOk result (λ cs. (x : Deltas) →
        exec_all (plain_all cs.items) (alone (values_of base.now.items) residual.now.site x) ≡
        exec_all (plain_residual residual.now) (alone (values_of base.now.items) residual.now.site x)) }
    ensures can_run { IfOk result (λ cs. (x : Deltas) →
        can_exec_all run_limit (plain_residual residual.now) (alone (values_of base.now.items) residual.now.site x) ≡ true →
        can_exec_all run_limit (plain_all cs.items) (alone (values_of base.now.items) residual.now.site x) ≡ true) }
    ensures own { IfOk result (λ cs. are_own residual.now.site (plain_all cs.items) ≡ true) }
    ensures straight { IfOk result (λ cs. IsStraight (plain_all cs.items)) }
    ensures written { IfOk result (λ cs. written (plain_all cs.items) ≡ written (plain_residual residual.now)) }
{
    let commands = residual.commands.as_slice();
    let local = local_commands(alloc, base.as_slice(), residual.site, commands)?;
    Ok(local)
}

/// What a residual does at its own site on a base that stays (this project's rule): the commands that it is there, and what of
/// the site's treaty it touches.
///
/// The residual must be of the treaty's site, have assignments, writes of this site's deltas and prints alone, and meet no
/// number above 2 * 10^18 in size on the base.
///
/// # Errors
///
/// `Memory` when out of memory.
pub fn effects(
    alloc: Global,
    residual: &Residual,
    index: &TreatyIndex,
    base: &Database,
) -> Result<SiteEffects, Memory>
    requires site { residual.now.site ≡ index.now.site }
    requires straight { IsStraight (plain_residual residual.now) }
    requires own { WritesOwn residual.now.site (plain_residual residual.now) }
    requires small { can_exec_all run_limit (plain_residual residual.now) (whole (values_of base.now.items)) ≡ true }
    ensures commands { IfOk result (λ e. plain_commands e ≡
        localized (values_of base.now.items) residual.now.site (plain_residual residual.now)) }
    ensures count { IfOk result (λ e. length e.commands.items ≡ length residual.now.commands.items) }
    ensures clauses { IfOk result (λ e. e.clauses.items ≡
        touched_clauses (written (plain_residual residual.now)) index.now.template) }
    ensures freezes { IfOk result (λ e. e.freezes.items ≡
        touched_freezes (written (plain_residual residual.now)) index.now.template) }
    ensures means { IfOk result (λ e. (x : Deltas) →
        exec_all (plain_commands e) (alone (values_of base.now.items) residual.now.site x) ≡
        exec_all (plain_residual residual.now) (alone (values_of base.now.items) residual.now.site x)) }
    ensures can_run { IfOk result (λ e. (x : Deltas) →
        can_exec_all run_limit (plain_residual residual.now) (alone (values_of base.now.items) residual.now.site x) ≡ true →
        can_exec_all run_limit (plain_commands e) (alone (values_of base.now.items) residual.now.site x) ≡ true) }
    ensures own { IfOk result (λ e. are_own residual.now.site (plain_commands e) ≡ true) }
    ensures straight { IfOk result (λ e. IsStraight (plain_commands e)) }
    ensures written { IfOk result (λ e. written (plain_commands e) ≡ written (plain_residual residual.now)) }
{
    let local = commands_at_site(alloc, residual, base)?;
    let commands = residual.commands.as_slice();
    let clauses = index.clauses_touched(alloc, commands)?;
    let freezes = index.freezes_touched(alloc, commands)?;
    Ok(SiteEffects {
        commands: local,
        clauses,
        freezes,
    })
}
