//! Which clauses and freezes of a treaty stand on each delta of its site.

ghost use Rattle.std.specs.Prelude.{◌≡◌, map, IfOk};
ghost use Rattle.homeo_syntax.specs.LowView.{low_commands, plain_lcommand};
ghost use Rattle.homeo_outline.specs.ObjectPlan.{template_in};
ghost use Rattle.homeo_effect.specs.Touched.{written, WritesOwn, touched_clauses, touched_freezes};

use crate::uses::{written_clauses, written_freezes};
use homeo_outline::{ObjectPlan, Outline};
use homeo_syntax::{LCommand, List, Memory};
use std::alloc::Global;
use std::marker::Model;
use std::sync::Arc;

/// The template of a plan as one site sees it: of each object the clauses with a term on its delta of this site, and the freezes of
/// that delta. It is made in no time, as the plan's outline has where objects stand, and shares the plan.
#[derive(Drop)]
pub struct TreatyIndex {
    site: u32,
    plan: Arc<ObjectPlan, Global>,
}

impl Model for TreatyIndex {
    ghost use Rattle.homeo_outline.specs.ObjectPlan.{template_in};
    ghost use Rattle.homeo_effect.specs.Indexed.{Indexed};

    ghost Value = { Indexed };

    ghost view = { λ x. record { site = x.site; template = template_in x.plan.value } };
}

impl TreatyIndex {
    /// The index of a plan's template for a site.
    ///
    /// # Errors
    ///
    /// `Memory` when the plan has too many owners.
    pub fn of(plan: &Arc<ObjectPlan, Global>, site: u32) -> Result<TreatyIndex, Memory>
        ensures site { IfOk result (λ x. x.site ≡ site) }
        ensures template { IfOk result (λ x. x.template ≡ template_in plan.now.value) }
    {
        Ok(TreatyIndex {
            site,
            plan: Arc::try_clone(plan)?,
        })
    }

    /// The numbers, from 0, of the clauses with a term on a delta that commands write: rising, each once. The commands must
    /// write deltas of the index's site alone.
    ///
    /// # Errors
    ///
    /// `Memory` when out of memory.
    pub fn clauses_touched(&self, alloc: Global, commands: &[LCommand]) -> Result<List<u32>, Memory>
        requires { WritesOwn self.now.site (low_commands (map plain_lcommand commands.now)) }
        ensures { IfOk result (λ v. v.items ≡
            touched_clauses (written (low_commands (map plain_lcommand commands.now))) self.now.template) }
    {
        let outline: &Outline = &self.plan.outline;
        if self.site >= outline.sites() {
            return Ok(List::new(alloc));
        }
        let numbers = written_clauses(alloc, outline, commands)?;
        Ok(List::from_vec(numbers))
    }

    /// The numbers of the freezes that commands write: rising, each once. They go on after those of all clauses. The commands
    /// must write deltas of the index's site alone.
    ///
    /// # Errors
    ///
    /// `Memory` when out of memory.
    pub fn freezes_touched(&self, alloc: Global, commands: &[LCommand]) -> Result<List<u32>, Memory>
        requires { WritesOwn self.now.site (low_commands (map plain_lcommand commands.now)) }
        ensures { IfOk result (λ v. v.items ≡
            touched_freezes (written (low_commands (map plain_lcommand commands.now))) self.now.template) }
    {
        let numbers = written_freezes(alloc, &self.plan.outline, self.site, commands)?;
        Ok(List::from_vec(numbers))
    }
}
