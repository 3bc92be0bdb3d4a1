//! The start of a site in a round.

ghost use Rattle.std.specs.Prelude.{◌≡◌, ◌<◌, IfOk};
ghost use Rattle.homeo_syntax.specs.SourceView.{plain_workload};
ghost use Rattle.homeo_plan.specs.Planned.{sites_of, policy};
ghost use Rattle.homeo_outline.specs.ObjectPlan.{config_in};
ghost use Rattle.homeo_build.specs.Plan.{IsObjectPlan};

use crate::own_deltas::OwnDeltas;
use crate::own_round::OwnRound;
use homeo_build::Compiled;
use homeo_history::Segment;
use homeo_local::Scratch;
use homeo_outline::ObjectPlan;
use homeo_syntax::{List, Memory};
use std::alloc::Global;
use std::marker::Model;
use std::sync::Arc;

/// One site's part of a round: what a site begins the round with.
#[derive(Drop)]
pub struct SiteStart {
    pub(crate) own: OwnRound,
    pub(crate) deltas: OwnDeltas,
    pub(crate) segment: Segment,
    pub(crate) scratch: Scratch,
}

impl Model for SiteStart {
    ghost use Rattle.std.specs.Coded.{codes};
    ghost use Rattle.homeo_syntax.specs.contracts.workload.Workload as workload;
    ghost use Rattle.homeo_site.specs.SiteView.{StartValue};
    ghost use Rattle.homeo_site.specs.Standing.{IsStart};

    ghost Value = { StartValue };

    ghost coded = { Prim.hlevel (codes, workload.the_row.coded) };

    ghost view = { λ s. s.own };

    ghost invariant = { λ s. IsStart s.own s.deltas s.segment };
}

impl SiteStart {
    /// The part of the site of this number, from 0, in the round of this number. It shares the workload and the plan, and takes
    /// about the time and the memory of the site's deltas, a number for each object. What the site keeps of the plan beside them
    /// is made at its first room in the round: `Site::room`.
    ///
    /// The plan must be one of the workload, with the bounds of the policy, and the site one of the workload's.
    ///
    /// # Errors
    ///
    /// `Memory` when out of memory.
    pub fn new(
        alloc: Global,
        compiled: &Arc<Compiled, Global>,
        plan: &Arc<ObjectPlan, Global>,
        site: u32,
        round: u64,
    ) -> Result<SiteStart, Memory>
        requires plan { IsObjectPlan (plain_workload compiled.now.value) plan.now.value.base.items plan.now.value }
        requires policy { config_in plan.now.value ≡ policy (plain_workload compiled.now.value) plan.now.value.base.items }
        requires site { site < sites_of (plain_workload compiled.now.value) }
        ensures { IfOk result (λ s. s ≡ record {
          work = compiled.now.value;
          number = site;
          round = round;
          base = plan.now.value.base.items;
        }) }
    {
        // its rules hold
        let _workload = compiled.workload().workload();
        let own = OwnRound::new(alloc, compiled, plan, site, round)?;
        let deltas = vec![in alloc; 0; plan.base.as_slice().len()]?;
        Ok(SiteStart {
            own,
            deltas: OwnDeltas::new(alloc, List::from_vec(deltas)),
            segment: Segment {
                entries: List::new(alloc),
            },
            scratch: Scratch::new(alloc),
        })
    }
}
