//! What lies under the lock of a site.

ghost use Rattle.std.specs.Prelude.{◌≡◌, ◌<◌};
ghost use Rattle.homeo_plan.specs.Planned.{sites_of};
ghost use Rattle.homeo_build.specs.Plan.{IsObjectPlan};

use crate::naming::ClusterNaming;
use homeo_notes::Holder;
use homeo_outline::ObjectPlan;
use homeo_site::Site;
use std::marker::Model;

/// A site, and the holder of its lines on the board.
#[derive(Drop)]
pub(crate) struct SiteCell<N: ClusterNaming> {
    pub(crate) site: Site,
    pub(crate) holder: Holder<N>,
}

impl<N: ClusterNaming> Model for SiteCell<N> {
    ghost use Rattle.std.specs.Coded.{codes};
    ghost use Rattle.homeo_syntax.specs.contracts.workload.Workload as workload;
    ghost use Rattle.homeo_cluster.specs.inner.Cells.{CellValue, IsCell};

    ghost Value = { CellValue };

    ghost coded = { Prim.hlevel (codes, workload.the_row.coded) };

    ghost view = { λ s. record { site = s.site; held = s.holder } };

    ghost invariant = { λ s. IsCell N.workload (record { site = s.site; held = s.holder }) };
}

impl<N: ClusterNaming> SiteCell<N> {
    /// The number of the site.
    pub(crate) fn number(&self) -> u32
        ensures number { result ≡ self.now.site.state.number }
        ensures bound { result < sites_of N.workload }
    {
        self.site.number()
    }

    /// Lends the site.
    pub(crate) fn site(&self) -> &Site
        ensures { result.now ≡ self.now.site }
    {
        &self.site
    }

    /// Lends the plan of the round, which all sites share.
    pub(crate) fn plan(&self) -> &ObjectPlan
        ensures { IsObjectPlan N.workload result.now.base.items result.now }
    {
        self.site.plan()
    }

    /// Gives the site.
    pub(crate) fn into_site(self) -> Site
        ensures { result ≡ self.site }
    {
        self.site
    }
}
