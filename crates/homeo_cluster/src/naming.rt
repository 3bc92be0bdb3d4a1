//! Names, for contracts alone.

use homeo_notes::Naming;
use std::marker::Brand;

/// Names, for contracts alone, one board and one workload: all values of one cluster are of these.
pub trait ClusterNaming: Naming {
    ghost use Rattle.homeo_syntax.specs.Source as s;

    ghost workload: { s.Workload };
}

impl ClusterNaming for Brand {
    ghost use Rattle.homeo_cluster.specs.inner.Named.{no_workload};

    ghost workload = { no_workload };
}
