//! How many sites there are.

ghost use Rattle.std.specs.Prelude.{◌≡◌, ◌≤◌, pos, ◌≤ℤ◌};
ghost use Rattle.homeo_syntax.specs.SourceView.{plain_workload};
ghost use Rattle.homeo_meaning.specs.Acceptance.{IsAccepted};
ghost use Rattle.homeo_meaning.specs.Schema.{nat_of};
ghost use Rattle.homeo_plan.specs.Planned.{sites_of};

use homeo_meaning::Accepted;

/// The number of sites of a workload.
pub(crate) fn site_count(w: &Accepted) -> u32
    ensures sites { result ≡ sites_of (plain_workload w.now) }
    ensures some { 1 ≤ result }
    ensures accepted { IsAccepted (plain_workload w.now) }
{
    natural(w.workload().sites.value)
}

/// A number of sites as a text has it.
fn natural(n: i64) -> u32
    requires some { pos 1 ≤ℤ n }
    requires few { n ≤ℤ pos 16 }
    ensures { result ≡ nat_of n }
{
    n as u32
}
