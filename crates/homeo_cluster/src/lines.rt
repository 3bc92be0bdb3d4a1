//! The lines of the board, as a workload's clients and sites have them.

ghost use Rattle.std.specs.Prelude.{◌≡◌, ℕ, ◌<◌, ◌≤◌, length, slice_get, Some, IfOk};
ghost use Rattle.homeo_syntax.specs.SourceView.{plain_workload};
ghost use Rattle.homeo_plan.specs.Planned.{sites_of};
ghost use Rattle.homeo_cluster.specs.Places.{below, place, done_line, at_line, line_count};
ghost use Rattle.homeo_cluster.specs.inner.Begun.{before};

use homeo_core::clients::{client_count, site_count, site_of};
use homeo_meaning::Accepted;
use homeo_syntax::Memory;
use std::alloc::Global;

/// How many lines there are.
pub(crate) fn count_lines(w: &Accepted) -> u32
    ensures { result ≡ line_count (plain_workload w.now) }
{
    4 * (client_count(w) as u32) + site_count(w) + 1
}

/// Of each client the line of what its site has done for it.
pub(crate) fn done_lines_of(alloc: Global, w: &Accepted) -> Result<Vec<u32>, Memory>
    ensures { IfOk result (λ lines. (client : ℕ) → client < length (plain_workload w.now).clients →
        slice_get lines.items client ≡ Some (done_line (plain_workload w.now) client)) }
{
    let clients = client_count(w) as u32;
    let mut lines = Vec::new(alloc);
    for client in 0..clients {
        let line = 2 * clients + 2 * place_of(w, client) + site_of(w, client);
        lines.push(line)?;
    }
    Ok(lines)
}

/// Of each site the line of the bases that it has been at.
pub(crate) fn at_lines_of(alloc: Global, w: &Accepted) -> Result<Vec<u32>, Memory>
    ensures { IfOk result (λ lines. (site : ℕ) → site < sites_of (plain_workload w.now) →
        slice_get lines.items site ≡ Some (at_line (plain_workload w.now) site)) }
{
    let clients = client_count(w) as u32;
    let mut lines = Vec::new(alloc);
    for site in 0..site_count(w) {
        let line = 2 * clients + 2 * count_below(w, site + 1) + site;
        lines.push(line)?;
    }
    Ok(lines)
}

/// How many clients come before this one, by site and then by number.
fn place_of(w: &Accepted, client: u32) -> u32
    requires exists { client < length (plain_workload w.now).clients }
    requires few { client < 64 }
    ensures place { result ≡ place (plain_workload w.now) client }
    ensures few { result ≤ 128 }
{
    let home = site_of(w, client);
    count_below(w, home) + count_before(w, home, client)
}

/// How many clients are at sites below this one.
fn count_below(w: &Accepted, site: u32) -> u32
    ensures count { result ≡ below (plain_workload w.now) site }
    ensures few { result ≤ 64 }
{
    let mut count = 0;
    for client in 0..client_count(w) as u32 {
        if site_of(w, client) < site {
            count += 1;
        }
    }
    count
}

/// How many clients of the site come before this client.
fn count_before(w: &Accepted, site: u32, client: u32) -> u32
    requires exists { client < length (plain_workload w.now).clients }
    ensures count { result ≡ before (plain_workload w.now) site client }
    ensures few { result ≤ client }
{
    let mut count = 0;
    for other in 0..client {
        if site_of(w, other) == site {
            count += 1;
        }
    }
    count
}
