//! How much of a clause's slack each site gets.

ghost use Rattle.std.specs.Prelude.{◌≡◌, ◌<◌, map, replicate, pos, ◌≤ℤ◌, IfOk};
ghost use Rattle.homeo_syntax.specs.SourceView.{plain_workload};
ghost use Rattle.homeo_plan.specs.Config.{CanShare, natural_list};
ghost use Rattle.homeo_plan.specs.Each.{Each};
ghost use Rattle.homeo_plan.specs.PlanView.{plain_clause, plain_template};
ghost use Rattle.homeo_plan.specs.Planned.{sites_of, planned, shares_of};
ghost use Rattle.homeo_plan.specs.Shares.{weight_of, own_share};
ghost use Rattle.homeo_build.specs.inner.Sharing.{TellsNone, AreOrEven};

use crate::compiled::Compiled;
use crate::sites::site_count;
use homeo_plan::{Clause, Template};
use homeo_syntax::{List, Memory, Number, Numbers};
use std::alloc::Global;

/// For each clause of a template each site's share of its slack (this project's rule): the site's weight where a ground call of
/// the site can write one of the clause's deltas there, and else 0; but 1 for each site where all of these are 0, as without
/// weights.
///
/// # Errors
///
/// `Memory` when out of memory.
pub fn shares(alloc: Global, c: &Compiled, t: &Template) -> Result<Vec<Numbers>, Memory>
    ensures shares { IfOk result (λ v. map natural_list v.items ≡
        map (shares_of (plain_workload c.now)) (plain_template t.now).clauses) }
    ensures can { IfOk result (λ v. Each (λ l. CanShare (sites_of (plain_workload c.now)) l.items) v.items) }
{
    let mut lists = Vec::new(alloc);
    for clause in t.clauses.as_slice() {
        lists.push(clause_shares(alloc, c, clause)?)?;
    }
    Ok(lists)
}

/// The shares of a clause.
fn clause_shares(alloc: Global, c: &Compiled, clause: &Clause) -> Result<Numbers, Memory>
    ensures shares { IfOk result (λ l. natural_list l ≡ shares_of (plain_workload c.now) (plain_clause clause.now)) }
    ensures can { IfOk result (λ l. CanShare (sites_of (plain_workload c.now)) l.items) }
{
    let sites = site_count(c.workload());
    let mut shares = List::new(alloc);
    for site in 0..sites {
        shares.push(own_share(c, clause, site))?;
    }
    or_even(alloc, sites, shares)
}

/// A site's weight where it takes part in a clause, and else 0.
fn own_share(c: &Compiled, clause: &Clause, site: u32) -> i64
    requires { site < sites_of (plain_workload c.now) }
    ensures { result ≡ pos (own_share (sites_of (plain_workload c.now)) (plain_workload c.now).weights
        (planned (plain_workload c.now)) (plain_clause clause.now) site) }
{
    if c.takes_part(clause, site) {
        weight_of(c.workload().workload().weights.as_slice(), site)
    } else {
        0
    }
}

/// The weight of a site: 0 where there is none.
fn weight_of(weights: &[Number], site: u32) -> i64
    requires natural { Each (λ n. pos 0 ≤ℤ n.value) weights.now }
    requires small { Each (λ n. n.value ≤ℤ pos 1000) weights.now }
    ensures { result ≡ pos (weight_of weights.now site) }
{
    let place = site as usize;
    if place < weights.len() {
        weights[place].value
    } else {
        0
    }
}

/// These shares, or 1 for each site where all of them are 0.
fn or_even(alloc: Global, sites: u32, shares: Numbers) -> Result<Numbers, Memory>
    requires { Each (λ n. n ≤ℤ pos 1000) shares.items }
    ensures { IfOk result (λ l. AreOrEven sites shares.items l.items) }
{
    if are_none(shares.as_slice()) {
        ones(alloc, sites)
    } else {
        Ok(shares)
    }
}

/// A share of 1 for each site.
fn ones(alloc: Global, sites: u32) -> Result<Numbers, Memory>
    ensures { IfOk result (λ l. l.items ≡ map pos (replicate sites 1)) }
{
    let ones = ones_of(alloc, sites as usize)?;
    Ok(List::from_vec(ones))
}

fn ones_of(alloc: Global, sites: usize) -> Result<Vec<i64>, Memory>
    ensures { IfOk result (λ v. v.items ≡ replicate sites (pos 1)) }
{
    Ok(vec![in alloc; 1; sites]?)
}

/// Whether all shares are 0.
fn are_none(shares: &[i64]) -> bool
    requires { Each (λ n. n ≤ℤ pos 1000) shares.now }
    ensures { TellsNone result shares.now }
{
    for share in shares {
        if *share != 0 {
            return false;
        }
    }
    true
}
