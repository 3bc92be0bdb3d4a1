//! Slacks that are split among sites.

ghost use Rattle.std.specs.Prelude.{◌≡◌, ◌≤◌, ◌<◌, ◌+◌, ◌*◌, ◌/◌, ◌-◌, ◌^◌, length, map, sum, replicate, pos, ◌≤ℤ◌, IfOk};
ghost use Rattle.homeo_meaning.specs.Schema.{nat_of};
ghost use Rattle.homeo_meaning.specs.Small.{IsSmall};
ghost use Rattle.homeo_plan.specs.Each.{Each};
ghost use Rattle.homeo_plan.specs.Config.{HaveSlack, CanShare, Fits, split, split_each, natural_list, even};
ghost use Rattle.homeo_plan.specs.PlanView.{plain_template, plain_config};
ghost use Rattle.homeo_plan.specs.Limit.{form_limit};
ghost use Rattle.homeo_plan.specs.Treaty.{bound_at};

use homeo_plan::{Config, Template};
use homeo_syntax::{List, Memory, Numbers};
use std::alloc::Global;

/// Splits the slack of each clause evenly (this project's rule): of `n` sites, site `i` from 0 has the floor of
/// `slack * (i + 1) / n` less the floor of `slack * i / n`. So bounds of a clause differ by at most 1, and nothing of the
/// slack is lost. It takes time and memory linear in the bounds.
///
/// # Errors
///
/// `Memory` when out of memory.
pub fn split_even(alloc: Global, t: &Template) -> Result<Config, Memory>
    requires sites { 1 ≤ t.now.sites }
    requires not_negative { HaveSlack (plain_template t.now).clauses }
    requires small { Each (λ c. IsSmall form_limit c.slack) (plain_template t.now).clauses }
    ensures bounds { IfOk result (λ c. plain_config c ≡ even t.now.sites (plain_template t.now).clauses) }
    ensures fits { IfOk result (λ c. Fits t.now.sites (plain_template t.now).clauses (plain_config c)) }
{
    let shares = ones(alloc, t.sites as usize)?;
    let mut bounds = List::new(alloc);
    for clause in t.clauses.as_slice() {
        bounds.push(split(alloc, clause.slack, shares.as_slice())?)?;
    }
    Ok(Config { bounds })
}

/// Splits the slack of each clause by the clause's list of shares (this project's rule): a site has the floor of the slack
/// by the shares of the sites up to it, of all shares, less the floor by those of the sites below it. So nothing of the slack
/// is lost, and a site with share 0 has the bound 0. It takes time and memory linear in the bounds.
///
/// There must be as many lists as clauses, and in each a share for each site, from 0 to 1,000, and not all of them 0.
///
/// # Errors
///
/// `Memory` when out of memory.
pub fn split_weighted(alloc: Global, t: &Template, shares: &[Numbers]) -> Result<Config, Memory>
    requires not_negative { HaveSlack (plain_template t.now).clauses }
    requires small { Each (λ c. IsSmall form_limit c.slack) (plain_template t.now).clauses }
    requires lists { length shares.now ≡ length (plain_template t.now).clauses }
    requires shares { Each (λ l. CanShare t.now.sites l.items) shares.now }
    ensures bounds { IfOk result (λ c. plain_config c ≡ split_each (map natural_list shares.now) (plain_template t.now).clauses) }
    ensures fits { IfOk result (λ c. Fits t.now.sites (plain_template t.now).clauses (plain_config c)) }
{
    let _sites = t.sites;
    let mut bounds = List::new(alloc);
    for (i, clause) in t.clauses.as_slice().iter().enumerate() {
        let own = naturals(alloc, shares[i].as_slice())?;
        bounds.push(split(alloc, clause.slack, own.as_slice())?)?;
    }
    Ok(Config { bounds })
}

/// What `split_even` gives one of so many sites of a slack, in constant time and without memory.
pub fn even_bound(slack: i128, sites: u32, site: u32) -> i128
    requires site { site < sites }
    requires not_negative { pos 0 ≤ℤ slack }
    requires small { IsSmall form_limit slack }
    ensures { result ≡ bound_at (split (replicate sites 1) slack) site }
{
    let amount = natural(slack);
    let all = sites as u64;
    let each = amount / all;
    let rest = amount % all;
    let below = site as u64;
    let given = part(each, rest, below, all);
    let part = part(each, rest, below + 1, all);
    bound(given, part)
}

/// Shares without a sign.
fn naturals(alloc: Global, shares: &[i64]) -> Result<Vec<u64>, Memory>
    requires natural { Each (λ n. pos 0 ≤ℤ n) shares.now }
    requires small { Each (λ n. n ≤ℤ pos 1000) shares.now }
    ensures { IfOk result (λ own. own.items ≡ map nat_of shares.now) }
{
    let mut own = Vec::new(alloc);
    for share in shares {
        own.push(without_sign(*share))?;
    }
    Ok(own)
}

/// A share, which isn't negative.
fn without_sign(share: i64) -> u64
    requires { pos 0 ≤ℤ share }
    ensures { result ≡ nat_of share }
{
    share as u64
}

/// Equal shares of `sites` sites.
fn ones(alloc: Global, sites: usize) -> Result<Vec<u64>, Memory>
    ensures { IfOk result (λ shares. shares.items ≡ replicate sites 1) }
{
    Ok(vec![in alloc; 1; sites]?)
}

/// Splits a slack by shares: each site's bound, in order.
fn split(alloc: Global, slack: i128, shares: &[u64]) -> Result<List<i128>, Memory>
    requires not_negative { pos 0 ≤ℤ slack }
    requires small { IsSmall form_limit slack }
    requires some { 1 ≤ sum shares.now }
    requires fits { sum shares.now < 2 ^ 64 }
    ensures { IfOk result (λ bounds. bounds.items ≡ split shares.now slack) }
{
    let amount = natural(slack);
    let all = total(shares);
    let each = amount / all;
    let rest = amount % all;
    let mut bounds = Vec::with_capacity(alloc, shares.len())?;
    let mut below = 0;
    let mut given = 0;
    for share in shares {
        let with_it = below + *share;
        let part = part(each, rest, with_it, all);
        bounds.push_reserved(bound(given, part));
        below = with_it;
        given = part;
    }
    Ok(List::from_vec(bounds))
}

fn total(shares: &[u64]) -> u64
    requires { sum shares.now < 2 ^ 64 }
    ensures { result ≡ sum shares.now }
{
    shares.iter().sum()
}

/// A slack, which isn't negative.
fn natural(slack: i128) -> u64
    requires not_negative { pos 0 ≤ℤ slack }
    requires small { nat_of slack ≤ form_limit }
    ensures { result ≡ nat_of slack }
{
    slack as u64
}

/// What the shares up to a site are given, less what those below it are.
fn bound(given: u64, part: u64) -> i128
    requires { given ≤ part }
    ensures { result ≡ pos (part - given) }
{
    (part - given) as i128
}

/// The floor of what a slack gives `shares` of `all` shares, where it gives each so much and leaves this rest: the slack is divided
/// once, and only the rest for each site.
#[tactic(auto, using(crate::proofs::Splitting::part_within))]
fn part(each: u64, rest: u64, shares: u64, all: u64) -> u64
    requires some { 1 ≤ all }
    requires few { shares ≤ all }
    requires small { each * all + rest ≤ form_limit }
    ensures { result ≡ (each * all + rest) * shares / all }
{
    each * shares + part_of_rest(rest, shares, all)
}

/// The floor of what a rest gives `shares` of `all` shares. It is divided in 64 bits where their product has room in them.
#[tactic(auto, using(crate::proofs::Splitting::part_within))]
fn part_of_rest(rest: u64, shares: u64, all: u64) -> u64
    requires some { 1 ≤ all }
    requires few { shares ≤ all }
    ensures { result ≡ rest * shares / all }
{
    match rest.checked_mul(shares) {
        Some(product) => product / all,
        None => (rest as u128 * shares as u128 / all as u128) as u64,
    }
}
