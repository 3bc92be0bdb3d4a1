//! Slacks that are split among sites.

ghost use Rattle.std.specs.Prelude.{◌≡◌, ◌≤◌, [], ◌∷◌, map};
ghost use Rattle.homeo_plan.specs.PlanView.{plain_clause, plain_template};
ghost use Rattle.homeo_plan_tests.specs.inner.SlackExample.{with_slack, slacks, three_and_one};

use crate::same::same_items;
use homeo_config::{split_even, split_weighted};
use homeo_plan::{Clause, Config, Template};
use homeo_syntax::{List, Numbers};
use std::alloc::Global;
use std::process::Abort;

fn clause(alloc: Global, slack: i128) -> Clause
    ensures { plain_clause result ≡ with_slack slack }
{
    Clause {
        terms: List::new(alloc),
        slack,
    }
}

fn slacks_of(rt: &impl Abort, alloc: Global, sites: u32, first: i128, second: i128) -> Template
    ensures sites { result.sites ≡ sites }
    ensures clauses { (plain_template result).clauses ≡ slacks first second }
{
    let first = clause(alloc, first);
    let second = clause(alloc, second);
    Template {
        sites,
        clauses: List::from_vec(vec![in alloc; first, second].expect(rt, "memory")),
        freezes: List::new(alloc),
    }
}

/// Slacks of 7 and 0 that so many sites share.
fn shared(rt: &impl Abort, alloc: Global, sites: u32) -> Config
    requires { 1 ≤ sites }
{
    let template = slacks_of(rt, alloc, sites, 7, 0);
    let config = split_even(alloc, &template).expect(rt, "memory");
    drop(template);
    config
}

/// Compares the bounds of two clauses.
fn check_bounds(rt: &impl Abort, config: Config, first: &[i128], second: &[i128]) {
    match config.bounds.as_slice() {
        [found, other] => {
            same_items(rt, found.as_slice(), first);
            same_items(rt, other.as_slice(), second);
        }
        _ => panic!(rt; "two clauses"),
    }
    drop(config);
}

#[test]
fn a_remainder_is_given_to_later_sites(rt: HostRuntime) {
    let config = shared(&rt, rt.alloc(), 2);
    check_bounds(&rt, config, &[3, 4], &[0, 0]);
}

#[test]
fn three_sites_share_a_slack_of_seven(rt: HostRuntime) {
    let config = shared(&rt, rt.alloc(), 3);
    check_bounds(&rt, config, &[2, 2, 3], &[0, 0, 0]);
}

fn three_and_one(rt: &impl Abort, alloc: Global) -> Numbers
    ensures { result.items ≡ three_and_one }
{
    List::from_vec(vec![in alloc; 3, 1].expect(rt, "memory"))
}

/// Shares of 3 and 1 for each of two clauses.
fn shares_of_two(rt: &impl Abort, alloc: Global) -> Vec<Numbers>
    ensures { map (λ l. l.items) result.items ≡ three_and_one ∷ three_and_one ∷ [] }
{
    let first = three_and_one(rt, alloc);
    let second = three_and_one(rt, alloc);
    vec![in alloc; first, second].expect(rt, "memory")
}

#[test]
fn slacks_are_split_by_shares(rt: HostRuntime) {
    let alloc = rt.alloc();
    let template = slacks_of(&rt, alloc, 2, 4, 6);
    let shares = shares_of_two(&rt, alloc);
    let config = split_weighted(alloc, &template, shares.as_slice()).expect(&rt, "memory");
    drop(template);
    drop(shares);
    check_bounds(&rt, config, &[3, 1], &[4, 2]);
}
