//! The plan of the first round of a workload, and that of the second, made from it.

use crate::calls::first;
use crate::same::{same, same_items};
use crate::texts::{ONE_WRITER, TWICE, WEIGHTED, accepted};
use homeo_build::Compiled;
use homeo_build::compile::compile;
use homeo_build::residuals::residual;
use homeo_build::shares::shares;
use homeo_build::treaties::{plan_after, plan_at, treaties};
use homeo_eval::{eval, initial};
use homeo_ground::Grounding;
use homeo_outline::ObjectPlan;
use homeo_plan::{Clause, Config, Delta, Residual, RoundPlan, Template, Term};
use homeo_print::{ObjectNames, print_template};
use homeo_syntax::{LCommand, List, Numbers, SplitName};
use std::alloc::Global;
use std::process::Abort;
use std::sync::Arc;

/// The plan of the round that begins at the starting values.
fn first_plan(rt: &impl Abort, alloc: Global, c: &Compiled) -> RoundPlan {
    let base = initial(alloc, c.workload()).expect(rt, "memory");
    treaties(alloc, c, &base, None).expect(rt, "memory")
}

/// An accepted text, compiled.
fn compiled(rt: &impl Abort, alloc: Global, text: &str) -> Compiled {
    let w = accepted(rt, alloc, text);
    compile(alloc, w).expect(rt, "memory")
}

fn plan_of(rt: &impl Abort, alloc: Global, text: &str) -> RoundPlan {
    let compiled = compiled(rt, alloc, text);
    let plan = first_plan(rt, alloc, &compiled);
    drop(compiled);
    plan
}

fn term(site: u32, factor: i128) -> Term {
    Term {
        delta: Delta { object: 0, site },
        factor,
    }
}

/// The factor times the sum of both sites' deltas is at most the slack, which is split into these bounds.
fn is_shared(
    clause: &Clause,
    bounds: &List<i128>,
    factor: i128,
    slack: i128,
    split: &[i128],
) -> bool {
    clause.terms.as_slice() == [term(0, factor), term(1, factor)].as_slice()
        && clause.slack == slack
        && bounds.as_slice() == split
}

/// Both writes are bounded, the second on what the first one wrote.
fn bounds_both_writes(plan: &RoundPlan) -> bool {
    match (
        plan.template.clauses.as_slice(),
        plan.config.bounds.as_slice(),
    ) {
        ([low, high, second_low, second_high], [a, b, c, d]) => {
            is_shared(low, a, -1, 6, [3, 3].as_slice())
                && is_shared(high, b, 1, 4, [2, 2].as_slice())
                && is_shared(second_low, c, -1, 7, [3, 4].as_slice())
                && is_shared(second_high, d, 1, 3, [1, 2].as_slice())
        }
        _ => false,
    }
}

#[test]
fn a_second_write_is_bounded_on_what_the_first_one_wrote(rt: HostRuntime) {
    let plan = plan_of(&rt, rt.alloc(), TWICE);
    same_items(&rt, plan.base.as_slice(), [5].as_slice());
    same(&rt, &plan.template.sites, &2);
    assert!(rt; bounds_both_writes(&plan));
    same(&rt, &plan.template.freezes.as_slice().len(), &0);
    drop(plan);
}

/// The residual of the first ground call, in the round that begins at the starting values.
fn first_residual(rt: &impl Abort, alloc: Global, c: &Compiled) -> Residual {
    if c.calls().is_empty() {
        panic!(rt; "a call");
    }
    let base = initial(alloc, c.workload()).expect(rt, "memory");
    residual(alloc, c, &base, 0).expect(rt, "memory")
}

fn residual_of(rt: &impl Abort, alloc: Global, text: &str) -> Residual {
    let compiled = compiled(rt, alloc, text);
    let residual = first_residual(rt, alloc, &compiled);
    drop(compiled);
    residual
}

/// Whether it writes the delta of the first object at site 0.
fn writes_first(command: &LCommand) -> bool {
    matches!(
        command,
        LCommand::Write {
            target: SplitName::Delta { object: 0, site: 0 },
            ..
        }
    )
}

#[test]
fn a_residual_writes_deltas_of_its_site(rt: HostRuntime) {
    let residual = residual_of(&rt, rt.alloc(), TWICE);
    same(&rt, &residual.site, &0);
    match residual.commands.as_slice() {
        [first, second] => {
            assert!(rt; writes_first(first));
            assert!(rt; writes_first(second));
        }
        _ => panic!(rt; "two writes"),
    }
    drop(residual);
}

/// The first bounds follow the weights 3 and 1.
fn has_weighted_bounds(plan: &RoundPlan) -> bool {
    match (
        plan.template.clauses.as_slice(),
        plan.config.bounds.as_slice(),
    ) {
        ([enough, room], [a, b]) => {
            is_shared(enough, a, -1, 4, [3, 1].as_slice())
                && is_shared(room, b, 1, 6, [4, 2].as_slice())
        }
        _ => false,
    }
}

#[test]
fn slacks_are_shared_by_weights(rt: HostRuntime) {
    let plan = plan_of(&rt, rt.alloc(), WEIGHTED);
    assert!(rt; has_weighted_bounds(&plan));
    drop(plan);
}

/// These bounds of two clauses.
fn bounds_of_two(rt: &impl Abort, alloc: Global, first: &[i128], second: &[i128]) -> Config {
    let mut bounds = List::new(alloc);
    for own in [first, second] {
        let own = Vec::from_slice(alloc, own).expect(rt, "memory");
        bounds.push(List::from_vec(own)).expect(rt, "memory");
    }
    Config { bounds }
}

/// The text of a template with bounds that are its caller's.
fn printed(rt: &impl Abort, alloc: Global, c: &Compiled, t: &Template, own: &Config) -> Vec<u8> {
    assert!(rt; own.bounds.as_slice().len() == t.clauses.as_slice().len());
    let w = c.workload().workload();
    let objects = ObjectNames::of(alloc, w).expect(rt, "memory");
    let mut out = Vec::new(alloc);
    print_template(&mut out, w, &objects, t, own).expect(rt, "memory");
    drop(objects);
    out
}

#[test]
fn treaties_are_printed_with_the_bounds_of_their_caller(rt: HostRuntime) {
    let alloc = rt.alloc();
    let compiled = compiled(&rt, alloc, ONE_WRITER);
    let plan = first_plan(&rt, alloc, &compiled);
    let config = bounds_of_two(&rt, alloc, [1, 5].as_slice(), [4, 0].as_slice());
    let text = printed(&rt, alloc, &compiled, &plan.template, &config);
    drop(config);
    drop(plan);
    drop(compiled);
    same_items(
        &rt,
        text.as_slice(),
        b"clauses 2
0 slack 6 bounds 1 5 form -1*x@0 -1*x@1
1 slack 4 bounds 4 0 form 1*x@0 1*x@1
freezes 1
2 x@1
",
    );
}

/// The shares of the clauses of the round that begins at the starting values.
fn first_shares(rt: &impl Abort, alloc: Global, c: &Compiled) -> Vec<Numbers> {
    let plan = first_plan(rt, alloc, c);
    let shares = shares(alloc, c, &plan.template).expect(rt, "memory");
    drop(plan);
    shares
}

#[test]
fn a_site_that_does_not_write_has_no_share(rt: HostRuntime) {
    let compiled = compiled(&rt, rt.alloc(), ONE_WRITER);
    let shares = first_shares(&rt, rt.alloc(), &compiled);
    drop(compiled);
    match shares.as_slice() {
        [low, high] => {
            same_items(&rt, low.as_slice(), [1, 0].as_slice());
            same_items(&rt, high.as_slice(), [1, 0].as_slice());
        }
        _ => panic!(rt; "two clauses"),
    }
}

/// The plan of the round that begins after the first ground call, made from that of the first round.
fn second_plan(rt: &impl Abort, alloc: Global, c: &Compiled) -> Arc<ObjectPlan> {
    let w = c.workload();
    let mut base = initial(alloc, w).expect(rt, "memory");
    let last = plan_at(alloc, c, &base).expect(rt, "memory");
    let grounding = Grounding::of(alloc, w, c.declared()).expect(rt, "memory");
    let call = first(rt, w, grounding.calls());
    let args = call.args.as_slice();
    let _prints = eval(alloc, w, call.transaction, args, &mut base).expect(rt, "memory");
    drop(grounding);
    let plan = plan_after(alloc, c, &last, &base).expect(rt, "memory");
    drop(last);
    plan
}

/// The clauses by these factors of the object, wherever it is written.
fn are_whole(terms: &[List<Term>], factors: &[i128]) -> bool {
    terms.len() == factors.len()
        && terms.iter().zip(factors.iter()).all(|(own, factor)| own.as_slice()
            == [term(0, *factor)].as_slice())
}

// The call raises the object from 5 to 7.
#[test]
fn slacks_of_a_later_round_are_those_of_its_base(rt: HostRuntime) {
    let compiled = compiled(&rt, rt.alloc(), TWICE);
    let plan = second_plan(&rt, rt.alloc(), &compiled);
    drop(compiled);
    same_items(&rt, plan.base.as_slice(), [7].as_slice());
    same(&rt, &plan.parts.as_slice().len(), &1);
    same(&rt, &plan.outline.sites(), &2);
    assert!(rt; are_whole(plan.outline.terms(), [-1, 1, -1, 1].as_slice()));
    same(&rt, &plan.outline.freezes().len(), &0);
    same_items(&rt, plan.slacks.as_slice(), [8, 2, 9, 1].as_slice());
    same_items(&rt, plan.leaders.on(0), [0, 3].as_slice());
    assert!(rt; plan.bounds.is_none());
    drop(plan);
}
