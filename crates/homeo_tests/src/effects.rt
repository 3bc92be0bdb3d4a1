//! What the first call of a text does at its own site, and what of the site's treaty it touches.

ghost use Rattle.homeo_syntax.specs.SourceView.{plain_workload};
ghost use Rattle.homeo_build.specs.Plan.{IsObjectPlan};

use crate::same::same_items;
use crate::shops::{THREE_AND_ONE, accepted, shop};
use homeo_build::Compiled;
use homeo_build::compile::compile;
use homeo_build::residuals::residual;
use homeo_build::treaties::plan_at;
use homeo_effect::{SiteEffects, TreatyIndex, effects};
use homeo_eval::initial;
use homeo_meaning::Database;
use homeo_outline::ObjectPlan;
use homeo_print::{ObjectNames, print_row};
use homeo_syntax::{LCommand, List, Workload};
use std::alloc::Global;
use std::process::Abort;
use std::sync::Arc;

/// The first client prints what the second one raises.
const SHOWN: &str = "workload 1
sites 2
object x in 0..10 = 5
transaction show() { print(read(x)) }
transaction raise() { write(x = read(x) + 1) }
client a at 0 { show() }
client b at 1 { raise(); raise() }
schedule b a b
end
";

/// What the first ground call does at its own site, in a round that begins at a base.
fn first_effects(
    rt: &impl Abort,
    alloc: Global,
    c: &Compiled,
    base: &Database,
    plan: &Arc<ObjectPlan>,
) -> SiteEffects
    requires plan { IsObjectPlan (plain_workload c.now) base.now.items plan.now.value }
{
    let _workload = c.workload().workload();
    if c.calls().is_empty() {
        panic!(rt; "a call");
    }
    let residual = residual(alloc, c, base, 0).expect(rt, "memory");
    let index = TreatyIndex::of(plan, residual.site).expect(rt, "memory");
    let effects = effects(alloc, &residual, &index, base).expect(rt, "memory");
    drop(index);
    drop(residual);
    effects
}

/// The commands as those of a row without tests.
fn printed(rt: &impl Abort, alloc: Global, w: &Workload, commands: List<LCommand>) -> Vec<u8> {
    let objects = ObjectNames::of(alloc, w).expect(rt, "memory");
    let mut residual = Vec::new(alloc);
    for c in commands.as_slice() {
        residual.push(c).expect(rt, "memory");
    }
    let mut out = Vec::new(alloc);
    print_row(&mut out, w, &objects, 0, &[], residual.as_slice()).expect(rt, "memory");
    drop(residual);
    drop(commands);
    drop(objects);
    out
}

/// That of the round that begins at the starting values.
fn effects_at_start(rt: &impl Abort, alloc: Global, c: &Compiled) -> SiteEffects {
    let base = initial(alloc, c.workload()).expect(rt, "memory");
    let plan = plan_at(alloc, c, &base).expect(rt, "memory");
    let effects = first_effects(rt, alloc, c, &base, &plan);
    drop(plan);
    effects
}

/// The commands that the first ground call is at its own site in the round that begins at the starting values, as a text, and the
/// numbers of the clauses and freezes that it touches.
#[derive(Drop)]
struct Touch {
    text: Vec<u8>,
    clauses: List<u32>,
    freezes: List<u32>,
}

fn first_touched(rt: &impl Abort, alloc: Global, c: &Compiled) -> Touch {
    let effects = effects_at_start(rt, alloc, c);
    let text = printed(rt, alloc, c.workload().workload(), effects.commands);
    Touch {
        text,
        clauses: effects.clauses,
        freezes: effects.freezes,
    }
}

/// That of a text.
fn touched(rt: &impl Abort, alloc: Global, text: &str) -> Touch {
    let w = accepted(rt, alloc, text);
    let c = compile(alloc, w).expect(rt, "memory");
    let touch = first_touched(rt, alloc, &c);
    drop(c);
    touch
}

#[test]
fn a_call_touches_what_it_writes_at_its_site(rt: HostRuntime) {
    let alloc = rt.alloc();
    let text = shop(&rt, alloc, THREE_AND_ONE);
    let sale = touched(&rt, alloc, text.as_str());
    let commands = b"do { s := 5 + stock@0 + 0; write(stock@0 = (s + -1) + -5 + 0); print(1) }\n";
    assert!(rt; sale.text.as_slice().ends_with(commands.as_slice()));
    same_items(&rt, sale.clauses.as_slice(), [0, 1].as_slice());
    same_items(&rt, sale.freezes.as_slice(), [].as_slice());
    let print = touched(&rt, alloc, SHOWN);
    same_items(&rt, print.clauses.as_slice(), [].as_slice());
    same_items(&rt, print.freezes.as_slice(), [].as_slice());
}
