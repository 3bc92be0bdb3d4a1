//! What a residual on an object at two sites needs.

ghost use Rattle.std.specs.Prelude.{◌≡◌};
ghost use Rattle.homeo_plan.specs.PlanView.{plain_residual};
ghost use Rattle.homeo_plan_tests.specs.inner.ObjectExample.{printed};

use crate::object::{base, object_sum};
use crate::same::same_items;
use homeo_atoms::needs;
use homeo_plan::{Delta, Residual};
use homeo_syntax::{LCommand, List};
use std::alloc::Global;
use std::process::Abort;

/// Site 0 prints the object.
fn printed(rt: &impl Abort, alloc: Global) -> Residual
    ensures { plain_residual result ≡ printed }
{
    let print = LCommand::Print {
        value: object_sum(rt, alloc),
    };
    let commands = List::from_vec(vec![in alloc; print].expect(rt, "memory"));
    Residual { site: 0, commands }
}

#[test]
fn a_site_that_prints_an_object_needs_the_delta_of_the_other(rt: HostRuntime) {
    let residual = printed(&rt, rt.alloc());
    let base = base(&rt, rt.alloc(), 2);
    let freezes = needs(rt.alloc(), &residual, &base).expect(&rt, "memory");
    drop(residual);
    same_items(
        &rt,
        freezes.deltas.as_slice(),
        [Delta { object: 0, site: 1 }].as_slice(),
    );
}
