//! A command over split names, run on two objects at two sites.

ghost use Rattle.std.specs.Prelude.{◌≡◌};
ghost use Rattle.homeo_syntax.specs.LowView.{plain_lcommand};
ghost use Rattle.homeo_plan_tests.specs.inner.SplitExample.{raise_own};

use crate::object::{object_sum, sum};
use crate::same::same_items;
use crate::sites::start;
use homeo_split::eval_l;
use homeo_syntax::{LCommand, LExpr, List, SplitName};
use std::alloc::Global;
use std::process::Abort;

/// Site 0's delta of object 0 is raised, and then the object is printed.
fn raise_own(rt: &impl Abort, alloc: Global) -> LCommand
    ensures { plain_lcommand result ≡ raise_own }
{
    let base = LExpr::Read(SplitName::Base(0));
    let here = SplitName::Delta { object: 0, site: 0 };
    let raised = sum(rt, alloc, LExpr::Read(here), LExpr::Literal(1), base);
    let write = LCommand::Write {
        target: here,
        value: raised,
    };
    let print = LCommand::Print {
        value: object_sum(rt, alloc),
    };
    LCommand::Seq {
        commands: List::from_vec(vec![in alloc; write, print].expect(rt, "memory")),
    }
}

#[test]
fn a_site_writes_its_own_delta(rt: HostRuntime) {
    let alloc = rt.alloc();
    let command = raise_own(&rt, alloc);
    let mut state = start(&rt, alloc);
    assert!(rt; state.has_places(&command));
    let prints = eval_l(alloc, &command, &mut state).expect(&rt, "memory");
    drop(command);
    same_items(&rt, prints.as_slice(), [16].as_slice());
    same_items(&rt, state.base.as_slice(), [5, 7].as_slice());
    match state.deltas.as_slice() {
        [here, there] => {
            same_items(&rt, here.as_slice(), [8, -1].as_slice());
            same_items(&rt, there.as_slice(), [3, 4].as_slice());
        }
        _ => panic!(rt; "two sites"),
    }
    drop(state);
}
