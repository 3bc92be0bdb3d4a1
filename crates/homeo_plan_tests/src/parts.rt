//! What a whole call of a text brings to a plan.

use crate::calls::first;
use crate::same::{same, same_items};
use crate::texts::{FILL, accepted};
use homeo_context::Declarations;
use homeo_desugar::desugar;
use homeo_eval::initial;
use homeo_follow::PlanPart;
use homeo_ground::Grounding;
use homeo_linear::Follower;
use homeo_meaning::Accepted;
use homeo_plan::{Atom, Delta, Term};
use std::alloc::Global;
use std::process::Abort;

/// What the first ground call of a workload brings at the starting values.
fn first_part(rt: &impl Abort, alloc: Global, w: &Accepted) -> PlanPart {
    // its ground calls compute small numbers, and its bounds are small
    let _workload = w.workload();
    let declared = Declarations::of(alloc, w).expect(rt, "memory");
    let grounding = Grounding::of(alloc, w, &declared).expect(rt, "memory");
    let call = first(rt, w, grounding.calls());
    let form = desugar(alloc, call, w, &declared).expect(rt, "memory");
    drop(grounding);
    drop(declared);
    let base = initial(alloc, w).expect(rt, "memory");
    let mut follower = Follower::new(alloc, &base);
    let part = follower.part(alloc, &form).expect(rt, "memory");
    drop(follower);
    drop(form);
    part
}

const OBJECT: Delta = Delta { object: 0, site: 0 };

/// Compares an atom with the factor times the object and this constant.
fn check_atom(rt: &impl Abort, atom: &Atom, constant: i128, factor: i128) {
    let term = Term {
        delta: OBJECT,
        factor,
    };
    same(rt, &atom.form.constant, &constant);
    same_items(rt, atom.form.terms.as_slice(), [term].as_slice());
    same(rt, &atom.form.mixed.as_slice().len(), &0);
}

// From 9 the object is raised to 10, which is within 0..10 and above 9, and printed.
#[test]
fn a_call_brings_the_tests_along_its_branch_and_what_it_prints(rt: HostRuntime) {
    let w = accepted(&rt, rt.alloc(), FILL);
    let part = first_part(&rt, rt.alloc(), &w);
    drop(w);
    match part.atoms.atoms.as_slice() {
        [low, high, above] => {
            check_atom(&rt, low, -10, -1);
            check_atom(&rt, high, 0, 1);
            check_atom(&rt, above, 0, -1);
        }
        _ => panic!(rt; "three atoms"),
    }
    same_items(&rt, part.needs.deltas.as_slice(), [OBJECT].as_slice());
    drop(part);
}
