//! The atoms of a formula on an object at two sites.

ghost use Rattle.std.specs.Prelude.{◌≡◌};
ghost use Rattle.homeo_syntax.specs.LowView.{plain_lcond};
ghost use Rattle.homeo_plan_tests.specs.inner.ObjectExample.{at_most_five};

use crate::object::{base, object_sum};
use crate::same::{same, same_items};
use homeo_atoms::atoms;
use homeo_plan::{Delta, Term};
use homeo_syntax::{Compare, LCond, LExpr, LTest, List};
use std::alloc::Global;
use std::process::Abort;

/// The object is at most 5.
fn at_most_five(rt: &impl Abort, alloc: Global) -> LCond
    ensures { plain_lcond result ≡ at_most_five }
{
    let test = LTest::Compare {
        op: Compare::LessEqual,
        left: object_sum(rt, alloc),
        right: LExpr::Literal(5),
    };
    LCond {
        tests: List::from_vec(vec![in alloc; test].expect(rt, "memory")),
    }
}

fn once(site: u32) -> Term {
    Term {
        delta: Delta { object: 0, site },
        factor: 1,
    }
}

#[test]
fn a_bound_of_an_object_is_one_form_of_its_deltas(rt: HostRuntime) {
    let alloc = rt.alloc();
    let formula = at_most_five(&rt, alloc);
    let base = base(&rt, alloc, 2);
    let set = atoms(alloc, &formula, &base).expect(&rt, "memory");
    drop(formula);
    match set.atoms.as_slice() {
        [atom] => {
            same(&rt, &atom.form.constant, &-3);
            same_items(
                &rt,
                atom.form.terms.as_slice(),
                [once(0), once(1)].as_slice(),
            );
            same(&rt, &atom.form.mixed.as_slice().len(), &0);
        }
        _ => panic!(rt; "one atom"),
    }
    drop(set);
}
