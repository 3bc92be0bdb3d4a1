//! Copies of the types of plans.

use crate::same::{same, same_items};
use homeo_plan::{
    Atom, AtomSet, Clause, Config, Delta, FreezeSet, JointRow, Linear, LocalTreaty, Residual, Row,
    Template, Term,
};
use homeo_syntax::{LCommand, LCond, LExpr, List};
use std::alloc::Global;
use std::process::Abort;

#[test]
fn atoms_are_copied(rt: HostRuntime) {
    let alloc = rt.alloc();
    let here = Delta { object: 0, site: 1 };
    let there = Delta { object: 2, site: 0 };
    let term = Term {
        delta: here,
        factor: -3,
    };
    let form = Linear {
        constant: -7,
        terms: List::from_vec(vec![in alloc; term].expect(&rt, "memory")),
        mixed: List::from_vec(vec![in alloc; there].expect(&rt, "memory")),
    };
    let atoms = List::from_vec(vec![in alloc; Atom { form }].expect(&rt, "memory"));
    let set = AtomSet { atoms };
    let copy = set.copy(alloc).expect(&rt, "memory");
    drop(set);
    match copy.atoms.as_slice() {
        [atom] => {
            same(&rt, &atom.form.constant, &-7);
            same_items(&rt, atom.form.terms.as_slice(), [term].as_slice());
            same_items(&rt, atom.form.mixed.as_slice(), [there].as_slice());
        }
        _ => panic!(rt; "one atom"),
    }
    drop(copy);
}

#[test]
fn a_row_is_copied(rt: HostRuntime) {
    let alloc = rt.alloc();
    let print = LCommand::Print {
        value: LExpr::Literal(4),
    };
    let row = Row {
        formula: LCond {
            tests: List::new(alloc),
        },
        residual: List::from_vec(vec![in alloc; print].expect(&rt, "memory")),
    };
    let copy = row.copy(alloc).expect(&rt, "memory");
    drop(row);
    same(&rt, &copy.formula.tests.as_slice().len(), &0);
    assert!(rt;
        matches!(
            copy.residual.as_slice(),
            [LCommand::Print {
                value: LExpr::Literal(4)
            }]
        )
    );
    drop(copy);
}

#[test]
fn picks_and_freezes_are_copied(rt: HostRuntime) {
    let alloc = rt.alloc();
    let picks = List::from_vec(vec![in alloc; 2, 0].expect(&rt, "memory"));
    let copy = JointRow { picks }.copy(alloc).expect(&rt, "memory");
    same_items(&rt, copy.picks.as_slice(), [2, 0].as_slice());
    let delta = Delta { object: 2, site: 1 };
    let deltas = List::from_vec(vec![in alloc; delta].expect(&rt, "memory"));
    let copy = FreezeSet { deltas }.copy(alloc).expect(&rt, "memory");
    same_items(&rt, copy.deltas.as_slice(), [delta].as_slice());
}

#[test]
fn a_residual_is_copied(rt: HostRuntime) {
    let alloc = rt.alloc();
    let commands = List::from_vec(vec![in alloc; LCommand::Skip].expect(&rt, "memory"));
    let residual = Residual { site: 3, commands };
    let copy = residual.copy(alloc).expect(&rt, "memory");
    drop(residual);
    same(&rt, &copy.site, &3);
    assert!(rt; matches!(copy.commands.as_slice(), [LCommand::Skip]));
    drop(copy);
}

/// A treaty of two sites with one clause and one freeze.
fn treaty(rt: &impl Abort, alloc: Global, term: Term) -> LocalTreaty {
    let clause = Clause {
        terms: List::from_vec(vec![in alloc; term].expect(rt, "memory")),
        slack: 4,
    };
    let template = Template {
        sites: 2,
        clauses: List::from_vec(vec![in alloc; clause].expect(rt, "memory")),
        freezes: List::from_vec(vec![in alloc; term.delta].expect(rt, "memory")),
    };
    let bounds = List::from_vec(vec![in alloc; 1, 3].expect(rt, "memory"));
    let config = Config {
        bounds: List::from_vec(vec![in alloc; bounds].expect(rt, "memory")),
    };
    LocalTreaty {
        site: 1,
        template,
        config,
    }
}

fn check_template(rt: &impl Abort, template: &Template, term: Term) {
    same(rt, &template.sites, &2);
    match template.clauses.as_slice() {
        [clause] => {
            same_items(rt, clause.terms.as_slice(), [term].as_slice());
            same(rt, &clause.slack, &4);
        }
        _ => panic!(rt; "one clause"),
    }
    same_items(rt, template.freezes.as_slice(), [term.delta].as_slice());
}

#[test]
fn a_treaty_is_copied(rt: HostRuntime) {
    let alloc = rt.alloc();
    let delta = Delta { object: 0, site: 1 };
    let term = Term { delta, factor: -1 };
    let treaty = treaty(&rt, alloc, term);
    let copy = treaty.copy(alloc).expect(&rt, "memory");
    drop(treaty);
    same(&rt, &copy.site, &1);
    check_template(&rt, &copy.template, term);
    match copy.config.bounds.as_slice() {
        [bounds] => same_items(&rt, bounds.as_slice(), [1, 3].as_slice()),
        _ => panic!(rt; "one clause"),
    }
    drop(copy);
}
