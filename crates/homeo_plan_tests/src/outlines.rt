//! The outline of a plan of an object at two sites, the leaders of its clauses, and what these are over the deltas of the sites.

ghost use Rattle.std.specs.Prelude.{◌<◌, ◌^◌, vec_len};

use crate::same::{same, same_items};
use homeo_outline::{Leaders, Outline, outlined, whole_template};
use homeo_plan::{Clause, Delta, Template, Term};
use homeo_syntax::List;
use homeo_template::at_sites;
use std::alloc::Global;
use std::process::Abort;

/// A clause on the delta of the first object at site 0.
fn clause(rt: &impl Abort, alloc: Global, factor: i128, slack: i128) -> Clause {
    let delta = Delta { object: 0, site: 0 };
    let terms = vec![in alloc; Term { delta, factor }].expect(rt, "memory");
    Clause {
        terms: List::from_vec(terms),
        slack,
    }
}

/// The outline and the slacks of a plan for two sites with these clauses.
fn outline_of(rt: &impl Abort, alloc: Global, clauses: Vec<Clause>) -> (Outline, List<i128>)
    requires { vec_len clauses < 2 ^ 32 }
{
    let template = Template {
        sites: 2,
        clauses: List::from_vec(clauses),
        freezes: List::new(alloc),
    };
    outlined(alloc, template).expect(rt, "memory")
}

/// The outline and the slacks of a plan for two sites, where of the first object at most 4 may be taken, and 4 added.
pub(crate) fn outline(rt: &impl Abort, alloc: Global) -> (Outline, List<i128>) {
    let taken = clause(rt, alloc, -1, 4);
    let added = clause(rt, alloc, 1, 4);
    let clauses = vec![in alloc; taken, added].expect(rt, "memory");
    outline_of(rt, alloc, clauses)
}

/// The leaders of four clauses, where at most 4 and at most 5 may be taken, and 4 and 3 added.
fn leaders(rt: &impl Abort, alloc: Global) -> Leaders {
    let taken = clause(rt, alloc, -1, 4);
    let added = clause(rt, alloc, 1, 4);
    let taken_more = clause(rt, alloc, -1, 5);
    let added_less = clause(rt, alloc, 1, 3);
    let clauses = vec![in alloc; taken, added, taken_more, added_less].expect(rt, "memory");
    let (outline, slacks) = outline_of(rt, alloc, clauses);
    let leaders = Leaders::of(alloc, &outline, slacks.as_slice()).expect(rt, "memory");
    drop(outline);
    leaders
}

#[test]
fn the_least_slack_leads_the_clauses_of_the_same_terms(rt: HostRuntime) {
    let leaders = leaders(&rt, rt.alloc());
    same_items(&rt, leaders.on(0), [0, 3].as_slice());
    same_items(&rt, leaders.on(1), [].as_slice());
    drop(leaders);
}

/// The same factor at both sites.
fn at_both(factor: i128) -> [Term; 2] {
    let here = Delta { object: 0, site: 0 };
    let there = Delta { object: 0, site: 1 };
    [
        Term {
            delta: here,
            factor,
        },
        Term {
            delta: there,
            factor,
        },
    ]
}

/// A template with the clauses of `outline` over the deltas of both sites.
fn template(rt: &impl Abort, alloc: Global) -> Template {
    let (outline, slacks) = outline(rt, alloc);
    let whole = whole_template(alloc, &outline, slacks.as_slice()).expect(rt, "memory");
    drop(outline);
    let template = at_sites(alloc, &whole).expect(rt, "memory");
    drop(whole);
    template
}

#[test]
fn an_object_has_its_factor_at_each_site(rt: HostRuntime) {
    let template = template(&rt, rt.alloc());
    same(&rt, &template.sites, &2);
    match template.clauses.as_slice() {
        [taken, added] => {
            same_items(&rt, taken.terms.as_slice(), at_both(-1).as_slice());
            same(&rt, &taken.slack, &4);
            same_items(&rt, added.terms.as_slice(), at_both(1).as_slice());
            same(&rt, &added.slack, &4);
        }
        _ => panic!(rt; "two clauses"),
    }
    same(&rt, &template.freezes.as_slice().len(), &0);
    drop(template);
}
