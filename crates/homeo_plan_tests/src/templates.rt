//! The template of two sets of atoms, and the clauses of parts that ask them.

ghost use Rattle.std.specs.Prelude.{◌≡◌, length, negsuc};
ghost use Rattle.std.specs.List.{All};
ghost use Rattle.homeo_meaning.specs.Small.{IsSmall};
ghost use Rattle.homeo_plan.specs.Limit.{form_limit};
ghost use Rattle.homeo_plan_tests.specs.inner.AtomExample.{AreSmall};

use crate::outlines::outline;
use crate::same::{same, same_items};
use homeo_atoms::template;
use homeo_follow::PlanPart;
use homeo_outline::{rebased_slacks, whole_template};
use homeo_plan::{Atom, AtomSet, Clause, Delta, FreezeSet, Linear, Term};
use homeo_syntax::List;
use homeo_template::object_clauses;
use std::alloc::Global;
use std::process::Abort;
use std::sync::Arc;

fn delta(object: u32, site: u32) -> Delta {
    Delta { object, site }
}

fn term(object: u32, site: u32, factor: i128) -> Term {
    Term {
        delta: delta(object, site),
        factor,
    }
}

fn atom(rt: &impl Abort, alloc: Global, constant: i128, terms: &[Term], mixed: &[Delta]) -> Atom
    ensures { result.form.constant ≡ constant }
{
    let terms = Vec::from_slice(alloc, terms).expect(rt, "memory");
    let mixed = Vec::from_slice(alloc, mixed).expect(rt, "memory");
    let form = Linear {
        constant,
        terms: List::from_vec(terms),
        mixed: List::from_vec(mixed),
    };
    Atom { form }
}

fn pair(rt: &impl Abort, alloc: Global, first: Atom, second: Atom) -> AtomSet
    requires first { IsSmall form_limit first.form.constant }
    requires second { IsSmall form_limit second.form.constant }
    ensures { AreSmall result }
{
    AtomSet {
        atoms: List::from_vec(vec![in alloc; first, second].expect(rt, "memory")),
    }
}

/// Where `d01` is the delta of object 0 at site 1: `2 * d01 - d10 <= 5`.
fn shared(rt: &impl Abort, alloc: Global) -> Atom
    ensures { result.form.constant ≡ negsuc 4 }
{
    atom(rt, alloc, -5, &[term(0, 1, 2), term(1, 0, -1)], &[])
}

/// The shared atom, and one without terms that mixes `d11`.
fn one(rt: &impl Abort, alloc: Global) -> AtomSet
    ensures { AreSmall result }
{
    let shared = shared(rt, alloc);
    let without_terms = atom(rt, alloc, 0, &[], &[delta(1, 1)]);
    pair(rt, alloc, shared, without_terms)
}

/// `d00 <= 2`, which mixes `d01`, and the shared atom.
fn other(rt: &impl Abort, alloc: Global) -> AtomSet
    ensures { AreSmall result }
{
    let mixed = atom(rt, alloc, -2, &[term(0, 0, 1)], &[delta(0, 1)]);
    let shared = shared(rt, alloc);
    pair(rt, alloc, mixed, shared)
}

fn sets(rt: &impl Abort, alloc: Global) -> Vec<AtomSet>
    ensures { All AreSmall result.items }
{
    let one = one(rt, alloc);
    let other = other(rt, alloc);
    vec![in alloc; one, other].expect(rt, "memory")
}

fn freezes(rt: &impl Abort, alloc: Global, deltas: &[Delta]) -> FreezeSet {
    FreezeSet {
        deltas: List::from_vec(deltas.to_vec(alloc).expect(rt, "memory")),
    }
}

fn needed(rt: &impl Abort, alloc: Global) -> Vec<FreezeSet> {
    let two = freezes(rt, alloc, &[delta(0, 2), delta(1, 0)]);
    let one = freezes(rt, alloc, &[delta(0, 1)]);
    vec![in alloc; two, one].expect(rt, "memory")
}

fn is_clause(clause: &Clause, terms: &[Term], slack: i128) -> bool {
    clause.terms.as_slice() == terms && clause.slack == slack
}

#[test]
fn equal_atoms_are_one_clause_and_freezes_stand_in_order(rt: HostRuntime) {
    let alloc = rt.alloc();
    let sets = sets(&rt, alloc);
    let needed = needed(&rt, alloc);
    let template = template(alloc, sets.as_slice(), needed.as_slice(), 3).expect(&rt, "memory");
    drop(sets);
    drop(needed);
    same(&rt, &template.sites, &3);
    match template.clauses.as_slice() {
        [first, second] => {
            assert!(rt; is_clause(first, [term(0, 1, 2), term(1, 0, -1)].as_slice(), 5));
            assert!(rt; is_clause(second, [term(0, 0, 1)].as_slice(), 2));
        }
        _ => panic!(rt; "two clauses"),
    }
    same_items(
        &rt,
        template.freezes.as_slice(),
        [delta(0, 1), delta(0, 2), delta(1, 0), delta(1, 1)].as_slice(),
    );
    drop(template);
}

/// A part that asks this, and needs nothing.
fn part(rt: &impl Abort, alloc: Global, atoms: AtomSet) -> Arc<PlanPart>
    ensures { result.value.atoms ≡ atoms }
{
    let part = PlanPart {
        atoms,
        needs: freezes(rt, alloc, &[]),
    };
    Arc::new(alloc, part).expect(rt, "memory")
}

/// Parts that ask what the sets do.
fn parts(rt: &impl Abort, alloc: Global) -> Vec<Arc<PlanPart>>
    ensures count { length result.items ≡ 2 }
    ensures small { All (λ p. AreSmall p.value.atoms) result.items }
{
    let one = part(rt, alloc, one(rt, alloc));
    let other = part(rt, alloc, other(rt, alloc));
    vec![in alloc; one, other].expect(rt, "memory")
}

// The second part comes first, and again at the end.
#[test]
fn a_clause_stands_once_where_it_is_first_asked(rt: HostRuntime) {
    let alloc = rt.alloc();
    let parts = parts(&rt, alloc);
    let clauses = object_clauses(alloc, parts.as_slice(), &[1, 0, 1]).expect(&rt, "memory");
    drop(parts);
    match clauses.as_slice() {
        [first, second] => {
            assert!(rt; is_clause(first, [term(0, 0, 1)].as_slice(), 2));
            assert!(rt; is_clause(second, [term(0, 1, 2), term(1, 0, -1)].as_slice(), 5));
        }
        _ => panic!(rt; "two clauses"),
    }
    drop(clauses);
}

// The object goes from 5 to 4: one less may be taken, and one more added.
#[test]
fn slacks_go_by_what_the_object_gained(rt: HostRuntime) {
    let alloc = rt.alloc();
    let (outline, slacks) = outline(&rt, alloc);
    drop(slacks);
    let made = rebased_slacks(alloc, &outline, &[2, 8], &[5], &[4]).expect(&rt, "memory");
    let made = made.unwrap_or(List::new(alloc));
    let whole = whole_template(alloc, &outline, made.as_slice()).expect(&rt, "memory");
    drop(made);
    drop(outline);
    match whole.clauses.as_slice() {
        [taken, added] => {
            assert!(rt; is_clause(taken, &[term(0, 0, -1)], 1));
            assert!(rt; is_clause(added, &[term(0, 0, 1)], 9));
        }
        _ => panic!(rt; "two clauses"),
    }
    drop(whole);
}
