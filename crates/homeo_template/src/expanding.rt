//! Templates over whole objects, as they are over the deltas of sites.

ghost use Rattle.std.specs.Prelude.{◌≡◌, ◌++◌, map, IfOk, OnOk};
ghost use Rattle.homeo_plan.specs.PlanView.{plain_clause, plain_template};
ghost use Rattle.homeo_follow.specs.Expanded.{terms_from, expanded_terms};
ghost use Rattle.homeo_follow.specs.ObjectTemplate.{expanded_clause, expanded_template};

use homeo_plan::{Clause, Delta, Template, Term};
use homeo_syntax::{List, Memory};
use std::alloc::Global;

/// A template whose clauses are over whole objects, over the deltas of its sites: an object's factor is that of its delta at each
/// site, and the freezes stay. It takes time and memory linear in what it gives.
///
/// # Errors
///
/// `Memory` when out of memory.
pub fn at_sites(alloc: Global, t: &Template) -> Result<Template, Memory>
    ensures sites { IfOk result (λ made. made.sites ≡ t.now.sites) }
    ensures template { IfOk result (λ made. plain_template made ≡ expanded_template t.now.sites (plain_template t.now)) }
{
    let clauses = clauses_at_sites(alloc, t.clauses.as_slice(), t.sites)?;
    let freezes = Vec::from_slice(alloc, t.freezes.as_slice())?;
    Ok(Template {
        sites: t.sites,
        clauses,
        freezes: List::from_vec(freezes),
    })
}

fn clauses_at_sites(alloc: Global, given: &[Clause], sites: u32) -> Result<List<Clause>, Memory>
    ensures { IfOk result (λ cs. map plain_clause cs.items ≡ map (expanded_clause sites) (map plain_clause given.now)) }
{
    let mut clauses = Vec::with_capacity(alloc, given.len())?;
    for clause in given {
        clauses.push(clause_at_sites(alloc, clause, sites)?)?;
    }
    Ok(List::from_vec(clauses))
}

fn clause_at_sites(alloc: Global, clause: &Clause, sites: u32) -> Result<Clause, Memory>
    ensures { IfOk result (λ c. plain_clause c ≡ expanded_clause sites (plain_clause clause.now)) }
{
    let terms = terms_at_sites(alloc, clause.terms.as_slice(), sites)?;
    Ok(Clause {
        terms: List::from_vec(terms),
        slack: clause.slack,
    })
}

fn terms_at_sites(alloc: Global, terms: &[Term], sites: u32) -> Result<Vec<Term>, Memory>
    ensures { IfOk result (λ v. v.items ≡ expanded_terms sites terms.now) }
{
    let mut all = Vec::new(alloc);
    for term in terms {
        push_terms(&mut all, *term, sites)?;
    }
    Ok(all)
}

/// Puts the terms of an object behind the others, by one factor.
fn push_terms(terms: &mut Vec<Term>, term: Term, sites: u32) -> Result<(), Memory>
    ensures { OnOk result (terms.new.items ≡ terms.old.items ++ terms_from 0 sites term.delta.object term.factor) }
{
    terms.reserve(sites as usize)?;
    for site in 0..sites {
        terms.push_reserved(at_site(term, site));
    }
    Ok(())
}

/// The term of the same object at a site.
fn at_site(term: Term, site: u32) -> Term
    ensures { result ≡ record { delta = record { object = term.delta.object; site = site }; factor = term.factor } }
{
    Term {
        delta: Delta {
            object: term.delta.object,
            site,
        },
        factor: term.factor,
    }
}
