//! Clauses and their bounds, read from JSON values.

ghost use Rattle.std.specs.Prelude.{◌≡◌, ◌<◌, ◌-◌, ◌↔◌, ◌∷◌, [], IsTrue, IfOk, MatchOption, option_map, map};
ghost use Rattle.serde_json.specs.View.{view};
ghost use Rattle.homeo_plan.specs.Each.{Each};
ghost use Rattle.homeo_plan.specs.Linear.{AreInOrder, deltas_of};
ghost use Rattle.homeo_plan.specs.PlanView.{plain_clause};
ghost use Rattle.homeo_certificate.specs.Json.{list_data, whole_data, wholes_data};
ghost use Rattle.homeo_certificate.specs.Shape.{TermInShape, ClauseInShape, BoundsInShape};
ghost use Rattle.homeo_certificate.specs.Text.{term_data, clause_data};
ghost use Rattle.homeo_cert_reader.specs.Read.{IsRead};
ghost use Rattle.homeo_cert_reader.specs.inner.Reading.{IsFactor};

use crate::deltas::{delta_of, is_before};
use crate::extents::Extents;
use crate::items::{items, read_list};
use crate::members::read_pair;
use crate::numbers::{whole, wholes};
use homeo_plan::{Clause, Term};
use homeo_syntax::{List, Memory};
use serde_json::Value;
use std::alloc::Global;

/// A term: a list of its object, its site and its factor, which isn't 0.
fn read_term(value: &Value, extents: Extents) -> Option<Term>
    ensures { IsRead (TermInShape extents.objects extents.sites) term_data (view value.now) result }
{
    let items = items(value)?;
    if items.len() == 3 {
        term_of(&items[0], &items[1], &items[2], extents)
    } else {
        None
    }
}

/// The term of an object, a site and a factor.
fn term_of(object: &Value, site: &Value, factor: &Value, extents: Extents) -> Option<Term>
    ensures { IsRead (TermInShape extents.objects extents.sites) term_data (list_data (view object.now ∷ view site.now ∷ view factor.now ∷ [])) result }
{
    let delta = delta_of(object, site, extents)?;
    let factor = nonzero(factor)?;
    Some(Term { delta, factor })
}

/// A number that isn't 0.
fn nonzero(value: &Value) -> Option<i128>
    ensures { IsRead IsFactor whole_data (view value.now) result }
{
    let n = whole(value)?;
    if n == 0 { None } else { Some(n as i128) }
}

/// A list of terms.
fn read_terms(alloc: Global, value: &Value, extents: Extents) -> Result<Option<Vec<Term>>, Memory>
    ensures { IfOk result (λ o. IsRead (Each (TermInShape extents.objects extents.sites)) (λ ts. list_data (map term_data ts)) (view value.now) (option_map (λ l. l.items) o)) }
{
    read_list(alloc, value, |item| Ok(read_term(item, extents)))
}

/// Whether the deltas of terms are in order, each once.
fn terms_are_in_order(terms: &[Term]) -> bool
    ensures { IsTrue result ↔ AreInOrder (deltas_of terms.now) }
{
    for place in 1..terms.len() {
        if !is_before(terms[place - 1].delta, terms[place].delta) {
            return false;
        }
    }
    true
}

/// A clause: its slack and its terms, whose deltas are in order.
fn read_clause(alloc: Global, value: &Value, extents: Extents) -> Result<Option<Clause>, Memory>
    ensures { IfOk result (λ o. IsRead (ClauseInShape extents.objects extents.sites) clause_data (view value.now) (option_map plain_clause o)) }
{
    let Some((slack, list)) = read_pair(value, "slack", "terms") else {
        return Ok(None);
    };
    let Some(slack) = whole(slack) else {
        return Ok(None);
    };
    match read_terms(alloc, list, extents)? {
        Some(terms) => Ok(clause_in_order(slack, terms)),
        None => Ok(None),
    }
}

/// The clause, if the deltas of its terms are in order.
fn clause_in_order(slack: i64, terms: Vec<Term>) -> Option<Clause>
    ensures { MatchOption result (AreInOrder (deltas_of terms.items) → ⊥) (λ c. AreInOrder (deltas_of terms.items) × (plain_clause c ≡ record { terms = terms.items; slack = slack })) }
{
    if !terms_are_in_order(terms.as_slice()) {
        return None;
    }
    Some(Clause {
        terms: List::from_vec(terms),
        slack: slack as i128,
    })
}

/// A list of clauses.
pub(crate) fn read_clauses(
    alloc: Global,
    value: &Value,
    extents: Extents,
) -> Result<Option<Vec<Clause>>, Memory>
    ensures { IfOk result (λ o. IsRead (Each (ClauseInShape extents.objects extents.sites)) (λ cs. list_data (map clause_data cs)) (view value.now) (option_map (λ l. map plain_clause l.items) o)) }
{
    read_list(alloc, value, |item| read_clause(alloc, item, extents))
}

/// A bound for each of so many sites.
fn read_bounds(alloc: Global, value: &Value, sites: u32) -> Result<Option<Vec<i64>>, Memory>
    ensures { IfOk result (λ o. IsRead (BoundsInShape sites) wholes_data (view value.now) (option_map (λ l. l.items) o)) }
{
    let Some(bounds) = wholes(alloc, value)? else {
        return Ok(None);
    };
    if bounds.len() == sites as usize {
        Ok(Some(bounds))
    } else {
        Ok(None)
    }
}

/// A list of them.
pub(crate) fn read_all_bounds(
    alloc: Global,
    value: &Value,
    sites: u32,
) -> Result<Option<Vec<Vec<i64>>>, Memory>
    ensures { IfOk result (λ o. IsRead (Each (BoundsInShape sites)) (λ bs. list_data (map wholes_data bs)) (view value.now) (option_map (λ l. map (λ b. b.items) l.items) o)) }
{
    read_list(alloc, value, |item| read_bounds(alloc, item, sites))
}
