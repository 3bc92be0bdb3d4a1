//! Clauses by their terms.

ghost use Rattle.std.specs.Prelude.{◌≡◌, map, IfOk, OnOk};
ghost use Rattle.std.specs.List.{list_any};
ghost use Rattle.homeo_meaning.specs.Small.{IsSmall};
ghost use Rattle.homeo_plan.specs.Limit.{form_limit};
ghost use Rattle.homeo_plan.specs.PlanView.{plain_clause, plain_linear};
ghost use Rattle.homeo_certificate.specs.Followed.{keeps};
ghost use Rattle.homeo_verify.specs.inner.Slacks.{term_of, WithSlack, is_within};

use homeo_plan::{Clause, Linear, Term};
use homeo_syntax::Memory;
use std::alloc::Global;
use std::collections::BTreeMap;
use std::marker::Model;

/// A term, as a map takes it.
#[derive(Clone, Copy, PartialEq, Eq, PartialOrd, Ord)]
pub(crate) struct TermKey {
    pub object: u32,
    pub site: u32,
    pub factor: i128,
}

/// Clauses, and the least slack of those that have the same terms.
#[derive(Drop)]
pub(crate) struct ClauseTable<'a> {
    clauses: &'a [Clause],
    least: BTreeMap<Vec<TermKey>, i128>,
}

impl<'a> Model for ClauseTable<'a> {
    ghost use Rattle.std.specs.Prelude.{List, map};
    ghost use Rattle.homeo_plan.specs.PlanView.{plain_clause};
    ghost use Rattle.homeo_plan.specs.Template.{Clause};

    ghost Value = { List Clause };

    ghost use Rattle.homeo_verify.specs.inner.Slacks.{AreSlacks};

    ghost view = { λ t. map plain_clause t.clauses.now };

    ghost invariant = { λ t. AreSlacks t.least (map plain_clause t.clauses.now) };
}

fn term_key(term: &Term) -> TermKey
    ensures { term_of result ≡ term.now }
{
    TermKey {
        object: term.delta.object,
        site: term.delta.site,
        factor: term.factor,
    }
}

/// The key of terms.
fn key_of(alloc: Global, terms: &[Term]) -> Result<Vec<TermKey>, Memory>
    ensures { IfOk result (λ k. map term_of k.items ≡ terms.now) }
{
    let mut key = Vec::with_capacity(alloc, terms.len())?;
    for term in terms {
        key.push(term_key(term))?;
    }
    Ok(key)
}

/// Puts a clause to those whose least slacks these are.
fn put(
    alloc: Global,
    least: &mut BTreeMap<Vec<TermKey>, i128>,
    clause: &Clause,
) -> Result<(), Memory>
    ensures { OnOk result (WithSlack least.old (plain_clause clause.now) least.new) }
{
    let key = key_of(alloc, clause.terms.as_slice())?;
    if is_within(least, key.as_slice(), clause.slack) {
        return Ok(());
    }
    least.insert(key, clause.slack)?;
    Ok(())
}

/// Whether a clause with these terms has at most this slack.
fn is_within(least: &BTreeMap<Vec<TermKey>, i128>, terms: &[TermKey], slack: i128) -> bool
    ensures { result ≡ is_within least.now terms.now slack }
{
    match least.get(terms) {
        Some(found) => *found <= slack,
        None => false,
    }
}

impl<'a> ClauseTable<'a> {
    /// The table of these clauses.
    pub(crate) fn of(alloc: Global, clauses: &'a [Clause]) -> Result<ClauseTable<'a>, Memory>
        ensures { IfOk result (λ t. t ≡ map plain_clause clauses.now) }
    {
        let mut least = BTreeMap::new(alloc);
        for clause in clauses {
            put(alloc, &mut least, clause)?;
        }
        Ok(ClauseTable { clauses, least })
    }

    /// Whether one of the clauses keeps the form at most 0.
    pub(crate) fn keeps(&self, alloc: Global, form: &Linear) -> Result<bool, Memory>
        requires { IsSmall form_limit form.now.constant }
        ensures { IfOk result (λ b. b ≡ list_any (keeps (plain_linear form.now)) self.now) }
    {
        let key = key_of(alloc, form.terms.as_slice())?;
        Ok(is_within(&self.least, key.as_slice(), -form.constant))
    }
}
