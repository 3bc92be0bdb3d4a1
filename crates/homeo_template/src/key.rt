//! What tells clauses apart.

ghost use Rattle.std.specs.Prelude.{◌≡◌, neg_ℤ, IfOk};
ghost use Rattle.homeo_meaning.specs.Small.{IsSmall};
ghost use Rattle.homeo_plan.specs.Limit.{form_limit};
ghost use Rattle.homeo_plan.specs.PlanView.{plain_linear, plain_clause};
ghost use Rattle.homeo_plan.specs.Template.{clause_of};
ghost use Rattle.homeo_template.specs.inner.Keys.{clause_at};

use homeo_plan::{Clause, Linear, Term};
use homeo_syntax::{List, Memory};
use std::alloc::Global;

/// A clause's terms and slack, lent by the atom that it is of.
#[derive(Clone, Copy, PartialEq, Eq, Hash)]
pub(crate) struct Key<'a> {
    pub terms: &'a [Term],
    pub slack: i128,
}

/// The key of the clause of an atom with this form.
pub(crate) fn key_of(form: &Linear) -> Key<'_>
    requires { IsSmall form_limit form.now.constant }
    ensures { clause_at result ≡ clause_of (plain_linear form.now) }
{
    Key {
        terms: form.terms.as_slice(),
        slack: negated(form.constant),
    }
}

fn negated(number: i128) -> i128
    requires { IsSmall form_limit number }
    ensures { result ≡ neg_ℤ number }
{
    -number
}

/// The clause that has a key.
pub(crate) fn clause_with(alloc: Global, key: &Key<'_>) -> Result<Clause, Memory>
    ensures { IfOk result (λ c. plain_clause c ≡ clause_at key.now) }
{
    let terms = Vec::from_slice(alloc, key.terms)?;
    Ok(Clause {
        terms: List::from_vec(terms),
        slack: key.slack,
    })
}
