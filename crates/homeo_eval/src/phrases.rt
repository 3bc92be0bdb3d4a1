//! The values of expressions, and whether conditions hold.

ghost use Rattle.std.specs.Prelude.{◌≡◌, ◌+ℤ◌, ◌*ℤ◌, neg_ℤ, pos, true, map};
ghost use Rattle.homeo_syntax.specs.SourceView.{exprs, tests, plain_expr, plain_test, plain_cond};
ghost use Rattle.homeo_meaning.specs.Meaning.{added, compared, value, sum_value, product_value, passes, holds};
ghost use Rattle.homeo_meaning.specs.Acceptance.{weight_limit};
ghost use Rattle.homeo_meaning.specs.Small.{is_small};
ghost use Rattle.homeo_eval.specs.inner.CanRun.{adding_fits, expr_fits, sum_fits, product_fits, test_fits, cond_fits};
ghost use Rattle.homeo_eval.specs.inner.States.{state_of};
ghost use Rattle.homeo_context.specs.Slots.{plain_slot, slots_of, IsCounted};
ghost use Rattle.homeo_context.specs.Contexts.{plain_context};
ghost use Rattle.homeo_eval.specs.inner.Terms.{term_of, counts, row_fits};

use crate::state::State;
use homeo_context::{BoundRows, Context, Slot, Slots};
use homeo_syntax::{Compare, Cond, Expr, Test};

/// What a slot adds to a count or a sum: 1, or the field that has this place.
#[derive(Clone, Copy)]
enum Term {
    One,
    Field(usize),
}

#[tactic(auto, using(homeo_meaning::proofs::Numbers::sizes))]
fn plus(a: i64, b: i64) -> i64
    requires { is_small weight_limit (a +ℤ b) ≡ true }
    ensures { result ≡ a +ℤ b }
{
    a + b
}

#[tactic(auto, using(homeo_meaning::proofs::Numbers::sizes))]
fn times(a: i64, b: i64) -> i64
    requires { is_small weight_limit (a *ℤ b) ≡ true }
    ensures { result ≡ a *ℤ b }
{
    a * b
}

#[tactic(auto, using(homeo_meaning::proofs::Numbers::sizes))]
fn negated(a: i64) -> i64
    requires { is_small weight_limit (neg_ℤ a) ≡ true }
    ensures { result ≡ neg_ℤ a }
{
    -a
}

#[tactic(auto, unfolding(homeo_meaning::specs::Key::definitions))]
fn compared(op: Compare, left: i64, right: i64) -> bool
    ensures { result ≡ compared op left right }
{
    match op {
        Compare::Less => left < right,
        Compare::LessEqual => left <= right,
        Compare::Equal => left == right,
    }
}

#[tactic(auto, unfolding(homeo_meaning::specs::Key::definitions))]
fn term_at(term: Term, slot: &Slot, state: &State) -> i64
    ensures { result ≡ term_of term (state_of state.now) (plain_slot slot.now) }
{
    match term {
        Term::One => 1,
        Term::Field(place) => state.cell(slot, place),
    }
}

/// The value of an expression.
#[cycle(phrases)]
#[tactic(auto, using(homeo_syntax::proofs::Measures::phrase_parts, std::proofs::lemmas::Bool::and_parts, homeo_syntax::proofs::SourceViews::phrase_views), unfolding(homeo_meaning::specs::Key::definitions))]
pub(crate) fn value(e: &Expr, context: &Context, state: &State) -> i64
    requires { expr_fits weight_limit (plain_context context.now) (plain_expr e.now) (state_of state.now) ≡ true }
    ensures { result ≡ value (plain_context context.now) (plain_expr e.now) (state_of state.now) }
{
    match e {
        Expr::Literal(n) => *n,
        Expr::Name(t) => context.argument_or(t.name, state.temp(t.name)),
        Expr::Read(o) => state.object(context.object(o.name).place),
        Expr::Sum(es) => sum(es.as_slice(), context, state),
        Expr::Product(es) => product(es.as_slice(), context, state),
        Expr::Neg(e) => negated(value(e, context, state)),
        Expr::Field {
            relation,
            index,
            field,
        } => {
            let slots = context.relation(relation.name);
            if slots.count == 0 {
                return 0;
            }
            match slots.at(value(index, context, state)) {
                Some(slot) => state.cell(&slot, slots.field(field.name).place),
                None => 0,
            }
        }
        Expr::Row { row, field } => state.field(&context.row(row.name), field.name),
        Expr::Count {
            row,
            relation,
            test,
        } => {
            let slots = context.relation(relation.name);
            total(test, row.name, &slots, Term::One, context, state)
        }
        Expr::Total {
            row,
            field,
            relation,
            test,
        } => {
            let slots = context.relation(relation.name);
            let term = Term::Field(slots.field(field.name).place);
            total(test, row.name, &slots, term, context, state)
        }
    }
}

#[cycle(phrases)]
#[tactic(auto, using(crate::proofs::Equations::sums, homeo_meaning::proofs::Steps::steps))]
fn sum(es: &[Expr], context: &Context, state: &State) -> i64
    requires { sum_fits weight_limit (plain_context context.now) (exprs (map plain_expr es.now)) (state_of state.now)
        (pos 0) ≡ true }
    ensures { result ≡ sum_value (plain_context context.now) (exprs (map plain_expr es.now)) (state_of state.now)
        (pos 0) }
{
    let mut total = 0;
    for e in es {
        total = plus(total, value(e, context, state));
    }
    total
}

#[cycle(phrases)]
#[tactic(auto, using(crate::proofs::Equations::products, homeo_meaning::proofs::Steps::steps))]
fn product(es: &[Expr], context: &Context, state: &State) -> i64
    requires { product_fits weight_limit (plain_context context.now) (exprs (map plain_expr es.now)) (state_of state.now)
        (pos 1) ≡ true }
    ensures { result ≡ product_value (plain_context context.now) (exprs (map plain_expr es.now)) (state_of state.now)
        (pos 1) }
{
    let mut total = 1;
    for e in es {
        total = times(total, value(e, context, state));
    }
    total
}

/// Adds the terms of the used slots at which a condition holds of the row.
#[cycle(phrases)]
fn total(test: &Cond, row: u32, slots: &Slots, term: Term, context: &Context, state: &State) -> i64
    requires counted { IsCounted slots.now }
    requires fits { adding_fits weight_limit
        (row_fits weight_limit (plain_context context.now) row (plain_cond test.now) (state_of state.now))
        (counts (plain_context context.now) row (plain_cond test.now) (state_of state.now))
        (term_of term (state_of state.now)) (slots_of slots.now) (pos 0) ≡ true }
    ensures { result ≡ added (counts (plain_context context.now) row (plain_cond test.now) (state_of state.now))
        (term_of term (state_of state.now)) (slots_of slots.now) (pos 0) }
{
    let mut total = 0;
    for number in 0..slots.count {
        let slot = slots.slot(number);
        if state.is_used(&slot) {
            let rows = BoundRows::Inside {
                name: row,
                slot,
                outer: context.rows,
            };
            if all_pass(test.tests.as_slice(), &context.with(&rows), state) {
                total = plus(total, term_at(term, &slot, state));
            }
        }
    }
    total
}

#[cycle(phrases)]
#[tactic(auto, using(homeo_syntax::proofs::Measures::phrase_parts, std::proofs::lemmas::Bool::and_parts, homeo_syntax::proofs::SourceViews::phrase_views), unfolding(homeo_meaning::specs::Key::definitions))]
fn passes(t: &Test, context: &Context, state: &State) -> bool
    requires { test_fits weight_limit (plain_context context.now) (plain_test t.now) (state_of state.now) ≡ true }
    ensures { result ≡ passes (plain_context context.now) (plain_test t.now) (state_of state.now) }
{
    match t {
        Test::True => true,
        Test::Not(c) => !holds(c, context, state),
        Test::Compare { op, left, right } => {
            let left = value(left, context, state);
            let right = value(right, context, state);
            compared(*op, left, right)
        }
    }
}

/// Whether each test of a condition passes.
#[cycle(phrases)]
#[tactic(auto, using(homeo_syntax::proofs::Measures::phrase_parts, std::proofs::lemmas::Bool::and_parts, homeo_syntax::proofs::SourceViews::phrase_views), unfolding(homeo_meaning::specs::Key::definitions))]
pub(crate) fn holds(c: &Cond, context: &Context, state: &State) -> bool
    requires { cond_fits weight_limit (plain_context context.now) (plain_cond c.now) (state_of state.now) ≡ true }
    ensures { result ≡ holds (plain_context context.now) (plain_cond c.now) (state_of state.now) }
{
    all_pass(c.tests.as_slice(), context, state)
}

#[cycle(phrases)]
#[tactic(auto, using(crate::proofs::Equations::conjunctions, homeo_meaning::proofs::Steps::steps))]
fn all_pass(ts: &[Test], context: &Context, state: &State) -> bool
    requires { cond_fits weight_limit (plain_context context.now) (tests (map plain_test ts.now)) (state_of state.now) ≡ true }
    ensures { result ≡ holds (plain_context context.now) (tests (map plain_test ts.now)) (state_of state.now) }
{
    for t in ts {
        if !passes(t, context, state) {
            return false;
        }
    }
    true
}
