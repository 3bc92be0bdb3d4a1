//! The values of expressions, and whether conditions hold.

ghost use Rattle.std.specs.Prelude.{◌≡◌, neg_ℤ, pos, true, map};
ghost use Rattle.homeo_syntax.specs.LowView.{low_exprs, low_tests, plain_lexpr, plain_ltest, plain_lcond};
ghost use Rattle.homeo_meaning.specs.Meaning.{compared};
ghost use Rattle.homeo_meaning.specs.Small.{is_small};
ghost use Rattle.homeo_meaning.specs.LowMeaning.{value, sum_value, product_value, passes, holds};
ghost use Rattle.homeo_split.specs.CanExec.{run_limit, expr_fits, sum_fits, product_fits, test_fits, cond_fits};

use crate::arithmetic::{minus, plus, times};
use crate::reads::Reads;
use homeo_syntax::{Compare, LCond, LExpr, LTest};

#[tactic(auto, unfolding(crate::specs::Key::definitions, homeo_meaning::specs::Key::definitions))]
fn compared(op: Compare, left: i64, right: i64) -> bool
    ensures { result ≡ compared op left right }
{
    match op {
        Compare::Less => left < right,
        Compare::LessEqual => left <= right,
        Compare::Equal => left == right,
    }
}

/// The value of an expression on what is read, where each number on the way is within the run_limit of runs.
// (most expressions are a number or a name, so the choice among their kinds stands where it is asked for; the other kinds are apart)
#[cycle(values)]
#[inline(always)]
#[tactic(auto, using(homeo_syntax::proofs::Measures::low_expr_parts, std::proofs::lemmas::Bool::and_parts, homeo_syntax::proofs::LowViews::low_phrase_views), unfolding(crate::specs::Key::definitions, homeo_meaning::specs::Key::definitions))]
pub fn value<S: Reads>(e: &LExpr, state: &S) -> i64
    requires { expr_fits run_limit (plain_lexpr e.now) (S.values state.now) ≡ true }
    ensures { result ≡ value (plain_lexpr e.now) (S.values state.now) }
{
    match e {
        LExpr::Literal(n) => *n,
        LExpr::Temp(t) => state.temp(*t),
        LExpr::Read(x) => state.read(*x),
        LExpr::Sum(es) => sum(es.as_slice(), state),
        LExpr::Product(es) => product(es.as_slice(), state),
        LExpr::Neg(e) => negation(e, state),
    }
}

#[cycle(values)]
#[inline(never)]
fn negation<S: Reads>(e: &Box<LExpr>, state: &S) -> i64
    requires fits { expr_fits run_limit (plain_lexpr e.now.value) (S.values state.now) ≡ true }
    requires small { is_small run_limit (neg_ℤ (value (plain_lexpr e.now.value) (S.values state.now))) ≡ true }
    ensures { result ≡ neg_ℤ (value (plain_lexpr e.now.value) (S.values state.now)) }
{
    minus(value(e, state))
}

#[cycle(values)]
#[inline(never)]
#[tactic(auto, using(crate::proofs::Equations::sums, homeo_meaning::proofs::Steps::steps))]
fn sum<S: Reads>(es: &[LExpr], state: &S) -> i64
    requires { sum_fits run_limit (pos 0) (low_exprs (map plain_lexpr es.now)) (S.values state.now) ≡ true }
    ensures { result ≡ sum_value (pos 0) (low_exprs (map plain_lexpr es.now)) (S.values state.now) }
{
    let mut total = 0;
    for e in es {
        total = plus(total, value(e, state));
    }
    total
}

#[cycle(values)]
#[inline(never)]
#[tactic(auto, using(crate::proofs::Equations::products, homeo_meaning::proofs::Steps::steps))]
fn product<S: Reads>(es: &[LExpr], state: &S) -> i64
    requires { product_fits run_limit (pos 1) (low_exprs (map plain_lexpr es.now)) (S.values state.now) ≡ true }
    ensures { result ≡ product_value (pos 1) (low_exprs (map plain_lexpr es.now)) (S.values state.now) }
{
    let mut total = 1;
    for e in es {
        total = times(total, value(e, state));
    }
    total
}

#[cycle(conditions)]
#[tactic(auto, using(homeo_syntax::proofs::Measures::low_test_parts, std::proofs::lemmas::Bool::and_parts, homeo_syntax::proofs::LowViews::low_phrase_views), unfolding(crate::specs::Key::definitions, homeo_meaning::specs::Key::definitions))]
fn passes<S: Reads>(t: &LTest, state: &S) -> bool
    requires { test_fits run_limit (plain_ltest t.now) (S.values state.now) ≡ true }
    ensures { result ≡ passes (plain_ltest t.now) (S.values state.now) }
{
    match t {
        LTest::True => true,
        LTest::Not(c) => !holds(c, state),
        LTest::Compare { op, left, right } => {
            let left = value(left, state);
            let right = value(right, state);
            compared(*op, left, right)
        }
    }
}

/// Whether each test of a condition passes on what is read. The tests are taken in order, up to the first that fails, and each number
/// on the way is within the run_limit of runs.
#[cycle(conditions)]
#[tactic(auto, using(homeo_syntax::proofs::Measures::low_test_parts, std::proofs::lemmas::Bool::and_parts, homeo_syntax::proofs::LowViews::low_phrase_views), unfolding(crate::specs::Key::definitions, homeo_meaning::specs::Key::definitions))]
pub fn holds<S: Reads>(c: &LCond, state: &S) -> bool
    requires { cond_fits run_limit (plain_lcond c.now) (S.values state.now) ≡ true }
    ensures { result ≡ holds (plain_lcond c.now) (S.values state.now) }
{
    all_pass(c.tests.as_slice(), state)
}

#[cycle(conditions)]
#[tactic(auto, using(crate::proofs::Equations::conjunctions, homeo_meaning::proofs::Steps::steps))]
fn all_pass<S: Reads>(ts: &[LTest], state: &S) -> bool
    requires { cond_fits run_limit (low_tests (map plain_ltest ts.now)) (S.values state.now) ≡ true }
    ensures { result ≡ holds (low_tests (map plain_ltest ts.now)) (S.values state.now) }
{
    for t in ts {
        if !passes(t, state) {
            return false;
        }
    }
    true
}
