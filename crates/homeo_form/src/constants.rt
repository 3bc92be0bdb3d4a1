//! The constants of the forms of expressions.

ghost use Rattle.std.specs.Prelude.{◌≡◌, pos, map};
ghost use Rattle.homeo_syntax.specs.LowView.{low_exprs, plain_lexpr};
ghost use Rattle.homeo_meaning.specs.Small.{IsSmall};
ghost use Rattle.homeo_plan.specs.FormSizes.{CanForm, CanSum, CanProduct};
ghost use Rattle.homeo_plan.specs.Linear.{constant_form, form, sum_form, product_form};
ghost use Rattle.homeo_plan.specs.Limit.{form_limit};
ghost use Rattle.homeo_form.specs.Standing.{forms_of};

use crate::items::place_and_number;
use crate::numbers::{added, multiplied, widened};
use crate::standing::Standing;
use homeo_split::{place_of, place_of_temp};
use homeo_syntax::LExpr;

/// The constant of the form of an expression, which is its value where all deltas are 0. It takes no memory. The numbers of the
/// form have to be small, as for the form itself.
pub fn constant(standing: &Standing, e: &LExpr) -> i128
    requires { CanForm (IsSmall form_limit) (forms_of standing.now) (plain_lexpr e.now) }
    ensures { result ≡ (form (forms_of standing.now) (plain_lexpr e.now)).constant }
{
    match e {
        LExpr::Literal(n) => widened(*n),
        LExpr::Read(x) => standing.constant_at(place_of(*x)),
        LExpr::Temp(_) | LExpr::Sum(_) | LExpr::Product(_) | LExpr::Neg(_) => {
            constant_by_parts(standing, e)
        }
    }
}

/// The same, which calls itself for the parts. Most comparisons are of what is read, with a number or not, and a number.
#[cycle(constants)]
#[tactic(auto, using(homeo_syntax::proofs::Measures::low_expr_parts, homeo_syntax::proofs::LowViews::low_phrase_views, crate::proofs::FormSteps::can_parts))]
fn constant_by_parts(standing: &Standing, e: &LExpr) -> i128
    requires { CanForm (IsSmall form_limit) (forms_of standing.now) (plain_lexpr e.now) }
    ensures { result ≡ (form (forms_of standing.now) (plain_lexpr e.now)).constant }
{
    match e {
        LExpr::Literal(n) => widened(*n),
        LExpr::Temp(t) => standing.constant_at(place_of_temp(*t)),
        LExpr::Read(x) => standing.constant_at(place_of(*x)),
        LExpr::Sum(es) => {
            let es = es.as_slice();
            match place_and_number(es) {
                Some((place, n)) => added(n, standing.constant_at(place)),
                None => constant_of_sum(standing, es),
            }
        }
        LExpr::Product(es) => constant_of_product(standing, es.as_slice()),
        LExpr::Neg(e) => multiplied(-1, constant_by_parts(standing, e)),
    }
}

#[cycle(constants)]
#[tactic(auto, using(homeo_syntax::proofs::Measures::low_expr_parts))]
fn constant_of_sum(standing: &Standing, es: &[LExpr]) -> i128
    requires { CanSum (IsSmall form_limit) (forms_of standing.now) (constant_form (pos 0)) (low_exprs (map plain_lexpr es.now)) }
    ensures { result ≡ (sum_form (forms_of standing.now) (constant_form (pos 0)) (low_exprs (map plain_lexpr es.now))).constant }
{
    let mut total = 0;
    for e in es {
        total = added(constant_by_parts(standing, e), total);
    }
    total
}

#[cycle(constants)]
#[tactic(auto, using(homeo_syntax::proofs::Measures::low_expr_parts))]
fn constant_of_product(standing: &Standing, es: &[LExpr]) -> i128
    requires { CanProduct (IsSmall form_limit) (forms_of standing.now) (constant_form (pos 1)) (low_exprs (map plain_lexpr es.now)) }
    ensures { result ≡ (product_form (forms_of standing.now) (constant_form (pos 1)) (low_exprs (map plain_lexpr es.now))).constant }
{
    let mut total = 1;
    for e in es {
        total = multiplied(total, constant_by_parts(standing, e));
    }
    total
}
