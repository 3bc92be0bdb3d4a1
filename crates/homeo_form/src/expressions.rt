//! The forms of expressions.

ghost use Rattle.std.specs.Prelude.{◌≡◌, pos, negsuc, map, IfOk};
ghost use Rattle.homeo_syntax.specs.LowView.{low_exprs, plain_lexpr};
ghost use Rattle.homeo_meaning.specs.Small.{IsSmall};
ghost use Rattle.homeo_plan.specs.FormSizes.{Numbers, CanForm, CanSum, CanProduct};
ghost use Rattle.homeo_plan.specs.Linear.{constant_form, add_forms, scale_form, form, sum_form, product_form};
ghost use Rattle.homeo_plan.specs.Limit.{form_limit};
ghost use Rattle.homeo_form.specs.Standing.{forms_of};
ghost use Rattle.homeo_form.specs.inner.Order.{IsInOrder};

use crate::form::{Form, Total};
use crate::items::{Item, item_of, number_of, place_and_number, place_read};
use crate::numbers::multiplied;
use crate::standing::Standing;
use homeo_split::{place_of, place_of_temp};
use homeo_syntax::{LExpr, Memory};
use std::alloc::Global;

/// The form of an expression. No constant and no factor that is met in it may be above 4 * 10^18 in size, with partial sums and
/// products from left to right.
///
/// # Errors
///
/// `Memory` when out of memory.
#[cycle(expressions)]
#[tactic(auto, using(homeo_syntax::proofs::Measures::low_expr_parts, homeo_syntax::proofs::LowViews::low_phrase_views, crate::proofs::FormSteps::can_parts))]
pub fn form(alloc: Global, standing: &Standing, e: &LExpr) -> Result<Form, Memory>
    requires { CanForm (IsSmall form_limit) (forms_of standing.now) (plain_lexpr e.now) }
    ensures { IfOk result (λ f. f ≡ form (forms_of standing.now) (plain_lexpr e.now)) }
{
    match e {
        LExpr::Literal(n) => Ok(Form::value(alloc, *n)),
        LExpr::Temp(t) => standing.form_at(alloc, place_of_temp(*t)),
        LExpr::Read(x) => standing.form_at(alloc, place_of(*x)),
        LExpr::Sum(es) => {
            let es = es.as_slice();
            match place_and_number(es) {
                Some((place, n)) => standing.form_beside(alloc, place, n),
                None => sum(alloc, standing, es),
            }
        }
        LExpr::Product(es) => product(alloc, standing, es.as_slice()),
        LExpr::Neg(e) => {
            let part = form(alloc, standing, e)?;
            part.times(alloc, -1)
        }
    }
}

#[cycle(expressions)]
#[tactic(auto, using(homeo_syntax::proofs::Measures::low_expr_parts))]
fn sum(alloc: Global, standing: &Standing, es: &[LExpr]) -> Result<Form, Memory>
    requires { CanSum (IsSmall form_limit) (forms_of standing.now) (constant_form (pos 0)) (low_exprs (map plain_lexpr es.now)) }
    ensures { IfOk result (λ f. f ≡ sum_form (forms_of standing.now) (constant_form (pos 0)) (low_exprs (map plain_lexpr es.now))) }
{
    let mut total = Total::with_room(alloc, es.len())?;
    for e in es {
        total = match item_of(e) {
            Item::Read(place) => standing.add_at(alloc, place, total)?,
            Item::Negated(place) => standing.subtract_at(alloc, place, total)?,
            Item::Number(n) => total.plus_number(n),
            Item::Other => {
                let part = form(alloc, standing, e)?;
                total.plus(alloc, &part)?
            }
        };
    }
    total.into_form(alloc)
}

#[cycle(expressions)]
#[tactic(auto, using(homeo_syntax::proofs::Measures::low_expr_parts))]
fn product(alloc: Global, standing: &Standing, es: &[LExpr]) -> Result<Form, Memory>
    requires { CanProduct (IsSmall form_limit) (forms_of standing.now) (constant_form (pos 1)) (low_exprs (map plain_lexpr es.now)) }
    ensures { IfOk result (λ f. f ≡ product_form (forms_of standing.now) (constant_form (pos 1)) (low_exprs (map plain_lexpr es.now))) }
{
    let mut total = Form::number(alloc, 1);
    for e in es {
        let part = form(alloc, standing, e)?;
        total = total.by(alloc, &part)?;
    }
    Ok(total)
}

/// The form of an expression with a number added. That of what stands at a place, as in most comparisons, is made with it at once.
fn beside(alloc: Global, standing: &Standing, e: &LExpr, n: i128) -> Result<Form, Memory>
    requires expression { CanForm (IsSmall form_limit) (forms_of standing.now) (plain_lexpr e.now) }
    requires number { IsSmall form_limit n }
    ensures { IfOk result (λ f. (f ≡ add_forms (form (forms_of standing.now) (plain_lexpr e.now)) (constant_form n))
        × IsInOrder (form (forms_of standing.now) (plain_lexpr e.now))) }
{
    if let Some(place) = place_read(e) {
        return standing.form_beside(alloc, place, n);
    }
    let whole = form(alloc, standing, e)?;
    whole.in_order();
    Ok(whole.plus_number(n))
}

/// The form of the difference of two expressions; with its sign turned it is that of the other difference. In neither expression,
/// nor in the second with its sign turned, may there be a constant or a factor above 4 * 10^18 in size, as in `form`.
///
/// # Errors
///
/// `Memory` when out of memory.
pub fn difference(
    alloc: Global,
    standing: &Standing,
    left: &LExpr,
    right: &LExpr,
) -> Result<Form, Memory>
    requires left { CanForm (IsSmall form_limit) (forms_of standing.now) (plain_lexpr left.now) }
    requires right { CanForm (IsSmall form_limit) (forms_of standing.now) (plain_lexpr right.now) }
    requires negated { Numbers (IsSmall form_limit) (scale_form (negsuc 0) (form (forms_of standing.now) (plain_lexpr right.now))) }
    ensures there { IfOk result (λ f. f ≡ add_forms (form (forms_of standing.now) (plain_lexpr left.now))
        (scale_form (negsuc 0) (form (forms_of standing.now) (plain_lexpr right.now)))) }
    ensures back { IfOk result (λ f. scale_form (negsuc 0) f ≡ add_forms (form (forms_of standing.now) (plain_lexpr right.now))
        (scale_form (negsuc 0) (form (forms_of standing.now) (plain_lexpr left.now)))) }
{
    if let Some(n) = number_of(left) {
        return number_less(alloc, standing, n, right);
    }
    if let Some(n) = number_of(right) {
        return beside(alloc, standing, left, multiplied(-1, n));
    }
    let whole = form(alloc, standing, left)?;
    let less = form(alloc, standing, right)?;
    whole.in_order();
    less.in_order();
    whole.minus(alloc, less)
}

/// The difference of a number and the form of an expression.
#[inline(never)]
fn number_less(alloc: Global, standing: &Standing, n: i128, e: &LExpr) -> Result<Form, Memory>
    requires number { IsSmall form_limit n }
    requires expression { CanForm (IsSmall form_limit) (forms_of standing.now) (plain_lexpr e.now) }
    requires negated { Numbers (IsSmall form_limit) (scale_form (negsuc 0) (form (forms_of standing.now) (plain_lexpr e.now))) }
    ensures { IfOk result (λ f. (f ≡ add_forms (constant_form n) (scale_form (negsuc 0) (form (forms_of standing.now) (plain_lexpr e.now))))
        × IsInOrder (form (forms_of standing.now) (plain_lexpr e.now))) }
{
    let less = form(alloc, standing, e)?;
    less.in_order();
    Ok(less.negated().plus_number(n))
}
