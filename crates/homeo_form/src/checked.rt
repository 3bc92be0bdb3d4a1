//! The forms of expressions, as far as their numbers stay small.

ghost use Rattle.std.specs.Prelude.{map, IfOk};
ghost use Rattle.homeo_syntax.specs.LowView.{low_exprs, plain_lexpr};
ghost use Rattle.homeo_syntax.specs.Low.{Sum, Product};
ghost use Rattle.homeo_form.specs.Checked.{Kept, Checked};
ghost use Rattle.homeo_form.specs.Standing.{forms_of};

use crate::form::{Form, RunningSum};
use crate::standing::Standing;
use homeo_split::{place_of, place_of_temp};
use homeo_syntax::{LExpr, Memory};
use std::alloc::Global;

/// The form, if its numbers are small.
fn kept(form: Form) -> Option<Form>
    ensures { Kept form result }
{
    if form.is_small() { Some(form) } else { None }
}

/// The form of an expression, where no constant and no factor that is met in it is above 4 * 10^18 in size, with partial sums
/// and products from left to right; `None` where one is.
///
/// # Errors
///
/// `Memory` when out of memory.
#[cycle(checked)]
#[tactic(auto, using(homeo_syntax::proofs::Measures::low_expr_parts, homeo_syntax::proofs::LowViews::low_phrase_views))]
pub fn checked_form(alloc: Global, standing: &Standing, e: &LExpr) -> Result<Option<Form>, Memory>
    ensures { IfOk result (Checked (forms_of standing.now) (plain_lexpr e.now)) }
{
    match e {
        LExpr::Literal(n) => Ok(kept(Form::value(alloc, *n))),
        LExpr::Temp(t) => {
            let here = standing.form_at(alloc, place_of_temp(*t))?;
            Ok(kept(here))
        }
        LExpr::Read(x) => {
            let here = standing.form_at(alloc, place_of(*x))?;
            Ok(kept(here))
        }
        LExpr::Sum(es) => checked_sum(alloc, standing, es.as_slice()),
        LExpr::Product(es) => checked_product(alloc, standing, es.as_slice()),
        LExpr::Neg(e) => match checked_form(alloc, standing, e)? {
            Some(part) => {
                let negated = part.times(alloc, -1)?;
                Ok(kept(negated))
            }
            None => Ok(None),
        },
    }
}

#[cycle(checked)]
#[tactic(auto, using(homeo_syntax::proofs::Measures::low_expr_parts))]
fn checked_sum(alloc: Global, standing: &Standing, es: &[LExpr]) -> Result<Option<Form>, Memory>
    ensures { IfOk result (Checked (forms_of standing.now) (Sum (low_exprs (map plain_lexpr es.now)))) }
{
    let mut total = RunningSum::new(alloc);
    for e in es {
        let Some(part) = checked_form(alloc, standing, e)? else {
            return Ok(None);
        };
        let Some(more) = total.plus(alloc, &part)? else {
            return Ok(None);
        };
        total = more;
    }
    let form = total.into_form(alloc)?;
    Ok(Some(form))
}

#[cycle(checked)]
#[tactic(auto, using(homeo_syntax::proofs::Measures::low_expr_parts))]
fn checked_product(alloc: Global, standing: &Standing, es: &[LExpr]) -> Result<Option<Form>, Memory>
    ensures { IfOk result (Checked (forms_of standing.now) (Product (low_exprs (map plain_lexpr es.now)))) }
{
    let mut total = Form::number(alloc, 1);
    for e in es {
        let Some(part) = checked_form(alloc, standing, e)? else {
            return Ok(None);
        };
        let more = total.by(alloc, &part)?;
        let Some(more) = kept(more) else {
            return Ok(None);
        };
        total = more;
    }
    Ok(Some(total))
}
