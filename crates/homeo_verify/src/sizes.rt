//! Forms whose numbers are not too large.

ghost use Rattle.std.specs.Prelude.{◌≡◌, ◌++◌, IfOk};
ghost use Rattle.homeo_syntax.specs.LowView.{plain_lexpr};
ghost use Rattle.homeo_meaning.specs.Small.{IsSmall};
ghost use Rattle.homeo_plan.specs.FormSizes.{Numbers};
ghost use Rattle.homeo_plan.specs.Limit.{form_limit};
ghost use Rattle.homeo_plan.specs.Linear.{form};
ghost use Rattle.homeo_plan.specs.PlanView.{plain_linear};
ghost use Rattle.homeo_form.specs.Standing.{forms_of};
ghost use Rattle.homeo_certificate.specs.Met.{numbers, met};
ghost use Rattle.homeo_certificate.specs.Kept.{atom, gap, form_of};
ghost use Rattle.homeo_certificate.specs.Followed.{too_large};
ghost use Rattle.homeo_verify.specs.inner.Stops.{Finds};

use crate::stop::Stop;
use homeo_certificate::Fault;
use homeo_form::{Form, Standing, checked_form};
use homeo_plan::Linear;
use homeo_syntax::LExpr;
use std::alloc::Global;

/// The form of an expression.
pub(crate) fn form_of(alloc: Global, standing: &Standing, e: &LExpr) -> Result<Form, Stop>
    ensures faults { Finds (too_large (met (forms_of standing.now) (plain_lexpr e.now))) result }
    ensures form { IfOk result (λ a. a ≡ form (forms_of standing.now) (plain_lexpr e.now)) }
    ensures small { IfOk result (λ a. Numbers (IsSmall form_limit) a) }
{
    match checked_form(alloc, standing, e)? {
        Some(form) => Ok(form),
        None => Err(Stop::Fault(Fault::TooLarge)),
    }
}

/// The form, if its numbers aren't too large.
fn small(form: Form) -> Result<Form, Stop>
    ensures faults { Finds (too_large (numbers form)) result }
    ensures form { IfOk result (λ a. a ≡ form) }
    ensures small { IfOk result (λ a. Numbers (IsSmall form_limit) a) }
{
    if form.is_small() {
        Ok(form)
    } else {
        Err(Stop::Fault(Fault::TooLarge))
    }
}

/// The form of left - right + more.
pub(crate) fn difference(
    alloc: Global,
    left: &Form,
    right: &Form,
    more: i64,
) -> Result<Linear, Stop>
    requires left { Numbers (IsSmall form_limit) left.now }
    requires right { Numbers (IsSmall form_limit) right.now }
    requires more { IsSmall form_limit more }
    ensures faults { Finds (too_large (numbers (gap (atom left.now right.now more)) ++ numbers (form_of (atom left.now right.now more)))) result }
    ensures form { IfOk result (λ a. plain_linear a ≡ form_of (atom left.now right.now more)) }
    ensures small { IfOk result (λ a. IsSmall form_limit a.constant) }
{
    let negated = right.times(alloc, -1)?;
    let apart = negated.plus(alloc, left)?;
    let gap = small(apart)?;
    let raised = gap.plus(alloc, &Form::value(alloc, more))?;
    let form = small(raised)?;
    Ok(form.into_linear())
}
