//! What a command makes of a site's own deltas, where its tests come out as at the base.

ghost use Rattle.std.specs.Prelude.{◌≡◌, ◌+ℤ◌, ◌*ℤ◌, map, IfOk, IfSome};
ghost use Rattle.std.specs.Int.{w64, int_wrap};
ghost use Rattle.homeo_meaning.specs.LowMeaning.{BaseAt};
ghost use Rattle.homeo_meaning.specs.Serial.{values_of};
ghost use Rattle.homeo_plan.specs.Linear.{form_value};
ghost use Rattle.homeo_follow.specs.Follow.{own_state};
ghost use Rattle.homeo_form.specs.Standing.{forms_of};
ghost use Rattle.homeo_linear.specs.Effect.{plain_own_term, plain_own_form};

use homeo_form::{Form, Standing};
use homeo_meaning::padded::item_or;
use homeo_plan::{Delta, Term};
use homeo_split::Place;
use homeo_syntax::{List, Memory};
use std::alloc::Global;

/// A site's own delta of an object, with the factor by which it is taken.
#[derive(Clone, Copy)]
pub struct OwnTerm {
    pub object: u32,
    pub factor: i64,
}

/// A linear form over a site's own deltas: the constant and the terms added up.
#[derive(Drop)]
pub struct OwnForm {
    pub constant: i64,
    pub terms: List<OwnTerm>,
}

/// An object that is written, with the form of its value.
#[derive(Drop)]
pub struct OwnWrite {
    pub object: u32,
    pub form: OwnForm,
}

/// What a command writes and prints at a site, by forms over the site's own deltas (this project's rule).
#[derive(Drop)]
pub struct Effect {
    /// Rising by object, each once.
    pub writes: List<OwnWrite>,
    /// In the order of the prints.
    pub prints: List<OwnForm>,
}

impl OwnForm {
    /// The value at a site's deltas, one for each object: what is left of it in the 64 bits of an i64.
    pub fn value(&self, deltas: &[i64]) -> i64
        ensures { result ≡ int_wrap w64 (form_value (plain_own_form self.now) (own_state (values_of deltas.now))) }
    {
        let mut sum = 0;
        for term in self.terms.as_slice() {
            sum = with_term(sum, *term, deltas);
        }
        plus(self.constant, sum)
    }
}

/// A sum with one more term's factor times delta, as i64 adds and multiplies.
fn with_term(sum: i64, term: OwnTerm, deltas: &[i64]) -> i64
    ensures { result ≡ int_wrap w64 (sum +ℤ (term.factor *ℤ values_of deltas.now term.object)) }
{
    let delta = item_or(deltas, term.object as usize, 0);
    plus(sum, times(term.factor, delta))
}

fn plus(a: i64, b: i64) -> i64
    ensures { result ≡ int_wrap w64 (a +ℤ b) }
{
    a.wrapping_add(b)
}

fn times(a: i64, b: i64) -> i64
    ensures { result ≡ int_wrap w64 (a *ℤ b) }
{
    a.wrapping_mul(b)
}

/// A term over own deltas, if it is over a whole object and its factor fits.
fn own_term(term: Term) -> Option<OwnTerm>
    ensures { IfSome result (λ t. plain_own_term t ≡ term) }
{
    match i64::try_from(term.factor) {
        Ok(factor) if term.delta.site == 0 => Some(OwnTerm {
            object: term.delta.object,
            factor,
        }),
        _ => None,
    }
}

/// The terms over own deltas, if each is one.
fn own_terms(alloc: Global, terms: &[Term]) -> Result<Option<List<OwnTerm>>, Memory>
    ensures { IfOk result (λ o. IfSome o (λ ts. map plain_own_term ts.items ≡ terms.now)) }
{
    let mut own = List::new(alloc);
    for term in terms {
        let Some(term) = own_term(*term) else {
            return Ok(None);
        };
        own.push(term)?;
    }
    Ok(Some(own))
}

/// The form over own deltas, if it is one: it has no mixed deltas, and its numbers fit.
fn own_form(alloc: Global, form: Form) -> Result<Option<OwnForm>, Memory>
    ensures { IfOk result (λ o. IfSome o (λ f. plain_own_form f ≡ form)) }
{
    let form = form.into_linear();
    if !form.mixed.as_slice().is_empty() {
        return Ok(None);
    }
    let Ok(constant) = i64::try_from(form.constant) else {
        return Ok(None);
    };
    let Some(terms) = own_terms(alloc, form.terms.as_slice())? else {
        return Ok(None);
    };
    Ok(Some(OwnForm { constant, terms }))
}

/// The forms over own deltas, if each is one.
pub(crate) fn own_forms(alloc: Global, forms: &[Form]) -> Result<Option<List<OwnForm>>, Memory>
    ensures { IfOk result (λ o. IfSome o (λ fs. map plain_own_form fs.items ≡ forms.now)) }
{
    let mut own = List::new(alloc);
    for form in forms {
        let Some(form) = own_form(alloc, form.copy(alloc)?)? else {
            return Ok(None);
        };
        own.push(form)?;
    }
    Ok(Some(own))
}

/// The objects of deltas with the forms that stand for them, if each of these is one over own deltas.
pub(crate) fn own_writes(
    alloc: Global,
    standing: &Standing,
    written: &[Delta],
) -> Result<Option<List<OwnWrite>>, Memory>
    ensures objects { IfOk result (λ o. IfSome o (λ ws. map (λ w. w.object) ws.items ≡ map (λ d. d.object) written.now)) }
    ensures forms { IfOk result (λ o. IfSome o (λ ws. map (λ w. plain_own_form w.form) ws.items ≡
        map (λ d. forms_of standing.now (BaseAt d.object)) written.now)) }
{
    let mut own = List::new(alloc);
    for delta in written {
        let form = standing.form_at(alloc, Place::Base(delta.object))?;
        let Some(form) = own_form(alloc, form)? else {
            return Ok(None);
        };
        own.push(OwnWrite {
            object: delta.object,
            form,
        })?;
    }
    Ok(Some(own))
}
