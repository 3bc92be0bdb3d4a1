//! Comparisons of expressions, and the atoms that keep them as they are at a base.

ghost use Rattle.std.specs.Prelude.{◌≡◌, ◌++◌, ◌∷◌, [], pos, negsuc, map, int_lt, IfOk, OnOk};
ghost use Rattle.std.specs.Ordering.{int_eq};
ghost use Rattle.homeo_syntax.specs.LowView.{plain_lexpr};
ghost use Rattle.homeo_syntax.specs.declared.phrase.Compare.TheVariants.{Less, Equal};
ghost use Rattle.homeo_meaning.specs.Meaning.{compared};
ghost use Rattle.homeo_meaning.specs.Small.{IsSmall};
ghost use Rattle.homeo_plan.specs.FormSizes.{Numbers};
ghost use Rattle.homeo_plan.specs.Limit.{form_limit};
ghost use Rattle.homeo_plan.specs.Linear.{constant_form, add_forms, scale_form, form};
ghost use Rattle.homeo_plan.specs.PlanView.{plain_atom};
ghost use Rattle.homeo_form.specs.Standing.{forms_of};
ghost use Rattle.homeo_linear.specs.inner.Kept.{AreSides, kept_comparison};

use homeo_form::{Form, Standing, expression_difference};
use homeo_plan::Atom;
use homeo_syntax::{Compare, LExpr, Memory};
use std::alloc::Global;

fn is_less(apart: &Form) -> bool
    ensures { result ≡ int_lt apart.now.constant (pos 0) }
{
    apart.constant() < 0
}

fn is_equal(apart: &Form) -> bool
    ensures { result ≡ int_eq apart.now.constant (pos 0) }
{
    apart.constant() == 0
}

/// That the first side is at most the second, by their difference.
fn at_most(apart: Form) -> Atom
    ensures { plain_atom result ≡ apart }
{
    Atom {
        form: apart.into_linear(),
    }
}

/// That it is less: of whole numbers, that one more is at most the other.
fn less(apart: Form) -> Atom
    requires { IsSmall form_limit apart.constant }
    ensures { plain_atom result ≡ add_forms (constant_form (pos 1)) apart }
{
    let form = apart.plus_number(1);
    Atom {
        form: form.into_linear(),
    }
}

/// Whether a comparison holds at a base, by the form of the difference of its sides there. The atoms that keep it so are put behind
/// the others. A side is at most the other where the other isn't less.
pub(crate) fn comparison(
    alloc: Global,
    standing: &Standing,
    op: Compare,
    left: &LExpr,
    right: &LExpr,
    atoms: &mut Vec<Atom>,
) -> Result<bool, Memory>
    requires { AreSides (forms_of standing.now) (plain_lexpr left.now) (plain_lexpr right.now) }
    ensures holds { IfOk result (λ b. b ≡ compared op (form (forms_of standing.now) (plain_lexpr left.now)).constant
        (form (forms_of standing.now) (plain_lexpr right.now)).constant) }
    ensures atoms { OnOk result (map plain_atom atoms.new.items ≡ map plain_atom atoms.old.items ++
        kept_comparison op (form (forms_of standing.now) (plain_lexpr left.now)) (form (forms_of standing.now) (plain_lexpr right.now))) }
{
    match op {
        Compare::Less => by_less(alloc, standing, left, right, atoms),
        Compare::LessEqual => {
            let is_more = by_less(alloc, standing, right, left, atoms)?;
            Ok(!is_more)
        }
        Compare::Equal => by_equal(alloc, standing, left, right, atoms),
    }
}

fn by_less(
    alloc: Global,
    standing: &Standing,
    left: &LExpr,
    right: &LExpr,
    atoms: &mut Vec<Atom>,
) -> Result<bool, Memory>
    requires { AreSides (forms_of standing.now) (plain_lexpr left.now) (plain_lexpr right.now) }
    ensures holds { IfOk result (λ b. b ≡ compared Less (form (forms_of standing.now) (plain_lexpr left.now)).constant
        (form (forms_of standing.now) (plain_lexpr right.now)).constant) }
    ensures atoms { OnOk result (map plain_atom atoms.new.items ≡ map plain_atom atoms.old.items ++
        kept_comparison Less (form (forms_of standing.now) (plain_lexpr left.now)) (form (forms_of standing.now) (plain_lexpr right.now))) }
{
    let apart = expression_difference(alloc, standing, left, right)?;
    if is_less(&apart) {
        atoms.push(less(apart))?;
        Ok(true)
    } else {
        atoms.push(at_most(apart.negated()))?;
        Ok(false)
    }
}

fn by_equal(
    alloc: Global,
    standing: &Standing,
    left: &LExpr,
    right: &LExpr,
    atoms: &mut Vec<Atom>,
) -> Result<bool, Memory>
    requires { AreSides (forms_of standing.now) (plain_lexpr left.now) (plain_lexpr right.now) }
    ensures holds { IfOk result (λ b. b ≡ compared Equal (form (forms_of standing.now) (plain_lexpr left.now)).constant
        (form (forms_of standing.now) (plain_lexpr right.now)).constant) }
    ensures atoms { OnOk result (map plain_atom atoms.new.items ≡ map plain_atom atoms.old.items ++
        kept_comparison Equal (form (forms_of standing.now) (plain_lexpr left.now)) (form (forms_of standing.now) (plain_lexpr right.now))) }
{
    let apart = expression_difference(alloc, standing, left, right)?;
    if is_less(&apart) {
        atoms.push(less(apart))?;
        return Ok(false);
    }
    if is_equal(&apart) {
        keep_equal(alloc, apart, atoms)?;
        Ok(true)
    } else {
        atoms.push(less(apart.negated()))?;
        Ok(false)
    }
}

/// Puts the atoms that keep sides equal behind the others: neither is above the other, by their difference.
#[inline(never)]
fn keep_equal(alloc: Global, apart: Form, atoms: &mut Vec<Atom>) -> Result<(), Memory>
    requires { Numbers (IsSmall form_limit) apart }
    ensures { OnOk result (map plain_atom atoms.new.items ≡ map plain_atom atoms.old.items ++ apart ∷ scale_form (negsuc 0) apart ∷ []) }
{
    atoms.push(at_most(apart.copy(alloc)?))?;
    atoms.push(at_most(apart.negated()))?;
    Ok(())
}
