//! Conditions and their tests, where the forms of what stands at each place are known.

ghost use Rattle.std.specs.Prelude.{◌≡◌, ◌++◌, map, IfOk, OnOk};
ghost use Rattle.homeo_syntax.specs.LowView.{low_tests, plain_ltest, plain_lcond};
ghost use Rattle.homeo_meaning.specs.Small.{IsSmall};
ghost use Rattle.homeo_plan.specs.FormSizes.{CanTest, CanCond};
ghost use Rattle.homeo_plan.specs.PlanView.{plain_atom};
ghost use Rattle.homeo_plan.specs.Limit.{form_limit};
ghost use Rattle.homeo_follow.specs.Follow.{passes_by, holds_by};
ghost use Rattle.homeo_form.specs.Standing.{forms_of};
ghost use Rattle.homeo_linear.specs.Kept.{kept_test, kept_cond};

use crate::comparisons::comparison;
use crate::outcomes::deciding;
use homeo_form::Standing;
use homeo_plan::Atom;
use homeo_syntax::{LCond, LTest, Memory};
use std::alloc::Global;

/// Whether a test passes at the base. The atoms that keep it so are put behind the others.
#[cycle(conditions)]
#[tactic(auto, using(homeo_syntax::proofs::Measures::low_test_parts, homeo_syntax::proofs::LowViews::low_phrase_views))]
fn test(
    alloc: Global,
    standing: &Standing,
    t: &LTest,
    atoms: &mut Vec<Atom>,
) -> Result<bool, Memory>
    requires { CanTest (IsSmall form_limit) (forms_of standing.now) (plain_ltest t.now) }
    ensures holds { IfOk result (λ b. b ≡ passes_by (forms_of standing.now) (plain_ltest t.now)) }
    ensures atoms { OnOk result (map plain_atom atoms.new.items ≡
        map plain_atom atoms.old.items ++ kept_test (forms_of standing.now) (plain_ltest t.now)) }
{
    match t {
        LTest::True => Ok(true),
        LTest::Not(c) => {
            let holds = condition(alloc, standing, c, atoms)?;
            Ok(!holds)
        }
        LTest::Compare { op, left, right } => comparison(alloc, standing, *op, left, right, atoms),
    }
}

/// Whether a condition holds at the base. Behind the others are put, of one that holds there, the atoms of all its tests, and of
/// another those of its first test that fails.
///
/// No constant and no factor that is met in the forms of its tests and in their differences may be above 4 * 10^18 in size.
///
/// # Errors
///
/// `Memory` when out of memory.
#[cycle(conditions)]
#[tactic(auto, using(homeo_syntax::proofs::Measures::low_test_parts, homeo_syntax::proofs::LowViews::low_phrase_views))]
pub fn condition(
    alloc: Global,
    standing: &Standing,
    c: &LCond,
    atoms: &mut Vec<Atom>,
) -> Result<bool, Memory>
    requires { CanCond (IsSmall form_limit) (forms_of standing.now) (plain_lcond c.now) }
    ensures holds { IfOk result (λ b. b ≡ holds_by (forms_of standing.now) (plain_lcond c.now)) }
    ensures atoms { OnOk result (map plain_atom atoms.new.items ≡
        map plain_atom atoms.old.items ++ kept_cond (forms_of standing.now) (plain_lcond c.now)) }
{
    tests(alloc, standing, c.tests.as_slice(), atoms)
}

#[cycle(conditions)]
#[tactic(auto, using(homeo_syntax::proofs::Measures::low_test_parts))]
fn tests(
    alloc: Global,
    standing: &Standing,
    ts: &[LTest],
    atoms: &mut Vec<Atom>,
) -> Result<bool, Memory>
    requires { CanCond (IsSmall form_limit) (forms_of standing.now) (low_tests (map plain_ltest ts.now)) }
    ensures holds { IfOk result (λ b. b ≡ holds_by (forms_of standing.now) (low_tests (map plain_ltest ts.now))) }
    ensures atoms { OnOk result (map plain_atom atoms.new.items ≡
        map plain_atom atoms.old.items ++ kept_cond (forms_of standing.now) (low_tests (map plain_ltest ts.now))) }
{
    if let Some(place) = deciding(standing, ts) {
        return test(alloc, standing, &ts[place], atoms);
    }
    for t in ts {
        let _ = test(alloc, standing, t, atoms)?;
    }
    Ok(true)
}
