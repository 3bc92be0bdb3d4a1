//! Conditions as they are where all deltas are 0, and the comparisons that keep them so.

ghost use Rattle.std.specs.Prelude.{◌≡◌, ◌++◌, IfOk, OnOk, map};
ghost use Rattle.homeo_syntax.specs.LowView.{low_tests, plain_lexpr, plain_ltest, plain_lcond};
ghost use Rattle.homeo_syntax.specs.Low.{Comparison};
ghost use Rattle.homeo_meaning.specs.Meaning.{compared};
ghost use Rattle.homeo_meaning.specs.LowMeaning.{passes, holds};
ghost use Rattle.homeo_form.specs.Standing.{forms_of};
ghost use Rattle.homeo_certificate.specs.Met.{at_zero, met_in_test, met_in_cond};
ghost use Rattle.homeo_certificate.specs.Kept.{kept};
ghost use Rattle.homeo_certificate.specs.Followed.{too_large};
ghost use Rattle.homeo_verify.specs.inner.Compares.{Give, kept_in_test};
ghost use Rattle.homeo_verify.specs.inner.Stops.{Finds};

use crate::sizes::form_of;
use crate::stop::Stop;
use homeo_form::{Form, Standing};
use homeo_syntax::{Compare, LCond, LExpr, LTest, Memory};
use std::alloc::Global;

/// A comparison of two forms, and whether it is true where all deltas are 0.
#[derive(Drop)]
pub(crate) struct Compared {
    pub(crate) op: Compare,
    pub(crate) left: Form,
    pub(crate) right: Form,
    pub(crate) holds: bool,
}

/// Whether a condition or test holds where all deltas are 0, and the comparisons that keep it so.
#[derive(Drop)]
pub(crate) struct Tested {
    pub(crate) holds: bool,
    pub(crate) compared: Vec<Compared>,
}

/// What a comparison of two expressions gives.
fn comparison(
    alloc: Global,
    standing: &Standing,
    op: Compare,
    left: &LExpr,
    right: &LExpr,
) -> Result<Tested, Stop>
    ensures faults { Finds (too_large (met_in_test (forms_of standing.now) (Comparison op (plain_lexpr left.now) (plain_lexpr right.now)))) result }
    ensures holds { IfOk result (λ t. t.holds ≡ passes (Comparison op (plain_lexpr left.now) (plain_lexpr right.now)) (at_zero (forms_of standing.now))) }
    ensures kept { IfOk result (λ t. Give t.compared.items (kept_in_test (forms_of standing.now) (Comparison op (plain_lexpr left.now) (plain_lexpr right.now)))) }
{
    let left = form_of(alloc, standing, left)?;
    let right = form_of(alloc, standing, right)?;
    let holds = is_true(op, &left, &right);
    let mut compared = Vec::new(alloc);
    compared.push(Compared {
        op,
        left,
        right,
        holds,
    })?;
    Ok(Tested { holds, compared })
}

/// Whether the comparison is true where all deltas are 0.
#[tactic(auto, unfolding(homeo_meaning::specs::Key::definitions))]
pub(crate) fn is_true(op: Compare, left: &Form, right: &Form) -> bool
    ensures { result ≡ compared op left.now.constant right.now.constant }
{
    match op {
        Compare::Less => left.constant() < right.constant(),
        Compare::LessEqual => left.constant() <= right.constant(),
        Compare::Equal => left.constant() == right.constant(),
    }
}

#[cycle(conditions)]
#[tactic(auto, using(homeo_syntax::proofs::Measures::low_test_parts, homeo_syntax::proofs::LowViews::low_phrase_views))]
fn test(alloc: Global, standing: &Standing, t: &LTest) -> Result<Tested, Stop>
    ensures faults { Finds (too_large (met_in_test (forms_of standing.now) (plain_ltest t.now))) result }
    ensures holds { IfOk result (λ k. k.holds ≡ passes (plain_ltest t.now) (at_zero (forms_of standing.now))) }
    ensures kept { IfOk result (λ k. Give k.compared.items (kept_in_test (forms_of standing.now) (plain_ltest t.now))) }
{
    match t {
        LTest::True => Ok(Tested {
            holds: true,
            compared: Vec::new(alloc),
        }),
        LTest::Not(c) => {
            let tested = condition(alloc, standing, c)?;
            Ok(Tested {
                holds: !tested.holds,
                compared: tested.compared,
            })
        }
        LTest::Compare { op, left, right } => comparison(alloc, standing, *op, left, right),
    }
}

/// Of a condition that holds the comparisons of all its tests, and of another those of its first test that fails.
#[cycle(conditions)]
#[tactic(auto, using(homeo_syntax::proofs::Measures::low_test_parts, homeo_syntax::proofs::LowViews::low_phrase_views))]
pub(crate) fn condition(alloc: Global, standing: &Standing, c: &LCond) -> Result<Tested, Stop>
    ensures faults { Finds (too_large (met_in_cond (forms_of standing.now) (plain_lcond c.now))) result }
    ensures holds { IfOk result (λ k. k.holds ≡ holds (plain_lcond c.now) (at_zero (forms_of standing.now))) }
    ensures kept { IfOk result (λ k. Give k.compared.items (kept (forms_of standing.now) (plain_lcond c.now))) }
{
    tests(alloc, standing, c.tests.as_slice())
}

#[cycle(conditions)]
#[tactic(auto, using(homeo_syntax::proofs::Measures::low_test_parts))]
fn tests(alloc: Global, standing: &Standing, ts: &[LTest]) -> Result<Tested, Stop>
    ensures faults { Finds (too_large (met_in_cond (forms_of standing.now) (low_tests (map plain_ltest ts.now)))) result }
    ensures holds { IfOk result (λ k. k.holds ≡ holds (low_tests (map plain_ltest ts.now)) (at_zero (forms_of standing.now))) }
    ensures kept { IfOk result (λ k. Give k.compared.items (kept (forms_of standing.now) (low_tests (map plain_ltest ts.now)))) }
{
    let mut compared = Vec::new(alloc);
    for t in ts {
        let tested = test(alloc, standing, t)?;
        if !tested.holds {
            return Ok(tested);
        }
        push_all(&mut compared, tested.compared)?;
    }
    Ok(Tested {
        holds: true,
        compared,
    })
}

fn push_all(compared: &mut Vec<Compared>, more: Vec<Compared>) -> Result<(), Memory>
    ensures { OnOk result (compared.new.items ≡ compared.old.items ++ more.items) }
{
    for one in more {
        compared.push(one)?;
    }
    Ok(())
}
