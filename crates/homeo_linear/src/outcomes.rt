//! Whether tests and conditions hold at the base, seen by the constants of forms alone.

ghost use Rattle.std.specs.Prelude.{◌≡◌, not, is_some, map};
ghost use Rattle.homeo_syntax.specs.LowView.{low_tests, plain_ltest, plain_lcond};
ghost use Rattle.homeo_meaning.specs.Meaning.{compared};
ghost use Rattle.homeo_meaning.specs.Small.{IsSmall};
ghost use Rattle.homeo_plan.specs.FormSizes.{CanTest, CanCond};
ghost use Rattle.homeo_plan.specs.Limit.{form_limit};
ghost use Rattle.homeo_follow.specs.Follow.{passes_by, holds_by};
ghost use Rattle.homeo_form.specs.Standing.{forms_of};
ghost use Rattle.homeo_linear.specs.inner.Kept.{IsDeciding};

use homeo_form::{Standing, constant};
use homeo_syntax::{Compare, LCond, LTest};

#[tactic(auto, unfolding(homeo_meaning::specs::Key::definitions))]
fn compared(op: Compare, left: i128, right: i128) -> bool
    ensures { result ≡ compared op left right }
{
    match op {
        Compare::Less => left < right,
        Compare::LessEqual => left <= right,
        Compare::Equal => left == right,
    }
}

/// Whether a test passes at the base.
#[cycle(outcomes)]
#[tactic(auto, using(homeo_syntax::proofs::Measures::low_test_parts, homeo_syntax::proofs::LowViews::low_phrase_views))]
fn passes(standing: &Standing, t: &LTest) -> bool
    requires { CanTest (IsSmall form_limit) (forms_of standing.now) (plain_ltest t.now) }
    ensures { result ≡ passes_by (forms_of standing.now) (plain_ltest t.now) }
{
    match t {
        LTest::True => true,
        LTest::Not(c) => !holds(standing, c),
        LTest::Compare { op, left, right } => {
            compared(*op, constant(standing, left), constant(standing, right))
        }
    }
}

/// Whether a condition holds at the base.
#[cycle(outcomes)]
#[tactic(auto, using(homeo_syntax::proofs::Measures::low_test_parts, homeo_syntax::proofs::LowViews::low_phrase_views))]
fn holds(standing: &Standing, c: &LCond) -> bool
    requires { CanCond (IsSmall form_limit) (forms_of standing.now) (plain_lcond c.now) }
    ensures { result ≡ holds_by (forms_of standing.now) (plain_lcond c.now) }
{
    failing(standing, c.tests.as_slice()).is_none()
}

/// The place of the first test that doesn't pass, if there is one.
#[cycle(outcomes)]
#[tactic(auto, using(homeo_syntax::proofs::Measures::low_test_parts))]
fn failing(standing: &Standing, ts: &[LTest]) -> Option<usize>
    requires { CanCond (IsSmall form_limit) (forms_of standing.now) (low_tests (map plain_ltest ts.now)) }
    ensures some { is_some result ≡ not (holds_by (forms_of standing.now) (low_tests (map plain_ltest ts.now))) }
    ensures place { IsDeciding (forms_of standing.now) ts.now result }
{
    for place in 0..ts.len() {
        if !passes(standing, &ts[place]) {
            return Some(place);
        }
    }
    None
}

/// The place of the test whose atoms alone keep the condition as it is: that of its first test that fails, or of its only one.
/// There is none where several tests all pass.
pub(crate) fn deciding(standing: &Standing, ts: &[LTest]) -> Option<usize>
    requires { CanCond (IsSmall form_limit) (forms_of standing.now) (low_tests (map plain_ltest ts.now)) }
    ensures { IsDeciding (forms_of standing.now) ts.now result }
{
    if ts.len() == 1 {
        return Some(0);
    }
    failing(standing, ts)
}
