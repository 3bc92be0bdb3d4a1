//! Sums and products of the numbers of forms.

ghost use Rattle.std.specs.Prelude.{◌≡◌, ◌↔◌, IsTrue, negsuc, ◌+ℤ◌, ◌*ℤ◌};
ghost use Rattle.homeo_meaning.specs.Small.{IsSmall};
ghost use Rattle.homeo_plan.specs.Each.{Each};
ghost use Rattle.homeo_plan.specs.Limit.{form_limit};
ghost use Rattle.homeo_form.specs.inner.Terms.{sum_limit};

use homeo_plan::Term;

/// The second may be a sum of many.
pub(crate) fn added(a: i128, b: i128) -> i128
    requires left { IsSmall form_limit a }
    requires right { IsSmall sum_limit b }
    ensures { result ≡ a +ℤ b }
{
    a + b
}

pub(crate) fn multiplied(a: i128, b: i128) -> i128
    requires left { IsSmall form_limit a }
    requires right { IsSmall form_limit b }
    ensures { result ≡ a *ℤ b }
{
    a * b
}

/// A value as a number of forms.
pub(crate) fn widened(n: i64) -> i128
    ensures { result ≡ n }
{
    n as i128
}

/// The same with its sign turned.
pub(crate) fn negative(n: i64) -> i128
    ensures { result ≡ negsuc 0 *ℤ n }
{
    -(n as i128)
}

/// Whether a number is at most 4 * 10^18 in size.
pub(crate) fn is_small_number(n: i128) -> bool
    ensures { IsTrue result ↔ IsSmall form_limit n }
{
    -4000000000000000000 <= n && n <= 4000000000000000000
}

/// Whether each factor is so.
pub(crate) fn are_small(terms: &[Term]) -> bool
    ensures { IsTrue result ↔ Each (λ t. IsSmall form_limit t.factor) terms.now }
{
    for term in terms {
        if !is_small_number(term.factor) {
            return false;
        }
    }
    true
}
