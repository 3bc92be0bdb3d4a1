//! Sums, products and negations of the numbers of runs.

ghost use Rattle.std.specs.Prelude.{◌≡◌, ◌+ℤ◌, ◌*ℤ◌, neg_ℤ, true};
ghost use Rattle.homeo_meaning.specs.Small.{is_small};
ghost use Rattle.homeo_split.specs.CanExec.{run_limit};

/// The sum of two numbers, no more than the run_limit of runs in absolute value.
#[tactic(auto, using(crate::proofs::Numbers::sizes))]
pub fn plus(a: i64, b: i64) -> i64
    requires { is_small run_limit (a +ℤ b) ≡ true }
    ensures { result ≡ a +ℤ b }
{
    a + b
}

/// The product of two numbers, no more than the run_limit of runs in absolute value.
#[tactic(auto, using(crate::proofs::Numbers::sizes))]
pub fn times(a: i64, b: i64) -> i64
    requires { is_small run_limit (a *ℤ b) ≡ true }
    ensures { result ≡ a *ℤ b }
{
    a * b
}

/// The negation of a number, no more than the run_limit of runs in absolute value.
#[tactic(auto, using(crate::proofs::Numbers::sizes))]
pub fn minus(a: i64) -> i64
    requires { is_small run_limit (neg_ℤ a) ≡ true }
    ensures { result ≡ neg_ℤ a }
{
    -a
}
