//! Numbers told up to a cap.

ghost use Rattle.std.specs.Prelude.{◌≡◌};
ghost use Rattle.homeo_size.specs.inner.Numbers.{cap, weight_cap};

/// No size, depth or number of rows is counted beyond this: one more than rows times sizes may be together.
pub const BEYOND: u64 = 8_000_001;

/// No weight is counted beyond this: one more than the largest that an expression may have.
pub const TOO_HEAVY: u64 = 1_000_000_000_000_000_001;

/// The number, told up to BEYOND.
pub(crate) fn capped(n: u64) -> u64
    ensures { result ≡ cap n }
{
    BEYOND.min(n)
}

/// The weight, told up to TOO_HEAVY.
pub(crate) fn weight_capped(n: u64) -> u64
    ensures { result ≡ weight_cap n }
{
    TOO_HEAVY.min(n)
}
