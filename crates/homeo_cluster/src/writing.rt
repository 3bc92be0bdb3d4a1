//! How answers are written on the board.

ghost use Rattle.std.specs.Prelude.{◌≡◌, pos, ◌+ℤ◌, ◌-ℤ◌, ◌<ℤ◌, ◌≤ℤ◌};
ghost use Rattle.homeo_assembly.specs.Written.{upper, lower, head_of};
ghost use Rattle.homeo_history.specs.declared.answer.Path.TheVariants.{Local, Cleanup};

use homeo_plan::Broken;

/// 2^64, and 2^63.
const WHOLE: i128 = 18_446_744_073_709_551_616;

const HALF: i128 = 9_223_372_036_854_775_808;

/// A number below 0 from -1 on, as it is from 0 on.
fn mirrored(n: i128) -> i128
    requires { n <ℤ pos 0 }
    ensures { result ≡ pos 0 -ℤ (n +ℤ pos 1) }
{
    -(n + 1)
}

/// How often 2^64 goes into a number from 0 on.
#[tactic(auto, unfolding(homeo_assembly::specs::Key::definitions))]
fn quotient(n: i128) -> i64
    requires { pos 0 ≤ℤ n }
    ensures { result ≡ upper n }
{
    (n / WHOLE) as i64
}

/// How often 2^64 goes into a number, with the number's sign.
#[tactic(auto, using(crate::proofs::BelowZero::upper_below), unfolding(homeo_assembly::specs::Key::definitions))]
fn upper(n: i128) -> i64
    ensures { result ≡ upper n }
{
    if n >= 0 {
        quotient(n)
    } else {
        -1 - quotient(mirrored(n))
    }
}

/// What then remains, less 2^63.
#[tactic(auto, unfolding(homeo_assembly::specs::Key::definitions))]
fn lower(n: i128) -> i64
    ensures { result ≡ lower n }
{
    if n >= 0 {
        (n % WHOLE - HALF) as i64
    } else {
        ((-(n + 1)) % WHOLE - HALF) as i64
    }
}

/// The answer to a call of this number that a site gave by itself, but for the prints.
#[tactic(auto, unfolding(homeo_assembly::specs::Key::definitions))]
pub(crate) fn local_head(seq: u64, site: u32, round: u64) -> [i64; 7]
    ensures { result ≡ head_of seq site round Local }
{
    let (seq, site, round) = (i128::from(seq), i128::from(site), i128::from(round));
    [
        upper(seq),
        lower(seq),
        upper(site),
        lower(site),
        upper(round),
        lower(round),
        0,
    ]
}

/// The answer to a call of this number that closed its round, but for the prints.
#[tactic(auto, unfolding(homeo_assembly::specs::Key::definitions))]
pub(crate) fn closing_head(seq: u64, site: u32, round: u64, broken: Broken) -> [i64; 13]
    ensures { result ≡ head_of seq site round (Cleanup broken) }
{
    let (seq, site, round) = (i128::from(seq), i128::from(site), i128::from(round));
    let clause = i128::from(broken.clause);
    [
        upper(seq),
        lower(seq),
        upper(site),
        lower(site),
        upper(round),
        lower(round),
        1,
        upper(clause),
        lower(clause),
        upper(broken.sum),
        lower(broken.sum),
        upper(broken.bound),
        lower(broken.bound),
    ]
}
