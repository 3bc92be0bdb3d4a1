//! How many rows a joint table has.

ghost use Rattle.std.specs.Prelude.{◌≡◌, ℕ, ◌*◌, ◌^◌, ◌<◌, ◌≤◌, length, IfErr, IfOk, IsErr};
ghost use Rattle.std.specs.List.{All};
ghost use Rattle.homeo_joint.specs.Counts.{product_of, row_limit, IsFirstOver};
ghost use Rattle.homeo_joint.specs.TooMany.{IsTooMany};

use homeo_syntax::Memory;

/// The most rows that a joint table may have.
pub const MOST_ROWS: u64 = 1_024;

/// Why there is no joint table.
#[derive(Clone, Copy, Debug, PartialEq, Eq)]
pub enum JointError {
    /// It would have more than `MOST_ROWS` rows: the first table, from 0, up to which the tables have more choices than
    /// that, and how many.
    TooMany { table: u32, product: u64 },
    /// Out of memory.
    Memory,
}

impl From<Memory> for JointError {
    ghost use Rattle.std.specs.Prelude.{◌≡◌};
    ghost use Rattle.homeo_joint.specs.declared.size.JointError.TheVariants as error;

    ghost from_gives = { λ _ e. e ≡ error.Memory };

    fn from(_e: Memory) -> JointError {
        JointError::Memory
    }
}

/// The number of rows of the joint table of tables of so many rows each.
///
/// # Errors
///
/// `TooMany` where it exceeds `MOST_ROWS`.
pub(crate) fn product_within(counts: &[u64]) -> Result<u64, JointError>
    requires few { length counts.now < 2 ^ 32 }
    requires counted { All (λ n. n < 2 ^ 32) counts.now }
    ensures size { IfOk result (λ n. n ≡ product_of counts.now) }
    ensures within { IfOk result (λ n. n ≤ row_limit) }
    ensures error { IfErr result IsTooMany }
    ensures first { (t p : ℕ) → result ≡ Err (JointError.TooMany t p) → IsFirstOver row_limit counts.now t p }
{
    let mut product = 1;
    for (table, rows) in counts.iter().enumerate() {
        product = more_rows(product, table, *rows)?;
    }
    Ok(product)
}

/// How many choices there are with the rows of one more table, the one with this number.
///
/// # Errors
///
/// `TooMany` where they exceed `MOST_ROWS`.
pub fn more_rows(product: u64, table: usize, rows: u64) -> Result<u64, JointError>
    requires within { product ≤ row_limit }
    requires few { table < 2 ^ 32 }
    requires counted { rows < 2 ^ 32 }
    ensures product { IfOk result (λ n. n ≡ product * rows) }
    ensures within { IfOk result (λ n. n ≤ row_limit) }
    ensures error { IfErr result (λ e. e ≡ JointError.TooMany table (product * rows)) }
    ensures over { IsErr result → row_limit < product * rows }
{
    let product = product * rows;
    if product > MOST_ROWS {
        return Err(JointError::TooMany {
            table: table as u32,
            product,
        });
    }
    Ok(product)
}
