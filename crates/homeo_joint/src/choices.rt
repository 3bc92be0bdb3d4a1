//! The rows of a joint table.

ghost use Rattle.std.specs.Prelude.{◌≡◌, ℕ, ◌^◌, ◌<◌, ◌≤◌, map, length, vec_len, pos, ◌↔◌, IfOk, IsErrAnd};
ghost use Rattle.std.specs.List.{All};
ghost use Rattle.homeo_joint.specs.Counts.{product_of, row_limit, ArePicks, IsFirstOver};
ghost use Rattle.homeo_joint.specs.TooMany.{IsTooMany};
ghost use Rattle.homeo_joint.specs.inner.Digits.{digits, digits_below};

use crate::size::{JointError, product_within};
use homeo_plan::JointRow;
use homeo_syntax::{List, Memory, Numbers};
use std::alloc::Global;

/// The joint table (Roy et al., SIGMOD 2015) of tables of which only the numbers of their rows are known: a row for each choice of
/// one row of each table, with the numbers of the chosen rows, from 0, in the order of the tables. The last table's row changes
/// fastest (this project's rule). No tables give one row, without picks. It takes time and memory linear in the picks.
///
/// # Errors
///
/// `TooMany` exactly where there are more than `MOST_ROWS` rows: the first table up to which the tables have more choices
/// than that, and how many. Else `Memory` when out of memory.
pub fn joint_of_counts(alloc: Global, counts: &[u64]) -> Result<Vec<JointRow>, JointError>
    requires few { length counts.now < 2 ^ 32 }
    requires some { All (λ n. 1 ≤ n) counts.now }
    requires counted { All (λ n. n < 2 ^ 32) counts.now }
    ensures picks { IfOk result (λ rows. ArePicks counts.now (map (λ r. r.picks.items) rows.items)) }
    ensures count { IfOk result (λ rows. vec_len rows ≡ product_of counts.now) }
    ensures within { IfOk result (λ rows. vec_len rows ≤ row_limit) }
    ensures over { IsErrAnd result IsTooMany ↔ (row_limit < product_of counts.now) }
    ensures first { (t p : ℕ) → result ≡ Err (JointError.TooMany t p) → IsFirstOver row_limit counts.now t p }
{
    let size = product_within(counts)?;
    let rows = joint_rows(alloc, counts, size)?;
    Ok(rows)
}

/// The rows of the joint table of tables of so many rows each, `size` in all.
fn joint_rows(alloc: Global, counts: &[u64], size: u64) -> Result<Vec<JointRow>, Memory>
    requires some { All (λ n. 1 ≤ n) counts.now }
    requires size { size ≡ product_of counts.now }
    requires within { size ≤ row_limit }
    ensures { IfOk result (λ rows. map (λ r. r.picks.items) rows.items ≡ map (map pos) (digits_below counts.now size)) }
{
    let mut rows = Vec::new(alloc);
    for number in 0..size {
        let picks = picks_at(alloc, counts, size, number)?;
        rows.push(JointRow { picks })?;
    }
    Ok(rows)
}

/// Of each table the number of its row in the joint row with this number, of `size`.
fn picks_at(alloc: Global, counts: &[u64], size: u64, number: u64) -> Result<Numbers, Memory>
    requires some { All (λ n. 1 ≤ n) counts.now }
    requires size { size ≡ product_of counts.now }
    requires within { size ≤ row_limit }
    requires exists { number < size }
    ensures { IfOk result (λ picks. picks.items ≡ map pos (digits counts.now number)) }
{
    let mut picks = List::new(alloc);
    // how many joint rows share the picks so far, and how many of these stand before this one
    let mut alike = size;
    let mut before = number;
    for rows in counts {
        alike /= *rows;
        picks.push((before / alike) as i64)?;
        before %= alike;
    }
    Ok(picks)
}
