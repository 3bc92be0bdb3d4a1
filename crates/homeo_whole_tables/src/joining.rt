//! The joint tables of tables.

ghost use Rattle.std.specs.Prelude.{◌≡◌, ℕ, ◌^◌, ◌<◌, ◌≤◌, map, length, vec_len, pos, ◌↔◌, IfErr, IfOk, IsErrAnd};
ghost use Rattle.std.specs.List.{All};
ghost use Rattle.homeo_plan.specs.Joint.{joint_picks};
ghost use Rattle.homeo_joint.specs.Counts.{product_of, row_limit, IsFirstOver};
ghost use Rattle.homeo_joint.specs.TooMany.{IsTooMany};
ghost use Rattle.homeo_whole_tables.specs.Tables.{plain_table, row_counts};

use homeo_joint::{JointError, joint_of_counts, more_rows};
use homeo_plan::{JointRow, Row};
use homeo_syntax::Memory;
use std::alloc::Global;

/// The joint table (Roy et al., SIGMOD 2015): a row for each choice of one row of each table, with the numbers of the
/// chosen rows, from 0, in the order of the tables. The last table's row changes fastest (this project's rule). No tables
/// give one row, without picks. It takes time and memory linear in the picks and the tables.
///
/// # Errors
///
/// `TooMany` exactly where there are more than `MOST_ROWS` such rows: the first table up to which the tables have more
/// choices than that, and how many. Else `Memory` when out of memory.
pub fn joint(alloc: Global, tables: &[Vec<Row>]) -> Result<Vec<JointRow>, JointError>
    requires few { length tables.now < 2 ^ 32 }
    requires some { All (λ t. 1 ≤ vec_len t) tables.now }
    requires counted { All (λ t. vec_len t < 2 ^ 32) tables.now }
    ensures picks { IfOk result (λ rows. map (λ r. r.picks.items) rows.items ≡ map (map pos) (joint_picks (map plain_table tables.now))) }
    ensures count { IfOk result (λ rows. vec_len rows ≡ product_of (row_counts tables.now)) }
    ensures over { IsErrAnd result IsTooMany ↔ (row_limit < length (joint_picks (map plain_table tables.now))) }
    ensures first { (t p : ℕ) → result ≡ Err (JointError.TooMany t p) → IsFirstOver row_limit (row_counts tables.now) t p }
{
    // too many are refused before memory is asked for
    let _size = joint_size(tables)?;
    let counts = counts_of(alloc, tables)?;
    joint_of_counts(alloc, counts.as_slice())
}

/// The number of rows of the joint table.
///
/// # Errors
///
/// `TooMany` where it exceeds `MOST_ROWS`.
fn joint_size(tables: &[Vec<Row>]) -> Result<u64, JointError>
    requires few { length tables.now < 2 ^ 32 }
    requires some { All (λ t. 1 ≤ vec_len t) tables.now }
    requires counted { All (λ t. vec_len t < 2 ^ 32) tables.now }
    ensures size { IfOk result (λ n. n ≡ product_of (row_counts tables.now)) }
    ensures within { IfOk result (λ n. n ≤ row_limit) }
    ensures error { IfErr result IsTooMany }
    ensures first { (t p : ℕ) → result ≡ Err (JointError.TooMany t p) → IsFirstOver row_limit (row_counts tables.now) t p }
{
    let mut product = 1;
    for (table, rows) in tables.iter().enumerate() {
        product = more_rows(product, table, rows.len() as u64)?;
    }
    Ok(product)
}

fn counts_of(alloc: Global, tables: &[Vec<Row>]) -> Result<Vec<u64>, Memory>
    ensures { IfOk result (λ counts. counts.items ≡ row_counts tables.now) }
{
    let mut counts = Vec::with_capacity(alloc, tables.len())?;
    for rows in tables {
        counts.push(rows.len() as u64)?;
    }
    Ok(counts)
}
