//! Joint tables of small tables.

ghost use Rattle.std.specs.Prelude.{◌≡◌, ◌<◌, ◌≤◌, ◌^◌, vec_len};
ghost use Rattle.std.specs.List.{All};

use crate::same::{same, same_items};
use homeo_joint::{JointError, joint_of_counts};
use homeo_plan::{JointRow, Row};
use homeo_syntax::{LCond, List};
use homeo_whole_tables::joint;
use std::alloc::Global;
use std::process::Abort;

fn table_of(rt: &impl Abort, alloc: Global, rows: u32) -> Vec<Row>
    ensures { vec_len result ≡ rows }
{
    let mut table = Vec::new(alloc);
    for _row in 0..rows {
        let row = Row {
            formula: LCond {
                tests: List::new(alloc),
            },
            residual: List::new(alloc),
        };
        table.push(row).expect(rt, "memory");
    }
    table
}

fn tables_of(rt: &impl Abort, alloc: Global, count: u32, rows: u32) -> Vec<Vec<Row>>
    requires { 1 ≤ rows }
    ensures count { vec_len result ≡ count }
    ensures some { All (λ t. 1 ≤ vec_len t) result.items }
    ensures counted { All (λ t. vec_len t < 2 ^ 32) result.items }
{
    let mut tables = Vec::new(alloc);
    for _table in 0..count {
        let table = table_of(rt, alloc, rows);
        tables.push(table).expect(rt, "memory");
    }
    tables
}

// Whether a joint row has as many picks as there are tables, each of this row.
fn picks_all(row: Option<&JointRow>, count: usize, pick: i64) -> bool {
    match row {
        Some(row) => {
            row.picks.as_slice().len() == count && row.picks.as_slice().iter().all(|p| *p == pick)
        }
        None => false,
    }
}

/// The joint rows of so many tables of so many rows, and nothing of the tables.
fn rows_of(
    rt: &impl Abort,
    alloc: Global,
    count: u32,
    rows: u32,
) -> Result<Vec<JointRow>, JointError>
    requires { 1 ≤ rows }
{
    let tables = tables_of(rt, alloc, count, rows);
    let joined = joint(alloc, tables.as_slice());
    drop(tables);
    joined
}

#[test]
fn ten_tables_of_two_rows_have_1_024_joint_rows(rt: HostRuntime) {
    let rows = rows_of(&rt, rt.alloc(), 10, 2).expect(&rt, "a joint table");
    same(&rt, &rows.len(), &1_024);
    assert!(rt; picks_all(rows.first(), 10, 0));
    assert!(rt; picks_all(rows.last(), 10, 1));
}

#[test]
fn eleven_tables_of_two_rows_are_too_many(rt: HostRuntime) {
    let why = rows_of(&rt, rt.alloc(), 11, 2).err();
    same(
        &rt,
        &why,
        &Some(JointError::TooMany {
            table: 10,
            product: 2_048,
        }),
    );
}

#[test]
fn no_tables_have_one_joint_row_without_picks(rt: HostRuntime) {
    let rows = rows_of(&rt, rt.alloc(), 0, 1).expect(&rt, "a joint table");
    same(&rt, &rows.len(), &1);
    assert!(rt; picks_all(rows.first(), 0, 0));
}

#[test]
fn the_row_of_the_last_table_changes_fastest(rt: HostRuntime) {
    let rows = joint_of_counts(rt.alloc(), &[2, 3]).expect(&rt, "a joint table");
    same(&rt, &rows.len(), &6);
    let wanted = [[0, 0], [0, 1], [0, 2], [1, 0], [1, 1], [1, 2]];
    for (row, picks) in rows.iter().zip(wanted.iter()) {
        same_items(&rt, row.picks.as_slice(), picks.as_slice());
    }
}
