//! The table of a small command.

use crate::same::same;
use homeo_plan::Row;
use homeo_syntax::{Compare, LCommand, LCond, LExpr, LTest, List, SplitName, Temp};
use homeo_table::Rows;
use homeo_whole_tables::table;
use std::alloc::Global;
use std::process::Abort;

// read(base 0) < 5
fn is_low(rt: &impl Abort, alloc: Global) -> LCond {
    let test = LTest::Compare {
        op: Compare::Less,
        left: LExpr::Read(SplitName::Base(0)),
        right: LExpr::Literal(5),
    };
    LCond {
        tests: List::from_vec(vec![in alloc; test].expect(rt, "memory")),
    }
}

// if (read(base 0) < 5) print(1) else skip
fn choice(rt: &impl Abort, alloc: Global) -> LCommand {
    let print = LCommand::Print {
        value: LExpr::Literal(1),
    };
    LCommand::If {
        test: is_low(rt, alloc),
        yes: Box::new(alloc, print).expect(rt, "memory"),
        no: Box::new(alloc, LCommand::Skip).expect(rt, "memory"),
    }
}

// base 0 = t; if (read(base 0) < 5) print(1) else skip
fn sample(rt: &impl Abort, alloc: Global) -> LCommand {
    let write = LCommand::Write {
        target: SplitName::Whole(0),
        value: LExpr::Temp(Temp::Named(0)),
    };
    let choice = choice(rt, alloc);
    LCommand::Seq {
        commands: List::from_vec(vec![in alloc; write, choice].expect(rt, "memory")),
    }
}

fn sizes(row: Option<&Row>) -> Option<(usize, usize)> {
    row.map(|row| (
        row.formula.tests.as_slice().len(),
        row.residual.as_slice().len(),
    ))
}

// Whether the first test of a row's formula compares this number with 5.
fn first_is(row: Option<&Row>, number: i64) -> bool {
    match row {
        Some(row) => match row.formula.tests.as_slice().first() {
            Some(
                LTest::Compare {
                    left: LExpr::Literal(n),
                    ..
                },
            ) => *n == number,
            _ => false,
        },
        None => false,
    }
}

#[test]
fn a_choice_has_two_rows(rt: HostRuntime) {
    let command = sample(&rt, rt.alloc());
    let rows = table(rt.alloc(), &command).expect(&rt, "memory");
    drop(command);
    same(&rt, &rows.len(), &2);
    same(&rt, &sizes(rows.first()), &Some((1, 2)));
    same(&rt, &sizes(rows.last()), &Some((1, 1)));
    assert!(rt; first_is(rows.first(), 0));
    drop(rows);
}

// How many tests and commands the next row has, if there is one.
fn next_sizes(rt: &impl Abort, alloc: Global, rows: &mut Rows) -> Option<(usize, usize)> {
    if rows.next(alloc).expect(rt, "memory") {
        Some((rows.formula().len(), rows.residual().len()))
    } else {
        None
    }
}

#[test]
fn the_rows_of_a_choice_are_reached_one_after_another(rt: HostRuntime) {
    let alloc = rt.alloc();
    let command = sample(&rt, alloc);
    let mut rows = Rows::of(alloc, &command).expect(&rt, "memory");
    same(&rt, &next_sizes(&rt, alloc, &mut rows), &Some((1, 2)));
    same(&rt, &next_sizes(&rt, alloc, &mut rows), &Some((1, 1)));
    same(&rt, &next_sizes(&rt, alloc, &mut rows), &None);
    same(&rt, &next_sizes(&rt, alloc, &mut rows), &None);
    drop(rows);
    drop(command);
}
