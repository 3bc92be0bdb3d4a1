//! The walk over a transaction's text, from name to name.

ghost use Rattle.std.specs.Prelude.{◌≡◌, OnOk};
ghost use Rattle.homeo_syntax.specs.SourceView.{plain_expr, plain_test, plain_cond, plain_command};
ghost use Rattle.homeo_meaning.specs.Occurrences.{in_expr, in_exprs, in_test, in_cond, in_fields, in_command, in_commands};
ghost use Rattle.homeo_rules.specs.inner.Follow.{follow};
ghost use Rattle.homeo_rules.specs.inner.InForce.{rows_of};
ghost use Rattle.homeo_rules.specs.inner.Plain.{plain_exprs, plain_tests, plain_fields, plain_commands};
ghost use Rattle.homeo_rules.specs.inner.Scopes.{scope_in};

use crate::checker::Checker;
use crate::names::rows::Rows;
use crate::names::scope::Scope;
use homeo_syntax::{Command, Cond, Expr, FieldValue, Memory, Test};

#[cycle(phrases)]
#[tactic(auto, using(crate::proofs::Walks::walks))]
fn walk_expr(e: &Expr, scope: &Scope<'_>, rows: &Rows<'_>, k: &mut Checker)
    ensures { k.new ≡ follow (scope_in scope.now) k.old (in_expr (rows_of rows.now) (plain_expr e.now)) }
{
    match e {
        Expr::Literal(_) => {}
        Expr::Name(x) => k.takes_value(scope, rows, *x),
        Expr::Read(x) => k.takes_object(scope, rows, *x),
        Expr::Sum(es) | Expr::Product(es) => walk_exprs(es.as_slice(), scope, rows, k),
        Expr::Neg(inner) => walk_expr(inner, scope, rows, k),
        Expr::Field {
            relation,
            index,
            field,
        } => {
            k.takes_relation(scope, rows, *relation);
            k.names_field(scope, rows, *relation, *field);
            walk_expr(index, scope, rows, k);
        }
        Expr::Row { row, field } => k.takes_field(scope, rows, *row, *field),
        Expr::Count {
            row,
            relation,
            test,
        } => {
            k.declares_row(scope, rows, *row);
            let inner = Rows::Inside {
                row: row.name,
                relation: relation.name,
                outer: &*rows,
            };
            k.takes_relation(scope, &inner, *relation);
            walk_cond(test, scope, &inner, k);
        }
        Expr::Total {
            row,
            field,
            relation,
            test,
        } => {
            k.declares_row(scope, rows, *row);
            let inner = Rows::Inside {
                row: row.name,
                relation: relation.name,
                outer: &*rows,
            };
            k.takes_relation(scope, &inner, *relation);
            k.names_field(scope, &inner, *relation, *field);
            walk_cond(test, scope, &inner, k);
        }
    }
}

#[cycle(phrases)]
#[tactic(auto, using(crate::proofs::Walks::walks))]
fn walk_exprs(es: &[Expr], scope: &Scope<'_>, rows: &Rows<'_>, k: &mut Checker)
    ensures { k.new ≡ follow (scope_in scope.now) k.old (in_exprs (rows_of rows.now) (plain_exprs es.now)) }
{
    for e in es {
        walk_expr(e, scope, rows, k);
    }
}

#[cycle(phrases)]
#[tactic(auto, using(crate::proofs::Walks::walks))]
fn walk_test(t: &Test, scope: &Scope<'_>, rows: &Rows<'_>, k: &mut Checker)
    ensures { k.new ≡ follow (scope_in scope.now) k.old (in_test (rows_of rows.now) (plain_test t.now)) }
{
    match t {
        Test::True => {}
        Test::Not(c) => walk_cond(c, scope, rows, k),
        Test::Compare { op: _, left, right } => {
            walk_expr(left, scope, rows, k);
            walk_expr(right, scope, rows, k);
        }
    }
}

#[cycle(phrases)]
#[tactic(auto, using(crate::proofs::Walks::walks))]
fn walk_cond(c: &Cond, scope: &Scope<'_>, rows: &Rows<'_>, k: &mut Checker)
    ensures { k.new ≡ follow (scope_in scope.now) k.old (in_cond (rows_of rows.now) (plain_cond c.now)) }
{
    walk_tests(c.tests.as_slice(), scope, rows, k);
}

#[cycle(phrases)]
#[tactic(auto, using(crate::proofs::Walks::walks))]
fn walk_tests(ts: &[Test], scope: &Scope<'_>, rows: &Rows<'_>, k: &mut Checker)
    ensures { k.new ≡ follow (scope_in scope.now) k.old (in_cond (rows_of rows.now) (plain_tests ts.now)) }
{
    for t in ts {
        walk_test(t, scope, rows, k);
    }
}

#[tactic(auto, using(crate::proofs::Walks::walks))]
fn walk_values(fs: &[FieldValue], scope: &Scope<'_>, rows: &Rows<'_>, k: &mut Checker)
    ensures { k.new ≡ follow (scope_in scope.now) k.old (in_fields (rows_of rows.now) (plain_fields fs.now)) }
{
    for f in fs {
        walk_expr(&f.value, scope, rows, k);
    }
}

#[cycle(commands)]
#[tactic(auto, using(crate::proofs::Walks::walks))]
fn walk_command(
    c: &Command,
    scope: &Scope<'_>,
    rows: &Rows<'_>,
    k: &mut Checker,
) -> Result<(), Memory>
    ensures { OnOk result (k.new ≡ follow (scope_in scope.now) k.old (in_command (rows_of rows.now) (plain_command c.now))) }
{
    match c {
        Command::Skip | Command::Abort => {}
        Command::Assign { target, value } => {
            walk_expr(value, scope, rows, k);
            k.assigns(scope, rows, *target);
        }
        Command::Write { object, value } => {
            k.takes_object(scope, rows, *object);
            walk_expr(value, scope, rows, k);
        }
        Command::Print { value } => walk_expr(value, scope, rows, k),
        Command::If { test, yes, no } => {
            walk_cond(test, scope, rows, k);
            walk_command(yes, scope, rows, k)?;
            walk_command(no, scope, rows, k)?;
        }
        Command::Block { commands } => walk_commands(commands.as_slice(), scope, rows, k)?,
        Command::SetField {
            relation,
            index,
            field,
            value,
        } => {
            k.takes_relation(scope, rows, *relation);
            k.names_field(scope, rows, *relation, *field);
            walk_expr(index, scope, rows, k);
            walk_expr(value, scope, rows, k);
        }
        Command::SetRow { row, field, value } => {
            k.takes_field(scope, rows, *row, *field);
            walk_expr(value, scope, rows, k);
        }
        Command::Foreach {
            row,
            relation,
            test,
            body,
        } => {
            k.declares_row(scope, rows, *row);
            k.takes_relation(scope, rows, *relation);
            let inner = Rows::Inside {
                row: row.name,
                relation: relation.name,
                outer: &*rows,
            };
            walk_cond(test, scope, &inner, k);
            walk_commands(body.as_slice(), scope, &inner, k)?;
        }
        Command::Insert {
            relation,
            fields,
            into,
        } => {
            k.takes_relation(scope, rows, *relation);
            k.fills_fields(scope, rows, *relation, fields.as_slice())?;
            walk_values(fields.as_slice(), scope, rows, k);
            k.assigns(scope, rows, *into);
        }
        Command::Delete {
            row,
            relation,
            test,
        } => {
            k.declares_row(scope, rows, *row);
            k.takes_relation(scope, rows, *relation);
            let inner = Rows::Inside {
                row: row.name,
                relation: relation.name,
                outer: &*rows,
            };
            walk_cond(test, scope, &inner, k);
        }
        Command::Update {
            row,
            relation,
            test,
            field,
            value,
        } => {
            k.declares_row(scope, rows, *row);
            k.takes_relation(scope, rows, *relation);
            k.names_field(scope, rows, *relation, *field);
            let inner = Rows::Inside {
                row: row.name,
                relation: relation.name,
                outer: &*rows,
            };
            walk_cond(test, scope, &inner, k);
            walk_expr(value, scope, &inner, k);
        }
    }
    Ok(())
}

/// Follows the names of commands one after another.
#[cycle(commands)]
#[tactic(auto, using(crate::proofs::Walks::walks))]
pub(crate) fn walk_commands(
    cs: &[Command],
    scope: &Scope<'_>,
    rows: &Rows<'_>,
    k: &mut Checker,
) -> Result<(), Memory>
    ensures { OnOk result (k.new ≡ follow (scope_in scope.now) k.old (in_commands (rows_of rows.now) (plain_commands cs.now))) }
{
    for c in cs {
        walk_command(c, scope, rows, k)?;
    }
    Ok(())
}
