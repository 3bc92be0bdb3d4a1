//! The tokens of expressions and conditions.
#![tactic(auto, using(crate::proofs::PhraseSteps::phrase_steps))]

ghost use Rattle.std.specs.Prelude.{◌≡◌, ◌++◌, map, OnOk};
ghost use Rattle.homeo_syntax.specs.SourceView.{exprs, plain_expr, plain_test, plain_cond};
ghost use Rattle.homeo_print_workload.specs.TokensOf.{comparison_mark, sum_kinds, product_kinds, test_kinds, cond_kinds};
ghost use Rattle.homeo_print_workload.specs.inner.Walk.{expr_in, sign_of, row_field, chosen_of};

use crate::pieces::Pieces;
use homeo_print::Position;
use homeo_syntax::{Compare, Cond, Expr, Ident, Mark, Memory, Test};

#[tactic(auto, unfolding(crate::specs::Key::definitions))]
fn comparison_mark(op: Compare) -> Mark
    ensures mark { result ≡ comparison_mark op }
{
    match op {
        Compare::Less => Mark::Less,
        Compare::LessEqual => Mark::LessEqual,
        Compare::Equal => Mark::Equal,
    }
}

/// The sign of a term that stands behind another.
fn sign_of(e: &Expr) -> Mark
    ensures sign { result ≡ sign_of (plain_expr e.now) }
{
    match e {
        Expr::Neg(_) => Mark::Minus,
        Expr::Literal(_)
        | Expr::Name(_)
        | Expr::Read(_)
        | Expr::Sum(_)
        | Expr::Product(_)
        | Expr::Field { .. }
        | Expr::Row { .. }
        | Expr::Count { .. }
        | Expr::Total { .. } => Mark::Plus,
    }
}

/// Puts `row.field` behind the tokens.
#[tactic(auto, unfolding(crate::specs::Key::definitions))]
pub(crate) fn push_row_field(out: &mut Pieces, row: Ident, field: Ident) -> Result<(), Memory>
    ensures pushed { OnOk result (out.new ≡ out.old ++ row_field row field) }
{
    out.name(row)?;
    out.mark(Mark::Dot)?;
    out.name(field)
}

/// Puts `of relation when` behind the tokens.
#[tactic(auto, unfolding(crate::specs::Key::definitions))]
pub(crate) fn push_chosen_of(out: &mut Pieces, relation: Ident) -> Result<(), Memory>
    ensures pushed { OnOk result (out.new ≡ out.old ++ chosen_of relation) }
{
    out.mark(Mark::Of)?;
    out.name(relation)?;
    out.mark(Mark::When)
}

/// Puts an expression that stands at a position behind the tokens.
#[cycle(phrases)]
pub(crate) fn push_expr(out: &mut Pieces, e: &Expr, position: Position) -> Result<(), Memory>
    ensures pushed { OnOk result (out.new ≡ out.old ++ expr_in position (plain_expr e.now)) }
{
    match e {
        Expr::Literal(n) => out.value(*n),
        Expr::Name(x) => out.name(*x),
        Expr::Read(x) => {
            out.mark(Mark::Read)?;
            out.mark(Mark::Open)?;
            out.name(*x)?;
            out.mark(Mark::Close)
        }
        Expr::Sum(es) => match position {
            Position::Alone => push_sum(out, es.as_slice()),
            Position::AsTerm | Position::AsFactor | Position::Signed => {
                out.mark(Mark::Open)?;
                push_sum(out, es.as_slice())?;
                out.mark(Mark::Close)
            }
        },
        Expr::Product(es) => match position {
            Position::Alone | Position::AsTerm | Position::Signed => push_product(
                out,
                es.as_slice(),
            ),
            Position::AsFactor => {
                out.mark(Mark::Open)?;
                push_product(out, es.as_slice())?;
                out.mark(Mark::Close)
            }
        },
        Expr::Neg(inner) => match position {
            Position::Alone | Position::AsTerm | Position::AsFactor => {
                out.mark(Mark::Minus)?;
                push_expr(out, inner, Position::AsFactor)
            }
            Position::Signed => push_expr(out, inner, Position::AsTerm),
        },
        Expr::Field {
            relation,
            index,
            field,
        } => {
            out.name(*relation)?;
            out.mark(Mark::OpenBracket)?;
            push_expr(out, index, Position::Alone)?;
            out.mark(Mark::CloseBracket)?;
            out.mark(Mark::Dot)?;
            out.name(*field)
        }
        Expr::Row { row, field } => push_row_field(out, *row, *field),
        Expr::Count {
            row,
            relation,
            test,
        } => {
            out.mark(Mark::Count)?;
            out.mark(Mark::Open)?;
            out.name(*row)?;
            push_chosen_of(out, *relation)?;
            push_cond(out, test)?;
            out.mark(Mark::Close)
        }
        Expr::Total {
            row,
            field,
            relation,
            test,
        } => {
            out.mark(Mark::Sum)?;
            out.mark(Mark::Open)?;
            push_row_field(out, *row, *field)?;
            push_chosen_of(out, *relation)?;
            push_cond(out, test)?;
            out.mark(Mark::Close)
        }
    }
}

#[cycle(phrases)]
fn push_sum(out: &mut Pieces, es: &[Expr]) -> Result<(), Memory>
    ensures pushed { OnOk result (out.new ≡ out.old ++ sum_kinds (exprs (map plain_expr es.now))) }
{
    match es {
        [] => Ok(()),
        [first, more @ ..] => {
            push_expr(out, first, Position::AsTerm)?;
            for e in more {
                out.mark(sign_of(e))?;
                push_expr(out, e, Position::Signed)?;
            }
            Ok(())
        }
    }
}

#[cycle(phrases)]
fn push_product(out: &mut Pieces, es: &[Expr]) -> Result<(), Memory>
    ensures pushed { OnOk result (out.new ≡ out.old ++ product_kinds (exprs (map plain_expr es.now))) }
{
    match es {
        [] => Ok(()),
        [first, more @ ..] => {
            push_expr(out, first, Position::AsFactor)?;
            for e in more {
                out.mark(Mark::Star)?;
                push_expr(out, e, Position::AsFactor)?;
            }
            Ok(())
        }
    }
}

#[cycle(phrases)]
fn push_test(out: &mut Pieces, t: &Test) -> Result<(), Memory>
    ensures pushed { OnOk result (out.new ≡ out.old ++ test_kinds (plain_test t.now)) }
{
    match t {
        Test::True => out.mark(Mark::True),
        Test::Not(c) => {
            out.mark(Mark::Not)?;
            out.mark(Mark::Open)?;
            push_cond(out, c)?;
            out.mark(Mark::Close)
        }
        Test::Compare { op, left, right } => {
            push_expr(out, left, Position::Alone)?;
            out.mark(comparison_mark(*op))?;
            push_expr(out, right, Position::Alone)
        }
    }
}

/// Puts a condition behind the tokens.
#[cycle(phrases)]
pub(crate) fn push_cond(out: &mut Pieces, c: &Cond) -> Result<(), Memory>
    ensures pushed { OnOk result (out.new ≡ out.old ++ cond_kinds (plain_cond c.now)) }
{
    match c.tests.as_slice() {
        [] => Ok(()),
        [first, more @ ..] => {
            push_test(out, first)?;
            for t in more {
                out.mark(Mark::And)?;
                push_test(out, t)?;
            }
            Ok(())
        }
    }
}
