//! The texts of expressions and conditions over split names.

ghost use Rattle.std.specs.Prelude.{◌≡◌, ◌++◌, map, OnOk};
ghost use Rattle.homeo_syntax.specs.SourceView.{plain_workload};
ghost use Rattle.homeo_syntax.specs.LowView.{low_exprs, low_tests, plain_lexpr, plain_ltest, plain_lcond};
ghost use Rattle.homeo_print.specs.Names.{object_names};
ghost use Rattle.homeo_print.specs.Tables.{temp_text, split_name_text, sum_text, product_text, comparison_text, test_text, cond_text};
ghost use Rattle.homeo_print.specs.inner.Walk.{expr_text_in, sign_text};

use crate::append::{push_byte, push_bytes, push_number, push_signed};
use crate::calls::name_of;
use crate::objects::ObjectNames;
use crate::position::Position;
use homeo_syntax::{Compare, Ident, LCond, LExpr, LTest, Memory, SplitName, Temp, Workload};

/// Appends a temporary.
#[tactic(auto, unfolding(crate::specs::Key::definitions))]
pub(crate) fn push_temp(out: &mut Vec<u8>, w: &Workload, t: Temp) -> Result<(), Memory>
    ensures { OnOk result (out.new.items ≡ out.old.items ++ temp_text (plain_workload w.now) t) }
{
    match t {
        Temp::Named(name) => push_bytes(out, name_of(w, Ident { name, offset: 0 })),
        Temp::Fresh(number) => {
            push_bytes(out, b"$")?;
            push_number(out, number as u64)
        }
    }
}

/// Appends a split name.
#[tactic(auto, using(crate::proofs::FormulaSteps::name_steps))]
pub(crate) fn push_split_name(
    out: &mut Vec<u8>,
    w: &Workload,
    objects: &ObjectNames,
    x: SplitName,
) -> Result<(), Memory>
    requires named { objects.now ≡ object_names (plain_workload w.now) }
    ensures { OnOk result (out.new.items ≡ out.old.items ++ split_name_text (plain_workload w.now) x) }
{
    match x {
        SplitName::Whole(object) => push_bytes(out, objects.get(object as usize)),
        SplitName::Base(object) => {
            push_bytes(out, b"base(")?;
            push_bytes(out, objects.get(object as usize))?;
            push_bytes(out, b")")
        }
        SplitName::Delta { object, site } => {
            push_bytes(out, objects.get(object as usize))?;
            push_byte(out, b'@')?;
            push_number(out, site as u64)
        }
    }
}

/// What stands in front of a term behind another.
#[tactic(auto, using(homeo_syntax::proofs::LowViews::low_phrase_views, crate::proofs::FormulaSteps::signs))]
fn sign_of(e: &LExpr) -> &'static [u8]
    ensures { result.now ≡ sign_text (plain_lexpr e.now) }
{
    match e {
        LExpr::Neg(_) => b" - ",
        LExpr::Literal(_) | LExpr::Temp(_) | LExpr::Read(_) | LExpr::Sum(_) | LExpr::Product(_) =>
            b" + ",
    }
}

/// Appends an expression that stands at a position.
#[cycle(expressions)]
#[tactic(auto, using(homeo_syntax::proofs::Measures::low_expr_parts, homeo_syntax::proofs::LowViews::low_phrase_views, crate::proofs::FormulaSteps::expression_steps))]
pub(crate) fn push_expr(
    out: &mut Vec<u8>,
    w: &Workload,
    objects: &ObjectNames,
    e: &LExpr,
    position: Position,
) -> Result<(), Memory>
    requires named { objects.now ≡ object_names (plain_workload w.now) }
    ensures { OnOk result (out.new.items
        ≡ out.old.items ++ expr_text_in (plain_workload w.now) position (plain_lexpr e.now)) }
{
    match e {
        LExpr::Literal(n) => push_signed(out, *n),
        LExpr::Temp(t) => push_temp(out, w, *t),
        LExpr::Read(x) => push_split_name(out, w, objects, *x),
        LExpr::Sum(es) => match position {
            Position::Alone => push_sum(out, w, objects, es.as_slice()),
            Position::AsTerm | Position::AsFactor | Position::Signed => {
                push_bytes(out, b"(")?;
                push_sum(out, w, objects, es.as_slice())?;
                push_bytes(out, b")")
            }
        },
        LExpr::Product(es) => match position {
            Position::Alone | Position::AsTerm | Position::Signed => push_product(
                out,
                w,
                objects,
                es.as_slice(),
            ),
            Position::AsFactor => {
                push_bytes(out, b"(")?;
                push_product(out, w, objects, es.as_slice())?;
                push_bytes(out, b")")
            }
        },
        LExpr::Neg(inner) => match position {
            Position::Alone | Position::AsTerm | Position::AsFactor => {
                push_bytes(out, b"-")?;
                push_expr(out, w, objects, inner, Position::AsFactor)
            }
            Position::Signed => push_expr(out, w, objects, inner, Position::AsTerm),
        },
    }
}

#[cycle(expressions)]
#[tactic(auto, using(homeo_syntax::proofs::Measures::low_expr_parts, homeo_syntax::proofs::LowViews::low_phrase_views, crate::proofs::FormulaSteps::expression_steps))]
fn push_sum(
    out: &mut Vec<u8>,
    w: &Workload,
    objects: &ObjectNames,
    es: &[LExpr],
) -> Result<(), Memory>
    requires named { objects.now ≡ object_names (plain_workload w.now) }
    ensures { OnOk result (out.new.items
        ≡ out.old.items ++ sum_text (plain_workload w.now) (low_exprs (map plain_lexpr es.now))) }
{
    match es {
        [] => Ok(()),
        [first, more @ ..] => {
            push_expr(out, w, objects, first, Position::AsTerm)?;
            for e in more {
                push_bytes(out, sign_of(e))?;
                push_expr(out, w, objects, e, Position::Signed)?;
            }
            Ok(())
        }
    }
}

#[cycle(expressions)]
#[tactic(auto, using(homeo_syntax::proofs::Measures::low_expr_parts, homeo_syntax::proofs::LowViews::low_phrase_views, crate::proofs::FormulaSteps::expression_steps))]
fn push_product(
    out: &mut Vec<u8>,
    w: &Workload,
    objects: &ObjectNames,
    es: &[LExpr],
) -> Result<(), Memory>
    requires named { objects.now ≡ object_names (plain_workload w.now) }
    ensures { OnOk result (out.new.items
        ≡ out.old.items ++ product_text (plain_workload w.now) (low_exprs (map plain_lexpr es.now))) }
{
    match es {
        [] => Ok(()),
        [first, more @ ..] => {
            push_expr(out, w, objects, first, Position::AsFactor)?;
            for e in more {
                push_bytes(out, b" * ")?;
                push_expr(out, w, objects, e, Position::AsFactor)?;
            }
            Ok(())
        }
    }
}

#[tactic(auto, using(crate::proofs::FormulaSteps::comparisons))]
fn comparison_text(op: Compare) -> &'static [u8]
    ensures { result.now ≡ comparison_text op }
{
    match op {
        Compare::Less => b" < ",
        Compare::LessEqual => b" <= ",
        Compare::Equal => b" = ",
    }
}

#[cycle(conditions)]
#[tactic(auto, using(homeo_syntax::proofs::Measures::low_test_parts, homeo_syntax::proofs::LowViews::low_phrase_views, crate::proofs::FormulaSteps::condition_steps))]
fn push_test(
    out: &mut Vec<u8>,
    w: &Workload,
    objects: &ObjectNames,
    t: &LTest,
) -> Result<(), Memory>
    requires named { objects.now ≡ object_names (plain_workload w.now) }
    ensures { OnOk result (out.new.items
        ≡ out.old.items ++ test_text (plain_workload w.now) (plain_ltest t.now)) }
{
    match t {
        LTest::True => push_bytes(out, b"true"),
        LTest::Not(c) => {
            push_bytes(out, b"not (")?;
            push_cond(out, w, objects, c)?;
            push_bytes(out, b")")
        }
        LTest::Compare { op, left, right } => {
            push_expr(out, w, objects, left, Position::Alone)?;
            push_bytes(out, comparison_text(*op))?;
            push_expr(out, w, objects, right, Position::Alone)
        }
    }
}

/// Appends a condition.
#[cycle(conditions)]
#[tactic(auto, using(homeo_syntax::proofs::Measures::low_test_parts, homeo_syntax::proofs::LowViews::low_phrase_views, crate::proofs::FormulaSteps::condition_steps))]
fn push_cond(
    out: &mut Vec<u8>,
    w: &Workload,
    objects: &ObjectNames,
    c: &LCond,
) -> Result<(), Memory>
    requires named { objects.now ≡ object_names (plain_workload w.now) }
    ensures { OnOk result (out.new.items
        ≡ out.old.items ++ cond_text (plain_workload w.now) (plain_lcond c.now)) }
{
    push_tests(out, w, objects, c.tests.as_slice())
}

/// Appends the condition of these tests.
#[cycle(conditions)]
#[tactic(auto, using(homeo_syntax::proofs::Measures::low_test_parts, homeo_syntax::proofs::LowViews::low_phrase_views, crate::proofs::FormulaSteps::condition_steps))]
pub(crate) fn push_tests(
    out: &mut Vec<u8>,
    w: &Workload,
    objects: &ObjectNames,
    tests: &[LTest],
) -> Result<(), Memory>
    requires named { objects.now ≡ object_names (plain_workload w.now) }
    ensures { OnOk result (out.new.items
        ≡ out.old.items ++ cond_text (plain_workload w.now) (low_tests (map plain_ltest tests.now))) }
{
    match tests {
        [] => {
            push_bytes(out, b"true")?;
            Ok(())
        }
        [first, more @ ..] => {
            push_test(out, w, objects, first)?;
            for t in more {
                push_bytes(out, b" and ")?;
                push_test(out, w, objects, t)?;
            }
            Ok(())
        }
    }
}
