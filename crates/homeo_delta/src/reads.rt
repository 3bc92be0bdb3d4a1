//! Expressions and conditions in which each object is read as its base plus its deltas.

ghost use Rattle.std.specs.Prelude.{◌≡◌, map, IfOk};
ghost use Rattle.homeo_syntax.specs.LowView.{plain_lexpr, plain_ltest, plain_lcond};
ghost use Rattle.homeo_plan.specs.Split.{shift_read, shift_expr, shift_test, shift_cond};

use homeo_syntax::{LCond, LExpr, LTest, List, Memory, SplitName};
use std::alloc::Global;

#[tactic(auto, using(crate::proofs::DeltaReads::reads))]
fn shift_read(alloc: Global, name: SplitName, sites: u32) -> Result<LExpr, Memory>
    ensures { IfOk result (λ e. plain_lexpr e ≡ shift_read sites name) }
{
    match name {
        SplitName::Whole(object) => {
            let mut terms = Vec::with_capacity(alloc, sites as usize + 1)?;
            terms.push(LExpr::Read(SplitName::Base(object)))?;
            for site in 0..sites {
                terms.push(LExpr::Read(SplitName::Delta { object, site }))?;
            }
            Ok(LExpr::Sum(List::from_vec(terms)))
        }
        SplitName::Base(_) | SplitName::Delta { .. } => Ok(LExpr::Read(name)),
    }
}

/// An expression with each of its reads shifted.
#[cycle(expressions)]
#[tactic(auto, using(homeo_syntax::proofs::LowViews::low_phrase_views, crate::proofs::Shifts::phrases))]
pub(crate) fn shift_expr(alloc: Global, e: &LExpr, sites: u32) -> Result<LExpr, Memory>
    ensures { IfOk result (λ d. plain_lexpr d ≡ shift_expr sites (plain_lexpr e.now)) }
{
    match e {
        LExpr::Literal(n) => Ok(LExpr::Literal(*n)),
        LExpr::Temp(t) => Ok(LExpr::Temp(*t)),
        LExpr::Read(x) => shift_read(alloc, *x, sites),
        LExpr::Sum(es) => {
            let es = shift_exprs(alloc, es.as_slice(), sites)?;
            Ok(LExpr::Sum(es))
        }
        LExpr::Product(es) => {
            let es = shift_exprs(alloc, es.as_slice(), sites)?;
            Ok(LExpr::Product(es))
        }
        LExpr::Neg(e) => {
            let e = shift_expr(alloc, e, sites)?;
            Ok(LExpr::Neg(Box::new(alloc, e)?))
        }
    }
}

#[cycle(expressions)]
fn shift_exprs(alloc: Global, es: &[LExpr], sites: u32) -> Result<List<LExpr>, Memory>
    ensures { IfOk result (λ ds. map plain_lexpr ds.items ≡ map (shift_expr sites) (map plain_lexpr es.now)) }
{
    let mut shifted = Vec::with_capacity(alloc, es.len())?;
    for e in es {
        shifted.push(shift_expr(alloc, e, sites)?)?;
    }
    Ok(List::from_vec(shifted))
}

#[cycle(conditions)]
#[tactic(auto, using(homeo_syntax::proofs::LowViews::low_phrase_views, crate::proofs::Shifts::phrases))]
fn shift_test(alloc: Global, t: &LTest, sites: u32) -> Result<LTest, Memory>
    ensures { IfOk result (λ d. plain_ltest d ≡ shift_test sites (plain_ltest t.now)) }
{
    match t {
        LTest::True => Ok(LTest::True),
        LTest::Not(c) => {
            let c = shift_cond(alloc, c, sites)?;
            Ok(LTest::Not(c))
        }
        LTest::Compare { op, left, right } => {
            let left = shift_expr(alloc, left, sites)?;
            let right = shift_expr(alloc, right, sites)?;
            Ok(LTest::Compare {
                op: *op,
                left,
                right,
            })
        }
    }
}

/// A condition with each of its reads shifted.
#[cycle(conditions)]
#[tactic(auto, using(homeo_syntax::proofs::LowViews::low_phrase_views, crate::proofs::Shifts::phrases))]
pub(crate) fn shift_cond(alloc: Global, c: &LCond, sites: u32) -> Result<LCond, Memory>
    ensures { IfOk result (λ d. plain_lcond d ≡ shift_cond sites (plain_lcond c.now)) }
{
    let tests = shift_tests(alloc, c.tests.as_slice(), sites)?;
    Ok(LCond { tests })
}

#[cycle(conditions)]
fn shift_tests(alloc: Global, ts: &[LTest], sites: u32) -> Result<List<LTest>, Memory>
    ensures { IfOk result (λ ds. map plain_ltest ds.items ≡ map (shift_test sites) (map plain_ltest ts.now)) }
{
    let mut shifted = Vec::with_capacity(alloc, ts.len())?;
    for t in ts {
        shifted.push(shift_test(alloc, t, sites)?)?;
    }
    Ok(List::from_vec(shifted))
}
