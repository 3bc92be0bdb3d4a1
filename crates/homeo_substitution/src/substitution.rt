//! Expressions and conditions with what stands at a place put in for what is read there.

ghost use Rattle.std.specs.Prelude.{◌≡◌, map, IfOk};
ghost use Rattle.homeo_syntax.specs.Low.{OfTemp, Read};
ghost use Rattle.homeo_syntax.specs.LowView.{plain_lexpr, plain_ltest, plain_lcond};
ghost use Rattle.homeo_substitution.specs.Bindings.{bound};
ghost use Rattle.homeo_substitution.specs.Shared.{plain_shared};
ghost use Rattle.homeo_substitution.specs.Substitution.{substituted, substituted_test, substituted_cond};

use crate::bindings::Bindings;
use crate::shared::Shared;
use crate::sides::side;
use homeo_split::{place_of, place_of_temp};
use homeo_syntax::{LCond, LExpr, LTest, List, Memory, SplitName, Temp};
use std::alloc::Global;
use std::rc::Rc;

/// What stands at a temporary. One that wasn't set is 0, as a call begins with it.
fn temp(put: &Bindings, t: Temp) -> Result<Shared, Memory>
    ensures { IfOk result (λ r. plain_shared r ≡ substituted (bound put.now) (OfTemp t)) }
{
    match put.at(place_of_temp(t)) {
        Some(assigned) => Ok(Shared::Same(assigned.clone()?)),
        None => Ok(Shared::Literal(0)),
    }
}

/// What stands under a split name. One that wasn't set is read.
fn read(put: &Bindings, x: SplitName) -> Result<Shared, Memory>
    ensures { IfOk result (λ r. plain_shared r ≡ substituted (bound put.now) (Read x)) }
{
    match put.at(place_of(x)) {
        Some(written) => Ok(Shared::Same(written.clone()?)),
        None => Ok(Shared::Read(x)),
    }
}

/// An expression with what stands there put in for what it reads. What is put in is shared, so that no more is made than
/// the expression has.
#[cycle(expressions)]
#[tactic(auto, using(homeo_syntax::proofs::Measures::low_expr_parts, homeo_syntax::proofs::LowViews::low_phrase_views, crate::proofs::SharedViews::views, crate::proofs::Equations::expressions))]
fn expression(alloc: Global, put: &Bindings, e: &LExpr) -> Result<Shared, Memory>
    ensures { IfOk result (λ r. plain_shared r ≡ substituted (bound put.now) (plain_lexpr e.now)) }
{
    match e {
        LExpr::Literal(n) => Ok(Shared::Literal(*n)),
        LExpr::Temp(t) => temp(put, *t),
        LExpr::Read(x) => read(put, *x),
        LExpr::Sum(es) => {
            let es = each_expression(alloc, put, es.as_slice())?;
            Ok(Shared::Sum(es))
        }
        LExpr::Product(es) => {
            let es = each_expression(alloc, put, es.as_slice())?;
            Ok(Shared::Product(es))
        }
        LExpr::Neg(e) => {
            let e = expression(alloc, put, e)?;
            Ok(Shared::Neg(Box::new(alloc, e)?))
        }
    }
}

#[cycle(expressions)]
#[tactic(auto, using(homeo_syntax::proofs::Measures::low_expr_parts, homeo_syntax::proofs::LowViews::low_phrase_views))]
fn each_expression(alloc: Global, put: &Bindings, es: &[LExpr]) -> Result<Vec<Shared>, Memory>
    ensures { IfOk result (λ r. map plain_shared r.items ≡ map (substituted (bound put.now)) (map plain_lexpr es.now)) }
{
    let mut made = Vec::with_capacity(alloc, es.len())?;
    for e in es {
        made.push(expression(alloc, put, e)?)?;
    }
    Ok(made)
}

/// A value that a place is set to, with what stands there put in for what it reads. What is put in is shared, and so is the
/// whole where it stands at another place already.
///
/// # Errors
///
/// `Memory` when out of memory.
#[tactic(auto, using(crate::proofs::SharedViews::views))]
pub fn shared_value(alloc: Global, put: &Bindings, e: &LExpr) -> Result<Rc<Shared>, Memory>
    ensures { IfOk result (λ r. plain_shared r.value ≡ substituted (bound put.now) (plain_lexpr e.now)) }
{
    match expression(alloc, put, e)? {
        Shared::Same(e) => Ok(e),
        made => Ok(Rc::new(alloc, made)?),
    }
}

/// A test with what stands there put in for what it reads. It shares nothing.
///
/// # Errors
///
/// `Memory` when out of memory.
#[cycle(conditions)]
#[tactic(auto, using(homeo_syntax::proofs::Measures::low_test_parts, homeo_syntax::proofs::LowViews::low_phrase_views, crate::proofs::Equations::conditions))]
pub fn test(alloc: Global, put: &Bindings, t: &LTest) -> Result<LTest, Memory>
    ensures { IfOk result (λ r. plain_ltest r ≡ substituted_test (bound put.now) (plain_ltest t.now)) }
{
    match t {
        LTest::True => Ok(LTest::True),
        LTest::Not(c) => {
            let c = condition(alloc, put, c)?;
            Ok(LTest::Not(c))
        }
        LTest::Compare { op, left, right } => {
            let left = side(alloc, put, left)?;
            let right = side(alloc, put, right)?;
            Ok(LTest::Compare {
                op: *op,
                left,
                right,
            })
        }
    }
}

/// A condition with what stands there put in for what it reads. It shares nothing.
///
/// # Errors
///
/// `Memory` when out of memory.
#[cycle(conditions)]
#[tactic(auto, using(homeo_syntax::proofs::Measures::low_test_parts, homeo_syntax::proofs::LowViews::low_phrase_views, crate::proofs::Equations::conditions))]
pub fn condition(alloc: Global, put: &Bindings, c: &LCond) -> Result<LCond, Memory>
    ensures { IfOk result (λ r. plain_lcond r ≡ substituted_cond (bound put.now) (plain_lcond c.now)) }
{
    let tests = each_test(alloc, put, c.tests.as_slice())?;
    Ok(LCond { tests })
}

#[cycle(conditions)]
#[tactic(auto, using(homeo_syntax::proofs::Measures::low_test_parts, homeo_syntax::proofs::LowViews::low_phrase_views))]
fn each_test(alloc: Global, put: &Bindings, ts: &[LTest]) -> Result<List<LTest>, Memory>
    ensures { IfOk result (λ r. map plain_ltest r.items ≡ map (substituted_test (bound put.now)) (map plain_ltest ts.now)) }
{
    let mut made = Vec::with_capacity(alloc, ts.len())?;
    for t in ts {
        made.push(test(alloc, put, t)?)?;
    }
    Ok(List::from_vec(made))
}
