//! Sides of comparisons with what stands at a place put in for what is read there. They share nothing.

ghost use Rattle.std.specs.Prelude.{◌≡◌, map, IfOk};
ghost use Rattle.homeo_syntax.specs.Low.{OfTemp, Read};
ghost use Rattle.homeo_syntax.specs.LowView.{plain_lexpr};
ghost use Rattle.homeo_substitution.specs.Bindings.{bound};
ghost use Rattle.homeo_substitution.specs.Substitution.{substituted};

use crate::bindings::Bindings;
use homeo_split::{place_of, place_of_temp};
use homeo_syntax::{LExpr, List, Memory, SplitName, Temp};
use std::alloc::Global;

/// What stands at a temporary. One that wasn't set is 0, as a call begins with it.
fn temp(alloc: Global, put: &Bindings, t: Temp) -> Result<LExpr, Memory>
    ensures { IfOk result (λ r. plain_lexpr r ≡ substituted (bound put.now) (OfTemp t)) }
{
    match put.at(place_of_temp(t)) {
        Some(assigned) => assigned.as_ref().unshared(alloc),
        None => Ok(LExpr::Literal(0)),
    }
}

/// What stands under a split name. One that wasn't set is read.
fn read(alloc: Global, put: &Bindings, x: SplitName) -> Result<LExpr, Memory>
    ensures { IfOk result (λ r. plain_lexpr r ≡ substituted (bound put.now) (Read x)) }
{
    match put.at(place_of(x)) {
        Some(written) => written.as_ref().unshared(alloc),
        None => Ok(LExpr::Read(x)),
    }
}

/// A side with what stands there put in for what it reads.
#[cycle(sides)]
#[tactic(auto, using(homeo_syntax::proofs::Measures::low_expr_parts, homeo_syntax::proofs::LowViews::low_phrase_views, crate::proofs::Equations::expressions))]
pub(crate) fn side(alloc: Global, put: &Bindings, e: &LExpr) -> Result<LExpr, Memory>
    ensures { IfOk result (λ r. plain_lexpr r ≡ substituted (bound put.now) (plain_lexpr e.now)) }
{
    match e {
        LExpr::Literal(n) => Ok(LExpr::Literal(*n)),
        LExpr::Temp(t) => temp(alloc, put, *t),
        LExpr::Read(x) => read(alloc, put, *x),
        LExpr::Sum(es) => {
            let es = each_side(alloc, put, es.as_slice())?;
            Ok(LExpr::Sum(es))
        }
        LExpr::Product(es) => {
            let es = each_side(alloc, put, es.as_slice())?;
            Ok(LExpr::Product(es))
        }
        LExpr::Neg(e) => {
            let e = side(alloc, put, e)?;
            Ok(LExpr::Neg(Box::new(alloc, e)?))
        }
    }
}

#[cycle(sides)]
#[tactic(auto, using(homeo_syntax::proofs::Measures::low_expr_parts, homeo_syntax::proofs::LowViews::low_phrase_views))]
fn each_side(alloc: Global, put: &Bindings, es: &[LExpr]) -> Result<List<LExpr>, Memory>
    ensures { IfOk result (λ r. map plain_lexpr r.items ≡ map (substituted (bound put.now)) (map plain_lexpr es.now)) }
{
    let mut made = Vec::with_capacity(alloc, es.len())?;
    for e in es {
        made.push(side(alloc, put, e)?)?;
    }
    Ok(List::from_vec(made))
}
