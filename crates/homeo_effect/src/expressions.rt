//! Expressions at a site, on a base that stays.

ghost use Rattle.std.specs.Prelude.{◌≡◌, pos, All, map, IfOk};
ghost use Rattle.homeo_syntax.specs.LowView.{low_exprs, plain_lexpr};
ghost use Rattle.homeo_meaning.specs.Serial.{values_of};
ghost use Rattle.homeo_effect.specs.Localized.{literal_sum, literal_product, summed, multiplied, negated, local_read, local_expr};
ghost use Rattle.homeo_effect.specs.inner.Literals.{literal_of};
ghost use Rattle.homeo_effect.specs.inner.Alone.{Fits, SumFits, ProductFits, NegationFits};

use homeo_meaning::padded::item_or;
use homeo_split::{minus, plus, times};
use homeo_syntax::{LExpr, List, Memory, SplitName};
use std::alloc::Global;

/// The number that a literal is.
#[tactic(auto, using(homeo_syntax::proofs::LowViews::low_phrase_views), unfolding(crate::specs::Key::definitions))]
fn literal_of(e: &LExpr) -> Option<i64>
    ensures { result ≡ literal_of (plain_lexpr e.now) }
{
    match e {
        LExpr::Literal(n) => Some(*n),
        LExpr::Temp(_) => None,
        LExpr::Read(_) => None,
        LExpr::Sum(_) => None,
        LExpr::Product(_) => None,
        LExpr::Neg(_) => None,
    }
}

/// The sum of the terms, where each is a literal.
fn sum_of_literals(terms: &[LExpr]) -> Option<i64>
    requires { SumFits (pos 0) (low_exprs (map plain_lexpr terms.now)) }
    ensures { result ≡ literal_sum (pos 0) (low_exprs (map plain_lexpr terms.now)) }
{
    let mut sum = 0;
    for term in terms {
        match literal_of(term) {
            Some(n) => sum = plus(sum, n),
            None => return None,
        }
    }
    Some(sum)
}

/// The product of the factors, where each is a literal.
fn product_of_literals(factors: &[LExpr]) -> Option<i64>
    requires { ProductFits (pos 1) (low_exprs (map plain_lexpr factors.now)) }
    ensures { result ≡ literal_product (pos 1) (low_exprs (map plain_lexpr factors.now)) }
{
    let mut product = 1;
    for factor in factors {
        match literal_of(factor) {
            Some(n) => product = times(product, n),
            None => return None,
        }
    }
    Some(product)
}

/// What is read: a number of the base, an own delta, or 0.
#[tactic(auto, using(homeo_syntax::proofs::LowViews::low_phrase_views), unfolding(crate::specs::Key::definitions))]
fn local_read(base: &[i64], site: u32, name: SplitName) -> LExpr
    ensures { plain_lexpr result ≡ local_read (values_of base.now) site name }
{
    match name {
        SplitName::Whole(object) => LExpr::Literal(item_or(base, object as usize, 0)),
        SplitName::Base(object) => LExpr::Literal(item_or(base, object as usize, 0)),
        SplitName::Delta {
            object: _,
            site: at,
        } => {
            if at == site {
                LExpr::Read(name)
            } else {
                LExpr::Literal(0)
            }
        }
    }
}

/// The terms as one literal, or as their sum.
#[tactic(auto, using(homeo_syntax::proofs::LowViews::low_phrase_views, crate::proofs::Equations::literals))]
fn summed(terms: List<LExpr>) -> LExpr
    requires { SumFits (pos 0) (low_exprs (map plain_lexpr terms.items)) }
    ensures { plain_lexpr result ≡ summed (low_exprs (map plain_lexpr terms.items)) }
{
    match sum_of_literals(terms.as_slice()) {
        Some(n) => LExpr::Literal(n),
        None => LExpr::Sum(terms),
    }
}

/// The factors as one literal, or as their product.
#[tactic(auto, using(homeo_syntax::proofs::LowViews::low_phrase_views, crate::proofs::Equations::literals))]
fn multiplied(factors: List<LExpr>) -> LExpr
    requires { ProductFits (pos 1) (low_exprs (map plain_lexpr factors.items)) }
    ensures { plain_lexpr result ≡ multiplied (low_exprs (map plain_lexpr factors.items)) }
{
    match product_of_literals(factors.as_slice()) {
        Some(n) => LExpr::Literal(n),
        None => LExpr::Product(factors),
    }
}

fn negated(alloc: Global, e: LExpr) -> Result<LExpr, Memory>
    requires { NegationFits (plain_lexpr e) }
    ensures { IfOk result (λ d. plain_lexpr d ≡ negated (plain_lexpr e)) }
{
    match literal_of(&e) {
        Some(n) => Ok(LExpr::Literal(minus(n))),
        None => Ok(LExpr::Neg(Box::new(alloc, e)?)),
    }
}

/// An expression with all that is fixed at the site put in.
#[cycle(expressions)]
#[tactic(auto, using(homeo_syntax::proofs::LowViews::low_phrase_views, crate::proofs::Equations::phrases))]
pub(crate) fn local_expr(alloc: Global, base: &[i64], site: u32, e: &LExpr) -> Result<LExpr, Memory>
    requires { Fits (values_of base.now) site (plain_lexpr e.now) }
    ensures { IfOk result (λ d. plain_lexpr d ≡ local_expr (values_of base.now) site (plain_lexpr e.now)) }
{
    match e {
        LExpr::Literal(n) => Ok(LExpr::Literal(*n)),
        LExpr::Temp(t) => Ok(LExpr::Temp(*t)),
        LExpr::Read(x) => Ok(local_read(base, site, *x)),
        LExpr::Sum(es) => {
            let terms = local_exprs(alloc, base, site, es.as_slice())?;
            Ok(summed(terms))
        }
        LExpr::Product(es) => {
            let factors = local_exprs(alloc, base, site, es.as_slice())?;
            Ok(multiplied(factors))
        }
        LExpr::Neg(e) => {
            let e = local_expr(alloc, base, site, e)?;
            negated(alloc, e)
        }
    }
}

#[cycle(expressions)]
#[tactic(auto, using(homeo_syntax::proofs::LowViews::low_phrase_views, crate::proofs::Equations::phrases))]
fn local_exprs(alloc: Global, base: &[i64], site: u32, es: &[LExpr]) -> Result<List<LExpr>, Memory>
    requires { All (λ e. Fits (values_of base.now) site (plain_lexpr e)) es.now }
    ensures { IfOk result (λ ds. map plain_lexpr ds.items ≡ map (local_expr (values_of base.now) site) (map plain_lexpr es.now)) }
{
    let mut local = List::new(alloc);
    for e in es {
        local.push(local_expr(alloc, base, site, e)?)?;
    }
    Ok(local)
}
