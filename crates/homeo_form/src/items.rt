//! Items of sums that read a place or are numbers.

ghost use Rattle.std.specs.Prelude.{◌≡◌, map, IfSome};
ghost use Rattle.homeo_syntax.specs.Low.{Neg};
ghost use Rattle.homeo_syntax.specs.LowView.{low_exprs, plain_lexpr};
ghost use Rattle.homeo_plan.specs.Linear.{Forms, constant_form, form};
ghost use Rattle.homeo_form.specs.inner.Items.{HasFormAt, IsItem, IsPlaceAndNumber};

use crate::numbers::{negative, widened};
use homeo_split::{Place, place_of, place_of_temp};
use homeo_syntax::LExpr;

/// An item of a sum: what stands at a place, that with its sign turned, a number, or another expression.
#[derive(Clone, Copy)]
pub(crate) enum Item {
    Read(Place),
    Negated(Place),
    Number(i128),
    Other,
}

pub(crate) fn item_of(e: &LExpr) -> Item
    ensures { IsItem result (plain_lexpr e.now) }
{
    match e {
        LExpr::Literal(n) => Item::Number(widened(*n)),
        LExpr::Temp(t) => Item::Read(place_of_temp(*t)),
        LExpr::Read(x) => Item::Read(place_of(*x)),
        LExpr::Neg(part) => negated(part),
        LExpr::Sum(_) | LExpr::Product(_) => Item::Other,
    }
}

fn negated(e: &LExpr) -> Item
    ensures { IsItem result (Neg (plain_lexpr e.now)) }
{
    match e {
        LExpr::Literal(n) => Item::Number(negative(*n)),
        LExpr::Temp(t) => Item::Negated(place_of_temp(*t)),
        LExpr::Read(x) => Item::Negated(place_of(*x)),
        LExpr::Sum(_) | LExpr::Product(_) | LExpr::Neg(_) => Item::Other,
    }
}

/// The place and the number of a sum of what stands at a place and a number, in this order.
pub(crate) fn place_and_number(es: &[LExpr]) -> Option<(Place, i128)>
    ensures { IfSome result (λ r. IsPlaceAndNumber r.0 r.1 (low_exprs (map plain_lexpr es.now))) }
{
    if es.len() != 2 {
        return None;
    }
    let place = place_read(&es[0])?;
    let number = number_of(&es[1])?;
    Some((place, number))
}

/// The place whose form an expression reads.
pub(crate) fn place_read(e: &LExpr) -> Option<Place>
    ensures { IfSome result (HasFormAt (λ a. a) (plain_lexpr e.now)) }
{
    match e {
        LExpr::Temp(t) => Some(place_of_temp(*t)),
        LExpr::Read(x) => Some(place_of(*x)),
        LExpr::Literal(_) | LExpr::Sum(_) | LExpr::Product(_) | LExpr::Neg(_) => None,
    }
}

/// The number that an expression is.
pub(crate) fn number_of(e: &LExpr) -> Option<i128>
    ensures { IfSome result (λ n. (f : Forms) → form f (plain_lexpr e.now) ≡ constant_form n) }
{
    match e {
        LExpr::Literal(n) => Some(widened(*n)),
        LExpr::Neg(part) => number_negated(part),
        LExpr::Temp(_) | LExpr::Read(_) | LExpr::Sum(_) | LExpr::Product(_) => None,
    }
}

fn number_negated(e: &LExpr) -> Option<i128>
    ensures { IfSome result (λ n. (f : Forms) → form f (Neg (plain_lexpr e.now)) ≡ constant_form n) }
{
    match e {
        LExpr::Literal(n) => Some(negative(*n)),
        _ => None,
    }
}
