//! Expressions that share their parts.

ghost use Rattle.std.specs.Prelude.{◌≡◌, map, IfOk};
ghost use Rattle.homeo_syntax.specs.LowView.{plain_lexpr};
ghost use Rattle.homeo_substitution.specs.Shared.{plain_shared};

use homeo_syntax::{LExpr, List, Memory, SplitName};
use std::alloc::Global;
use std::rc::Rc;

/// An expression over split names that reads no temporary. Where an expression is put in at several places, they share it.
/// It isn't exported: crates above hold one, and don't look into it.
#[derive(Drop)]
pub enum Shared {
    Literal(i64),
    Read(SplitName),
    Sum(Vec<Shared>),
    Product(Vec<Shared>),
    Neg(Box<Shared>),
    /// The expression that is put in there.
    Same(Rc<Shared>),
}

impl Shared {
    /// Makes an equal expression that shares nothing.
    #[cycle(unshared)]
    #[tactic(auto, using(homeo_syntax::proofs::LowViews::low_phrase_views, crate::proofs::SharedViews::parts, crate::proofs::SharedViews::views))]
    pub(crate) fn unshared(&self, alloc: Global) -> Result<LExpr, Memory>
        ensures { IfOk result (λ e. plain_lexpr e ≡ plain_shared self.now) }
    {
        match self {
            Shared::Literal(n) => Ok(LExpr::Literal(*n)),
            Shared::Read(x) => Ok(LExpr::Read(*x)),
            Shared::Sum(es) => {
                let es = each_unshared(alloc, es.as_slice())?;
                Ok(LExpr::Sum(es))
            }
            Shared::Product(es) => {
                let es = each_unshared(alloc, es.as_slice())?;
                Ok(LExpr::Product(es))
            }
            Shared::Neg(e) => {
                let e = e.unshared(alloc)?;
                Ok(LExpr::Neg(Box::new(alloc, e)?))
            }
            Shared::Same(e) => e.as_ref().unshared(alloc),
        }
    }
}

#[cycle(unshared)]
#[tactic(auto, using(homeo_syntax::proofs::LowViews::low_phrase_views, crate::proofs::SharedViews::parts, crate::proofs::SharedViews::views))]
fn each_unshared(alloc: Global, es: &[Shared]) -> Result<List<LExpr>, Memory>
    ensures { IfOk result (λ r. map plain_lexpr r.items ≡ map plain_shared es.now) }
{
    let mut made = Vec::with_capacity(alloc, es.len())?;
    for e in es {
        made.push(e.unshared(alloc)?)?;
    }
    Ok(List::from_vec(made))
}
