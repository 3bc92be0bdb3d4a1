//! An object at two sites, sums, and the object's value in a base.

ghost use Rattle.std.specs.Prelude.{◌≡◌, [], ◌∷◌};
ghost use Rattle.homeo_syntax.specs.LowView.{plain_lexpr};
ghost use Rattle.homeo_plan_tests.specs.inner.Object.{object_sum, pair_of, sum_of};

use homeo_meaning::Database;
use homeo_syntax::{LExpr, List, SplitName};
use std::alloc::Global;
use std::process::Abort;

pub(crate) fn base(rt: &impl Abort, alloc: Global, value: i64) -> Database
    ensures { result.items ≡ value ∷ [] }
{
    List::from_vec(vec![in alloc; value].expect(rt, "memory"))
}

pub(crate) fn pair(rt: &impl Abort, alloc: Global, first: LExpr, second: LExpr) -> LExpr
    ensures { plain_lexpr result ≡ pair_of (plain_lexpr first) (plain_lexpr second) }
{
    LExpr::Sum(List::from_vec(vec![in alloc; first, second].expect(rt, "memory")))
}

pub(crate) fn sum(
    rt: &impl Abort,
    alloc: Global,
    first: LExpr,
    second: LExpr,
    third: LExpr,
) -> LExpr
    ensures { plain_lexpr result ≡ sum_of (plain_lexpr first) (plain_lexpr second) (plain_lexpr third) }
{
    LExpr::Sum(List::from_vec(vec![in alloc; first, second, third].expect(rt, "memory")))
}

/// The object: its base and the deltas of both sites.
pub(crate) fn object_sum(rt: &impl Abort, alloc: Global) -> LExpr
    ensures { plain_lexpr result ≡ object_sum }
{
    sum(
        rt,
        alloc,
        LExpr::Read(SplitName::Base(0)),
        LExpr::Read(SplitName::Delta { object: 0, site: 0 }),
        LExpr::Read(SplitName::Delta { object: 0, site: 1 }),
    )
}
