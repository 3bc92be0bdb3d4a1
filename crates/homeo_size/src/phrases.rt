//! How large expressions and conditions are.

ghost use Rattle.std.specs.Prelude.{◌≡◌, map};
ghost use Rattle.homeo_syntax.specs.LowView.{low_exprs, low_tests, plain_lexpr, plain_ltest, plain_lcond};
ghost use Rattle.homeo_size.specs.inner.Parts.{nothing, no_factor};
ghost use Rattle.homeo_size.specs.inner.Sizing.{sized, sum_sized, product_sized, test_sized, tests_sized, cond_sized};
ghost use Rattle.homeo_size.specs.inner.Tables.{sizes_in};

use crate::extent::{
    Extent, NO_FACTOR, NOTHING, TRUTH, around, beside, compared, literal, plus, summed, times,
};
use crate::extents::Extents;
use homeo_syntax::{LCond, LExpr, LTest};

impl Extents {
    #[cycle(phrases)]
    #[tactic(auto, using(homeo_syntax::proofs::LowViews::low_phrase_views, crate::proofs::Equations::phrases))]
    pub(crate) fn expr(&self, e: &LExpr) -> Extent
        ensures { result ≡ sized (plain_lexpr e.now) (sizes_in self.now) }
    {
        match e {
            LExpr::Literal(n) => literal(*n),
            LExpr::Temp(t) => self.temp(*t),
            LExpr::Read(x) => self.name(*x),
            LExpr::Sum(es) => summed(self.sum(es.as_slice())),
            LExpr::Product(es) => around(self.product(es.as_slice())),
            LExpr::Neg(inner) => around(self.expr(inner)),
        }
    }

    #[cycle(phrases)]
    #[tactic(auto, using(crate::proofs::Equations::lists, homeo_meaning::proofs::Steps::steps))]
    fn sum(&self, es: &[LExpr]) -> Extent
        ensures { result ≡ sum_sized (low_exprs (map plain_lexpr es.now)) (sizes_in self.now) nothing }
    {
        let mut all = NOTHING;
        for e in es {
            all = plus(all, self.expr(e));
        }
        all
    }

    #[cycle(phrases)]
    #[tactic(auto, using(crate::proofs::Equations::lists, homeo_meaning::proofs::Steps::steps))]
    fn product(&self, es: &[LExpr]) -> Extent
        ensures { result ≡ product_sized (low_exprs (map plain_lexpr es.now)) (sizes_in self.now) no_factor }
    {
        let mut all = NO_FACTOR;
        for e in es {
            all = times(all, self.expr(e));
        }
        all
    }

    #[cycle(tests)]
    #[tactic(auto, using(homeo_syntax::proofs::LowViews::low_phrase_views, crate::proofs::Equations::phrases))]
    fn test(&self, t: &LTest) -> Extent
        ensures { result ≡ test_sized (plain_ltest t.now) (sizes_in self.now) }
    {
        match t {
            LTest::True => TRUTH,
            LTest::Not(c) => around(self.cond(c)),
            LTest::Compare { op: _, left, right } => compared(self.expr(left), self.expr(right)),
        }
    }

    #[cycle(tests)]
    #[tactic(auto, using(crate::proofs::Equations::lists, homeo_meaning::proofs::Steps::steps))]
    fn tests(&self, ts: &[LTest]) -> Extent
        ensures { result ≡ tests_sized (low_tests (map plain_ltest ts.now)) (sizes_in self.now) nothing }
    {
        let mut all = NOTHING;
        for t in ts {
            all = beside(all, self.test(t));
        }
        all
    }

    #[cycle(tests)]
    #[tactic(auto, using(homeo_syntax::proofs::LowViews::low_phrase_views, crate::proofs::Equations::phrases))]
    pub(crate) fn cond(&self, c: &LCond) -> Extent
        ensures { result ≡ cond_sized (plain_lcond c.now) (sizes_in self.now) }
    {
        around(self.tests(c.tests.as_slice()))
    }
}
