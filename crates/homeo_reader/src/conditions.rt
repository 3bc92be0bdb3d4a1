//! Conditions, and which slots of a relation are visited.

ghost use Rattle.std.specs.Prelude.{◌≡◌, ◌<◌, ◌∷◌, option_map, IfOk, IfErr};
ghost use Rattle.homeo_syntax.specs.SourceView.{plain_test, plain_cond, tests};
ghost use Rattle.homeo_reader.specs.inner.Reading.{Gives, same, test_views, visit_view, comparison_do, test_read, next_test_read, tests_read, cond_read, visit_read};

use crate::parser::{Fault, Parser, append, list_of};
use homeo_syntax::{Compare, Cond, Ident, Mark, Test};
use std::alloc::Global;

/// `name of relation when test`, which visits the used slots where the test holds.
#[derive(Drop)]
pub(crate) struct Visit {
    /// The row, or the row's field that is added up.
    pub(crate) name: Ident,
    pub(crate) relation: Ident,
    pub(crate) test: Cond,
}

impl<'a> Parser<'a> {
    /// Takes a comparison.
    #[tactic(auto, unfolding(crate::specs::inner::Reading::comparison_do))]
    fn comparison(&mut self) -> Result<Compare, Fault>
        ensures { Gives same result self.new.rest.now (comparison_do self.old.rest.now) }
    {
        if self.takes(Mark::Less) {
            Ok(Compare::Less)
        } else if self.takes(Mark::LessEqual) {
            Ok(Compare::LessEqual)
        } else if self.takes(Mark::Equal) {
            Ok(Compare::Equal)
        } else {
            Err(Fault::Stuck)
        }
    }

    /// Takes a test.
    #[cycle(expr)]
    #[tactic(auto, using(crate::proofs::ExprSteps::test_reads, homeo_syntax::proofs::SourceViews::phrase_views), unfolding(crate::specs::inner::Reading::test_do))]
    fn test(&mut self, alloc: Global, room: u32) -> Result<Test, Fault>
        requires { 0 < room }
        ensures { Gives plain_test result self.new.rest.now (test_read room self.old.rest.now) }
    {
        if self.takes(Mark::True) {
            return Ok(Test::True);
        }
        if room <= 1 {
            return Err(Fault::Stuck);
        }
        if self.takes(Mark::Not) {
            self.expect(Mark::Open)?;
            let inner = self.cond(alloc, room - 1)?;
            self.expect(Mark::Close)?;
            return Ok(Test::Not(inner));
        }
        let left = self.expr(alloc, room - 1)?;
        let op = self.comparison()?;
        let right = self.expr(alloc, room - 1)?;
        Ok(Test::Compare { op, left, right })
    }

    /// A test after `and`, if one comes next.
    #[cycle(expr)]
    #[tactic(auto, using(crate::proofs::Lists::next_test_reads), unfolding(crate::specs::inner::Reading::next_test_do))]
    fn next_test(&mut self, alloc: Global, room: u32) -> Result<Option<Test>, Fault>
        requires { 0 < room }
        ensures { Gives (option_map plain_test) result self.new.rest.now (next_test_read room self.old.rest.now) }
    {
        if self.takes(Mark::And) {
            let test = self.test(alloc, room)?;
            Ok(Some(test))
        } else {
            Ok(None)
        }
    }

    /// The tests that go on with a condition.
    #[cycle(expr)]
    fn tests(&mut self, alloc: Global, room: u32) -> Result<Vec<Test>, Fault>
        requires { 0 < room }
        ensures { Gives (λ v. test_views v.items) result self.new.rest.now (tests_read room self.old.rest.now) }
    {
        let mut items = Vec::new(alloc);
        'more: while let Some(item) = self.next_test(alloc, room)? {
            append(&mut items, item)?;
        }
        Ok(items)
    }

    /// Takes a condition, of one test or more.
    #[cycle(expr)]
    #[tactic(auto, using(crate::proofs::ExprSteps::cond_reads), unfolding(crate::specs::inner::Reading::cond_do))]
    pub(crate) fn cond(&mut self, alloc: Global, room: u32) -> Result<Cond, Fault>
        requires { 0 < room }
        ensures { Gives plain_cond result self.new.rest.now (cond_read room self.old.rest.now) }
    {
        let first = self.test(alloc, room)?;
        let others = self.tests(alloc, room)?;
        condition(first, others)
    }

    /// Which slots are visited.
    #[cycle(expr)]
    #[tactic(auto, using(crate::proofs::ExprSteps::visit_reads), unfolding(crate::specs::inner::Reading::visit_do))]
    pub(crate) fn visit(&mut self, alloc: Global, room: u32) -> Result<Visit, Fault>
        requires { 0 < room }
        ensures { Gives visit_view result self.new.rest.now (visit_read room self.old.rest.now) }
    {
        let name = self.name()?;
        self.expect(Mark::Of)?;
        let relation = self.name()?;
        self.expect(Mark::When)?;
        let test = self.cond(alloc, room)?;
        Ok(Visit {
            name,
            relation,
            test,
        })
    }
}

/// The condition of these tests.
fn condition(first: Test, others: Vec<Test>) -> Result<Cond, Fault>
    ensures ok { IfOk result (λ c. plain_cond c ≡ tests (plain_test first ∷ test_views others.items)) }
    ensures memory { IfErr result (λ e. e ≡ Fault.Memory) }
{
    let tests = list_of(first, others)?;
    Ok(Cond { tests })
}
