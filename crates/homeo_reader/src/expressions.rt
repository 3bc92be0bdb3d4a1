//! Expressions. A room says how much deeper phrases may go.

ghost use Rattle.std.specs.Prelude.{◌≡◌, ◌<◌, [], ◌∷◌, option_map, IfOk, IfErr};
ghost use Rattle.homeo_syntax.specs.Source as s;
ghost use Rattle.homeo_syntax.specs.SourceView.{plain_expr};
ghost use Rattle.homeo_reader.specs.inner.Reading.{Gives, with_front, expr_views, field_rest, after_name_read, count_rest, total_rest, factor_read, next_factor_read, factors_read, term_read, next_term_read, terms_read, expr_read};

use crate::conditions::Visit;
use crate::parser::{Fault, Parser, pair};
use homeo_syntax::{Expr, Ident, Kind, List, Mark};
use std::alloc::Global;

impl<'a> Parser<'a> {
    /// Takes a factor.
    #[cycle(expr)]
    #[tactic(auto, using(crate::proofs::ExprSteps::factor_reads, homeo_syntax::proofs::SourceViews::phrase_views), unfolding(crate::specs::inner::Reading::factor_do, crate::specs::inner::Reading::factor_by))]
    fn factor(&mut self, alloc: Global, room: u32) -> Result<Expr, Fault>
        requires { 0 < room }
        ensures { Gives plain_expr result self.new.rest.now (factor_read room self.old.rest.now) }
    {
        let Some((t, rest)) = self.rest.split_first() else {
            return Err(Fault::Stuck);
        };
        match t.kind {
            Kind::Number(value) => {
                self.rest = rest;
                Ok(Expr::Literal(value))
            }
            Kind::Name(_) => {
                let name = self.name()?;
                self.after_name(alloc, name, room - 1)
            }
            Kind::Fixed(Mark::Read) => {
                self.rest = rest;
                self.expect(Mark::Open)?;
                let name = self.name()?;
                self.expect(Mark::Close)?;
                Ok(Expr::Read(name))
            }
            Kind::Fixed(Mark::Minus) if room > 1 => {
                self.rest = rest;
                let inner = self.factor(alloc, room - 1)?;
                negated(alloc, inner)
            }
            Kind::Fixed(Mark::Open) if room > 1 => {
                self.rest = rest;
                let inner = self.expr(alloc, room - 1)?;
                self.expect(Mark::Close)?;
                Ok(inner)
            }
            Kind::Fixed(Mark::Count) if room > 1 => {
                self.rest = rest;
                self.count_after_word(alloc, room - 1)
            }
            Kind::Fixed(Mark::Sum) if room > 1 => {
                self.rest = rest;
                self.total_after_word(alloc, room - 1)
            }
            _ => Err(Fault::Stuck),
        }
    }

    /// The expression of a name, with what stands behind it. No index stands where no phrase may go deeper.
    #[cycle(expr)]
    #[tactic(auto, using(crate::proofs::ExprSteps::after_name_reads, homeo_syntax::proofs::SourceViews::phrase_views), unfolding(crate::specs::inner::Reading::after_name_do, crate::specs::inner::Reading::after_name_by))]
    fn after_name(&mut self, alloc: Global, name: Ident, room: u32) -> Result<Expr, Fault>
        ensures { Gives plain_expr result self.new.rest.now (after_name_read room name self.old.rest.now) }
    {
        let Some((t, rest)) = self.rest.split_first() else {
            return Ok(Expr::Name(name));
        };
        match t.kind {
            Kind::Fixed(Mark::OpenBracket) if room > 0 => {
                self.rest = rest;
                self.field_after_bracket(alloc, name, room)
            }
            Kind::Fixed(Mark::Dot) => {
                self.rest = rest;
                let field = self.name()?;
                Ok(Expr::Row { row: name, field })
            }
            _ => Ok(Expr::Name(name)),
        }
    }

    /// What follows a relation and `[`.
    #[cycle(expr)]
    #[tactic(auto, unfolding(crate::specs::inner::Reading::field_rest))]
    fn field_after_bracket(
        &mut self,
        alloc: Global,
        relation: Ident,
        room: u32,
    ) -> Result<Expr, Fault>
        requires { 0 < room }
        ensures { Gives plain_expr result self.new.rest.now (field_rest room relation self.old.rest.now) }
    {
        let index = self.expr(alloc, room)?;
        self.expect(Mark::CloseBracket)?;
        self.expect(Mark::Dot)?;
        let field = self.name()?;
        field_of(alloc, relation, index, field)
    }

    /// What follows `count`.
    #[cycle(expr)]
    #[tactic(auto, using(homeo_syntax::proofs::SourceViews::phrase_views), unfolding(crate::specs::inner::Reading::count_rest))]
    fn count_after_word(&mut self, alloc: Global, room: u32) -> Result<Expr, Fault>
        requires { 0 < room }
        ensures { Gives plain_expr result self.new.rest.now (count_rest room self.old.rest.now) }
    {
        self.expect(Mark::Open)?;
        let Visit {
            name,
            relation,
            test,
        } = self.visit(alloc, room)?;
        self.expect(Mark::Close)?;
        let test = Box::new(alloc, test)?;
        Ok(Expr::Count {
            row: name,
            relation,
            test,
        })
    }

    /// What follows `sum`.
    #[cycle(expr)]
    #[tactic(auto, using(homeo_syntax::proofs::SourceViews::phrase_views), unfolding(crate::specs::inner::Reading::total_rest))]
    fn total_after_word(&mut self, alloc: Global, room: u32) -> Result<Expr, Fault>
        requires { 0 < room }
        ensures { Gives plain_expr result self.new.rest.now (total_rest room self.old.rest.now) }
    {
        self.expect(Mark::Open)?;
        let row = self.name()?;
        self.expect(Mark::Dot)?;
        let Visit {
            name,
            relation,
            test,
        } = self.visit(alloc, room)?;
        self.expect(Mark::Close)?;
        let test = Box::new(alloc, test)?;
        Ok(Expr::Total {
            row,
            field: name,
            relation,
            test,
        })
    }

    /// A factor after a star, if one comes next.
    #[cycle(expr)]
    #[tactic(auto, using(crate::proofs::Lists::next_factor_reads), unfolding(crate::specs::inner::Reading::next_factor_do))]
    fn next_factor(&mut self, alloc: Global, room: u32) -> Result<Option<Expr>, Fault>
        requires { 0 < room }
        ensures { Gives (option_map plain_expr) result self.new.rest.now (next_factor_read room self.old.rest.now) }
    {
        if self.takes(Mark::Star) {
            let factor = self.factor(alloc, room)?;
            Ok(Some(factor))
        } else {
            Ok(None)
        }
    }

    /// These factors, and those that go on with the product.
    #[cycle(expr)]
    fn factors(
        &mut self,
        alloc: Global,
        room: u32,
        first: Expr,
        second: Expr,
    ) -> Result<List<Expr>, Fault>
        requires { 0 < room }
        ensures { Gives (λ l. expr_views l.items) result self.new.rest.now (with_front (plain_expr first ∷ plain_expr second ∷ []) (factors_read room self.old.rest.now)) }
    {
        let mut items = pair(alloc, first, second)?;
        'more: while let Some(item) = self.next_factor(alloc, room)? {
            items.push(item)?;
        }
        items.shrink_to_fit();
        Ok(List::from_vec(items))
    }

    /// Takes a product of one factor or more.
    #[cycle(expr)]
    #[tactic(auto, using(crate::proofs::ExprSteps::term_reads, homeo_syntax::proofs::SourceViews::phrase_views), unfolding(crate::specs::inner::Reading::term_do, crate::specs::inner::Reading::after_factor))]
    fn term(&mut self, alloc: Global, room: u32) -> Result<Expr, Fault>
        requires { 0 < room }
        ensures { Gives plain_expr result self.new.rest.now (term_read room self.old.rest.now) }
    {
        let first = self.factor(alloc, room)?;
        match self.next_factor(alloc, room)? {
            Some(second) => {
                let factors = self.factors(alloc, room, first, second)?;
                Ok(Expr::Product(factors))
            }
            None => Ok(first),
        }
    }

    /// A term after a sign, if one comes next.
    #[cycle(expr)]
    #[tactic(auto, using(crate::proofs::Lists::next_term_reads), unfolding(crate::specs::inner::Reading::next_term_do))]
    fn next_term(&mut self, alloc: Global, room: u32) -> Result<Option<Expr>, Fault>
        requires { 0 < room }
        ensures { Gives (option_map plain_expr) result self.new.rest.now (next_term_read room self.old.rest.now) }
    {
        if self.takes(Mark::Plus) {
            let term = self.term(alloc, room)?;
            Ok(Some(term))
        } else if self.takes(Mark::Minus) {
            let term = self.term(alloc, room)?;
            Ok(Some(negated(alloc, term)?))
        } else {
            Ok(None)
        }
    }

    /// These terms, and those that go on with the sum.
    #[cycle(expr)]
    fn terms(
        &mut self,
        alloc: Global,
        room: u32,
        first: Expr,
        second: Expr,
    ) -> Result<List<Expr>, Fault>
        requires { 0 < room }
        ensures { Gives (λ l. expr_views l.items) result self.new.rest.now (with_front (plain_expr first ∷ plain_expr second ∷ []) (terms_read room self.old.rest.now)) }
    {
        let mut items = pair(alloc, first, second)?;
        'more: while let Some(item) = self.next_term(alloc, room)? {
            items.push(item)?;
        }
        items.shrink_to_fit();
        Ok(List::from_vec(items))
    }

    /// Takes an expression, which is a sum of one term or more.
    #[cycle(expr)]
    #[tactic(auto, using(crate::proofs::ExprSteps::expr_reads, homeo_syntax::proofs::SourceViews::phrase_views), unfolding(crate::specs::inner::Reading::expr_do, crate::specs::inner::Reading::after_term))]
    pub(crate) fn expr(&mut self, alloc: Global, room: u32) -> Result<Expr, Fault>
        requires { 0 < room }
        ensures { Gives plain_expr result self.new.rest.now (expr_read room self.old.rest.now) }
    {
        let first = self.term(alloc, room)?;
        match self.next_term(alloc, room)? {
            Some(second) => {
                let terms = self.terms(alloc, room, first, second)?;
                Ok(Expr::Sum(terms))
            }
            None => Ok(first),
        }
    }
}

/// The negation of an expression.
#[tactic(auto, using(homeo_syntax::proofs::SourceViews::phrase_views))]
fn negated(alloc: Global, inner: Expr) -> Result<Expr, Fault>
    ensures ok { IfOk result (λ e. plain_expr e ≡ s.Neg (plain_expr inner)) }
    ensures memory { IfErr result (λ e. e ≡ Fault.Memory) }
{
    let boxed = Box::new(alloc, inner)?;
    Ok(Expr::Neg(boxed))
}

/// The field of a slot.
#[tactic(auto, using(homeo_syntax::proofs::SourceViews::phrase_views))]
fn field_of(alloc: Global, relation: Ident, index: Expr, field: Ident) -> Result<Expr, Fault>
    ensures ok { IfOk result (λ e. plain_expr e ≡ s.Field relation (plain_expr index) field) }
    ensures memory { IfErr result (λ e. e ≡ Fault.Memory) }
{
    let index = Box::new(alloc, index)?;
    Ok(Expr::Field {
        relation,
        index,
        field,
    })
}
