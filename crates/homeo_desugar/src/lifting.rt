//! The L forms of expressions and conditions.

ghost use Rattle.std.specs.Prelude.{false, ◌≡◌, map, Option, IfOk, OnOk};
ghost use Rattle.homeo_syntax.specs.SourceView.{exprs, tests, plain_expr, plain_test, plain_cond};
ghost use Rattle.homeo_syntax.specs.LowView.{low_exprs, low_tests, plain_lexpr, plain_ltest, plain_lcond, plain_lcommand};
ghost use Rattle.homeo_meaning.specs.Schema.{declared_range};
ghost use Rattle.homeo_meaning.specs.Context.{spot, bind};
ghost use Rattle.homeo_meaning.specs.LForm.{plain, name_of, indexed, visits, counted, lift, lift_all, lift_test, lift_cond};
ghost use Rattle.homeo_context.specs.Slots.{plain_slot, slots_of, IsNumbered};
ghost use Rattle.homeo_context.specs.Contexts.{plain_context};
ghost use Rattle.homeo_desugar.specs.inner.Numbers.{IsLow, Fits};
ghost use Rattle.homeo_desugar.specs.inner.Made.{IsLifted, IsTested, IsAdded};
ghost use Rattle.homeo_desugar.specs.inner.Visits.{term_of, added, adding, used_and};

use crate::chains::read_chain;
use crate::making::{Making, choice, equal, fresh, list_with_room, literal_of, read};
use crate::objects::{cell, field_cell, used};
use homeo_context::{BoundRows, Context, Slot, Slots, argument_of};
use homeo_syntax::{Cond, Expr, LCommand, LCond, LExpr, LTest, List, Memory, Temp, Test};
use std::alloc::Global;

/// The field of the slot that an index names, or 0 where there is no such slot.
fn indexed(
    alloc: Global,
    index: LExpr,
    slots: Slots<'_>,
    name: u32,
    out: &mut Making,
) -> Result<LExpr, Memory>
    requires slots { IsNumbered slots }
    ensures { IfOk result (λ r. IsLifted out.old out.new (indexed (slots_of slots.entry)
        (spot (map declared_range slots.entry.fields.now) name) (plain (plain_lexpr index) out.old.next)) (plain_lexpr r)) }
{
    let field = slots.field(name);
    if let Some(number) = literal_of(&index) {
        return Ok(match slots.at(number) {
            Some(slot) => read(cell(slot, field)),
            None => LExpr::Literal(0),
        });
    }
    let temp = out.fresh()?;
    let chain = read_chain(alloc, &index, slots, field, temp)?;
    out.push(chain)?;
    Ok(fresh(temp))
}

/// A parameter's argument, or else the temporary of the name.
#[tactic(auto, using(homeo_syntax::proofs::LowViews::low_phrase_views, crate::proofs::Equations::names))]
fn named(name: u32, context: &Context<'_>) -> LExpr
    ensures { plain_lexpr result ≡ name_of ((plain_context context.now).arguments name) name }
{
    match argument_of(context.arguments, name) {
        Some(value) => LExpr::Literal(value),
        None => LExpr::Temp(Temp::Named(name)),
    }
}

/// What a used slot adds: 1, or a field.
fn term(slot: Slot<'_>, field: Option<u32>) -> LExpr
    requires low { IsLow (plain_slot slot) }
    ensures { plain_lexpr result ≡ term_of field (plain_slot slot.entry) }
{
    match field {
        Some(name) => read(field_cell(slot, name)),
        None => LExpr::Literal(1),
    }
}

/// Adds to a fresh temporary.
fn add(alloc: Global, total: u32, term: LExpr) -> Result<LCommand, Memory>
    ensures { IfOk result (λ c. plain_lcommand c ≡ added total (plain_lexpr term)) }
{
    let mut terms = list_with_room(alloc, 2)?;
    terms.push(fresh(total))?;
    terms.push(term)?;
    Ok(LCommand::Assign {
        target: Temp::Fresh(total),
        value: LExpr::Sum(terms),
    })
}

/// The L form of an expression. The commands that have to run before it stand behind the others.
#[cycle(phrases)]
#[tactic(auto, using(homeo_syntax::proofs::Measures::phrase_parts))]
pub(crate) fn lift(e: &Expr, context: &Context<'_>, out: &mut Making) -> Result<LExpr, Memory>
    requires fits { Fits (plain_context context.now) }
    ensures { IfOk result (λ r. IsLifted out.old out.new
        (lift (plain_context context.now) (plain_expr e.now) out.old.next) (plain_lexpr r)) }
{
    match e {
        Expr::Literal(n) => Ok(LExpr::Literal(*n)),
        Expr::Name(x) => Ok(named(x.name, context)),
        Expr::Read(x) => Ok(read(context.object(x.name).place as u32)),
        Expr::Sum(es) => {
            let terms = lift_all(es.as_slice(), context, out)?;
            Ok(LExpr::Sum(terms))
        }
        Expr::Product(es) => {
            let factors = lift_all(es.as_slice(), context, out)?;
            Ok(LExpr::Product(factors))
        }
        Expr::Neg(inner) => {
            let inner = lift(inner, context, out)?;
            Ok(LExpr::Neg(Box::new(context.alloc, inner)?))
        }
        Expr::Field {
            relation,
            index,
            field,
        } => {
            let index = lift(index, context, out)?;
            indexed(
                context.alloc,
                index,
                context.relation(relation.name),
                field.name,
                out,
            )
        }
        Expr::Row { row, field } => Ok(read(field_cell(context.row(row.name), field.name))),
        Expr::Count {
            row,
            relation,
            test,
        } => {
            let slots = context.relation(relation.name);
            counted(test, row.name, slots, None, context, out)
        }
        Expr::Total {
            row,
            field,
            relation,
            test,
        } => {
            let slots = context.relation(relation.name);
            counted(test, row.name, slots, Some(field.name), context, out)
        }
    }
}

#[cycle(phrases)]
#[tactic(auto, using(homeo_syntax::proofs::Measures::phrase_parts))]
fn lift_all(es: &[Expr], context: &Context<'_>, out: &mut Making) -> Result<List<LExpr>, Memory>
    requires fits { Fits (plain_context context.now) }
    ensures { IfOk result (λ r. IsLifted out.old out.new
        (lift_all (plain_context context.now) (exprs (map plain_expr es.now)) out.old.next)
        (low_exprs (map plain_lexpr r.items))) }
{
    let mut lifted = list_with_room(context.alloc, es.len())?;
    for e in es {
        let one = lift(e, context, out)?;
        lifted.push(one)?;
    }
    Ok(lifted)
}

#[cycle(phrases)]
#[tactic(auto, using(homeo_syntax::proofs::Measures::phrase_parts))]
fn lift_test(t: &Test, context: &Context<'_>, out: &mut Making) -> Result<LTest, Memory>
    requires fits { Fits (plain_context context.now) }
    ensures { IfOk result (λ r. IsLifted out.old out.new
        (lift_test (plain_context context.now) (plain_test t.now) out.old.next) (plain_ltest r)) }
{
    match t {
        Test::True => Ok(LTest::True),
        Test::Not(c) => {
            let inner = lift_cond(c, context, out)?;
            Ok(LTest::Not(inner))
        }
        Test::Compare { op, left, right } => {
            let left = lift(left, context, out)?;
            let right = lift(right, context, out)?;
            Ok(LTest::Compare {
                op: *op,
                left,
                right,
            })
        }
    }
}

/// The L form of a condition. The commands that have to run before it stand behind the others.
#[cycle(phrases)]
#[tactic(auto, using(homeo_syntax::proofs::Measures::phrase_parts))]
pub(crate) fn lift_cond(c: &Cond, context: &Context<'_>, out: &mut Making) -> Result<LCond, Memory>
    requires fits { Fits (plain_context context.now) }
    ensures { IfOk result (λ r. IsLifted out.old out.new
        (lift_cond (plain_context context.now) (plain_cond c.now) out.old.next) (plain_lcond r)) }
{
    let tests = c.tests.as_slice();
    let mut lifted = list_with_room(context.alloc, tests.len())?;
    lift_tests(tests, context, &mut lifted, out)?;
    Ok(LCond { tests: lifted })
}

/// The condition that a slot is used and that another holds of the row.
#[cycle(phrases)]
#[tactic(auto, using(homeo_syntax::proofs::Measures::phrase_parts))]
pub(crate) fn lift_visit(
    c: &Cond,
    row: u32,
    slot: Slot<'_>,
    context: &Context<'_>,
    out: &mut Making,
) -> Result<LCond, Memory>
    requires fits { Fits (plain_context context.now) }
    requires low { IsLow (plain_slot slot) }
    ensures { IfOk result (λ r. IsLifted out.old out.new
        (used_and (plain_slot slot.entry)
        (lift_cond (bind (plain_context context.now) row (plain_slot slot.entry)) (plain_cond c.now) out.old.next)) (plain_lcond r)) }
{
    let mut lifted = List::new(context.alloc);
    lifted.push(equal(read(used(slot)), 1))?;
    let rows = BoundRows::Inside {
        name: row,
        slot,
        outer: context.rows,
    };
    lift_tests(c.tests.as_slice(), &context.with(&rows), &mut lifted, out)?;
    Ok(LCond { tests: lifted })
}

/// Puts the L forms of tests behind other tests.
#[cycle(phrases)]
#[tactic(auto, using(homeo_syntax::proofs::Measures::phrase_parts))]
fn lift_tests(
    ts: &[Test],
    context: &Context<'_>,
    lifted: &mut List<LTest>,
    out: &mut Making,
) -> Result<(), Memory>
    requires fits { Fits (plain_context context.now) }
    ensures { OnOk result (IsTested (low_tests (map plain_ltest lifted.old.items))
        (low_tests (map plain_ltest lifted.new.items)) out.old out.new
        (lift_cond (plain_context context.now) (tests (map plain_test ts.now)) out.old.next)) }
{
    for t in ts {
        let one = lift_test(t, context, out)?;
        lifted.push(one)?;
    }
    Ok(())
}

/// The number of used slots where a condition holds, or a field added over them, in a fresh temporary.
#[cycle(phrases)]
#[tactic(auto, using(homeo_syntax::proofs::Measures::phrase_parts))]
fn counted(
    test: &Cond,
    row: u32,
    slots: Slots<'_>,
    field: Option<u32>,
    context: &Context<'_>,
    out: &mut Making,
) -> Result<LExpr, Memory>
    requires fits { Fits (plain_context context.now) }
    requires slots { IsNumbered slots }
    ensures { IfOk result (λ r. IsLifted out.old out.new
        (counted (λ slot. lift_cond (bind (plain_context context.now) row slot) (plain_cond test.now)) (term_of field) (slots_of slots.entry) out.old.next)
        (plain_lexpr r)) }
{
    let total = out.fresh()?;
    out.push(LCommand::Assign {
        target: Temp::Fresh(total),
        value: LExpr::Literal(0),
    })?;
    add_slots(test, row, slots, total, field, context, out)?;
    Ok(fresh(total))
}

/// Adds the used slots where a condition holds to a fresh temporary.
#[cycle(phrases)]
#[tactic(auto, using(homeo_syntax::proofs::Measures::phrase_parts))]
fn add_slots(
    test: &Cond,
    row: u32,
    slots: Slots<'_>,
    total: u32,
    field: Option<u32>,
    context: &Context<'_>,
    out: &mut Making,
) -> Result<(), Memory>
    requires fits { Fits (plain_context context.now) }
    requires slots { IsNumbered slots }
    ensures { OnOk result (IsAdded out.old out.new
        (visits false false (λ slot. lift_cond (bind (plain_context context.now) row slot) (plain_cond test.now)) (adding total (term_of field)) (slots_of slots.entry) out.old.next)) }
{
    for number in 0..slots.count {
        let slot = slots.slot(number);
        let test = lift_visit(test, row, slot, context, out)?;
        let add = add(context.alloc, total, term(slot, field))?;
        out.push(choice(context.alloc, test, add, LCommand::Skip)?)?;
    }
    Ok(())
}
