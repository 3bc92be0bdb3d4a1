//! The L forms of commands.

ghost use Rattle.std.specs.Prelude.{false, map, IfOk, OnOk};
ghost use Rattle.homeo_syntax.specs.SourceView.{commands, plain_expr, plain_cond, plain_command, plain_field};
ghost use Rattle.homeo_syntax.specs.Source.{Assign, Print};
ghost use Rattle.homeo_syntax.specs.LowView.{low_commands, plain_lcommand};
ghost use Rattle.homeo_meaning.specs.Schema.{declared_range};
ghost use Rattle.homeo_meaning.specs.Context.{spot, bind};
ghost use Rattle.homeo_meaning.specs.Aborts.{hold_abort};
ghost use Rattle.homeo_meaning.specs.LForm.{lift, lift_cond, lift_values, visits, as_one, clear, write_to, write_field, write_indexed, inserted, form, forms};
ghost use Rattle.homeo_context.specs.Slots.{plain_spot, plain_slot, slots_of, IsNumbered};
ghost use Rattle.homeo_context.specs.Contexts.{plain_context};
ghost use Rattle.homeo_desugar.specs.inner.Numbers.{IsLow, Fits};
ghost use Rattle.homeo_desugar.specs.inner.Made.{plain_target, IsLifted, IsTurned, IsFormed, AreFormed, AreWithin};
ghost use Rattle.homeo_desugar.specs.inner.Visits.{updating, running, visit_of};

use crate::chains::{all_within, fill_chain, write_by_index};
use crate::lifting::{lift, lift_cond, lift_visit};
use crate::making::{Making, Target, choice, guard, guarded, literal_of, set_flag, unless_ended};
use crate::objects::{cell, used};
use homeo_context::{BoundRows, Context, Slot, Slots, Spot, find_field};
use homeo_meaning::{hold_abort, holds_abort};
use homeo_syntax::{
    Command, Cond, Expr, FieldValue, Ident, LCommand, LExpr, List, Memory, RangeDecl, SplitName,
    Temp,
};
use std::alloc::Global;

fn assign(
    target: Ident,
    value: &Expr,
    context: &Context<'_>,
    next: &mut u32,
) -> Result<LCommand, Memory>
    requires fits { Fits (plain_context context.now) }
    ensures { IfOk result (λ r. IsFormed next.new
        (form (plain_context context.now) (Assign target (plain_expr value.now)) next.old) (plain_lcommand r)) }
{
    let mut out = Making::from(context.alloc, *next);
    let value = lift(value, context, &mut out)?;
    *next = out.next;
    out.in_front(LCommand::Assign {
        target: Temp::Named(target.name),
        value,
    })
}

fn print(value: &Expr, context: &Context<'_>, next: &mut u32) -> Result<LCommand, Memory>
    requires fits { Fits (plain_context context.now) }
    ensures { IfOk result (λ r. IsFormed next.new
        (form (plain_context context.now) (Print (plain_expr value.now)) next.old) (plain_lcommand r)) }
{
    let mut out = Making::from(context.alloc, *next);
    let value = lift(value, context, &mut out)?;
    *next = out.next;
    out.in_front(LCommand::Print { value })
}

/// Writes a value that is within the bounds to an object.
fn write_to(
    bounds: Spot,
    object: u32,
    value: &Expr,
    context: &Context<'_>,
    next: &mut u32,
) -> Result<LCommand, Memory>
    requires fits { Fits (plain_context context.now) }
    ensures { IfOk result (λ r. IsFormed next.new
        (write_to (plain_spot bounds) object (lift (plain_context context.now) (plain_expr value.now) next.old)) (plain_lcommand r)) }
{
    let mut out = Making::from(context.alloc, *next);
    let value = lift(value, context, &mut out)?;
    *next = out.next;
    let write = guarded(context.alloc, bounds, object, value)?;
    out.in_front(write)
}

/// Writes a value to the field of a name of a slot.
fn write_field(
    slot: Slot<'_>,
    name: u32,
    value: &Expr,
    context: &Context<'_>,
    next: &mut u32,
) -> Result<LCommand, Memory>
    requires fits { Fits (plain_context context.now) }
    requires low { IsLow (plain_slot slot) }
    ensures { IfOk result (λ r. IsFormed next.new
        (write_field (plain_slot slot.entry) name (lift (plain_context context.now) (plain_expr value.now) next.old)) (plain_lcommand r)) }
{
    let field = find_field(slot.fields, name);
    write_to(field, cell(slot, field), value, context, next)
}

/// Writes a value to the field of the slot that an index names.
fn set_field(
    slots: Slots<'_>,
    index: &Expr,
    name: u32,
    value: &Expr,
    context: &Context<'_>,
    next: &mut u32,
) -> Result<LCommand, Memory>
    requires fits { Fits (plain_context context.now) }
    requires slots { IsNumbered slots }
    ensures { IfOk result (λ r. IsFormed next.new
        (write_indexed (slots_of slots.entry) (spot (map declared_range slots.entry.fields.now) name)
        (lift (plain_context context.now) (plain_expr index.now) next.old) (lift (plain_context context.now) (plain_expr value.now))) (plain_lcommand r)) }
{
    let mut out = Making::from(context.alloc, *next);
    let index = lift(index, context, &mut out)?;
    let field = slots.field(name);
    if let Some(number) = literal_of(&index) {
        *next = out.next;
        return match slots.at(number) {
            Some(slot) => write_to(field, cell(slot, field), value, context, next),
            None => Ok(LCommand::Skip),
        };
    }
    let value = lift(value, context, &mut out)?;
    *next = out.next;
    let write = write_by_index(context.alloc, &index, slots, field, &value)?;
    out.in_front(write)
}

/// Puts the new values of fields into fresh temporaries.
fn lift_values(
    fields: &[RangeDecl],
    values: &[FieldValue],
    context: &Context<'_>,
    out: &mut Making,
) -> Result<Vec<Target>, Memory>
    requires fits { Fits (plain_context context.now) }
    ensures lifted { IfOk result (λ ts. IsLifted out.old out.new
        (lift_values (plain_context context.now) (map declared_range fields.now) (map plain_field values.now) out.old.next)
        (map plain_target ts.items)) }
    ensures within { IfOk result (λ ts. AreWithin fields.now ts.items) }
{
    let mut targets = Vec::new(context.alloc);
    for value in values {
        let lifted = lift(&value.value, context, out)?;
        let temp = out.fresh()?;
        out.push(LCommand::Assign {
            target: Temp::Fresh(temp),
            value: lifted,
        })?;
        targets.push(Target {
            field: find_field(fields, value.field.name),
            temp,
        })?;
    }
    Ok(targets)
}

fn insert(
    slots: Slots<'_>,
    values: &[FieldValue],
    into: u32,
    context: &Context<'_>,
    next: &mut u32,
) -> Result<LCommand, Memory>
    requires fits { Fits (plain_context context.now) }
    requires slots { IsNumbered slots }
    ensures { IfOk result (λ r. IsFormed next.new
        (inserted (slots_of slots.entry) into (lift_values (plain_context context.now) (map declared_range slots.entry.fields.now) (map plain_field values.now) next.old)) (plain_lcommand r)) }
{
    let mut out = Making::from(context.alloc, *next);
    let targets = lift_values(slots.fields, values, context, &mut out)?;
    *next = out.next;
    let test = all_within(context.alloc, targets.as_slice())?;
    let filled = fill_chain(context.alloc, slots, targets.as_slice(), into)?;
    let none = LCommand::Assign {
        target: Temp::Named(into),
        value: LExpr::Literal(0),
    };
    out.push(choice(context.alloc, test, filled, none)?)?;
    Ok(LCommand::Seq {
        commands: out.commands,
    })
}

/// Clears each used slot where a condition holds.
fn delete(
    test: &Cond,
    row: u32,
    slots: Slots<'_>,
    context: &Context<'_>,
    next: &mut u32,
) -> Result<LCommand, Memory>
    requires fits { Fits (plain_context context.now) }
    requires slots { IsNumbered slots }
    ensures { IfOk result (λ r. IsFormed next.new
        (as_one (visits false false (λ slot. lift_cond (bind (plain_context context.now) row slot) (plain_cond test.now)) clear (slots_of slots.entry) next.old)) (plain_lcommand r)) }
{
    let mut out = Making::from(context.alloc, *next);
    for number in 0..slots.count {
        let slot = slots.slot(number);
        let test = lift_visit(test, row, slot, context, &mut out)?;
        let clear = LCommand::Write {
            target: SplitName::Whole(used(slot)),
            value: LExpr::Literal(0),
        };
        out.push(choice(context.alloc, test, clear, LCommand::Skip)?)?;
    }
    *next = out.next;
    Ok(LCommand::Seq {
        commands: out.commands,
    })
}

/// Sets a field of each used slot where a condition holds.
fn update(
    test: &Cond,
    row: u32,
    slots: Slots<'_>,
    name: u32,
    value: &Expr,
    context: &Context<'_>,
    next: &mut u32,
) -> Result<LCommand, Memory>
    requires fits { Fits (plain_context context.now) }
    requires slots { IsNumbered slots }
    ensures { IfOk result (λ r. IsFormed next.new
        (as_one (visits false false (λ slot. lift_cond (bind (plain_context context.now) row slot) (plain_cond test.now))
        (updating (plain_context context.now) row name (plain_expr value.now)) (slots_of slots.entry) next.old)) (plain_lcommand r)) }
{
    let mut out = Making::from(context.alloc, *next);
    for number in 0..slots.count {
        let slot = slots.slot(number);
        let test = lift_visit(test, row, slot, context, &mut out)?;
        let rows = BoundRows::Inside {
            name: row,
            slot,
            outer: context.rows,
        };
        let inner = context.with(&rows);
        let write = write_field(slot, name, value, &inner, &mut out.next)?;
        out.push(choice(context.alloc, test, write, LCommand::Skip)?)?;
    }
    *next = out.next;
    Ok(LCommand::Seq {
        commands: out.commands,
    })
}

/// The L form of a command.
#[cycle(commands)]
#[tactic(auto, using(homeo_syntax::proofs::Measures::command_parts))]
fn form(c: &Command, context: &Context<'_>, next: &mut u32) -> Result<LCommand, Memory>
    requires fits { Fits (plain_context context.now) }
    ensures { IfOk result (λ r. IsFormed next.new
        (form (plain_context context.now) (plain_command c.now) next.old) (plain_lcommand r)) }
{
    match c {
        Command::Skip => Ok(LCommand::Skip),
        Command::Assign { target, value } => assign(*target, value, context, next),
        Command::Write { object, value } => {
            let object = context.object(object.name);
            write_to(object, object.place as u32, value, context, next)
        }
        Command::Print { value } => print(value, context, next),
        Command::If { test, yes, no } => {
            let mut out = Making::from(context.alloc, *next);
            let test = lift_cond(test, context, &mut out)?;
            *next = out.next;
            let yes = form_boxed(yes, context, next)?;
            let no = form_boxed(no, context, next)?;
            out.in_front(LCommand::If { test, yes, no })
        }
        Command::Block { commands } => {
            let commands = form_all(commands.as_slice(), context, next)?;
            Ok(LCommand::Seq { commands })
        }
        Command::SetField {
            relation,
            index,
            field,
            value,
        } => {
            let slots = context.relation(relation.name);
            set_field(slots, index, field.name, value, context, next)
        }
        Command::SetRow { row, field, value } => {
            let slot = context.row(row.name);
            write_field(slot, field.name, value, context, next)
        }
        Command::Foreach {
            row,
            relation,
            test,
            body,
        } => {
            let slots = context.relation(relation.name);
            foreach(body.as_slice(), test, row.name, slots, context, next)
        }
        Command::Insert {
            relation,
            fields,
            into,
        } => {
            let slots = context.relation(relation.name);
            insert(slots, fields.as_slice(), into.name, context, next)
        }
        Command::Delete {
            row,
            relation,
            test,
        } => {
            let slots = context.relation(relation.name);
            delete(test, row.name, slots, context, next)
        }
        Command::Update {
            row,
            relation,
            test,
            field,
            value,
        } => {
            let slots = context.relation(relation.name);
            update(test, row.name, slots, field.name, value, context, next)
        }
        Command::Abort => Ok(set_flag(1)),
    }
}

#[cycle(commands)]
#[tactic(auto, using(homeo_syntax::proofs::Measures::command_parts))]
fn form_boxed(c: &Command, context: &Context<'_>, next: &mut u32) -> Result<Box<LCommand>, Memory>
    requires fits { Fits (plain_context context.now) }
    ensures { IfOk result (λ r. IsFormed next.new
        (form (plain_context context.now) (plain_command c.now) next.old) (plain_lcommand r.value)) }
{
    let formed = form(c, context, next)?;
    Ok(Box::new(context.alloc, formed)?)
}

/// The choice that a slot makes: its test is lifted before it.
#[cycle(commands)]
#[tactic(auto, using(homeo_syntax::proofs::Measures::command_parts))]
fn visit(
    body: &[Command],
    test: &Cond,
    row: u32,
    slot: Slot<'_>,
    context: &Context<'_>,
    out: &mut Making,
) -> Result<LCommand, Memory>
    requires fits { Fits (plain_context context.now) }
    requires low { IsLow (plain_slot slot) }
    ensures { IfOk result (λ r. IsLifted out.old out.new
        (visit_of (λ slot. lift_cond (bind (plain_context context.now) row slot) (plain_cond test.now))
        (running (plain_context context.now) row (commands (map plain_command body.now))) (plain_slot slot.entry) out.old.next) (plain_lcommand r)) }
{
    let test = lift_visit(test, row, slot, context, out)?;
    let rows = BoundRows::Inside {
        name: row,
        slot,
        outer: context.rows,
    };
    let commands = form_all(body, &context.with(&rows), &mut out.next)?;
    choice(
        context.alloc,
        test,
        LCommand::Seq { commands },
        LCommand::Skip,
    )
}

/// Puts the commands of a slot behind the others, guarded or not.
#[cycle(commands)]
#[tactic(auto, using(homeo_syntax::proofs::Measures::command_parts))]
fn take_turn(
    guarded: bool,
    body: &[Command],
    test: &Cond,
    row: u32,
    slot: Slot<'_>,
    context: &Context<'_>,
    out: &mut Making,
) -> Result<(), Memory>
    requires fits { Fits (plain_context context.now) }
    requires low { IsLow (plain_slot slot) }
    ensures { OnOk result (IsTurned guarded out.old out.new
        (visit_of (λ slot. lift_cond (bind (plain_context context.now) row slot) (plain_cond test.now))
        (running (plain_context context.now) row (commands (map plain_command body.now))) (plain_slot slot.entry) out.old.next)) }
{
    if guarded {
        let mut here = Making::from(context.alloc, out.next);
        let choice = visit(body, test, row, slot, context, &mut here)?;
        out.next = here.next;
        let all = here.in_front(choice)?;
        let guarded = unless_ended(context.alloc, all)?;
        out.push(guarded)?;
    } else {
        let choice = visit(body, test, row, slot, context, out)?;
        out.push(choice)?;
    }
    Ok(())
}

/// Runs commands at each used slot where a condition holds, until the call is ended.
#[cycle(commands)]
#[tactic(auto, using(homeo_syntax::proofs::Measures::command_parts))]
fn foreach(
    body: &[Command],
    test: &Cond,
    row: u32,
    slots: Slots<'_>,
    context: &Context<'_>,
    next: &mut u32,
) -> Result<LCommand, Memory>
    requires fits { Fits (plain_context context.now) }
    requires slots { IsNumbered slots }
    ensures { IfOk result (λ r. IsFormed next.new
        (as_one (visits false (hold_abort (commands (map plain_command body.now)))
        (λ slot. lift_cond (bind (plain_context context.now) row slot) (plain_cond test.now))
        (running (plain_context context.now) row (commands (map plain_command body.now))) (slots_of slots.entry) next.old)) (plain_lcommand r)) }
{
    let later = hold_abort(body);
    let mut out = Making::from(context.alloc, *next);
    let mut guarded = false;
    for number in 0..slots.count {
        let slot = slots.slot(number);
        take_turn(guarded, body, test, row, slot, context, &mut out)?;
        guarded = later;
    }
    *next = out.next;
    Ok(LCommand::Seq {
        commands: out.commands,
    })
}

/// The L forms of commands one after another, each guarded that stands behind a command that can end the call.
#[cycle(commands)]
#[tactic(auto, using(homeo_syntax::proofs::Measures::command_parts))]
pub(crate) fn form_all(
    cs: &[Command],
    context: &Context<'_>,
    next: &mut u32,
) -> Result<List<LCommand>, Memory>
    requires fits { Fits (plain_context context.now) }
    ensures { IfOk result (λ r. AreFormed next.new
        (forms (plain_context context.now) false (commands (map plain_command cs.now)) next.old) (low_commands (map plain_lcommand r.items))) }
{
    let mut formed = List::new(context.alloc);
    let mut guarded = false;
    for c in cs {
        let one = form(c, context, next)?;
        formed.push(guard(context.alloc, guarded, one)?)?;
        guarded = guarded || holds_abort(c);
    }
    Ok(formed)
}
