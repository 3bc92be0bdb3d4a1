//! Writes to objects, to fields of slots, and to all slots at which a condition holds.

ghost use Rattle.std.specs.Prelude.{◌≡◌, ◌&&◌, true, length};
ghost use Rattle.homeo_syntax.specs.SourceView.{plain_cond, plain_expr};
ghost use Rattle.homeo_meaning.specs.Context.{spot, object, slots, fields, bind, slot_at};
ghost use Rattle.homeo_meaning.specs.Meaning.{done, is_used, value, holds, write, write_field, write_slot, visit};
ghost use Rattle.homeo_meaning.specs.Acceptance.{weight_limit};
ghost use Rattle.homeo_eval.specs.inner.CanRun.{on_slots, on_slot, expr_fits, cond_fits, visits_fit};
ghost use Rattle.homeo_eval.specs.inner.States.{state_of, Serves};
ghost use Rattle.homeo_context.specs.Slots.{plain_slot};
ghost use Rattle.homeo_context.specs.Contexts.{plain_context};
ghost use Rattle.homeo_eval.specs.inner.Visits.{holds_at, cond_fits_at, clears, can_clear, writes_at, value_fits_at};

use crate::phrases::{holds, value};
use crate::state::State;
use homeo_context::{BoundRows, Context, Slot, find_field};
use homeo_syntax::{Cond, Expr};

/// Whether a slot is used and a condition holds of the row.
pub(crate) fn is_visited(
    test: &Cond,
    slot: &Slot,
    row: u32,
    context: &Context,
    state: &State,
) -> bool
    requires { cond_fits weight_limit (bind (plain_context context.now) row (plain_slot slot.now)) (plain_cond test.now)
        (state_of state.now) ≡ true }
    ensures { result ≡ (is_used (state_of state.now) (plain_slot slot.now) &&
        holds (bind (plain_context context.now) row (plain_slot slot.now)) (plain_cond test.now) (state_of state.now)) }
{
    if !state.is_used(slot) {
        return false;
    }
    let rows = BoundRows::Inside {
        name: row,
        slot: *slot,
        outer: context.rows,
    };
    holds(test, &context.with(&rows), state)
}

/// Clears the used slots at which a condition holds of the row. Their fields stay.
pub(crate) fn delete(test: &Cond, row: u32, relation: u32, context: &Context, state: &mut State)
    requires { visits_fit (cond_fits_at weight_limit (plain_context context.now) row (plain_cond test.now)) can_clear
        (holds_at (plain_context context.now) row (plain_cond test.now)) clears
        (slots (plain_context context.now) relation) (state_of state.old) ≡ true }
    ensures places { length state.new.database.items ≡ length state.old.database.items }
    ensures run { done (state_of state.new) ≡ visit (holds_at (plain_context context.now) row (plain_cond test.now)) clears
        (slots (plain_context context.now) relation) (state_of state.old) }
{
    let slots = context.relation(relation);
    for number in 0..slots.count {
        let slot = slots.slot(number);
        if is_visited(test, &slot, row, context, state) {
            state.set(slot.used, 0);
        }
    }
}

/// The value of an expression, with a row at this slot.
fn value_at(e: &Expr, slot: &Slot, row: u32, context: &Context, state: &State) -> i64
    requires { expr_fits weight_limit (bind (plain_context context.now) row (plain_slot slot.now)) (plain_expr e.now)
        (state_of state.now) ≡ true }
    ensures { result ≡ value (bind (plain_context context.now) row (plain_slot slot.now)) (plain_expr e.now)
        (state_of state.now) }
{
    let rows = BoundRows::Inside {
        name: row,
        slot: *slot,
        outer: context.rows,
    };
    value(e, &context.with(&rows), state)
}

/// Writes a value to a field of each used slot at which a condition holds of the row.
pub(crate) fn update(
    test: &Cond,
    row: u32,
    relation: u32,
    field: u32,
    e: &Expr,
    context: &Context,
    state: &mut State,
)
    requires serves { Serves context.now state.old }
    requires fits { visits_fit (cond_fits_at weight_limit (plain_context context.now) row (plain_cond test.now))
        (value_fits_at weight_limit (plain_context context.now) row (plain_expr e.now))
        (holds_at (plain_context context.now) row (plain_cond test.now))
        (writes_at (plain_context context.now) row field (plain_expr e.now))
        (slots (plain_context context.now) relation) (state_of state.old) ≡ true }
    ensures places { length state.new.database.items ≡ length state.old.database.items }
    ensures run { done (state_of state.new) ≡ visit (holds_at (plain_context context.now) row (plain_cond test.now))
        (writes_at (plain_context context.now) row field (plain_expr e.now))
        (slots (plain_context context.now) relation) (state_of state.old) }
{
    let slots = context.relation(relation);
    let place = slots.field(field);
    for number in 0..slots.count {
        let slot = slots.slot(number);
        if is_visited(test, &slot, row, context, state) {
            let v = value_at(e, &slot, row, context, state);
            state.write_field(&slot, place, v);
        }
    }
}

/// Writes a value to a field of the slot that an index names, where there is one.
pub(crate) fn set_field(
    relation: u32,
    index: &Expr,
    field: u32,
    e: &Expr,
    context: &Context,
    state: &mut State,
)
    requires serves { Serves context.now state.old }
    requires index { on_slots (slots (plain_context context.now) relation)
        (expr_fits weight_limit (plain_context context.now) (plain_expr index.now) (state_of state.old)) ≡ true }
    requires value { on_slot (slot_at (value (plain_context context.now) (plain_expr index.now) (state_of state.old))
        (slots (plain_context context.now) relation))
        (expr_fits weight_limit (plain_context context.now) (plain_expr e.now) (state_of state.old)) ≡ true }
    ensures places { length state.new.database.items ≡ length state.old.database.items }
    ensures set { state_of state.new ≡ write_slot (state_of state.old)
        (spot (fields (plain_context context.now) relation) field)
        (slot_at (value (plain_context context.now) (plain_expr index.now) (state_of state.old))
        (slots (plain_context context.now) relation))
        (value (plain_context context.now) (plain_expr e.now) (state_of state.old)) }
{
    let slots = context.relation(relation);
    if slots.count == 0 {
        return;
    }
    if let Some(slot) = slots.at(value(index, context, state)) {
        let v = value(e, context, state);
        state.write_field(&slot, slots.field(field), v);
    }
}

/// Writes a value to a field of the slot of a row.
pub(crate) fn set_row(row: u32, field: u32, v: i64, context: &Context, state: &mut State)
    requires { Serves context.now state.old }
    ensures places { length state.new.database.items ≡ length state.old.database.items }
    ensures set { state_of state.new ≡ write_field (state_of state.old) ((plain_context context.now).rows row) field v }
{
    let slot = context.row(row);
    state.write_field(&slot, find_field(slot.fields, field), v);
}

/// Writes a value to the object of a name.
pub(crate) fn set_object(name: u32, v: i64, context: &Context, state: &mut State)
    requires { Serves context.now state.old }
    ensures places { length state.new.database.items ≡ length state.old.database.items }
    ensures set { state_of state.new ≡ write (state_of state.old) (object (plain_context context.now) name)
        (object (plain_context context.now) name).place v }
{
    state.write(context.object(name), v);
}
