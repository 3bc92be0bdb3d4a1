//! Inserts of values into the first free slot of a relation.

ghost use Rattle.std.specs.Prelude.{◌≡◌, ◌≤◌, ◌<◌, ◌+◌, All, true, pos, map, length, option_map, IfOk, IfSome, OnOk};
ghost use Rattle.homeo_syntax.specs.SourceView.{plain_field};
ghost use Rattle.homeo_meaning.specs.Schema.{declared_range};
ghost use Rattle.homeo_meaning.specs.Context.{slots, fields, first_where};
ghost use Rattle.homeo_meaning.specs.Meaning.{is_free, are_within, set_fields, settings, insert};
ghost use Rattle.homeo_meaning.specs.Acceptance.{weight_limit};
ghost use Rattle.homeo_eval.specs.inner.CanRun.{values_fit};
ghost use Rattle.homeo_eval.specs.inner.States.{state_of, Serves};
ghost use Rattle.homeo_context.specs.Slots.{plain_slot, slots_of, IsCounted};
ghost use Rattle.homeo_context.specs.Contexts.{plain_context};
ghost use Rattle.homeo_eval.specs.inner.Settings.{plain_setting};

use crate::phrases::value;
use crate::state::State;
use homeo_context::{Context, Slot, Slots, Spot};
use homeo_syntax::{FieldValue, Memory};

/// A field and its new value.
#[derive(Clone, Copy)]
struct Setting {
    field: Spot,
    value: i64,
}

fn settings(
    values: &[FieldValue],
    slots: &Slots,
    context: &Context,
    state: &State,
) -> Result<Vec<Setting>, Memory>
    requires { values_fit weight_limit (plain_context context.now) (map plain_field values.now) (state_of state.now) ≡ true }
    ensures { IfOk result (λ r. map plain_setting r.items ≡ settings (plain_context context.now)
        (map declared_range slots.now.fields.now) (map plain_field values.now) (state_of state.now)) }
{
    let mut all = Vec::new(context.alloc);
    for setting in values {
        all.push(Setting {
            field: slots.field(setting.field.name),
            value: value(&setting.value, context, state),
        })?;
    }
    Ok(all)
}

fn are_within(settings: &[Setting]) -> bool
    ensures { result ≡ are_within (map plain_setting settings.now) }
{
    for setting in settings {
        if !setting.field.admits(setting.value) {
            return false;
        }
    }
    true
}

fn first_free<'a>(slots: &Slots<'a>, state: &State) -> Option<Slot<'a>>
    requires { IsCounted slots.now }
    ensures slot { option_map plain_slot result ≡ first_where (is_free (state_of state.now)) (slots_of slots.now) }
    ensures number { IfSome result (λ slot. slot.number < slots.now.count) }
{
    for number in 0..slots.count {
        let slot = slots.slot(number);
        if state.is_free(&slot) {
            return Some(slot);
        }
    }
    None
}

fn set_fields(slot: &Slot, settings: &[Setting], state: &mut State)
    requires { All (λ f. length state.old.database.items ≤ slot.now.used + 1 + f.field.place → f.value ≡ pos 0) settings.now }
    ensures places { length state.new.database.items ≡ length state.old.database.items }
    ensures set { state_of state.new ≡ set_fields (plain_slot slot.now) (map plain_setting settings.now)
        (state_of state.old) }
{
    for setting in settings {
        state.set_cell(slot, setting.field.place, setting.value);
    }
}

/// Inserts into the first free slot where all values are within bounds, and puts the slot's number plus 1 into a
/// temporary: otherwise 0, and nothing else is done.
pub(crate) fn insert(
    relation: u32,
    values: &[FieldValue],
    target: u32,
    context: &Context,
    state: &mut State,
) -> Result<(), Memory>
    requires serves { Serves context.now state.old }
    requires fits { values_fit weight_limit (plain_context context.now) (map plain_field values.now) (state_of state.old) ≡ true }
    ensures places { length state.new.database.items ≡ length state.old.database.items }
    ensures set { OnOk result (state_of state.new ≡ insert (slots (plain_context context.now) relation)
        (settings (plain_context context.now) (fields (plain_context context.now) relation) (map plain_field values.now)
        (state_of state.old)) target (state_of state.old)) }
{
    let slots = context.relation(relation);
    let settings = settings(values, &slots, context, state)?;
    if !are_within(settings.as_slice()) {
        return state.assign(target, 0);
    }
    match first_free(&slots, state) {
        Some(slot) => {
            set_fields(&slot, settings.as_slice(), state);
            state.set(slot.used, 1);
            state.assign(target, slot.number as i64 + 1)
        }
        None => state.assign(target, 0),
    }
}
