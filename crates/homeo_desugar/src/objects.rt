//! The objects of slots as an L form names them, by numbers of 32 bits.

ghost use Rattle.std.specs.Prelude.{◌≡◌, ◌≤◌, length};
ghost use Rattle.homeo_meaning.specs.Context.{cell, field_cell};
ghost use Rattle.homeo_context.specs.Slots.{plain_spot, plain_slot};
ghost use Rattle.homeo_desugar.specs.inner.Numbers.{IsLow};

use homeo_context::{Slot, Spot, find_field};

/// The object that says whether a slot is used.
pub(crate) fn used(slot: Slot<'_>) -> u32
    requires low { IsLow (plain_slot slot) }
    ensures { result ≡ (plain_slot slot.entry).used }
{
    slot.used as u32
}

/// The object that holds a field of a slot.
#[tactic(auto, unfolding(homeo_meaning::specs::Key::definitions))]
pub(crate) fn cell(slot: Slot<'_>, field: Spot) -> u32
    requires low { IsLow (plain_slot slot) }
    requires within { field.place ≤ length slot.fields.now }
    ensures { result ≡ cell (plain_slot slot.entry) (plain_spot field) }
{
    (slot.used + 1 + field.place) as u32
}

/// The object that holds the field of a name.
pub(crate) fn field_cell(slot: Slot<'_>, name: u32) -> u32
    requires low { IsLow (plain_slot slot) }
    ensures { result ≡ field_cell (plain_slot slot.entry) name }
{
    cell(slot, find_field(slot.fields, name))
}
