//! The values that a run reads and changes.

ghost use Rattle.std.specs.Prelude.{◌≡◌, ◌≤◌, ◌+◌, pos, length, OnOk};
ghost use Rattle.homeo_meaning.specs.Context.{cell, field_cell};
ghost use Rattle.homeo_meaning.specs.Meaning.{is_used, is_free, set_temp, set_object, write};
ghost use Rattle.homeo_eval.specs.inner.States.{state_of, IsZeroPast};
ghost use Rattle.homeo_context.specs.Slots.{plain_spot, plain_slot};

use homeo_context::{Slot, Spot, find_field};
use homeo_meaning::Window;
use homeo_meaning::padded::item_or;
use homeo_syntax::Memory;

/// The values of the objects, by number, and of the temporaries, by the numbers of their names.
#[derive(Drop)]
pub(crate) struct State {
    pub(crate) database: Vec<i64>,
    pub(crate) temps: Window<i64>,
}

impl State {
    #[tactic(auto, unfolding(homeo_meaning::specs::Key::definitions))]
    pub(crate) fn temp(&self, name: u32) -> i64
        ensures { result ≡ (state_of self.now).temps name }
    {
        self.temps.get(name as usize, 0)
    }

    #[tactic(auto, unfolding(homeo_meaning::specs::Key::definitions))]
    pub(crate) fn object(&self, place: usize) -> i64
        ensures { result ≡ (state_of self.now).database place }
    {
        item_or(self.database.as_slice(), place, 0)
    }

    /// The object of a slot's field that has this place.
    #[tactic(auto, unfolding(homeo_meaning::specs::Key::definitions))]
    pub(crate) fn cell(&self, slot: &Slot, place: usize) -> i64
        ensures { result ≡ (state_of self.now).database (slot.now.used + 1 + place) }
    {
        let objects = self.database.as_slice();
        if slot.used < objects.len() && place < objects.len() - slot.used - 1 {
            objects[slot.used + 1 + place]
        } else {
            0
        }
    }

    /// The field of a slot that has this name.
    #[tactic(auto, unfolding(homeo_meaning::specs::Key::definitions))]
    pub(crate) fn field(&self, slot: &Slot, name: u32) -> i64
        ensures { result ≡ (state_of self.now).database (field_cell (plain_slot slot.now) name) }
    {
        self.cell(slot, find_field(slot.fields, name).place)
    }

    #[tactic(auto, unfolding(homeo_meaning::specs::Key::definitions))]
    pub(crate) fn is_used(&self, slot: &Slot) -> bool
        ensures { result ≡ is_used (state_of self.now) (plain_slot slot.now) }
    {
        self.object(slot.used) == 1
    }

    #[tactic(auto, unfolding(homeo_meaning::specs::Key::definitions))]
    pub(crate) fn is_free(&self, slot: &Slot) -> bool
        ensures { result ≡ is_free (state_of self.now) (plain_slot slot.now) }
    {
        self.object(slot.used) == 0
    }

    /// Sets a temporary.
    pub(crate) fn assign(&mut self, name: u32, v: i64) -> Result<(), Memory>
        ensures places { length self.new.database.items ≡ length self.old.database.items }
        ensures set { OnOk result (state_of self.new ≡ set_temp (state_of self.old) name v) }
    {
        self.temps.put(name as usize, v, 0)
    }

    /// Sets an object: where there is none of this number, to 0.
    pub(crate) fn set(&mut self, place: usize, v: i64)
        requires { length self.old.database.items ≤ place → v ≡ pos 0 }
        ensures places { length self.new.database.items ≡ length self.old.database.items }
        ensures set { state_of self.new ≡ set_object (state_of self.old) place v }
    {
        if place < self.database.len() {
            self.database[place] = v;
        }
    }

    /// Sets the object of a slot's field that has this place: where there is none, to 0.
    pub(crate) fn set_cell(&mut self, slot: &Slot, place: usize, v: i64)
        requires { length self.old.database.items ≤ slot.now.used + 1 + place → v ≡ pos 0 }
        ensures places { length self.new.database.items ≡ length self.old.database.items }
        ensures set { state_of self.new ≡ set_object (state_of self.old) (slot.now.used + 1 + place) v }
    {
        let count = self.database.len();
        if slot.used < count && place < count - slot.used - 1 {
            self.set(slot.used + 1 + place, v);
        }
    }

    /// Sets an object where the value is within its bounds.
    pub(crate) fn write(&mut self, object: Spot, v: i64)
        requires { IsZeroPast (length self.old.database.items) (plain_spot object) object.place }
        ensures places { length self.new.database.items ≡ length self.old.database.items }
        ensures set { state_of self.new ≡ write (state_of self.old) (plain_spot object) object.place v }
    {
        if object.admits(v) {
            self.set(object.place, v);
        }
    }

    /// Sets a field of a slot where the value is within its bounds.
    pub(crate) fn write_field(&mut self, slot: &Slot, field: Spot, v: i64)
        requires { IsZeroPast (length self.old.database.items) (plain_spot field) (slot.now.used + 1 + field.place) }
        ensures places { length self.new.database.items ≡ length self.old.database.items }
        ensures set { state_of self.new ≡ write (state_of self.old) (plain_spot field)
            (cell (plain_slot slot.now) (plain_spot field)) v }
    {
        if field.admits(v) {
            self.set_cell(slot, field.place, v);
        }
    }
}
