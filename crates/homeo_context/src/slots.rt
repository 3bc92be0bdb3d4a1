//! The slots of relations.

ghost use Rattle.std.specs.Prelude.{◌≡◌, ◌<◌, ◌+◌, ◌*◌, length, map, option_map};
ghost use Rattle.homeo_meaning.specs.Schema.{declared_range};
ghost use Rattle.homeo_meaning.specs.Context.{spot, slot_at};
ghost use Rattle.homeo_context.specs.Slots.{plain_spot, plain_slot, slots_of, IsCounted};

use crate::spot::{Spot, find_field};
use homeo_syntax::RangeDecl;

/// A slot: its number, the number of the object that says whether it is used, and the fields, whose objects follow that
/// one.
#[derive(Clone, Copy)]
pub struct Slot<'a> {
    pub number: usize,
    pub used: usize,
    pub fields: &'a [RangeDecl],
}

/// The slots of a relation, whose objects begin at the first.
#[derive(Clone, Copy)]
pub struct Slots<'a> {
    pub first: usize,
    pub count: usize,
    pub fields: &'a [RangeDecl],
}

impl<'a> Slots<'a> {
    /// The field of a name.
    pub fn field(&self, name: u32) -> Spot
        ensures { plain_spot result ≡ spot (map declared_range self.now.fields.now) name }
    {
        find_field(self.fields, name)
    }

    /// The slot of a number.
    pub fn slot(&self, number: usize) -> Slot<'a>
        requires there { number < self.now.count }
        requires counted { IsCounted self.now }
        ensures number { result.number ≡ number }
        ensures used { result.used ≡ self.now.first + number * (1 + length self.now.fields.now) }
        ensures fields { result.fields.now ≡ self.now.fields.now }
    {
        let width = 1 + self.fields.len();
        Slot {
            number,
            used: self.first + number * width,
            fields: self.fields,
        }
    }

    /// The slot of this number, if there is one.
    pub fn at(&self, v: i64) -> Option<Slot<'a>>
        requires { IsCounted self.now }
        ensures { option_map plain_slot result ≡ slot_at v (slots_of self.now) }
    {
        if v < 0 {
            return None;
        }
        let number = v as usize;
        if number < self.count {
            Some(self.slot(number))
        } else {
            None
        }
    }
}
