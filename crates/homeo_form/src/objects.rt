//! The forms of objects, found by their numbers.

ghost use Rattle.std.specs.Prelude.{◌≡◌, ◌==◌, ◌<◌, ℕ, cond, length, get_or, is_some, OnOk};
ghost use Rattle.std.specs.Option.{option_copied};
ghost use Rattle.std.specs.declared.option.Option.TheVariants.{None, Some};
ghost use Rattle.homeo_form.specs.Objects.{form_in, form_there, place_in};

use crate::form::Form;
use homeo_syntax::Memory;
use std::alloc::Global;

/// An object with the form that was set for it.
#[derive(Drop)]
pub(crate) struct ObjectForm {
    object: u32,
    form: Form,
}

/// The forms that were set for objects. An object has a form where it stands at its place itself, so that places that are left
/// from forms taken out need not be cleared.
#[derive(Drop)]
pub(crate) struct ObjectForms {
    /// Of each object up to the largest that was ever set, where it would stand among the forms.
    places: Vec<usize>,
    forms: Vec<ObjectForm>,
}

impl ObjectForms {
    pub(crate) fn new(alloc: Global) -> ObjectForms
        ensures { (x : ℕ) → form_in result x ≡ None }
    {
        ObjectForms {
            places: Vec::new(alloc),
            forms: Vec::new(alloc),
        }
    }

    /// Takes out all forms.
    pub(crate) fn clear(&mut self)
        ensures { (x : ℕ) → form_in self.new x ≡ None }
    {
        self.forms.clear();
    }

    /// The form that was set for an object, if one was.
    pub(crate) fn get(&self, object: u32) -> Option<&Form>
        ensures { option_copied result ≡ form_in self.now object }
    {
        let place = self.place(object);
        if self.stands_at(place, object) {
            Some(&self.forms[place].form)
        } else {
            None
        }
    }

    /// Sets the form of an object.
    pub(crate) fn set(&mut self, object: u32, form: Form) -> Result<(), Memory>
        ensures { OnOk result ((x : ℕ) → form_in self.new x ≡ cond (object == x) (Some form) (form_in self.old x)) }
    {
        let place = self.place(object);
        if self.stands_at(place, object) {
            self.forms[place] = ObjectForm { object, form };
            return Ok(());
        }
        self.place_last(object)?;
        self.forms.push(ObjectForm { object, form })?;
        Ok(())
    }

    /// The place of an object: that of one that was never set is 0.
    fn place(&self, object: u32) -> usize
        ensures { result ≡ place_in self.now object }
    {
        let index = object as usize;
        if index < self.places.len() {
            self.places[index]
        } else {
            0
        }
    }

    /// Whether an object stands at a place.
    fn stands_at(&self, place: usize, object: u32) -> bool
        ensures { result ≡ is_some (form_there object place self.now.forms.items) }
    {
        if place < self.forms.len() {
            self.forms[place].object == object
        } else {
            false
        }
    }

    /// Gives an object the place behind the forms.
    fn place_last(&mut self, object: u32) -> Result<(), Memory>
        ensures forms { self.new.forms.items ≡ self.old.forms.items }
        ensures places { OnOk result ((x : ℕ) → place_in self.new x ≡ cond (object == x) (length self.old.forms.items) (place_in self.old x)) }
    {
        reach(&mut self.places, object)?;
        self.places[object as usize] = self.forms.len();
        Ok(())
    }
}

/// Makes the places reach to that of an object.
fn reach(places: &mut Vec<usize>, object: u32) -> Result<(), Memory>
    ensures within { OnOk result (object < length places.new.items) }
    ensures same { (x : ℕ) → get_or places.new.items x 0 ≡ get_or places.old.items x 0 }
{
    let index = object as usize;
    if index < places.len() {
        return Ok(());
    }
    places.resize(index + 1, 0)?;
    Ok(())
}
