//! The forms of what stands at each place.

ghost use Rattle.std.specs.Prelude.{◌≡◌, ℤ, pos, negsuc, [], IfOk, OnOk};
ghost use Rattle.std.specs.Option.{option_copied, unwrap_or};
ghost use Rattle.homeo_meaning.specs.LowMeaning.{BaseAt, put};
ghost use Rattle.homeo_meaning.specs.Serial.{values_of};
ghost use Rattle.homeo_meaning.specs.Small.{IsSmall};
ghost use Rattle.homeo_plan.specs.FormSizes.{Numbers};
ghost use Rattle.homeo_plan.specs.Limit.{form_limit};
ghost use Rattle.homeo_plan.specs.Linear.{base_forms, constant_form, add_forms, scale_form, add_deltas, support};
ghost use Rattle.homeo_split.specs.Places.{plain_place};
ghost use Rattle.homeo_follow.specs.Follow.{object_forms, gain};
ghost use Rattle.homeo_form.specs.Standing.{first_forms, forms_of};
ghost use Rattle.homeo_form.specs.inner.Order.{IsInOrder};

use crate::form::{Form, Total};
use crate::numbers::{added, multiplied, widened};
use crate::objects::ObjectForms;
use homeo_meaning::padded::item_or;
use homeo_plan::{Delta, Term};
use homeo_split::Place;
use homeo_syntax::Memory;
use std::alloc::Global;
use std::collections::HashMap;

/// The forms at places that were set. At the others there is what a round begins with: temporaries are 0, bases are the
/// numbers of the base, and each delta is itself; or, where objects are whole, each is its base with its delta at the one site.
#[derive(Drop)]
pub struct Standing<'a> {
    base: &'a [i64],
    are_whole: bool,
    objects: ObjectForms,
    /// The forms that were set at other places.
    others: HashMap<Place, Form>,
}

impl<'a> Standing<'a> {
    /// What stands as a round begins: nothing is set.
    pub fn new(alloc: Global, base: &'a [i64]) -> Standing<'a>
        ensures { forms_of result ≡ base_forms (values_of base.now) }
    {
        Standing::with_none_set(alloc, base, false)
    }

    /// What stands as a round begins, where objects are whole.
    pub fn of_objects(alloc: Global, base: &'a [i64]) -> Standing<'a>
        ensures { forms_of result ≡ object_forms (values_of base.now) }
    {
        Standing::with_none_set(alloc, base, true)
    }

    fn with_none_set(alloc: Global, base: &'a [i64], are_whole: bool) -> Standing<'a>
        ensures { forms_of result ≡ first_forms are_whole (values_of base.now) }
    {
        Standing {
            base,
            are_whole,
            objects: ObjectForms::new(alloc),
            others: HashMap::new(alloc),
        }
    }

    /// Sets the form at a place.
    ///
    /// # Errors
    ///
    /// `Memory` when out of memory.
    pub fn set(&mut self, place: Place, form: Form) -> Result<(), Memory>
        ensures { OnOk result (forms_of self.new ≡ put (forms_of self.old) (plain_place place) form) }
    {
        match place {
            Place::Base(object) => self.objects.set(object, form),
            Place::Named(_) | Place::Fresh(_) | Place::Delta { .. } => {
                self.others.insert(place, form)?;
                Ok(())
            }
        }
    }

    /// Begins again, where objects are whole: nothing is set.
    pub fn begin_objects(&mut self, base: &'a [i64])
        ensures { forms_of self.new ≡ object_forms (values_of base.now) }
    {
        self.base = base;
        self.are_whole = true;
        self.objects.clear();
        self.others.clear();
    }

    /// The form that was set at a place, if one was.
    #[inline(always)]
    fn get(&self, place: Place) -> Option<&Form>
        ensures { unwrap_or (option_copied result) (first_forms self.now.are_whole (values_of self.now.base.now) (plain_place place)) ≡
            forms_of self.now (plain_place place) }
    {
        match place {
            Place::Base(object) => self.objects.get(object),
            Place::Named(_) | Place::Fresh(_) | Place::Delta { .. } => self.others.get(&place),
        }
    }

    /// A copy of the form at a place.
    ///
    /// # Errors
    ///
    /// `Memory` when out of memory.
    pub fn form_at(&self, alloc: Global, place: Place) -> Result<Form, Memory>
        ensures { IfOk result (λ f. f ≡ forms_of self.now (plain_place place)) }
    {
        match self.get(place) {
            Some(form) => form.copy(alloc),
            None => self.first_form(alloc, place),
        }
    }

    /// The constant of the form at a place.
    pub(crate) fn constant_at(&self, place: Place) -> i128
        ensures { result ≡ (forms_of self.now (plain_place place)).constant }
    {
        match self.get(place) {
            Some(form) => form.constant(),
            None => self.first_constant(place),
        }
    }

    /// The form at a place, with a number added as in a sum.
    #[inline(always)]
    pub(crate) fn form_beside(&self, alloc: Global, place: Place, n: i128) -> Result<Form, Memory>
        requires place_small { Numbers (IsSmall form_limit) (forms_of self.now (plain_place place)) }
        requires number_small { IsSmall form_limit n }
        ensures sum { IfOk result (λ f. f ≡ add_forms (constant_form n) (add_forms (forms_of self.now (plain_place place)) (constant_form (pos 0)))) }
        ensures last { IfOk result (λ f. f ≡ add_forms (forms_of self.now (plain_place place)) (constant_form n)) }
        ensures order { IsInOrder (forms_of self.now (plain_place place)) }
    {
        match self.get(place) {
            Some(form) => {
                form.in_order();
                let here = form.copy(alloc)?;
                Ok(here.plus_number(n))
            }
            None => self.first_beside(alloc, place, n),
        }
    }

    /// Puts each delta on which the gain of an object depends, where the form that stands for it is written to it, behind others, in
    /// no order. Put in order, each once, they are the others with those of the gain among them.
    ///
    /// # Errors
    ///
    /// `Memory` when out of memory.
    pub fn push_gain(
        &self,
        alloc: Global,
        object: u32,
        deltas: &mut Vec<Delta>,
    ) -> Result<(), Memory>
        requires { Numbers (IsSmall form_limit) (forms_of self.now (BaseAt object)) }
        ensures { OnOk result ((n : ℤ) → add_deltas deltas.new.items [] ≡
            add_deltas (support (gain n object (forms_of self.now (BaseAt object)))) (add_deltas deltas.old.items [])) }
    {
        match self.get(Place::Base(object)) {
            Some(form) => form.push_gain(alloc, object, deltas),
            None => {
                let first = self.first_form(alloc, Place::Base(object))?;
                first.push_gain(alloc, object, deltas)
            }
        }
    }

    /// The form at a place put into a sum.
    pub(crate) fn add_at(&self, alloc: Global, place: Place, total: Total) -> Result<Total, Memory>
        requires small { Numbers (IsSmall form_limit) total }
        requires place_small { Numbers (IsSmall form_limit) (forms_of self.now (plain_place place)) }
        ensures { IfOk result (λ f. f ≡ add_forms (forms_of self.now (plain_place place)) total) }
    {
        match self.get(place) {
            Some(form) => total.plus(alloc, form),
            None => self.add_first(place, total),
        }
    }

    /// The negative of the form at a place put into a sum.
    pub(crate) fn subtract_at(
        &self,
        alloc: Global,
        place: Place,
        total: Total,
    ) -> Result<Total, Memory>
        requires small { Numbers (IsSmall form_limit) total }
        requires place_small { Numbers (IsSmall form_limit) (forms_of self.now (plain_place place)) }
        requires negated_small { Numbers (IsSmall form_limit) (scale_form (negsuc 0) (forms_of self.now (plain_place place))) }
        ensures { IfOk result (λ f. f ≡ add_forms (scale_form (negsuc 0) (forms_of self.now (plain_place place))) total) }
    {
        match self.get(place) {
            Some(form) => {
                let negated = form.times(alloc, -1)?;
                total.plus(alloc, &negated)
            }
            None => self.subtract_first(place, total),
        }
    }

    /// The constant of the form at a place where nothing is set: the base of an object, and 0 elsewhere.
    fn first_constant(&self, place: Place) -> i128
        ensures { result ≡ (first_forms self.now.are_whole (values_of self.now.base.now) (plain_place place)).constant }
    {
        match place {
            Place::Base(object) => widened(item_or(self.base, object as usize, 0)),
            Place::Named(_) | Place::Fresh(_) | Place::Delta { .. } => 0,
        }
    }

    /// The form at a place where nothing is set.
    fn first_form(&self, alloc: Global, place: Place) -> Result<Form, Memory>
        ensures { IfOk result (λ f. f ≡ first_forms self.now.are_whole (values_of self.now.base.now) (plain_place place)) }
    {
        if self.are_whole {
            object_form(alloc, self.base, place)
        } else {
            base_form(alloc, self.base, place)
        }
    }

    /// That form with a number added.
    fn first_beside(&self, alloc: Global, place: Place, n: i128) -> Result<Form, Memory>
        requires place_small { Numbers (IsSmall form_limit) (first_forms self.now.are_whole (values_of self.now.base.now) (plain_place place)) }
        requires number_small { IsSmall form_limit n }
        ensures { IfOk result (λ f. f ≡ add_forms (constant_form n)
            (add_forms (first_forms self.now.are_whole (values_of self.now.base.now) (plain_place place)) (constant_form (pos 0)))) }
    {
        if self.are_whole {
            object_beside(alloc, self.base, place, n)
        } else {
            let here = base_form(alloc, self.base, place)?;
            Ok(here.plus_number(n))
        }
    }

    /// That form put into a sum.
    fn add_first(&self, place: Place, total: Total) -> Result<Total, Memory>
        requires small { Numbers (IsSmall form_limit) total }
        requires place_small { Numbers (IsSmall form_limit) (first_forms self.now.are_whole (values_of self.now.base.now) (plain_place place)) }
        ensures { IfOk result (λ f. f ≡ add_forms (first_forms self.now.are_whole (values_of self.now.base.now) (plain_place place)) total) }
    {
        if self.are_whole {
            add_object(self.base, place, total)
        } else {
            add_base(self.base, place, total)
        }
    }

    /// Its negative put into a sum.
    fn subtract_first(&self, place: Place, total: Total) -> Result<Total, Memory>
        requires small { Numbers (IsSmall form_limit) total }
        requires place_small { Numbers (IsSmall form_limit) (first_forms self.now.are_whole (values_of self.now.base.now) (plain_place place)) }
        requires negated_small { Numbers (IsSmall form_limit) (scale_form (negsuc 0) (first_forms self.now.are_whole (values_of self.now.base.now) (plain_place place))) }
        ensures { IfOk result (λ f. f ≡ add_forms (scale_form (negsuc 0) (first_forms self.now.are_whole (values_of self.now.base.now) (plain_place place))) total) }
    {
        if self.are_whole {
            subtract_object(self.base, place, total)
        } else {
            subtract_base(self.base, place, total)
        }
    }
}

/// The form at a place as a round begins, where objects are whole.
#[tactic(auto, unfolding(homeo_plan::specs::Key::definitions, homeo_follow::specs::Key::definitions))]
fn object_form(alloc: Global, base: &[i64], place: Place) -> Result<Form, Memory>
    ensures { IfOk result (λ f. f ≡ object_forms (values_of base.now) (plain_place place)) }
{
    match place {
        Place::Named(_) | Place::Fresh(_) | Place::Delta { .. } => Ok(Form::number(alloc, 0)),
        Place::Base(object) => {
            let value = item_or(base, object as usize, 0);
            Form::object(alloc, value, object)
        }
    }
}

/// That form with a number added.
#[tactic(auto, unfolding(homeo_plan::specs::Key::definitions, homeo_follow::specs::Key::definitions))]
fn object_beside(alloc: Global, base: &[i64], place: Place, n: i128) -> Result<Form, Memory>
    requires place_small { Numbers (IsSmall form_limit) (object_forms (values_of base.now) (plain_place place)) }
    requires number_small { IsSmall form_limit n }
    ensures { IfOk result (λ f. f ≡ add_forms (constant_form n) (add_forms (object_forms (values_of base.now) (plain_place place)) (constant_form (pos 0)))) }
{
    match place {
        Place::Named(_) | Place::Fresh(_) | Place::Delta { .. } => Ok(Form::number(alloc, n)),
        Place::Base(object) => {
            let value = item_or(base, object as usize, 0);
            Form::delta_beside(alloc, added(n, value as i128), Delta { object, site: 0 })
        }
    }
}

/// That form put into a sum.
#[tactic(auto, unfolding(homeo_plan::specs::Key::definitions, homeo_follow::specs::Key::definitions))]
fn add_object(base: &[i64], place: Place, total: Total) -> Result<Total, Memory>
    requires small { Numbers (IsSmall form_limit) total }
    requires place_small { Numbers (IsSmall form_limit) (object_forms (values_of base.now) (plain_place place)) }
    ensures { IfOk result (λ f. f ≡ add_forms (object_forms (values_of base.now) (plain_place place)) total) }
{
    match place {
        Place::Named(_) | Place::Fresh(_) | Place::Delta { .. } => Ok(total),
        Place::Base(object) => {
            let value = item_or(base, object as usize, 0);
            total.plus_number(value as i128).plus_term(Term {
                delta: Delta { object, site: 0 },
                factor: 1,
            })
        }
    }
}

/// Its negative put into a sum.
#[tactic(auto, unfolding(homeo_plan::specs::Key::definitions, homeo_follow::specs::Key::definitions))]
fn subtract_object(base: &[i64], place: Place, total: Total) -> Result<Total, Memory>
    requires small { Numbers (IsSmall form_limit) total }
    requires place_small { Numbers (IsSmall form_limit) (object_forms (values_of base.now) (plain_place place)) }
    requires negated_small { Numbers (IsSmall form_limit) (scale_form (negsuc 0) (object_forms (values_of base.now) (plain_place place))) }
    ensures { IfOk result (λ f. f ≡ add_forms (scale_form (negsuc 0) (object_forms (values_of base.now) (plain_place place))) total) }
{
    match place {
        Place::Named(_) | Place::Fresh(_) | Place::Delta { .. } => Ok(total),
        Place::Base(object) => {
            let value = item_or(base, object as usize, 0);
            total
                .plus_number(multiplied(-1, value as i128))
                .plus_term(Term {
                    delta: Delta { object, site: 0 },
                    factor: -1,
                })
        }
    }
}

/// The form at a place as a round begins.
#[tactic(auto, unfolding(homeo_plan::specs::Key::definitions))]
fn base_form(alloc: Global, base: &[i64], place: Place) -> Result<Form, Memory>
    ensures { IfOk result (λ f. f ≡ base_forms (values_of base.now) (plain_place place)) }
{
    match place {
        Place::Named(_) => Ok(Form::number(alloc, 0)),
        Place::Fresh(_) => Ok(Form::number(alloc, 0)),
        Place::Base(object) => {
            let value = item_or(base, object as usize, 0);
            Ok(Form::value(alloc, value))
        }
        Place::Delta { object, site } => Form::delta(alloc, Delta { object, site }),
    }
}

/// The form at a place as a round begins, put into a sum.
#[tactic(auto, unfolding(homeo_plan::specs::Key::definitions))]
fn add_base(base: &[i64], place: Place, total: Total) -> Result<Total, Memory>
    requires small { Numbers (IsSmall form_limit) total }
    requires place_small { Numbers (IsSmall form_limit) (base_forms (values_of base.now) (plain_place place)) }
    ensures { IfOk result (λ f. f ≡ add_forms (base_forms (values_of base.now) (plain_place place)) total) }
{
    match place {
        Place::Named(_) | Place::Fresh(_) => Ok(total),
        Place::Base(object) => {
            let value = item_or(base, object as usize, 0);
            Ok(total.plus_number(value as i128))
        }
        Place::Delta { object, site } => total.plus_term(Term {
            delta: Delta { object, site },
            factor: 1,
        }),
    }
}

/// The negative of the form at a place as a round begins, put into a sum.
#[tactic(auto, unfolding(homeo_plan::specs::Key::definitions))]
fn subtract_base(base: &[i64], place: Place, total: Total) -> Result<Total, Memory>
    requires small { Numbers (IsSmall form_limit) total }
    requires place_small { Numbers (IsSmall form_limit) (base_forms (values_of base.now) (plain_place place)) }
    requires negated_small { Numbers (IsSmall form_limit) (scale_form (negsuc 0) (base_forms (values_of base.now) (plain_place place))) }
    ensures { IfOk result (λ f. f ≡ add_forms (scale_form (negsuc 0) (base_forms (values_of base.now) (plain_place place))) total) }
{
    match place {
        Place::Named(_) | Place::Fresh(_) => Ok(total),
        Place::Base(object) => {
            let value = item_or(base, object as usize, 0);
            Ok(total.plus_number(multiplied(-1, value as i128)))
        }
        Place::Delta { object, site } => total.plus_term(Term {
            delta: Delta { object, site },
            factor: -1,
        }),
    }
}
