//! Linear forms, their sums and products.

ghost use Rattle.std.specs.Prelude.{◌≡◌, ◌↔◌, IsTrue, ℤ, pos, negsuc, [], IfOk, OnOk};
ghost use Rattle.homeo_meaning.specs.Small.{IsSmall};
ghost use Rattle.homeo_plan.specs.FormSizes.{Numbers};
ghost use Rattle.homeo_plan.specs.Linear.{AreInOrder, constant_form, delta_form, add_forms, scale_form, multiply_forms, mix_forms, is_pure, add_deltas, support};
ghost use Rattle.homeo_plan.specs.Needs.{remote};
ghost use Rattle.homeo_plan.specs.PlanView.{plain_linear};
ghost use Rattle.homeo_plan.specs.Limit.{form_limit};
ghost use Rattle.homeo_follow.specs.Follow.{object_form, gain};
ghost use Rattle.homeo_form.specs.inner.Moved.{IsMoved};
ghost use Rattle.homeo_form.specs.inner.Order.{IsInOrder};
ghost use Rattle.homeo_form.specs.inner.Terms.{term_form, beside};

mod running;

use crate::deltas::{self, push_deltas_of};
use crate::numbers::{added, are_small, is_small_number, multiplied, widened};
use crate::terms;
use homeo_plan::{Delta, Linear, Term};
use homeo_syntax::{List, Memory};
pub(crate) use running::RunningSum;
use std::alloc::Global;
use std::marker::Model;

/// The least room of a sum.
const LEAST_ROOM: usize = 1024;

/// How many terms a sum has room for at first: its form keeps that room, though most of its items may be numbers.
const FIRST_ROOM: usize = 16;

/// A linear form in the making: the constant and the terms added up. The terms and the mixed deltas are in order, each
/// delta once, and no factor is 0.
#[derive(Drop)]
pub struct Form {
    constant: i128,
    terms: Vec<Term>,
    mixed: Vec<Delta>,
}

impl Model for Form {
    ghost use Rattle.homeo_plan.specs.Linear.{Linear, AreInOrder};
    ghost use Rattle.homeo_form.specs.inner.Terms.{AreAddedUp};

    ghost Value = { Linear };

    ghost view = { λ f. record { constant = f.constant; terms = f.terms.items; mixed = f.mixed.items } };

    ghost invariant = { λ f. AreAddedUp f.terms.items × AreInOrder f.mixed.items };
}

impl Form {
    /// The form of a number.
    pub(crate) fn number(alloc: Global, n: i128) -> Form
        ensures { result ≡ constant_form n }
    {
        Form {
            constant: n,
            terms: Vec::new(alloc),
            mixed: Vec::new(alloc),
        }
    }

    /// The form of a value.
    pub fn value(alloc: Global, n: i64) -> Form
        ensures { result ≡ constant_form n }
    {
        Form::number(alloc, n as i128)
    }

    /// The form of a delta.
    pub(crate) fn delta(alloc: Global, delta: Delta) -> Result<Form, Memory>
        ensures { IfOk result (λ f. f ≡ delta_form delta) }
    {
        let mut terms = Vec::new(alloc);
        terms.push(Term { delta, factor: 1 })?;
        Ok(Form {
            constant: 0,
            terms,
            mixed: Vec::new(alloc),
        })
    }

    /// The form of an object with this base, which is whole.
    ///
    /// # Errors
    ///
    /// `Memory` when out of memory.
    pub fn object(alloc: Global, base: i64, object: u32) -> Result<Form, Memory>
        ensures { IfOk result (λ f. f ≡ object_form base object) }
    {
        Form::delta_beside(alloc, widened(base), Delta { object, site: 0 })
    }

    /// The form of a delta and a constant.
    pub(crate) fn delta_beside(alloc: Global, constant: i128, delta: Delta) -> Result<Form, Memory>
        ensures { IfOk result (λ f. f ≡ beside constant delta) }
    {
        let terms = Vec::from_array(alloc, [Term { delta, factor: 1 }])?;
        Ok(Form {
            constant,
            terms,
            mixed: Vec::new(alloc),
        })
    }

    /// A copy of the form.
    ///
    /// # Errors
    ///
    /// `Memory` when out of memory.
    pub fn copy(&self, alloc: Global) -> Result<Form, Memory>
        ensures { IfOk result (λ f. f ≡ self.now) }
    {
        Ok(Form {
            constant: self.constant,
            terms: Vec::from_slice(alloc, self.terms.as_slice())?,
            mixed: deltas::copied(alloc, self.mixed.as_slice())?,
        })
    }

    /// The sum with another form, which is put into this one.
    ///
    /// # Errors
    ///
    /// `Memory` when out of memory.
    pub fn plus(self, alloc: Global, other: &Form) -> Result<Form, Memory>
        requires small { Numbers (IsSmall form_limit) self }
        requires other_small { Numbers (IsSmall form_limit) other.now }
        ensures { IfOk result (λ f. f ≡ add_forms other.now self) }
    {
        if other.is_number() {
            return Ok(self.plus_number(other.constant()));
        }
        let total = Total::of(self);
        total.put(other)?.into_form(alloc)
    }

    /// The form with a number added to its constant.
    pub fn plus_number(self, n: i128) -> Form
        requires small { IsSmall form_limit self.constant }
        requires number_small { IsSmall form_limit n }
        ensures first { result ≡ add_forms (constant_form n) self }
        ensures last { result ≡ add_forms self (constant_form n) }
        ensures sum { result ≡ add_forms (constant_form n) (add_forms self (constant_form (pos 0))) }
    {
        Form {
            constant: added(n, self.constant),
            terms: self.terms,
            mixed: self.mixed,
        }
    }

    /// The difference to another form.
    ///
    /// # Errors
    ///
    /// `Memory` when out of memory.
    pub fn minus(self, alloc: Global, other: Form) -> Result<Form, Memory>
        requires small { Numbers (IsSmall form_limit) self }
        requires other_small { Numbers (IsSmall form_limit) other }
        requires negated_small { Numbers (IsSmall form_limit) (scale_form (negsuc 0) other) }
        ensures { IfOk result (λ f. f ≡ add_forms self (scale_form (negsuc 0) other)) }
    {
        let less = other.negated();
        if less.is_number() {
            return Ok(self.plus_number(less.constant()));
        }
        less.plus(alloc, &self)
    }

    /// The form with its sign turned.
    pub fn negated(self) -> Form
        requires small { Numbers (IsSmall form_limit) self }
        ensures { result ≡ scale_form (negsuc 0) self }
    {
        let mut terms = self.terms;
        terms::negate(&mut terms);
        Form {
            constant: multiplied(-1, self.constant),
            terms,
            mixed: self.mixed,
        }
    }

    /// The terms and the mixed deltas of each form are in order.
    pub(crate) fn in_order(&self)
        ensures { IsInOrder self.now }
    {
        let _ = &self.terms;
    }

    /// The form with its numbers multiplied.
    ///
    /// # Errors
    ///
    /// `Memory` when out of memory.
    pub fn times(&self, alloc: Global, factor: i128) -> Result<Form, Memory>
        requires factor { IsSmall form_limit factor }
        requires small { Numbers (IsSmall form_limit) self.now }
        ensures { IfOk result (λ f. f ≡ scale_form factor self.now) }
    {
        Ok(Form {
            constant: multiplied(factor, self.constant),
            terms: terms::scaled(alloc, factor, self.terms.as_slice())?,
            mixed: deltas::copied(alloc, self.mixed.as_slice())?,
        })
    }

    /// The product of two forms. Of two that aren't numbers it is that of their constants, where each of their deltas is 0.
    pub(crate) fn by(&self, alloc: Global, other: &Form) -> Result<Form, Memory>
        requires small { Numbers (IsSmall form_limit) self.now }
        requires other_small { Numbers (IsSmall form_limit) other.now }
        ensures { IfOk result (λ f. f ≡ multiply_forms self.now other.now) }
    {
        if self.is_number() {
            other.times(alloc, self.constant)
        } else if other.is_number() {
            self.times(alloc, other.constant)
        } else {
            self.mixed_with(alloc, other)
        }
    }

    fn mixed_with(&self, alloc: Global, other: &Form) -> Result<Form, Memory>
        requires small { IsSmall form_limit self.now.constant }
        requires other_small { IsSmall form_limit other.now.constant }
        ensures { IfOk result (λ f. f ≡ mix_forms self.now other.now) }
    {
        let mut mixed = self.support(alloc)?;
        let deltas = other.support(alloc)?;
        mixed.extend_from_slice(deltas.as_slice())?;
        Ok(Form {
            constant: multiplied(self.constant, other.constant),
            terms: Vec::new(alloc),
            mixed: deltas::in_order(alloc, mixed)?,
        })
    }

    fn is_number(&self) -> bool
        ensures { result ≡ is_pure self.now }
    {
        self.terms.as_slice().is_empty() && self.mixed.as_slice().is_empty()
    }

    /// Whether the form is that of the object with some base.
    fn is_moved(&self, object: u32) -> bool
        ensures { IsTrue result → IsMoved object self.now }
    {
        terms::is_delta(self.terms.as_slice(), Delta { object, site: 0 })
            && self.mixed.as_slice().is_empty()
    }

    /// Whether neither the constant nor a factor is above 4 * 10^18 in size.
    pub fn is_small(&self) -> bool
        ensures { IsTrue result ↔ Numbers (IsSmall form_limit) self.now }
    {
        if is_small_number(self.constant) {
            are_small(self.terms.as_slice())
        } else {
            false
        }
    }

    /// Each delta of the form, mixed or not, in order.
    ///
    /// # Errors
    ///
    /// `Memory` when out of memory.
    pub fn support(&self, alloc: Global) -> Result<Vec<Delta>, Memory>
        ensures value { IfOk result (λ v. v.items ≡ support self.now) }
        ensures order { IfOk result (λ v. AreInOrder v.items) }
    {
        let mut deltas = deltas::copied(alloc, self.mixed.as_slice())?;
        push_deltas_of(&mut deltas, self.terms.as_slice())?;
        deltas::in_order(alloc, deltas)
    }

    /// The deltas of other sites than this one in the form, mixed or not, in order.
    ///
    /// # Errors
    ///
    /// `Memory` when out of memory.
    pub fn remote(&self, alloc: Global, site: u32) -> Result<Vec<Delta>, Memory>
        ensures { IfOk result (λ v. v.items ≡ remote site (support self.now)) }
    {
        let deltas = self.support(alloc)?;
        deltas::remote(alloc, site, deltas.as_slice())
    }

    /// Puts each delta of the form, mixed or not, behind others, in no order. Put in order, each once, they are the others with
    /// those of the form among them.
    ///
    /// # Errors
    ///
    /// `Memory` when out of memory.
    pub fn push_deltas(&self, deltas: &mut Vec<Delta>) -> Result<(), Memory>
        ensures { OnOk result (add_deltas deltas.new.items [] ≡ add_deltas (support self.now) (add_deltas deltas.old.items [])) }
    {
        deltas::push_all(deltas, self.mixed.as_slice())?;
        push_deltas_of(deltas, self.terms.as_slice())
    }

    /// Puts each delta on which the gain of an object depends, where the form is written to it, behind others, as `push_deltas`
    /// does. A gain that is a number depends on none.
    pub(crate) fn push_gain(
        &self,
        alloc: Global,
        object: u32,
        deltas: &mut Vec<Delta>,
    ) -> Result<(), Memory>
        requires { Numbers (IsSmall form_limit) self.now }
        ensures { OnOk result ((n : ℤ) →
            add_deltas deltas.new.items [] ≡ add_deltas (support (gain n object self.now)) (add_deltas deltas.old.items [])) }
    {
        if self.is_moved(object) {
            return Ok(());
        }
        let delta = Delta { object, site: 0 };
        let terms = terms::with_one_less(alloc, self.terms.as_slice(), delta)?;
        deltas::push_all(deltas, self.mixed.as_slice())?;
        push_deltas_of(deltas, terms.as_slice())
    }

    /// The value where all deltas are 0.
    pub fn constant(&self) -> i128
        ensures { result ≡ self.now.constant }
    {
        self.constant
    }

    /// The form as plain data.
    pub fn into_linear(self) -> Linear
        ensures { plain_linear result ≡ self }
    {
        Linear {
            constant: self.constant,
            terms: List::from_vec(self.terms),
            mixed: List::from_vec(self.mixed),
        }
    }
}

/// A sum of forms in the making. Its terms and mixed deltas stand as they were put into it, until they are added up.
#[derive(Drop)]
pub(crate) struct Total {
    constant: i128,
    terms: Vec<Term>,
    mixed: Vec<Delta>,
    /// How many terms and mixed deltas may stand there where a form is put in. Where there are more, they are added up first,
    /// so that a sum of many forms with the same deltas stays short.
    room: usize,
}

impl Model for Total {
    ghost use Rattle.std.specs.Prelude.{[]};
    ghost use Rattle.homeo_plan.specs.Linear.{Linear, add_terms, add_deltas};
    ghost use Rattle.homeo_form.specs.inner.Terms.{AreSmall};

    ghost Value = { Linear };

    ghost view = { λ t. record { constant = t.constant; terms = add_terms t.terms.items []; mixed = add_deltas t.mixed.items [] } };

    ghost invariant = { λ t. AreSmall t.terms.items };
}

impl Total {
    /// The sum of no forms, with room for terms, or for the first of many.
    pub(crate) fn with_room(alloc: Global, terms: usize) -> Result<Total, Memory>
        ensures { IfOk result (λ t. t ≡ constant_form (pos 0)) }
    {
        Ok(Total {
            constant: 0,
            terms: Vec::with_capacity(alloc, terms.min(FIRST_ROOM))?,
            mixed: Vec::new(alloc),
            room: LEAST_ROOM,
        })
    }

    /// The sum of one form.
    fn of(form: Form) -> Total
        requires { Numbers (IsSmall form_limit) form }
        ensures { result ≡ form }
    {
        let held = form.terms.len().saturating_add(form.mixed.len());
        Total {
            constant: form.constant,
            terms: form.terms,
            mixed: form.mixed,
            room: held.saturating_mul(2).max(LEAST_ROOM),
        }
    }

    fn is_full(&self) -> bool {
        self.terms.len().saturating_add(self.mixed.len()) > self.room
    }

    /// The form put into the sum.
    pub(crate) fn plus(self, alloc: Global, form: &Form) -> Result<Total, Memory>
        requires small { Numbers (IsSmall form_limit) self }
        requires form_small { Numbers (IsSmall form_limit) form.now }
        ensures { IfOk result (λ t. t ≡ add_forms form.now self) }
    {
        if self.is_full() {
            Total::of(self.into_form(alloc)?).put(form)
        } else {
            self.put(form)
        }
    }

    /// The same, where nothing is added up.
    fn put(self, form: &Form) -> Result<Total, Memory>
        requires small { Numbers (IsSmall form_limit) self }
        requires form_small { Numbers (IsSmall form_limit) form.now }
        ensures { IfOk result (λ t. t ≡ add_forms form.now self) }
    {
        let mut terms = self.terms;
        let mut mixed = self.mixed;
        terms.extend_from_slice(form.terms.as_slice())?;
        deltas::push_all(&mut mixed, form.mixed.as_slice())?;
        Ok(Total {
            constant: added(form.constant, self.constant),
            terms,
            mixed,
            room: self.room,
        })
    }

    /// The number put into the sum.
    pub(crate) fn plus_number(self, n: i128) -> Total
        requires small { Numbers (IsSmall form_limit) self }
        requires number_small { IsSmall form_limit n }
        ensures { result ≡ add_forms (constant_form n) self }
    {
        Total {
            constant: added(n, self.constant),
            terms: self.terms,
            mixed: self.mixed,
            room: self.room,
        }
    }

    /// The term put into the sum.
    pub(crate) fn plus_term(self, term: Term) -> Result<Total, Memory>
        requires { IsSmall form_limit term.factor }
        ensures { IfOk result (λ t. t ≡ add_forms (term_form term) self) }
    {
        let mut terms = self.terms;
        terms.push(term)?;
        Ok(Total {
            constant: self.constant,
            terms,
            mixed: self.mixed,
            room: self.room,
        })
    }

    /// The sum as a form.
    pub(crate) fn into_form(self, alloc: Global) -> Result<Form, Memory>
        ensures { IfOk result (λ f. f ≡ self) }
    {
        Ok(Form {
            constant: self.constant,
            terms: terms::added_up(alloc, self.terms)?,
            mixed: deltas::in_order(alloc, self.mixed)?,
        })
    }
}
