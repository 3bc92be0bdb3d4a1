//! Sums of forms whose partial sums are looked at.

ghost use Rattle.std.specs.Prelude.{◌≡◌, ◌↔◌, ◌+ℤ◌, pos, IsTrue, IfOk, OnOk};
ghost use Rattle.homeo_meaning.specs.Small.{IsSmall};
ghost use Rattle.homeo_plan.specs.FormSizes.{Numbers};
ghost use Rattle.homeo_plan.specs.Limit.{form_limit};
ghost use Rattle.homeo_plan.specs.Linear.{AreInOrder, constant_form, add_forms, deltas_of};
ghost use Rattle.homeo_plan.specs.declared.forms.Delta.{Delta};
ghost use Rattle.homeo_form.specs.Checked.{Kept};
ghost use Rattle.homeo_form.specs.inner.Running.{factor_in, factor_with};
ghost use Rattle.homeo_form.specs.inner.Terms.{AreSmall, share};

use super::{Form, LEAST_ROOM, Total};
use crate::numbers::{added, is_small_number};
use crate::terms::factor_of;
use homeo_plan::{Delta, Term};
use homeo_syntax::Memory;
use std::alloc::Global;
use std::collections::BTreeMap;
use std::marker::Model;

/// A sum of forms in the making, whose numbers are small. A short form is put behind the terms and mixed deltas that stand there,
/// and only the factors that it changes are looked at; where many stand there so, or a long form comes, they are added up.
#[derive(Drop)]
pub(crate) struct RunningSum {
    constant: i128,
    terms: Vec<Term>,
    mixed: Vec<Delta>,
    /// How many of the terms are added up: they stand first.
    settled: usize,
    /// How many terms and mixed deltas may stand there.
    room: usize,
    /// What the factors of the other terms' deltas are by now.
    changed: BTreeMap<(u32, u32), i128>,
}

impl Model for RunningSum {
    ghost use Rattle.std.specs.Prelude.{[]};
    ghost use Rattle.homeo_plan.specs.Linear.{Linear, add_terms, add_deltas};
    ghost use Rattle.homeo_form.specs.inner.Running.{IsRunning};

    ghost Value = { Linear };

    ghost view = { λ s. record { constant = s.constant; terms = add_terms s.terms.items []; mixed = add_deltas s.mixed.items [] } };

    ghost invariant = { λ s. IsRunning s.constant s.terms.items s.settled s.changed };
}

impl RunningSum {
    /// The sum of no forms.
    pub(crate) fn new(alloc: Global) -> RunningSum
        ensures { result ≡ constant_form (pos 0) }
    {
        RunningSum::of(alloc, Form::number(alloc, 0))
    }

    /// The sum of one form.
    fn of(alloc: Global, form: Form) -> RunningSum
        requires { Numbers (IsSmall form_limit) form }
        ensures { result ≡ form }
    {
        let settled = form.terms.len();
        let held = settled.saturating_add(form.mixed.len());
        RunningSum {
            constant: form.constant,
            terms: form.terms,
            mixed: form.mixed,
            settled,
            room: held.saturating_add(held / 8).saturating_add(LEAST_ROOM),
            changed: BTreeMap::new(alloc),
        }
    }

    /// The sum with the form put into it, if its numbers stay small.
    pub(crate) fn plus(self, alloc: Global, form: &Form) -> Result<Option<RunningSum>, Memory>
        requires { Numbers (IsSmall form_limit) form.now }
        ensures { IfOk result (Kept (add_forms form.now self)) }
    {
        if self.has_room_for(form) {
            self.put(form)
        } else {
            self.settle(alloc, form)
        }
    }

    fn has_room_for(&self, form: &Form) -> bool {
        let held = self.terms.len().saturating_add(self.mixed.len());
        let more = form.terms.len().saturating_add(form.mixed.len());
        held.saturating_add(more) <= self.room
    }

    /// The same, where only what the form changes is looked at.
    fn put(self, form: &Form) -> Result<Option<RunningSum>, Memory>
        requires { Numbers (IsSmall form_limit) form.now }
        ensures { IfOk result (Kept (add_forms form.now self)) }
    {
        let constant = added(form.constant, self.constant);
        if !is_small_number(constant) {
            return Ok(None);
        }
        let mut terms = self.terms;
        let mut mixed = self.mixed;
        let mut changed = self.changed;
        let first = &terms.as_slice()[..self.settled];
        let more = form.terms.as_slice();
        if !add_factors(&mut changed, first, more)? {
            return Ok(None);
        }
        terms.extend_from_slice(more)?;
        mixed.extend_from_slice(form.mixed.as_slice())?;
        Ok(Some(RunningSum {
            constant,
            terms,
            mixed,
            settled: self.settled,
            room: self.room,
            changed,
        }))
    }

    /// The same, where all is added up and looked at.
    fn settle(self, alloc: Global, form: &Form) -> Result<Option<RunningSum>, Memory>
        requires { Numbers (IsSmall form_limit) form.now }
        ensures { IfOk result (Kept (add_forms form.now self)) }
    {
        let sum = self.into_total().put(form)?.into_form(alloc)?;
        if sum.is_small() {
            Ok(Some(RunningSum::of(alloc, sum)))
        } else {
            Ok(None)
        }
    }

    fn into_total(self) -> Total
        ensures value { result ≡ self }
        ensures small { Numbers (IsSmall form_limit) result }
    {
        Total {
            constant: self.constant,
            terms: self.terms,
            mixed: self.mixed,
            room: self.room,
        }
    }

    /// The sum as a form.
    pub(crate) fn into_form(self, alloc: Global) -> Result<Form, Memory>
        ensures { IfOk result (λ f. f ≡ self) }
    {
        self.into_total().into_form(alloc)
    }
}

/// Adds the factors of terms, and whether all stay small. Where one doesn't, those behind it are not added.
fn add_factors(
    changed: &mut BTreeMap<(u32, u32), i128>,
    first: &[Term],
    terms: &[Term],
) -> Result<bool, Memory>
    requires first_order { AreInOrder (deltas_of first.now) }
    requires order { AreInOrder (deltas_of terms.now) }
    requires terms_small { AreSmall terms.now }
    requires small { (d : Delta) → IsSmall form_limit (factor_in changed.old first.now d) }
    ensures sums { IfOk result (λ b. IsTrue b → (d : Delta) → factor_in changed.new first.now d ≡ factor_with changed.old first.now terms.now d) }
    ensures small { IfOk result (λ b. IsTrue b ↔ ((d : Delta) → IsSmall form_limit (factor_with changed.old first.now terms.now d))) }
{
    for term in terms {
        if !add_factor(changed, first, term)? {
            return Ok(false);
        }
    }
    Ok(true)
}

/// Adds the factor of a term, and whether its delta's stays small.
fn add_factor(
    changed: &mut BTreeMap<(u32, u32), i128>,
    first: &[Term],
    term: &Term,
) -> Result<bool, Memory>
    requires first_order { AreInOrder (deltas_of first.now) }
    requires factor { IsSmall form_limit term.now.factor }
    requires small { IsSmall form_limit (factor_in changed.old first.now term.now.delta) }
    ensures sums { OnOk result ((d : Delta) → factor_in changed.new first.now d ≡ share d term.now.delta term.now.factor +ℤ factor_in changed.old first.now d) }
    ensures small { IfOk result (λ b. IsTrue b ↔ IsSmall form_limit (factor_in changed.new first.now term.now.delta)) }
{
    let sum = added(term.factor, factor_by_now(changed, first, term.delta));
    changed.insert((term.delta.object, term.delta.site), sum)?;
    Ok(is_small_number(sum))
}

/// The delta's factor by now.
fn factor_by_now(changed: &BTreeMap<(u32, u32), i128>, first: &[Term], delta: Delta) -> i128
    requires { AreInOrder (deltas_of first.now) }
    ensures { result ≡ factor_in changed.now first.now delta }
{
    match changed.get(&(delta.object, delta.site)) {
        Some(factor) => *factor,
        None => factor_of(first, delta),
    }
}
