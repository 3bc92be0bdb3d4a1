//! The effects that a site keeps of the forms that it runs in a round.

ghost use Rattle.std.specs.Prelude.{◌≡◌, ◌<◌, ◌-ℤ◌, ℕ, [], ◌∷◌, false, length, IfOk, IfSome};
ghost use Rattle.std.specs.Int.{w64, int_wrap};
ghost use Rattle.homeo_meaning.specs.Serial.{values_of};
ghost use Rattle.homeo_plan.specs.Linear.{Forms};
ghost use Rattle.homeo_linear.specs.Effect.{plain_own_form};
ghost use Rattle.homeo_outline.specs.Numbers.{has};
ghost use Rattle.homeo_site.specs.SiteView.{StartValue};
ghost use Rattle.homeo_site.specs.inner.Effects.{IsEffectAt, IsKept, AreKept, AreForms, delta_after, delta_left, objects_of, printed};

use homeo_linear::{Effect, OwnForm, OwnWrite};
use homeo_local::LocalStep;
use homeo_meaning::Database;
use homeo_meaning::padded::item_or;
use homeo_syntax::{List, Memory, Prints};
use std::alloc::Global;

/// How many calls of a round are run by their forms before any effect is made: so a round of few calls keeps none.
const FIRST_CALLS: u32 = 32;

/// What a site keeps of the form at a place.
#[derive(Drop)]
pub(crate) enum Kept {
    /// It wasn't run behind the first calls of the round.
    New,
    /// It was run, and has no effect yet.
    Run,
    /// What it makes of the site's own deltas.
    Made(Effect),
    /// It has no effect.
    Without,
}

/// The effects of a round, by the places of their forms.
#[derive(Drop)]
pub(crate) struct Effects {
    calls: u32,
    kept: Vec<Kept>,
}

impl Effects {
    /// No effects. It takes no memory.
    pub(crate) fn new(alloc: Global) -> Effects
        ensures { result.kept.items ≡ [] }
    {
        Effects {
            calls: 0,
            kept: Vec::new(alloc),
        }
    }

    /// Counts one more call of the form at one of so many places, and says whether the form's effect is to be made for it.
    pub(crate) fn is_due(&mut self, place: usize, places: usize) -> Result<bool, Memory>
        ensures { (v : StartValue) → AreKept v self.old → AreKept v self.new }
    {
        if self.calls < FIRST_CALLS {
            self.calls += 1;
            return Ok(false);
        }
        self.extend(places)?;
        Ok(self.runs(place))
    }

    /// Makes the list have so many places, if it hasn't.
    fn extend(&mut self, places: usize) -> Result<(), Memory>
        ensures { (v : StartValue) → AreKept v self.old → AreKept v self.new }
    {
        for _ in self.kept.len()..places {
            self.kept.push(Kept::New)?;
        }
        Ok(())
    }

    /// Marks the form at a place as run, and says whether it was run before and has no effect yet.
    fn runs(&mut self, place: usize) -> bool
        ensures { (v : StartValue) → AreKept v self.old → AreKept v self.new }
    {
        if place >= self.kept.len() {
            return false;
        }
        match &self.kept[place] {
            Kept::New => {
                self.kept[place] = Kept::Run;
                false
            }
            Kept::Run => true,
            Kept::Made(_) | Kept::Without => false,
        }
    }

    /// Keeps the effect of the form at a place, or that it has none.
    pub(crate) fn keep(&mut self, place: usize, effect: Option<Effect>)
        ensures { (v : StartValue) → AreKept v self.old → IfSome effect (IsEffectAt v place) → AreKept v self.new }
    {
        if place < self.kept.len() {
            self.kept[place] = found(effect);
        }
    }

    /// The effect of the form at a place, if one was made.
    pub(crate) fn at(&self, place: usize) -> Option<&Effect>
        ensures { (v : StartValue) → AreKept v self.now → IfSome result (λ e. IsEffectAt v place e.now) }
    {
        if place >= self.kept.len() {
            return None;
        }
        match &self.kept[place] {
            Kept::Made(effect) => Some(effect),
            Kept::New | Kept::Run | Kept::Without => None,
        }
    }
}

/// What is kept of a form where this is found of it.
fn found(effect: Option<Effect>) -> Kept
    ensures { (v : StartValue) (place : ℕ) → IfSome effect (IsEffectAt v place) → IsKept v place result }
{
    match effect {
        Some(effect) => Kept::Made(effect),
        None => Kept::Without,
    }
}

/// The values of forms at a site's deltas.
fn values(alloc: Global, forms: &[OwnForm], deltas: &[i64]) -> Result<Prints, Memory>
    ensures { IfOk result (λ p. p.items ≡ printed deltas.now forms.now) }
{
    let mut values = Vec::with_capacity(alloc, forms.len())?;
    for form in forms {
        values.push(form.value(deltas))?;
    }
    Ok(List::from_vec(values))
}

/// The objects that are written, in order.
fn objects(alloc: Global, writes: &[OwnWrite]) -> Result<List<u32>, Memory>
    ensures { IfOk result (λ l. l.items ≡ objects_of writes.now) }
{
    let mut objects = Vec::with_capacity(alloc, writes.len())?;
    for write in writes {
        objects.push(write.object)?;
    }
    Ok(List::from_vec(objects))
}

/// Sets the delta of the object that is written.
fn set_delta(write: &OwnWrite, base: &[i64], before: &[i64], deltas: &mut Vec<i64>)
    ensures count { length deltas.new.items ≡ length deltas.old.items }
    ensures here { write.now.object < length deltas.old.items →
        values_of deltas.new.items write.now.object ≡ delta_left base.now before.now write.now.object (plain_own_form write.now.form) }
    ensures others { (n : ℕ) → has n (objects_of (write.now ∷ [])) ≡ false → values_of deltas.new.items n ≡ values_of deltas.old.items n }
{
    let object = write.object as usize;
    // (each is)
    if object < deltas.len() {
        let value = write.form.value(before);
        deltas[object] = less(value, item_or(base, object, 0));
    }
}

/// The difference, as i64 subtracts.
fn less(a: i64, b: i64) -> i64
    ensures { result ≡ int_wrap w64 (a -ℤ b) }
{
    a.wrapping_sub(b)
}

/// Sets the delta of each object that is written, in a copy of the deltas before.
fn set_deltas(writes: &[OwnWrite], base: &[i64], before: &[i64], deltas: &mut Vec<i64>)
    requires { deltas.old.items ≡ before.now }
    ensures count { length deltas.new.items ≡ length before.now }
    ensures deltas { (f : Forms) → AreForms f writes.now → (n : ℕ) → n < length before.now →
        values_of deltas.new.items n ≡ delta_after base.now before.now f (objects_of writes.now) n }
{
    for write in writes {
        set_delta(write, base, before, deltas);
    }
}

/// The local step of a call by its effect, from these deltas of a site, of which it takes a copy.
pub(crate) fn step_by(
    alloc: Global,
    effect: &Effect,
    base: &[i64],
    before: &[i64],
    copy: Database,
) -> Result<LocalStep, Memory>
    requires { copy.items ≡ before.now }
    ensures prints { IfOk result (λ s. s.prints.items ≡ printed before.now effect.now.prints.items) }
    ensures written { IfOk result (λ s. s.written.items ≡ objects_of effect.now.writes.items) }
    ensures count { IfOk result (λ s. length s.deltas.items ≡ length before.now) }
    ensures deltas { IfOk result (λ s. (f : Forms) → AreForms f effect.now.writes.items → (n : ℕ) → n < length before.now →
        values_of s.deltas.items n ≡ delta_after base.now before.now f (objects_of effect.now.writes.items) n) }
{
    let writes = effect.writes.as_slice();
    let written = objects(alloc, writes)?;
    let prints = values(alloc, effect.prints.as_slice(), before)?;
    let mut deltas = copy.into_vec();
    set_deltas(writes, base, before, &mut deltas);
    Ok(LocalStep {
        deltas: List::from_vec(deltas),
        written,
        prints,
    })
}
