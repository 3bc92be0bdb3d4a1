//! Commands over whole objects, followed along the branch that they take at a base.

ghost use Rattle.std.specs.Prelude.{◌≡◌, ℕ, ℤ, [], map, IfOk, IfSome, OnOk};
ghost use Rattle.homeo_syntax.specs.Low.{Assign, Write, Print};
ghost use Rattle.homeo_syntax.specs.LowView.{low_commands, plain_lexpr, plain_lcond, plain_lcommand};
ghost use Rattle.homeo_meaning.specs.Serial.{values_of};
ghost use Rattle.homeo_meaning.specs.Small.{IsSmall};
ghost use Rattle.homeo_plan.specs.FormSizes.{CanForm, CanCond};
ghost use Rattle.homeo_plan.specs.Limit.{form_limit};
ghost use Rattle.homeo_plan.specs.Linear.{add_deltas};
ghost use Rattle.homeo_follow.specs.Brought.{brought, plain_part};
ghost use Rattle.homeo_follow.specs.Follow.{nothing, and_then, asked, holds_by, follow, follow_all, object_delta, object_forms, object_of, followed, print_needs, write_needs, needed};
ghost use Rattle.homeo_follow.specs.FollowSizes.{AreNumbers, CanBeFollowed, CanAllBeFollowed};
ghost use Rattle.homeo_form.specs.Standing.{forms_of};
ghost use Rattle.homeo_linear.specs.Effect.{IsEffect};
ghost use Rattle.homeo_linear.specs.inner.Course.{brought_by, followed_so};
ghost use Rattle.homeo_linear.specs.inner.Kept.{kept_cond};

use crate::conditions::condition;
use crate::effect::{Effect, own_forms, own_writes};
use homeo_follow::PlanPart;
use homeo_form::{Form, Standing, deltas_in_order, expression_form};
use homeo_meaning::Database;
use homeo_plan::{Atom, AtomSet, Delta, FreezeSet};
use homeo_split::{place_of, place_of_temp};
use homeo_syntax::{LCommand, LCond, LExpr, List, Memory, SplitName, Temp};
use std::alloc::Global;
use std::mem;

/// A command, as far as it was followed.
#[derive(Drop)]
pub(crate) struct Course<'a> {
    standing: Standing<'a>,
    atoms: Vec<Atom>,
    prints: Vec<Form>,
    /// The objects written, as they were written, each by its delta at the one site.
    written: Vec<Delta>,
}

impl<'a> Course<'a> {
    /// Where nothing was followed.
    pub(crate) fn new(alloc: Global, base: &'a [i64]) -> Course<'a>
        ensures { followed_so result ≡ nothing (object_forms (values_of base.now)) }
    {
        Course {
            standing: Standing::of_objects(alloc, base),
            atoms: Vec::new(alloc),
            prints: Vec::new(alloc),
            written: Vec::new(alloc),
        }
    }

    /// Begins again, where nothing was followed.
    fn begin(&mut self, base: &'a [i64])
        ensures { followed_so self.new ≡ nothing (object_forms (values_of base.now)) }
    {
        self.standing.begin_objects(base);
        self.atoms.clear();
        self.prints.clear();
        self.written.clear();
    }

    /// What it brings, where it ends here: its atoms and its prints are taken.
    fn part(&mut self, alloc: Global) -> Result<PlanPart, Memory>
        requires { AreNumbers (IsSmall form_limit) (forms_of self.old.standing) }
        ensures { IfOk result (λ p. (b : ℕ → ℤ) → plain_part p ≡ brought_by b (followed_so self.old)) }
    {
        let needed = needed(alloc, &self.standing, &mut self.written, &mut self.prints)?;
        let mut atoms = Vec::with_capacity(alloc, self.atoms.len())?;
        atoms.append(&mut self.atoms)?;
        Ok(PlanPart {
            atoms: AtomSet {
                atoms: List::from_vec(atoms),
            },
            needs: FreezeSet {
                deltas: List::from_vec(needed),
            },
        })
    }

    /// What it writes and prints, where it ends here, if each of these forms is one over own deltas.
    fn effect(&mut self, alloc: Global) -> Result<Option<Effect>, Memory>
        ensures { IfOk result (λ o. IfSome o (IsEffect (followed_so self.old))) }
    {
        let written = mem::replace(&mut self.written, Vec::new(alloc));
        let written = deltas_in_order(alloc, written)?;
        let Some(writes) = own_writes(alloc, &self.standing, written.as_slice())? else {
            return Ok(None);
        };
        let Some(prints) = own_forms(alloc, self.prints.as_slice())? else {
            return Ok(None);
        };
        Ok(Some(Effect { writes, prints }))
    }

    /// Whether a condition holds at the base, after its atoms are asked.
    fn ask(&mut self, alloc: Global, test: &LCond) -> Result<bool, Memory>
        requires { CanCond (IsSmall form_limit) (forms_of self.old.standing) (plain_lcond test.now) }
        ensures holds { IfOk result (λ holds. holds ≡ holds_by (forms_of self.old.standing) (plain_lcond test.now)) }
        ensures asked { OnOk result (followed_so self.new ≡ and_then (followed_so self.old)
            (asked (kept_cond (forms_of self.old.standing) (plain_lcond test.now)) (nothing (forms_of self.old.standing)))) }
    {
        condition(alloc, &self.standing, test, &mut self.atoms)
    }

    fn assign(&mut self, alloc: Global, target: Temp, value: &LExpr) -> Result<(), Memory>
        requires { CanForm (IsSmall form_limit) (forms_of self.old.standing) (plain_lexpr value.now) }
        ensures { OnOk result (followed_so self.new ≡
            and_then (followed_so self.old) (follow (Assign target (plain_lexpr value.now)) (forms_of self.old.standing))) }
    {
        let form = expression_form(alloc, &self.standing, value)?;
        self.standing.set(place_of_temp(target), form)
    }

    fn write(&mut self, alloc: Global, target: SplitName, value: &LExpr) -> Result<(), Memory>
        requires { CanForm (IsSmall form_limit) (forms_of self.old.standing) (plain_lexpr value.now) }
        ensures { OnOk result (followed_so self.new ≡
            and_then (followed_so self.old) (follow (Write target (plain_lexpr value.now)) (forms_of self.old.standing))) }
    {
        let form = expression_form(alloc, &self.standing, value)?;
        self.standing.set(place_of(target), form)?;
        self.written.push(delta_of(target))?;
        Ok(())
    }

    fn print(&mut self, alloc: Global, value: &LExpr) -> Result<(), Memory>
        requires { CanForm (IsSmall form_limit) (forms_of self.old.standing) (plain_lexpr value.now) }
        ensures { OnOk result (followed_so self.new ≡
            and_then (followed_so self.old) (follow (Print (plain_lexpr value.now)) (forms_of self.old.standing))) }
    {
        let form = expression_form(alloc, &self.standing, value)?;
        self.prints.push(form)?;
        Ok(())
    }
}

/// The delta that stands for the object that a name names.
#[tactic(auto, unfolding(homeo_plan::specs::Key::definitions, homeo_follow::specs::Key::definitions))]
fn delta_of(name: SplitName) -> Delta
    ensures { result ≡ object_delta (object_of name) }
{
    let object = match name {
        SplitName::Whole(object) | SplitName::Base(object) => object,
        SplitName::Delta { object, site: _ } => object,
    };
    Delta { object, site: 0 }
}

/// Follows a command.
#[cycle(commands)]
pub(crate) fn follow(
    alloc: Global,
    command: &LCommand,
    course: &mut Course<'_>,
) -> Result<(), Memory>
    requires { CanBeFollowed (IsSmall form_limit) (forms_of course.old.standing) (plain_lcommand command.now) }
    ensures { OnOk result (followed_so course.new ≡
        and_then (followed_so course.old) (follow (plain_lcommand command.now) (forms_of course.old.standing))) }
{
    match command {
        LCommand::Skip => Ok(()),
        LCommand::Assign { target, value } => course.assign(alloc, *target, value),
        LCommand::Write { target, value } => course.write(alloc, *target, value),
        LCommand::Print { value } => course.print(alloc, value),
        LCommand::Seq { commands } => follow_all(alloc, commands.as_slice(), course),
        LCommand::If { test, yes, no } => {
            if course.ask(alloc, test)? {
                follow(alloc, yes, course)
            } else {
                follow(alloc, no, course)
            }
        }
    }
}

#[cycle(commands)]
fn follow_all(alloc: Global, commands: &[LCommand], course: &mut Course<'_>) -> Result<(), Memory>
    requires { CanAllBeFollowed (IsSmall form_limit) (forms_of course.old.standing) (low_commands (map plain_lcommand commands.now)) }
    ensures { OnOk result (followed_so course.new ≡
        and_then (followed_so course.old) (follow_all (low_commands (map plain_lcommand commands.now)) (forms_of course.old.standing))) }
{
    for command in commands {
        follow(alloc, command, course)?;
    }
    Ok(())
}

/// Follows commands at a base, one after another.
#[derive(Drop)]
pub struct Follower<'a> {
    /// The base, a value for each object.
    pub base: &'a [i64],
    course: Course<'a>,
}

impl<'a> Follower<'a> {
    /// At this base.
    pub fn new(alloc: Global, base: &'a Database) -> Follower<'a>
        ensures { result.base.now ≡ base.now.items }
    {
        let base = base.as_slice();
        Follower {
            base,
            course: Course::new(alloc, base),
        }
    }

    /// What a command over whole objects brings, followed along the branch that it takes at the base (this project's rule): an
    /// object is its base with its delta, which stands for its deltas at all sites. The command is followed by forms alone, and none
    /// is made of its transform.
    ///
    /// No constant and no factor that is met in the forms of its tests, in their differences, in what it assigns, writes and
    /// prints and in what it leaves may be above 4 * 10^18 in size, with partial sums and products from left to right, and no
    /// number of the base.
    ///
    /// # Errors
    ///
    /// `Memory` when out of memory.
    pub fn part(&mut self, alloc: Global, command: &LCommand) -> Result<PlanPart, Memory>
        requires can { CanBeFollowed (IsSmall form_limit) (object_forms (values_of self.old.base.now)) (plain_lcommand command.now) }
        requires left { AreNumbers (IsSmall form_limit) (followed (values_of self.old.base.now) (plain_lcommand command.now)).forms }
        requires base { (x : ℕ) → IsSmall form_limit (values_of self.old.base.now x) }
        ensures base { self.new.base.now ≡ self.old.base.now }
        ensures part { IfOk result (λ p. plain_part p ≡ brought (values_of self.old.base.now) (plain_lcommand command.now)) }
    {
        let base = self.base;
        self.course.begin(base);
        follow(alloc, command, &mut self.course)?;
        self.course.part(alloc)
    }

    /// What a command over whole objects writes and prints at any site, by forms over the site's own deltas (this project's rule): it
    /// does so wherever its tests come out as at the base. The same numbers may be met as by `part`. There is none where one of these
    /// forms has mixed deltas, or a number that doesn't fit i64.
    ///
    /// # Errors
    ///
    /// `Memory` when out of memory.
    pub fn effect(&mut self, alloc: Global, command: &LCommand) -> Result<Option<Effect>, Memory>
        requires { CanBeFollowed (IsSmall form_limit) (object_forms (values_of self.old.base.now)) (plain_lcommand command.now) }
        ensures base { self.new.base.now ≡ self.old.base.now }
        ensures effect { IfOk result (λ o. IfSome o (IsEffect (followed (values_of self.old.base.now) (plain_lcommand command.now)))) }
    {
        let base = self.base;
        self.course.begin(base);
        follow(alloc, command, &mut self.course)?;
        self.course.effect(alloc)
    }
}

/// What the forms of prints, and the gains of the objects written, depend on, at any base. The lists keep their room.
fn needed(
    alloc: Global,
    standing: &Standing,
    written: &mut Vec<Delta>,
    prints: &mut Vec<Form>,
) -> Result<Vec<Delta>, Memory>
    requires { AreNumbers (IsSmall form_limit) (forms_of standing.now) }
    ensures { IfOk result (λ v. (b : ℕ → ℤ) →
        v.items ≡ print_needs prints.old.items (write_needs b (forms_of standing.now) (map (λ d. d.object) written.old.items))) }
{
    let once = deltas_in_order(alloc, mem::replace(written, Vec::new(alloc)))?;
    let mut needed = gained(alloc, standing, once.as_slice())?;
    *written = once;
    while let Some(form) = prints.pop() {
        form.push_deltas(&mut needed)?;
    }
    deltas_in_order(alloc, needed)
}

/// What the gains of these objects depend on, in no order, and each delta as often as it is needed.
fn gained(alloc: Global, standing: &Standing, written: &[Delta]) -> Result<Vec<Delta>, Memory>
    requires { AreNumbers (IsSmall form_limit) (forms_of standing.now) }
    ensures { IfOk result (λ v. (b : ℕ → ℤ) →
        add_deltas v.items [] ≡ write_needs b (forms_of standing.now) (map (λ d. d.object) written.now)) }
{
    let mut needed = Vec::new(alloc);
    let mut place = written.len();
    while place > 0 {
        place -= 1;
        standing.push_gain(alloc, written[place].object, &mut needed)?;
    }
    Ok(needed)
}
