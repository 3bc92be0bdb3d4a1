//! Residuals that are followed from command to command.

ghost use Rattle.std.specs.Prelude.{◌≡◌, [], map, IfOk, OnOk};
ghost use Rattle.homeo_syntax.specs.Low.{Commands, MoreCommand, NoCommand, Assign, Write, Print};
ghost use Rattle.homeo_syntax.specs.LowView.{low_commands, plain_lexpr, plain_lcommand};
ghost use Rattle.homeo_meaning.specs.LowMeaning.{DeltaAt};
ghost use Rattle.homeo_meaning.specs.Serial.{values_of};
ghost use Rattle.homeo_meaning.specs.Small.{IsSmall};
ghost use Rattle.homeo_plan.specs.FormSizes.{CanForm, CanFollow};
ghost use Rattle.homeo_plan.specs.Linear.{add_deltas, base_forms};
ghost use Rattle.homeo_plan.specs.Needs.{written_needs, needs, IsStraightOne, IsStraight};
ghost use Rattle.homeo_plan.specs.Limit.{form_limit};
ghost use Rattle.homeo_atoms.specs.inner.Following.{needs_of, Followed};
ghost use Rattle.homeo_split.specs.Places.{plain_place};
ghost use Rattle.homeo_form.specs.Standing.{forms_of};

use homeo_form::{Standing, deltas_in_order, expression_form, push_written};
use homeo_plan::Delta;
use homeo_split::{Place, place_of, place_of_temp};
use homeo_syntax::{LCommand, LExpr, Memory, SplitName, Temp};
use std::alloc::Global;

/// A residual of a site, as far as it was followed.
#[derive(Drop)]
pub(crate) struct Following<'a> {
    site: u32,
    standing: Standing<'a>,
    /// The deltas written, as they were written.
    written: Vec<Delta>,
    /// Of each print what it needs of other sites.
    prints: Vec<Vec<Delta>>,
}

impl<'a> Following<'a> {
    pub(crate) fn new(alloc: Global, site: u32, base: &'a [i64]) -> Following<'a>
        ensures standing { forms_of result.standing ≡ base_forms (values_of base.now) }
        ensures needs { (cs : Commands) → needs_of result cs ≡ needs site (values_of base.now) cs }
    {
        Following {
            site,
            standing: Standing::new(alloc, base),
            written: Vec::new(alloc),
            prints: Vec::new(alloc),
        }
    }

    /// Follows assignments, writes of deltas and prints.
    pub(crate) fn follow_all(&mut self, alloc: Global, commands: &[LCommand]) -> Result<(), Memory>
        requires straight { IsStraight (low_commands (map plain_lcommand commands.now)) }
        requires small { CanFollow (IsSmall form_limit) (forms_of self.old.standing) (low_commands (map plain_lcommand commands.now)) }
        ensures { OnOk result (needs_of self.new NoCommand ≡ needs_of self.old (low_commands (map plain_lcommand commands.now))) }
    {
        for command in commands {
            self.follow(alloc, command)?;
        }
        Ok(())
    }

    /// Follows one of them.
    fn follow(&mut self, alloc: Global, command: &LCommand) -> Result<(), Memory>
        requires straight { IsStraightOne (plain_lcommand command.now) }
        requires small { CanFollow (IsSmall form_limit) (forms_of self.old.standing) (MoreCommand (plain_lcommand command.now) NoCommand) }
        ensures { OnOk result (Followed self.old self.new (plain_lcommand command.now)) }
    {
        match command {
            LCommand::Assign { target, value } => self.assign(alloc, *target, value),
            LCommand::Write { target, value } => self.write(alloc, *target, value),
            LCommand::Print { value } => self.print(alloc, value),
            LCommand::Skip | LCommand::Seq { .. } | LCommand::If { .. } => unreachable!(),
        }
    }

    fn assign(&mut self, alloc: Global, target: Temp, value: &LExpr) -> Result<(), Memory>
        requires { CanForm (IsSmall form_limit) (forms_of self.old.standing) (plain_lexpr value.now) }
        ensures { OnOk result (Followed self.old self.new (Assign target (plain_lexpr value.now))) }
    {
        let form = expression_form(alloc, &self.standing, value)?;
        self.standing.set(place_of_temp(target), form)
    }

    fn write(&mut self, alloc: Global, target: SplitName, value: &LExpr) -> Result<(), Memory>
        requires { CanForm (IsSmall form_limit) (forms_of self.old.standing) (plain_lexpr value.now) }
        ensures { OnOk result (Followed self.old self.new (Write target (plain_lexpr value.now))) }
    {
        let form = expression_form(alloc, &self.standing, value)?;
        self.standing.set(place_of(target), form)?;
        push_written(&mut self.written, target)
    }

    fn print(&mut self, alloc: Global, value: &LExpr) -> Result<(), Memory>
        requires { CanForm (IsSmall form_limit) (forms_of self.old.standing) (plain_lexpr value.now) }
        ensures { OnOk result (Followed self.old self.new (Print (plain_lexpr value.now))) }
    {
        let form = expression_form(alloc, &self.standing, value)?;
        self.prints.push(form.remote(alloc, self.site)?)?;
        Ok(())
    }

    /// What the residual needs, where it ends here.
    pub(crate) fn needs(self, alloc: Global) -> Result<Vec<Delta>, Memory>
        ensures { IfOk result (λ v. v.items ≡ needs_of self.entry NoCommand) }
    {
        let mut prints = self.prints;
        let written = deltas_in_order(alloc, self.written)?;
        let mut needed = written_needs(alloc, self.site, &self.standing, written.as_slice())?;
        while let Some(deltas) = prints.pop() {
            needed.extend_from_slice(deltas.as_slice())?;
        }
        deltas_in_order(alloc, needed)
    }
}

/// What the deltas written need of other sites, in no order, and each as often as it is needed.
fn written_needs(
    alloc: Global,
    site: u32,
    standing: &Standing,
    written: &[Delta],
) -> Result<Vec<Delta>, Memory>
    ensures { IfOk result (λ v. add_deltas v.items [] ≡ written_needs site (forms_of standing.now) written.now) }
{
    let mut needed = Vec::new(alloc);
    let mut place = written.len();
    while place > 0 {
        place -= 1;
        let form = standing.form_at(alloc, place_of_delta(&written[place]))?;
        let deltas = form.remote(alloc, site)?;
        needed.extend_from_slice(deltas.as_slice())?;
    }
    Ok(needed)
}

fn place_of_delta(delta: &Delta) -> Place
    ensures { plain_place result ≡ DeltaAt delta.now.object delta.now.site }
{
    Place::Delta {
        object: delta.object,
        site: delta.site,
    }
}
