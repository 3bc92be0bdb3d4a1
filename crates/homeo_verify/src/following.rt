//! Calls that are followed along the branch that they take where all deltas are 0.

ghost use Rattle.std.specs.Prelude.{◌≡◌, ◌++◌, [], map, OnOk, IfOk};
ghost use Rattle.std.specs.List.{flat_map};
ghost use Rattle.homeo_syntax.specs.LowView.{low_commands, plain_lexpr, plain_lcond, plain_lcommand};
ghost use Rattle.homeo_syntax.specs.Low.{Assign, Write, Print};
ghost use Rattle.homeo_meaning.specs.LowMeaning.{holds};
ghost use Rattle.homeo_meaning.specs.Serial.{values_of};
ghost use Rattle.homeo_plan.specs.Linear.{base_forms};
ghost use Rattle.homeo_certificate.specs.Met.{at_zero, met_in_cond};
ghost use Rattle.homeo_certificate.specs.Kept.{kept};
ghost use Rattle.homeo_certificate.specs.Followed.{too_large, atom_faults, faults, all_faults, call_faults};
ghost use Rattle.homeo_cert_reader.specs.CertificateView.{plain_call, plain_certificate};
ghost use Rattle.homeo_verify.specs.inner.Stops.{Finds};
ghost use Rattle.homeo_verify.specs.inner.Follows.{Follows, FollowsAll, rules_in, forms_in, written_in, written_faults};
ghost use Rattle.homeo_verify.specs.inner.RulesView.{plain_rules};

use crate::conditions::condition;
use crate::rules::Rules;
use crate::sizes::form_of;
use crate::stop::Stop;
use crate::table::ClauseTable;
use homeo_cert_reader::{Call, Certificate};
use homeo_form::{Standing, deltas_in_order, push_written};
use homeo_plan::Delta;
use homeo_split::{Place, place_of, place_of_temp};
use homeo_syntax::{LCommand, LCond, LExpr, SplitName, Temp};
use std::alloc::Global;

/// A call, as far as it was followed.
#[derive(Drop)]
pub(crate) struct Following<'a> {
    rules: Rules<'a>,
    standing: Standing<'a>,
    /// The deltas written, as they were written.
    written: Vec<Delta>,
}

impl<'a> Following<'a> {
    #[tactic(auto, unfolding(homeo_plan::specs::Key::definitions))]
    fn new(alloc: Global, rules: Rules<'a>, base: &'a [i64]) -> Following<'a>
        ensures rules { rules_in result ≡ plain_rules rules.entry }
        ensures forms { forms_in result ≡ base_forms (values_of base.now) }
        ensures written { written_in result ≡ [] }
    {
        Following {
            rules,
            standing: Standing::new(alloc, base),
            written: Vec::new(alloc),
        }
    }

    /// Follows a command.
    #[cycle(following)]
    #[tactic(auto, using(homeo_syntax::proofs::Measures::low_command_parts, homeo_syntax::proofs::LowViews::low_command_views))]
    fn follow(&mut self, alloc: Global, command: &LCommand) -> Result<(), Stop>
        ensures faults { Finds (faults (rules_in self.old) (plain_lcommand command.now) (forms_in self.old)) result }
        ensures after { OnOk result (Follows (plain_lcommand command.now) self.old self.new) }
    {
        match command {
            LCommand::Skip => Ok(()),
            LCommand::Assign { target, value } => self.assign(alloc, *target, value),
            LCommand::Write { target, value } => self.write(alloc, *target, value),
            LCommand::Print { value } => self.print(alloc, value),
            LCommand::Seq { commands } => self.follow_all(alloc, commands.as_slice()),
            LCommand::If { test, yes, no } => {
                if self.branch(alloc, test)? {
                    self.follow(alloc, yes)
                } else {
                    self.follow(alloc, no)
                }
            }
        }
    }

    #[cycle(following)]
    #[tactic(auto, using(homeo_syntax::proofs::Measures::low_command_parts))]
    fn follow_all(&mut self, alloc: Global, commands: &[LCommand]) -> Result<(), Stop>
        ensures faults { Finds (all_faults (rules_in self.old) (low_commands (map plain_lcommand commands.now)) (forms_in self.old)) result }
        ensures after { OnOk result (FollowsAll (low_commands (map plain_lcommand commands.now)) self.old self.new) }
    {
        for command in commands {
            self.follow(alloc, command)?;
        }
        Ok(())
    }

    fn assign(&mut self, alloc: Global, target: Temp, value: &LExpr) -> Result<(), Stop>
        ensures faults { Finds (faults (rules_in self.old) (Assign target (plain_lexpr value.now)) (forms_in self.old)) result }
        ensures after { OnOk result (Follows (Assign target (plain_lexpr value.now)) self.old self.new) }
    {
        let form = form_of(alloc, &self.standing, value)?;
        self.standing.set(place_of_temp(target), form)?;
        Ok(())
    }

    fn write(&mut self, alloc: Global, target: SplitName, value: &LExpr) -> Result<(), Stop>
        ensures faults { Finds (faults (rules_in self.old) (Write target (plain_lexpr value.now)) (forms_in self.old)) result }
        ensures after { OnOk result (Follows (Write target (plain_lexpr value.now)) self.old self.new) }
    {
        self.rules.own(target)?;
        let form = form_of(alloc, &self.standing, value)?;
        self.standing.set(place_of(target), form)?;
        push_written(&mut self.written, target)?;
        Ok(())
    }

    fn print(&mut self, alloc: Global, value: &LExpr) -> Result<(), Stop>
        ensures faults { Finds (faults (rules_in self.old) (Print (plain_lexpr value.now)) (forms_in self.old)) result }
        ensures after { OnOk result (Follows (Print (plain_lexpr value.now)) self.old self.new) }
    {
        let form = form_of(alloc, &self.standing, value)?;
        self.rules.freeze_remote(alloc, &form)
    }

    /// Whether the first branch is taken. Its test is kept as it is.
    fn branch(&self, alloc: Global, test: &LCond) -> Result<bool, Stop>
        ensures faults { Finds
            (too_large (met_in_cond (forms_in self.now) (plain_lcond test.now))
            ++ flat_map (atom_faults (rules_in self.now)) (kept (forms_in self.now) (plain_lcond test.now))) result }
        ensures taken { IfOk result (λ b. b ≡ holds (plain_lcond test.now) (at_zero (forms_in self.now))) }
    {
        let tested = condition(alloc, &self.standing, test)?;
        for compared in &tested.compared {
            self.rules.keep_compared(alloc, compared)?;
        }
        Ok(tested.holds)
    }

    /// That the deltas written depend on no delta of another site.
    fn end(self, alloc: Global) -> Result<(), Stop>
        ensures { Finds (flat_map (written_faults self.entry) (written_in self.entry)) result }
    {
        let written = deltas_in_order(alloc, self.written)?;
        for delta in &written {
            let place = Place::Delta {
                object: delta.object,
                site: delta.site,
            };
            let form = self.standing.form_at(alloc, place)?;
            self.rules.freeze_remote(alloc, &form)?;
        }
        Ok(())
    }
}

/// The first fault of a call, if it has one. The table is that of the certificate's clauses.
pub(crate) fn follow_call(
    alloc: Global,
    c: &Certificate,
    table: &ClauseTable,
    call: &Call,
) -> Result<(), Stop>
    requires { table.now ≡ (plain_certificate c.now).clauses }
    ensures { Finds (call_faults (plain_certificate c.now) (plain_call call.now)) result }
{
    let rules = Rules {
        site: call.site,
        clauses: table,
        freezes: &c.freezes,
    };
    let mut following = Following::new(alloc, rules, c.base.as_slice());
    following.follow(alloc, &call.command)?;
    following.end(alloc)
}
