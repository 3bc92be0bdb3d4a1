//! What is asked of a call: the faults of its steps.

ghost use Rattle.std.specs.List.{flat_map};
ghost use Rattle.homeo_meaning.specs.Small.{IsSmall};
ghost use Rattle.homeo_plan.specs.FormSizes.{Numbers};
ghost use Rattle.homeo_plan.specs.Limit.{form_limit};
ghost use Rattle.homeo_plan.specs.PlanView.{plain_linear};
ghost use Rattle.homeo_certificate.specs.Kept.{atom, kept_true, kept_false};
ghost use Rattle.homeo_certificate.specs.Followed.{not_frozen, remote_deltas, no_clause, foreign, atom_faults};
ghost use Rattle.homeo_verify.specs.inner.Compares.{AreSmall, atoms_of};
ghost use Rattle.homeo_verify.specs.inner.Stops.{Finds};
ghost use Rattle.homeo_verify.specs.inner.RulesView.{plain_rules};

use crate::conditions::{Compared, is_true};
use crate::sizes::difference;
use crate::stop::Stop;
use crate::table::ClauseTable;
use homeo_cert_reader::Freezes;
use homeo_certificate::Fault;
use homeo_form::Form;
use homeo_plan::{Delta, Linear};
use homeo_syntax::{Compare, SplitName};
use std::alloc::Global;

/// The site of a call, and what the treaties ask.
#[derive(Clone, Copy)]
pub(crate) struct Rules<'a> {
    pub(crate) site: u32,
    pub(crate) clauses: &'a ClauseTable<'a>,
    pub(crate) freezes: &'a Freezes,
}

impl<'a> Rules<'a> {
    /// That each of the deltas is frozen.
    fn freeze(&self, deltas: &[Delta]) -> Result<(), Stop>
        ensures { Finds (not_frozen (plain_rules self.now) deltas.now) result }
    {
        for delta in deltas {
            if !self.freezes.has(*delta) {
                return Err(Stop::Fault(Fault::NotFrozen(*delta)));
            }
        }
        Ok(())
    }

    /// That each delta of another site in the form is frozen.
    pub(crate) fn freeze_remote(&self, alloc: Global, form: &Form) -> Result<(), Stop>
        ensures { Finds (not_frozen (plain_rules self.now) (remote_deltas (plain_rules self.now) form.now)) result }
    {
        let remote = form.remote(alloc, self.site)?;
        self.freeze(remote.as_slice())
    }

    /// That a clause keeps the form at most 0, if it has terms.
    fn keep_form(&self, alloc: Global, form: &Linear) -> Result<(), Stop>
        requires { IsSmall form_limit form.now.constant }
        ensures { Finds (no_clause (plain_rules self.now) (plain_linear form.now)) result }
    {
        if form.terms.as_slice().is_empty() {
            return Ok(());
        }
        if self.clauses.keeps(alloc, form)? {
            Ok(())
        } else {
            Err(Stop::Fault(Fault::NoClause))
        }
    }

    /// That left - right + more is kept at most 0.
    fn keep(&self, alloc: Global, left: &Form, right: &Form, more: i64) -> Result<(), Stop>
        requires left { Numbers (IsSmall form_limit) left.now }
        requires right { Numbers (IsSmall form_limit) right.now }
        requires more { IsSmall form_limit more }
        ensures { Finds (atom_faults (plain_rules self.now) (atom left.now right.now more)) result }
    {
        let form = difference(alloc, left, right, more)?;
        self.freeze(form.mixed.as_slice())?;
        self.keep_form(alloc, &form)
    }

    /// That a comparison is kept as it is where all deltas are 0.
    pub(crate) fn keep_compared(&self, alloc: Global, c: &Compared) -> Result<(), Stop>
        requires { AreSmall c.now }
        ensures { Finds (flat_map (atom_faults (plain_rules self.now)) (atoms_of c.now)) result }
    {
        if c.holds {
            self.keep_true(alloc, c.op, &c.left, &c.right)
        } else {
            self.keep_false(alloc, c)
        }
    }

    fn keep_true(&self, alloc: Global, op: Compare, left: &Form, right: &Form) -> Result<(), Stop>
        requires left { Numbers (IsSmall form_limit) left.now }
        requires right { Numbers (IsSmall form_limit) right.now }
        ensures { Finds (flat_map (atom_faults (plain_rules self.now)) (kept_true op left.now right.now)) result }
    {
        match op {
            Compare::Less => self.keep(alloc, left, right, 1),
            Compare::LessEqual => self.keep(alloc, left, right, 0),
            Compare::Equal => {
                self.keep(alloc, left, right, 0)?;
                self.keep(alloc, right, left, 0)
            }
        }
    }

    /// That a comparison which doesn't hold where all deltas are 0 is kept so: the one that holds in its place is kept.
    fn keep_false(&self, alloc: Global, c: &Compared) -> Result<(), Stop>
        requires { AreSmall c.now }
        ensures { Finds (flat_map (atom_faults (plain_rules self.now)) (kept_false c.now.op c.now.left c.now.right)) result }
    {
        match c.op {
            Compare::Less => self.keep_true(alloc, Compare::LessEqual, &c.right, &c.left),
            Compare::LessEqual => self.keep_true(alloc, Compare::Less, &c.right, &c.left),
            Compare::Equal => {
                if is_true(Compare::Less, &c.left, &c.right) {
                    self.keep_true(alloc, Compare::Less, &c.left, &c.right)
                } else {
                    self.keep_true(alloc, Compare::Less, &c.right, &c.left)
                }
            }
        }
    }

    /// That a delta of the call's site is written.
    pub(crate) fn own(&self, target: SplitName) -> Result<(), Stop>
        ensures { Finds (foreign (plain_rules self.now) target) result }
    {
        match target {
            SplitName::Delta { object: _, site } => {
                if site == self.site {
                    Ok(())
                } else {
                    Err(Stop::Fault(Fault::ForeignWrite))
                }
            }
            SplitName::Whole(_) => Err(Stop::Fault(Fault::ForeignWrite)),
            SplitName::Base(_) => Err(Stop::Fault(Fault::ForeignWrite)),
        }
    }
}
