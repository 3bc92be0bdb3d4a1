//! A workload with its ground calls and their L forms.

ghost use Rattle.std.specs.Prelude.{◌≡◌, ◌<◌, length, map, slice_get, Some, IfOk};
ghost use Rattle.homeo_syntax.specs.LowView.{plain_lcommand};
ghost use Rattle.homeo_syntax.specs.SourceView.{plain_workload};
ghost use Rattle.homeo_meaning.specs.Calls.{CallExists};
ghost use Rattle.homeo_meaning.specs.Declarations.{declarations};
ghost use Rattle.homeo_meaning.specs.Ground.{plain_ground, grounds, ground_of};
ghost use Rattle.homeo_ground.specs.Grounding.{grounding};
ghost use Rattle.homeo_plan.specs.PlanView.{plain_clause};
ghost use Rattle.homeo_plan.specs.Planned.{sites_of, planned, transformed};
ghost use Rattle.homeo_plan.specs.Shares.{takes_part};
ghost use Rattle.homeo_plan.specs.Template.{PlannedCall};
ghost use Rattle.homeo_follow.specs.Named.{named};
ghost use Rattle.homeo_meaning.specs.Forms.{AreForms};
ghost use Rattle.homeo_build.specs.Written.{AreWritten};

use crate::forms::Forms;
use crate::sites::site_count;
use homeo_context::Declarations;
use homeo_delta::transform;
use homeo_ground::Grounding;
use homeo_meaning::padded::item_or;
use homeo_meaning::{Accepted, CallId, GroundCall};
use homeo_plan::Clause;
use homeo_syntax::{LCommand, Memory};
use std::alloc::Global;
use std::marker::Model;

/// An accepted workload with what is fixed for all its rounds: the places of its names; its distinct ground calls, each where it
/// is first called, in the order of the text; which of them each call is; their L forms, once for each transaction with
/// arguments, and the objects that these name; and at each site the objects that some of them can write there. The delta
/// transforms of the forms are not kept, since each has terms for all sites at each read: `command` makes the one that is asked.
#[derive(Drop)]
pub struct Compiled {
    workload: Accepted,
    declared: Declarations,
    calls: Grounding,
    forms: Forms,
    written: Vec<Vec<bool>>,
}

impl Model for Compiled {
    ghost use Rattle.std.specs.Prelude.{◌≡◌, map};
    ghost use Rattle.homeo_syntax.specs.declared.workload.Workload.{Workload};
    ghost use Rattle.homeo_syntax.specs.contracts.workload.Workload.{the_row};
    ghost use Rattle.homeo_syntax.specs.LowView.{plain_lcommand};
    ghost use Rattle.homeo_syntax.specs.SourceView.{plain_workload};
    ghost use Rattle.homeo_meaning.specs.Declarations.{declarations};
    ghost use Rattle.homeo_ground.specs.Grounding.{grounding};
    ghost use Rattle.homeo_follow.specs.Named.{named};
    ghost use Rattle.homeo_meaning.specs.Forms.{AreForms};
    ghost use Rattle.homeo_build.specs.Written.{AreWritten};

    ghost Value = { Workload };

    ghost coded = { the_row.coded };

    ghost view = { λ c. c.workload };

    ghost invariant = { λ c. (c.calls ≡ grounding (plain_workload c.workload))
        × (c.declared ≡ declarations (plain_workload c.workload))
        × AreWritten (plain_workload c.workload) (map (λ row. row.items) c.written.items)
        × AreForms (plain_workload c.workload) (map plain_lcommand c.forms.forms.items) c.forms.places.items
        × (map (λ ns. ns.items) c.forms.names.items ≡ map named (map plain_lcommand c.forms.forms.items)) };
}

impl Compiled {
    /// Takes a workload with the places of its names, its ground calls, their L forms, and what these can write. It takes no
    /// memory.
    pub(crate) fn new(
        workload: Accepted,
        declared: Declarations,
        calls: Grounding,
        forms: Forms,
        written: Vec<Vec<bool>>,
    ) -> Compiled
        requires declared { declared ≡ declarations (plain_workload workload) }
        requires calls { calls ≡ grounding (plain_workload workload) }
        requires forms { AreForms (plain_workload workload) (map plain_lcommand forms.forms.items) forms.places.items }
        requires names { map (λ ns. ns.items) forms.names.items ≡ map named (map plain_lcommand forms.forms.items) }
        requires written { AreWritten (plain_workload workload) (map (λ row. row.items) written.items) }
        ensures { plain_workload result ≡ plain_workload workload }
    {
        Compiled {
            workload,
            declared,
            calls,
            forms,
            written,
        }
    }

    /// Lends the workload.
    pub fn workload(&self) -> &Accepted
        ensures { result.now ≡ self.now }
    {
        &self.workload
    }

    /// Lends the places of the workload's names.
    pub fn declared(&self) -> &Declarations
        ensures { result.now ≡ declarations (plain_workload self.now) }
    {
        &self.declared
    }

    /// Lends the ground calls.
    pub fn calls(&self) -> &[GroundCall]
        ensures { map plain_ground result.now ≡ grounds (plain_workload self.now) }
    {
        self.calls.calls()
    }

    /// Lends the L forms of the ground calls.
    pub(crate) fn forms(&self) -> &Forms
        ensures forms { AreForms (plain_workload self.now) (map plain_lcommand result.now.forms.items) result.now.places.items }
        ensures names { map (λ ns. ns.items) result.now.names.items ≡ map named (map plain_lcommand result.now.forms.items) }
    {
        &self.forms
    }

    /// Lends the L form of the ground call of this number, below that of `calls`: its command over whole objects.
    pub fn form(&self, number: usize) -> &LCommand
        requires { number < length (grounds (plain_workload self.now)) }
        ensures { (g : PlannedCall) → slice_get (planned (plain_workload self.now)) number ≡ Some g → plain_lcommand result.now ≡ g.command }
    {
        self.forms().form(number)
    }

    /// The transformed command of the ground call of this number, below that of `calls`: the delta transform, at the call's site,
    /// of its L form. It is made anew each time.
    ///
    /// # Errors
    ///
    /// `Memory` when out of memory.
    pub fn command(&self, alloc: Global, number: usize) -> Result<LCommand, Memory>
        requires { number < length (grounds (plain_workload self.now)) }
        ensures { IfOk result (λ c. slice_get (transformed (plain_workload self.now)) number ≡ Some (plain_lcommand c)) }
    {
        let sites = site_count(self.workload());
        let calls = self.calls();
        let call = &calls[number];
        let form = self.forms().form(number);
        transform(alloc, form, call.site, sites)
    }

    /// Whether a clause has a term on a delta of a site that some ground call can write there, in time in proportion to its
    /// terms. The site is one of the workload's.
    pub fn takes_part(&self, clause: &Clause, site: u32) -> bool
        requires { site < sites_of (plain_workload self.now) }
        ensures { result ≡ takes_part (sites_of (plain_workload self.now)) (planned (plain_workload self.now)) (plain_clause clause.now) site }
    {
        let rows = self.written.as_slice();
        let row = rows[site as usize].as_slice();
        for term in clause.terms.as_slice() {
            if term.delta.site == site && item_or(row, term.delta.object as usize, false) {
                return true;
            }
        }
        false
    }

    /// The place of a call's ground call among the ground calls, in constant time and without memory. The call is one of the
    /// workload.
    pub fn place(&self, call: CallId) -> u32
        requires { CallExists (plain_workload self.now) call }
        ensures within { result < length (grounds (plain_workload self.now)) }
        ensures place { slice_get (grounds (plain_workload self.now)) result ≡ ground_of (plain_workload self.now) call }
    {
        self.calls.place(call)
    }
}
