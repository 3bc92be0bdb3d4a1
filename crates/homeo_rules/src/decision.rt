//! What is decided of a workload: the fault that decides, or else what was found on the way.

ghost use Rattle.std.specs.Prelude.{◌≡◌, None, map, IfOk};
ghost use Rattle.homeo_syntax.specs.SourceView.{plain_workload};
ghost use Rattle.homeo_syntax.specs.WellFormed.{IsWellFormed};
ghost use Rattle.homeo_rules.specs.inner.Deciding.{keep_all};
ghost use Rattle.homeo_syntax.specs.LowView.{plain_lcommand};
ghost use Rattle.homeo_meaning.specs.Findings.{AreFindings};
ghost use Rattle.homeo_meaning.specs.Forms.{AreForms};
ghost use Rattle.homeo_meaning.specs.GlobalNames.{scope_of, sited_calls};
ghost use Rattle.homeo_meaning.specs.NumberRules.{ground_calls, limit_faults};
ghost use Rattle.homeo_meaning.specs.CallRules.{schedule_faults};
ghost use Rattle.homeo_meaning.specs.Faults.{declared_faults, faults};
ghost use Rattle.homeo_rules.specs.inner.Scopes.{scope_in};
ghost use Rattle.homeo_ground.specs.Sited.{sited};
ghost use Rattle.homeo_rules.specs.inner.Decided.{NamesGlobals, name_fault, faults_with_names, fault_of};

use crate::forms::{Forms, check_forms};
use crate::names::field_table::FieldTable;
use crate::names::items::{self, Items};
use crate::names::scope::Scope;
use crate::rules::bounds::check_objects;
use crate::rules::calls::check_clients;
use crate::rules::limits::{
    check_call_count, check_client_count, check_ground_count, check_site_count,
    check_transaction_count,
};
use crate::rules::objects::check_object_count;
use crate::rules::relations::{check_all_slots, check_relations};
use crate::rules::schedule::check_schedule;
use crate::rules::site_weights::check_site_weights;
use crate::sited::sited_calls;
use crate::transaction::check_transactions;
use homeo_ground::{SitedCall, number_clients};
use homeo_meaning::{Fault, Findings, Purpose};
use homeo_syntax::{Memory, Workload};
use std::alloc::Global;

/// The table of the global names, and the fault that decides among theirs.
fn global_names(alloc: Global, w: &Workload) -> Result<Items, Memory>
    requires { IsWellFormed (plain_workload w.now) }
    ensures { IfOk result (NamesGlobals (plain_workload w.now)) }
{
    let mut items = Items::new(alloc, w.names.as_slice().len(), None)?;
    items::enter_objects(w.objects.as_slice(), &mut items);
    items::enter_relations(w.relations.as_slice(), &mut items);
    items::enter_transactions(w.transactions.as_slice(), &mut items);
    items::enter_clients(w.clients.as_slice(), &mut items);
    Ok(items)
}

/// With the faults of declarations, transactions, clients and weights.
fn declared(
    alloc: Global,
    w: &Workload,
    scope: &Scope<'_>,
    best: Option<Fault>,
) -> Result<Option<Fault>, Memory>
    requires formed { IsWellFormed (plain_workload w.now) }
    requires names { scope_in scope.now ≡ scope_of (plain_workload w.now) }
    ensures { IfOk result (λ b. b ≡ keep_all best (declared_faults (plain_workload w.now))) }
{
    let best = check_objects(w.objects.as_slice(), best);
    let best = check_relations(alloc, w.relations.as_slice(), best)?;
    let names = w.names.as_slice().len();
    let best = check_transactions(alloc, w.transactions.as_slice(), scope, names, best)?;
    let best = check_clients(
        w.clients.as_slice(),
        w.sites,
        scope,
        w.transactions.as_slice(),
        best,
    );
    Ok(check_site_weights(w.sites, w.weights.as_slice(), best))
}

/// With the faults of how many there are of each.
fn limits(
    w: &Workload,
    calls: &[SitedCall<'_>],
    grounds: &[SitedCall<'_>],
    best: Option<Fault>,
) -> Option<Fault>
    requires sited { map sited calls.now ≡ sited_calls (plain_workload w.now) }
    requires grounds { map sited grounds.now ≡ ground_calls (plain_workload w.now) }
    ensures { result ≡ keep_all best (limit_faults (plain_workload w.now)) }
{
    let best = check_site_count(w.sites, best);
    let best = check_all_slots(w.relations.as_slice(), best);
    let best = check_object_count(w.objects.as_slice(), w.relations.as_slice(), best);
    let best = check_transaction_count(w.transactions.as_slice(), best);
    let best = check_client_count(w.clients.as_slice(), best);
    let best = check_call_count(calls, best);
    check_ground_count(grounds, best)
}

/// With the faults of the schedule.
fn schedule(
    alloc: Global,
    purpose: Purpose,
    w: &Workload,
    scope: &Scope<'_>,
    best: Option<Fault>,
) -> Result<Option<Fault>, Memory>
    requires formed { IsWellFormed (plain_workload w.now) }
    requires names { scope_in scope.now ≡ scope_of (plain_workload w.now) }
    ensures { IfOk result (λ b. b ≡ keep_all best (schedule_faults purpose (scope_of (plain_workload w.now)) (plain_workload w.now).clients (plain_workload w.now).end (plain_workload w.now).schedule)) }
{
    let names = w.names.as_slice().len();
    check_schedule(
        alloc,
        purpose,
        &w.schedule,
        scope,
        w.clients.as_slice(),
        names,
        w.end,
        best,
    )
}

/// The fault that decides, of those of the text.
fn text(
    alloc: Global,
    purpose: Purpose,
    w: &Workload,
    scope: &Scope<'_>,
    calls: &[SitedCall<'_>],
    grounds: &[SitedCall<'_>],
    best: Option<Fault>,
) -> Result<Option<Fault>, Memory>
    requires formed { IsWellFormed (plain_workload w.now) }
    requires names { scope_in scope.now ≡ scope_of (plain_workload w.now) }
    requires sited { map sited calls.now ≡ sited_calls (plain_workload w.now) }
    requires grounds { map sited grounds.now ≡ ground_calls (plain_workload w.now) }
    ensures { IfOk result (λ b. b ≡ keep_all best (faults_with_names purpose (plain_workload w.now))) }
{
    let best = declared(alloc, w, scope, best)?;
    let best = limits(w, calls, grounds, best);
    schedule(alloc, purpose, w, scope, best)
}

/// The L forms, or the fault that decides, with the calls and the fault that decides among those of the global names.
fn with_calls(
    alloc: Global,
    purpose: Purpose,
    w: &Workload,
    scope: &Scope<'_>,
    calls: &[SitedCall<'_>],
    grounds: &[SitedCall<'_>],
    best: Option<Fault>,
) -> Result<Result<Forms, Fault>, Memory>
    requires formed { IsWellFormed (plain_workload w.now) }
    requires names { scope_in scope.now ≡ scope_of (plain_workload w.now) }
    requires sited { map sited calls.now ≡ sited_calls (plain_workload w.now) }
    requires grounds { map sited grounds.now ≡ ground_calls (plain_workload w.now) }
    requires best { best ≡ name_fault (plain_workload w.now) }
    ensures fault { IfOk result (λ r. fault_of r ≡ keep_all None (faults purpose (plain_workload w.now))) }
    ensures forms { IfOk result (λ r. IfOk r (λ f. AreForms (plain_workload w.now) (map plain_lcommand f.forms.items) f.places.items)) }
{
    let best = text(alloc, purpose, w, scope, calls, grounds, best)?;
    match best {
        Some(fault) => Ok(Err(fault)),
        None => check_forms(alloc, purpose, w, scope, calls, grounds),
    }
}

/// The decision, with the scope of the global names and the fault that decides among theirs.
fn in_scope(
    alloc: Global,
    purpose: Purpose,
    w: &Workload,
    scope: &Scope<'_>,
    best: Option<Fault>,
) -> Result<Result<Findings, Fault>, Memory>
    requires formed { IsWellFormed (plain_workload w.now) }
    requires names { scope_in scope.now ≡ scope_of (plain_workload w.now) }
    requires best { best ≡ name_fault (plain_workload w.now) }
    ensures fault { IfOk result (λ r. fault_of r ≡ keep_all None (faults purpose (plain_workload w.now))) }
    ensures findings { IfOk result (λ r. IfOk r (AreFindings (plain_workload w.now))) }
{
    let calls = sited_calls(alloc, w.clients.as_slice())?;
    let numbered = number_clients(alloc, w.clients.as_slice())?;
    let decided = with_calls(
        alloc,
        purpose,
        w,
        scope,
        calls.as_slice(),
        numbered.calls.as_slice(),
        best,
    )?;
    match decided {
        Err(fault) => Ok(Err(fault)),
        Ok(Forms { forms, places }) => Ok(Ok(Findings {
            calls: numbered.places,
            forms,
            places,
        })),
    }
}

/// What was found of a workload, or the fault that decides.
pub(crate) fn decide(
    alloc: Global,
    purpose: Purpose,
    w: &Workload,
) -> Result<Result<Findings, Fault>, Memory>
    requires { IsWellFormed (plain_workload w.now) }
    ensures fault { IfOk result (λ r. fault_of r ≡ keep_all None (faults purpose (plain_workload w.now))) }
    ensures findings { IfOk result (λ r. IfOk r (AreFindings (plain_workload w.now))) }
{
    let items = global_names(alloc, w)?;
    let fields = FieldTable::of(alloc, w.relations.as_slice())?;
    let scope = Scope {
        items: items.as_slice(),
        relations: &fields,
    };
    in_scope(alloc, purpose, w, &scope, items.best())
}
