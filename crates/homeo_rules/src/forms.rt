//! The L forms of calls, or the fault of them that decides.

ghost use Rattle.std.specs.Prelude.{◌≡◌, ◌++◌, None, map, IfOk};
ghost use Rattle.homeo_syntax.specs.LowView.{plain_lcommand};
ghost use Rattle.homeo_syntax.specs.SourceView.{plain_workload};
ghost use Rattle.homeo_rules.specs.inner.Deciding.{keep_all};
ghost use Rattle.homeo_meaning.specs.Faults.{form_faults};
ghost use Rattle.homeo_meaning.specs.Forms.{AreForms};
ghost use Rattle.homeo_meaning.specs.GlobalNames.{scope_of, sited_calls};
ghost use Rattle.homeo_meaning.specs.NumberRules.{ground_calls};
ghost use Rattle.homeo_meaning.specs.Schema.{nat_of};
ghost use Rattle.homeo_meaning.specs.SizeRules.{size_faults, print_faults, weight_faults, makes_tables, row_faults};
ghost use Rattle.homeo_rules.specs.inner.Decided.{IsFaultless, fault_of};
ghost use Rattle.homeo_rules.specs.inner.Scopes.{scope_in};
ghost use Rattle.homeo_ground.specs.Sited.{sited};
ghost use Rattle.homeo_rules.specs.inner.Bodies.{form_place};
ghost use Rattle.homeo_rules.specs.inner.Sizes.{IsSetUp, workload_of, call_of, AreTold, AreKnown, AreMeasured};

use crate::names::scope::Scope;
use crate::rules::bodies::Measuring;
use crate::rules::prints::check_prints;
use crate::rules::sizes::{
    MeasuredCall, MeasuredCalls, are_in_order, check_rows, check_sizes, check_weights, form_places,
    measure_calls,
};
use homeo_ground::SitedCall;
use homeo_meaning::{Fault, Purpose};
use homeo_size::Layout;
use homeo_syntax::{LCommand, List, Memory, Workload};
use std::alloc::Global;

/// The L forms of ground calls, once for each transaction with arguments, and of each ground call the place of its own.
#[derive(Drop)]
pub(crate) struct Forms {
    pub(crate) forms: List<LCommand>,
    pub(crate) places: Vec<usize>,
}

/// The number of sites, which is not negative where no limit is passed.
#[tactic(auto, unfolding(homeo_meaning::specs::Key::definitions, homeo_syntax::specs::Key::definitions))]
fn site_count(w: &Workload) -> u64
    ensures { result ≡ nat_of (plain_workload w.now).sites.value }
{
    w.sites.value.max(0) as u64
}

/// The fault that decides, of those of sizes and of prints.
fn check_sizes_and_prints(
    alloc: Global,
    measured: &[MeasuredCall<'_>],
    calls: &[SitedCall<'_>],
    measuring: &Measuring<'_>,
) -> Result<Option<Fault>, Memory>
    requires set_up { IsSetUp measuring.now }
    requires told { AreTold (workload_of measuring.now) 0 measured.now }
    requires grounds { map call_of measured.now ≡ ground_calls (workload_of measuring.now) }
    requires sited { map sited calls.now ≡ sited_calls (workload_of measuring.now) }
    ensures { IfOk result (λ b. b ≡
        keep_all None (size_faults (workload_of measuring.now) ++ print_faults (workload_of measuring.now))) }
{
    let best = check_sizes(measured, measuring, None);
    check_prints(alloc, calls, measuring, best)
}

/// Whether symbolic tables are made for the purpose.
fn makes_tables(purpose: Purpose) -> bool
    ensures { result ≡ makes_tables purpose }
{
    match purpose {
        Purpose::Tables => true,
        Purpose::Steps | Purpose::Run | Purpose::Treaty => false,
    }
}

/// With the faults of rows, which only tables have.
fn check_tables(
    purpose: Purpose,
    measured: &[MeasuredCall<'_>],
    measuring: &Measuring<'_>,
    best: Option<Fault>,
) -> Option<Fault>
    requires measured { AreMeasured (workload_of measuring.now) measured.now }
    requires grounds { map call_of measured.now ≡ ground_calls (workload_of measuring.now) }
    ensures { result ≡ keep_all best (row_faults purpose (workload_of measuring.now)) }
{
    if makes_tables(purpose) {
        check_rows(measured, measuring, best)
    } else {
        best
    }
}

/// The fault that decides, of those of weights and of rows.
fn check_weights_and_rows(
    purpose: Purpose,
    measured: &[MeasuredCall<'_>],
    measuring: &Measuring<'_>,
) -> Option<Fault>
    requires measured { AreMeasured (workload_of measuring.now) measured.now }
    requires grounds { map call_of measured.now ≡ ground_calls (workload_of measuring.now) }
    ensures { result ≡
        keep_all None (weight_faults (workload_of measuring.now) ++ row_faults purpose (workload_of measuring.now)) }
{
    let best = check_weights(measured, measuring, None);
    check_tables(purpose, measured, measuring, best)
}

/// The fault that decides among those of the L forms for the purpose, if there is one.
fn check_measured(
    alloc: Global,
    purpose: Purpose,
    measured: &[MeasuredCall<'_>],
    calls: &[SitedCall<'_>],
    measuring: &Measuring<'_>,
) -> Result<Option<Fault>, Memory>
    requires set_up { IsSetUp measuring.now }
    requires told { AreTold (workload_of measuring.now) 0 measured.now }
    requires grounds { map call_of measured.now ≡ ground_calls (workload_of measuring.now) }
    requires sited { map sited calls.now ≡ sited_calls (workload_of measuring.now) }
    ensures fault { IfOk result (λ b. b ≡ keep_all None (form_faults purpose (workload_of measuring.now))) }
    ensures known { IfOk result (λ b. b ≡ None → AreKnown measured.now) }
{
    let best = check_sizes_and_prints(alloc, measured, calls, measuring)?;
    match best {
        Some(_) => Ok(best),
        None => Ok(check_weights_and_rows(purpose, measured, measuring)),
    }
}

/// The L forms of measured calls, unless there is a fault.
fn unless_fault(
    alloc: Global,
    fault: Option<Fault>,
    measured: MeasuredCalls<'_>,
) -> Result<Result<Forms, Fault>, Memory>
    ensures fault { IfOk result (λ r. fault_of r ≡ fault) }
    ensures forms { IfOk result (λ r. IfOk r (λ f. f.forms.items ≡ measured.entry.forms.items)) }
    ensures places { IfOk result (λ r. IfOk r (λ f. f.places.items ≡ map (λ c. form_place c.body) measured.entry.calls.items)) }
{
    if let Some(fault) = fault {
        return Ok(Err(fault));
    }
    let places = form_places(alloc, measured.calls.as_slice())?;
    Ok(Ok(Forms {
        forms: measured.forms,
        places,
    }))
}

/// The L forms of the ground calls, or the fault that decides of those that they have for the purpose, where the text has
/// none.
pub(crate) fn check_forms<'a>(
    alloc: Global,
    purpose: Purpose,
    w: &'a Workload,
    scope: &Scope<'a>,
    calls: &[SitedCall<'_>],
    grounds: &[SitedCall<'_>],
) -> Result<Result<Forms, Fault>, Memory>
    requires names { scope_in scope.now ≡ scope_of (plain_workload w.now) }
    requires sited { map sited calls.now ≡ sited_calls (plain_workload w.now) }
    requires grounds { map sited grounds.now ≡ ground_calls (plain_workload w.now) }
    requires faultless { IsFaultless (plain_workload w.now) }
    ensures fault { IfOk result (λ r. fault_of r ≡ keep_all None (form_faults purpose (plain_workload w.now))) }
    ensures forms { IfOk result (λ r. IfOk r (λ f. AreForms (plain_workload w.now) (map plain_lcommand f.forms.items) f.places.items)) }
{
    let layout = Layout::of(alloc, w)?;
    let measuring = Measuring {
        scope: *scope,
        workload: w,
        layout: &layout,
        sites: site_count(w),
        in_order: are_in_order(grounds),
    };
    let measured = measure_calls(alloc, grounds, &measuring)?;
    let fault = check_measured(alloc, purpose, measured.calls.as_slice(), calls, &measuring)?;
    unless_fault(alloc, fault, measured)
}
