//! How large the L forms of the ground calls are, how heavy, and their tables.

ghost use Rattle.std.specs.Prelude.{◌≡◌, ◌+◌, ◌*◌, ◌||◌, not, map, min, nat_le, nat_lt, All, IfOk, OnOk};
ghost use Rattle.std.specs.List.{flat_map};
ghost use Rattle.homeo_rules.specs.inner.Deciding.{keep_all};
ghost use Rattle.homeo_meaning.specs.NameRules.{when, fault};
ghost use Rattle.homeo_meaning.specs.TransactionRules.{each};
ghost use Rattle.homeo_meaning.specs.SizeRules.{extent_of, too_large, heavy_call, too_many_rows};
ghost use Rattle.homeo_meaning.specs.declared.rules.Phase.TheVariants.{Size, Weight, Rows};
ghost use Rattle.homeo_ground.specs.Sited.{sited};
ghost use Rattle.homeo_syntax.specs.LowView.{plain_lcommand};
ghost use Rattle.homeo_meaning.specs.Forms.{AreForms, body_of};
ghost use Rattle.homeo_meaning.specs.Ground.{ground_of_sited};
ghost use Rattle.homeo_meaning.specs.NumberRules.{ground_calls};
ghost use Rattle.homeo_rules.specs.inner.Bodies.{AreBodies, IsPut, bodies_of, form_place};
ghost use Rattle.homeo_rules.specs.inner.Order.{in_order};
ghost use Rattle.homeo_rules.specs.inner.Sizes.{IsSetUp, IsNamed, workload_of, call_of, IsTold, AreTold, AreKnown, AreMeasured, is_too_large, known};

use crate::deciding::at_name;
use crate::rules::bodies::{Bodies, MeasuredBody, Measuring};
use homeo_ground::SitedCall;
use homeo_meaning::{Fault, Phase};
use homeo_size::{BEYOND, Measure, TOO_HEAVY};
use homeo_syntax::{Ident, LCommand, List, Memory};
use std::alloc::Global;

/// The largest size of a ground call.
const LARGEST: u64 = 200_000;

/// The greatest depth of a ground call.
const DEEPEST: u64 = 1_000;

/// The largest sizes together.
const LARGEST_TOGETHER: u64 = 2_000_000;

/// The most rows of a ground call's table.
const MOST_ROWS: u64 = 4_096;

/// The most rows times sizes together.
const MOST_ROWS_TOGETHER: u64 = 8_000_000;

/// What is told of a call that is too large, or that comes after calls that are too large together.
const UNMEASURED: Measure = Measure {
    size: BEYOND,
    depth: BEYOND,
    weight: TOO_HEAVY,
    rows: BEYOND,
};

/// A ground call with what is measured of its L form, which is nothing where none was made: it is too large, or those before it
/// are together.
#[derive(Clone, Copy)]
pub(crate) struct MeasuredCall<'a> {
    pub(crate) call: SitedCall<'a>,
    pub(crate) body: Option<MeasuredBody>,
}

/// Ground calls, and the L forms that were made, once for each transaction with arguments.
#[derive(Drop)]
pub(crate) struct MeasuredCalls<'a> {
    pub(crate) calls: Vec<MeasuredCall<'a>>,
    pub(crate) forms: List<LCommand>,
}

/// A sum, up to the number that stands for all that are larger.
fn capped_sum(a: u64, b: u64) -> u64
    ensures { result ≡ min 8000001 (a + b) }
{
    BEYOND.min(a.saturating_add(b))
}

/// A product, up to the same number.
fn capped_product(a: u64, b: u64) -> u64
    ensures { result ≡ min 8000001 (a * b) }
{
    BEYOND.min(a.saturating_mul(b))
}

/// Whether the calls stand in the order of the text.
pub(crate) fn are_in_order(calls: &[SitedCall<'_>]) -> bool
    ensures { result ≡ in_order 0 (map sited calls.now) }
{
    let mut last = 0;
    for call in calls {
        if call.name.offset < last {
            return false;
        }
        last = call.name.offset;
    }
    true
}

/// Measures a call, unless those before it are too large together already: then what comes is a fault, however large.
fn measure_after(
    alloc: Global,
    total: u64,
    call: SitedCall<'_>,
    measuring: &Measuring<'_>,
    bodies: &mut Bodies,
) -> Result<Option<MeasuredBody>, Memory>
    requires set_up { IsSetUp measuring.now }
    requires named { IsNamed (workload_of measuring.now) (sited call) }
    requires bodies { AreBodies (workload_of measuring.now) bodies.old }
    ensures bodies { OnOk result (AreBodies (workload_of measuring.now) bodies.new) }
    ensures told { IfOk result (IsTold (workload_of measuring.now) total (sited call.entry)) }
    ensures put { IfOk result (IsPut (bodies_of bodies.old) (bodies_of bodies.new)
        (body_of (ground_of_sited (workload_of measuring.now) (sited call.entry)))) }
{
    if total > LARGEST_TOGETHER {
        return Ok(None);
    }
    bodies.measure(alloc, call, measuring)
}

/// The measure, or what stands for that of a call that has none.
fn known(body: Option<MeasuredBody>) -> Measure
    ensures { result ≡ known body }
{
    match body {
        Some(body) => body.measure,
        None => UNMEASURED,
    }
}

/// Makes the L form of each call and measures it, once for all calls of one transaction with the same arguments.
pub(crate) fn measure_calls<'a>(
    alloc: Global,
    calls: &[SitedCall<'a>],
    measuring: &Measuring<'_>,
) -> Result<MeasuredCalls<'a>, Memory>
    requires set_up { IsSetUp measuring.now }
    requires grounds { map sited calls.now ≡ ground_calls (workload_of measuring.now) }
    requires named { All (IsNamed (workload_of measuring.now)) (map sited calls.now) }
    ensures calls { IfOk result (λ all. map call_of all.calls.items ≡ map sited calls.now) }
    ensures told { IfOk result (λ all. AreTold (workload_of measuring.now) 0 all.calls.items) }
    ensures forms { IfOk result (λ all. AreKnown all.calls.items → AreForms (workload_of measuring.now)
        (map plain_lcommand all.forms.items) (map (λ c. form_place c.body) all.calls.items)) }
{
    let mut total = 0;
    let mut all = Vec::new(alloc);
    let mut bodies = Bodies::new(alloc);
    for call in calls {
        let body = measure_after(alloc, total, *call, measuring, &mut bodies)?;
        total = capped_sum(total, known(body).size);
        all.push(MeasuredCall { call: *call, body })?;
    }
    Ok(MeasuredCalls {
        calls: all,
        forms: bodies.forms,
    })
}

/// The place of a call's L form, and 0 where it has none.
fn form_place(body: Option<MeasuredBody>) -> usize
    ensures { result ≡ form_place body }
{
    match body {
        Some(body) => body.place,
        None => 0,
    }
}

/// The places of the calls' L forms.
pub(crate) fn form_places(alloc: Global, calls: &[MeasuredCall<'_>]) -> Result<Vec<usize>, Memory>
    ensures { IfOk result (λ places. places.items ≡ map (λ c. form_place c.body) calls.now) }
{
    let places = calls
        .iter()
        .map(|call| form_place(call.body))
        .collect(alloc)?;
    Ok(places)
}

#[tactic(auto, using(crate::proofs::Steps::keeping))]
fn check_size(measure: Measure, total: u64, x: Ident, best: Option<Fault>) -> Option<Fault>
    ensures { result ≡ keep_all best (when (is_too_large measure total) (fault Size x)) }
{
    if measure.size > LARGEST || measure.depth > DEEPEST || total > LARGEST_TOGETHER {
        at_name(best, Phase::Size, x)
    } else {
        best
    }
}

/// The fault that decides, of those of sizes and of one so far.
pub(crate) fn check_sizes(
    calls: &[MeasuredCall<'_>],
    measuring: &Measuring<'_>,
    best: Option<Fault>,
) -> Option<Fault>
    requires set_up { IsSetUp measuring.now }
    requires grounds { map call_of calls.now ≡ ground_calls (workload_of measuring.now) }
    requires told { AreTold (workload_of measuring.now) 0 calls.now }
    ensures { result ≡ keep_all best (each (too_large (extent_of (workload_of measuring.now))) (map call_of calls.now)) }
{
    let mut total = 0;
    let mut best = best;
    for measured in calls {
        let measure = known(measured.body);
        total = capped_sum(total, measure.size);
        best = check_size(measure, total, measured.call.name, best);
    }
    best
}

#[tactic(auto, using(crate::proofs::Steps::keeping))]
fn check_weight(weight: u64, x: Ident, best: Option<Fault>) -> Option<Fault>
    ensures { result ≡ keep_all best (when (not (nat_le weight 1000000000000000000)) (fault Weight x)) }
{
    if weight < TOO_HEAVY {
        best
    } else {
        at_name(best, Phase::Weight, x)
    }
}

/// The fault that decides, of those of weights and of one so far.
pub(crate) fn check_weights(
    calls: &[MeasuredCall<'_>],
    measuring: &Measuring<'_>,
    best: Option<Fault>,
) -> Option<Fault>
    requires { AreMeasured (workload_of measuring.now) calls.now }
    ensures { result ≡ keep_all best (flat_map (heavy_call (workload_of measuring.now)) (map call_of calls.now)) }
{
    let mut best = best;
    for measured in calls {
        let measure = known(measured.body);
        best = check_weight(measure.weight, measured.call.name, best);
    }
    best
}

#[tactic(auto, using(crate::proofs::Steps::keeping))]
fn check_row_count(rows: u64, total: u64, x: Ident, best: Option<Fault>) -> Option<Fault>
    ensures { result ≡ keep_all best (when (nat_lt 4096 rows || nat_lt 8000000 total) (fault Rows x)) }
{
    if rows > MOST_ROWS || total > MOST_ROWS_TOGETHER {
        at_name(best, Phase::Rows, x)
    } else {
        best
    }
}

/// The fault that decides, of those of rows and of one so far.
pub(crate) fn check_rows(
    calls: &[MeasuredCall<'_>],
    measuring: &Measuring<'_>,
    best: Option<Fault>,
) -> Option<Fault>
    requires { AreMeasured (workload_of measuring.now) calls.now }
    ensures { result ≡ keep_all best (each (too_many_rows (workload_of measuring.now)) (map call_of calls.now)) }
{
    let mut total = 0;
    let mut best = best;
    for measured in calls {
        let measure = known(measured.body);
        total = capped_sum(total, capped_product(measure.rows, measure.size));
        best = check_row_count(measure.rows, total, measured.call.name, best);
    }
    best
}
