//! The L forms of transactions with arguments, and what is measured of these, once for all calls of each.

ghost use Rattle.std.specs.Prelude.{◌≡◌, ◌<◌, ◌++◌, ◌∷◌, [], true, false, map, slice_get, Some, IsSome, IfOk, OnOk};
ghost use Rattle.std.specs.List.{list_any};
ghost use Rattle.homeo_syntax.specs.Source as s;
ghost use Rattle.homeo_syntax.specs.SourceView.{plain_transaction, plain_workload};
ghost use Rattle.homeo_meaning.specs.Forms.{body_of, same_body};
ghost use Rattle.homeo_meaning.specs.Ground.{ground_of_sited};
ghost use Rattle.homeo_meaning.specs.CallForm.{call_form};
ghost use Rattle.homeo_meaning.specs.LForm.{l_form};
ghost use Rattle.homeo_meaning.specs.LowSizes.{call_extent};
ghost use Rattle.homeo_ground.specs.Sited.{values, sited};
ghost use Rattle.homeo_rules.specs.inner.Bodies.{call_body, bodies_of, form_to, AreBodies, IsPut};
ghost use Rattle.homeo_rules.specs.inner.Scopes.{scope_in};
ghost use Rattle.homeo_rules.specs.inner.Sizes.{IsSetUp, IsNamed, workload_of, transaction_place, IsMeasuredAs};

use crate::names::scope::Scope;
use homeo_desugar::form_call;
use homeo_ground::SitedCall;
use homeo_meaning::Item;
use homeo_size::{Layout, Measure, is_too_large, measure};
use homeo_syntax::{LCommand, List, Memory, Number, Transaction, Workload};
use indexmap::IndexSet;
use std::alloc::Global;

/// What calls are measured in, the same for each call.
#[derive(Clone, Copy)]
pub(crate) struct Measuring<'a> {
    pub(crate) scope: Scope<'a>,
    pub(crate) workload: &'a Workload,
    pub(crate) layout: &'a Layout,
    pub(crate) sites: u64,
    /// Whether no ground call stands at a lesser offset than one before it, as none does in a text.
    pub(crate) in_order: bool,
}

/// The number of a transaction and the values of its arguments, which the L form of a call depends on.
#[derive(PartialEq, Eq, Hash, Drop)]
struct Body {
    transaction: usize,
    args: Vec<i64>,
}

/// Transactions with arguments, each with its L form and the measure of this.
#[derive(Drop)]
pub(crate) struct Bodies {
    bodies: IndexSet<Body>,
    pub(crate) forms: List<LCommand>,
    measures: Vec<Measure>,
}

/// The place of a transaction with arguments among others, and the measure of its L form.
#[derive(Clone, Copy)]
pub(crate) struct MeasuredBody {
    pub(crate) place: usize,
    pub(crate) measure: Measure,
}

/// The transaction of a number.
fn find<'a>(workload: &'a Workload, number: usize) -> &'a Transaction
    requires { IsSome (slice_get (plain_workload workload.now).transactions number) }
    ensures { slice_get (plain_workload workload.now).transactions number ≡ Some (plain_transaction result.now) }
{
    &workload.transactions.as_slice()[number]
}

/// The number of the transaction that a name names.
fn transaction_place(scope: Scope<'_>, name: u32) -> usize
    ensures { result ≡ transaction_place ((scope_in scope.entry).item name) }
{
    match scope.item(name) {
        Some(Item::Transaction(place)) => place,
        _ => 0,
    }
}

/// The transaction and the arguments of a call.
fn body_of(alloc: Global, call: SitedCall<'_>, scope: Scope<'_>) -> Result<Body, Memory>
    ensures transaction { IfOk result (λ b. b.transaction ≡
        transaction_place ((scope_in scope.entry).item call.entry.name.name)) }
    ensures args { IfOk result (λ b. b.args.items ≡ values call.entry.args.now) }
{
    Ok(Body {
        transaction: transaction_place(scope, call.name.name),
        args: call.args.iter().map(|number| number.value).collect(alloc)?,
    })
}

/// Whether an L form is certainly larger than a call may be, so that it isn't made. It is asked only where no call behind
/// this one can decide: elsewhere its size counts for theirs together.
fn is_past_all(
    alloc: Global,
    t: &Transaction,
    args: &[Number],
    measuring: &Measuring<'_>,
) -> Result<bool, Memory>
    ensures { IfOk result (λ b. b ≡ true → (measuring.now.in_order ≡ true) × (200000 <
        (call_extent measuring.now.sites (l_form measuring.now.layout.now
        (map (λ p. p.name.name) t.now.params.items) (values args.now) (plain_transaction t.now).body)).size)) }
{
    if measuring.in_order {
        is_too_large(alloc, t, args, measuring.layout, measuring.sites)
    } else {
        Ok(false)
    }
}

impl Bodies {
    /// None yet.
    pub(crate) fn new(alloc: Global) -> Bodies
        ensures bodies { (w : s.Workload) → AreBodies w result }
        ensures none { bodies_of result ≡ [] }
    {
        Bodies {
            bodies: IndexSet::new(alloc),
            forms: List::new(alloc),
            measures: Vec::new(alloc),
        }
    }

    /// Makes the L form of a transaction with arguments that are new, and measures it.
    fn make(
        &mut self,
        alloc: Global,
        t: &Transaction,
        body: Body,
        measuring: &Measuring<'_>,
    ) -> Result<MeasuredBody, Memory>
        requires set_up { IsSetUp measuring.now }
        requires transaction { slice_get (workload_of measuring.now).transactions body.transaction ≡ Some (plain_transaction t.now) }
        requires new { list_any (same_body (call_body body)) (bodies_of self.old) ≡ false }
        requires bodies { AreBodies (workload_of measuring.now) self.old }
        ensures bodies { OnOk result (AreBodies (workload_of measuring.now) self.new) }
        ensures measure { IfOk result (λ m. IsMeasuredAs (workload_of measuring.now)
            (form_to (workload_of measuring.now) (call_body body)) (Some m)) }
        ensures put { IfOk result (λ m. IsPut (bodies_of self.old) (bodies_of self.new) (call_body body) (Some m)) }
    {
        let form = form_call(alloc, measuring.layout.declared(), t, body.args.as_slice())?;
        let measure = measure(alloc, &form, measuring.layout, measuring.sites)?;
        let (place, _) = self.bodies.insert_full(body)?;
        self.forms.push(form)?;
        self.measures.push(measure)?;
        Ok(MeasuredBody { place, measure })
    }

    /// The measure of a transaction with arguments that are new, whose L form is made unless it is larger than a call may be.
    fn measure_new(
        &mut self,
        alloc: Global,
        args: &[Number],
        body: Body,
        measuring: &Measuring<'_>,
    ) -> Result<Option<MeasuredBody>, Memory>
        requires set_up { IsSetUp measuring.now }
        requires there { IsSome (slice_get (workload_of measuring.now).transactions body.transaction) }
        requires args { body.args.items ≡ values args.now }
        requires new { list_any (same_body (call_body body)) (bodies_of self.old) ≡ false }
        requires bodies { AreBodies (workload_of measuring.now) self.old }
        ensures bodies { OnOk result (AreBodies (workload_of measuring.now) self.new) }
        ensures measure { IfOk result (IsMeasuredAs (workload_of measuring.now)
            (form_to (workload_of measuring.now) (call_body body))) }
        ensures put { IfOk result (IsPut (bodies_of self.old) (bodies_of self.new) (call_body body)) }
    {
        let t = find(measuring.workload, body.transaction);
        if is_past_all(alloc, t, args, measuring)? {
            return Ok(None);
        }
        let measured = self.make(alloc, t, body, measuring)?;
        Ok(Some(measured))
    }

    /// The measure of a call, whose L form is made and measured if no call of its transaction with the same arguments was.
    pub(crate) fn measure(
        &mut self,
        alloc: Global,
        call: SitedCall<'_>,
        measuring: &Measuring<'_>,
    ) -> Result<Option<MeasuredBody>, Memory>
        requires set_up { IsSetUp measuring.now }
        requires named { IsNamed (workload_of measuring.now) (sited call) }
        requires bodies { AreBodies (workload_of measuring.now) self.old }
        ensures bodies { OnOk result (AreBodies (workload_of measuring.now) self.new) }
        ensures measure { IfOk result (IsMeasuredAs (workload_of measuring.now)
            (call_form (workload_of measuring.now) (sited call.entry))) }
        ensures put { IfOk result (IsPut (bodies_of self.old) (bodies_of self.new)
            (body_of (ground_of_sited (workload_of measuring.now) (sited call.entry)))) }
    {
        let body = body_of(alloc, call, measuring.scope)?;
        match self.bodies.get_index_of(&body) {
            Some(place) => Ok(Some(MeasuredBody {
                place,
                measure: self.measures.as_slice()[place],
            })),
            None => self.measure_new(alloc, call.args, body, measuring),
        }
    }
}
