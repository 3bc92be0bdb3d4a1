//! How many print commands the calls have.

ghost use Rattle.std.specs.Prelude.{◌≡◌, ℤ, List, ◌+◌, map, min, nat_lt, IfOk, slice_index};
ghost use Rattle.homeo_meaning.specs.NameRules.{when, fault};
ghost use Rattle.homeo_meaning.specs.TransactionRules.{each};
ghost use Rattle.homeo_rules.specs.inner.Deciding.{keep_all};
ghost use Rattle.homeo_meaning.specs.declared.rules.Phase.TheVariants.{Size};
ghost use Rattle.homeo_rules.specs.inner.Printing.{capped_prints, counted_prints, print_all, prints_too_much_in};
ghost use Rattle.homeo_rules.specs.inner.Scopes.{scope_in};
ghost use Rattle.homeo_ground.specs.Sited.{sited};
ghost use Rattle.homeo_rules.specs.inner.Sizes.{IsSetUp, workload_of};

use crate::deciding::at_name;
use crate::names::scope::Scope;
use crate::rules::bodies::Measuring;
use homeo_ground::SitedCall;
use homeo_meaning::{Fault, Item, Phase};
use homeo_size::{TOO_MANY_PRINTS, count_prints};
use homeo_syntax::{Ident, Memory, Transaction};
use std::alloc::Global;

/// A sum, up to one more than there may be.
fn capped_sum(a: u64, b: u64) -> u64
    ensures { result ≡ min 1000001 (a + b) }
{
    TOO_MANY_PRINTS.min(a.saturating_add(b))
}

/// The print commands of a transaction, which are as many whatever the arguments.
fn count_in(t: &Transaction, measuring: &Measuring<'_>) -> u64
    requires { IsSetUp measuring.now }
    ensures { (args : List ℤ) → result ≡ capped_prints (workload_of measuring.now) args t.now }
{
    count_prints(t, measuring.layout)
}

/// The print commands of each transaction.
fn count_all_prints(
    alloc: Global,
    ts: &[Transaction],
    measuring: &Measuring<'_>,
) -> Result<Vec<u64>, Memory>
    requires { IsSetUp measuring.now }
    ensures { IfOk result (λ counts. (args : List ℤ) →
        counts.items ≡ map (capped_prints (workload_of measuring.now) args) ts.now) }
{
    let mut counts = Vec::new(alloc);
    for t in ts {
        counts.push(count_in(t, measuring))?;
    }
    Ok(counts)
}

/// The print commands of the transaction that a name stands for.
fn prints_of(scope: &Scope<'_>, counts: &[u64], x: Ident) -> u64
    ensures { result ≡ counted_prints counts.now ((scope_in scope.now).item x.name) }
{
    match scope.item(x.name) {
        Some(Item::Transaction(place)) => count_at(counts, place),
        _ => 0,
    }
}

fn count_at(counts: &[u64], place: usize) -> u64
    ensures { result ≡ slice_index counts.now place }
{
    match counts.get(place) {
        Some(count) => *count,
        None => 0,
    }
}

/// So many print commands together are not too many.
#[tactic(auto, using(crate::proofs::Steps::keeping))]
fn check_total(total: u64, x: Ident, best: Option<Fault>) -> Option<Fault>
    ensures { result ≡ keep_all best (when (nat_lt 1000000 total) (fault Size x)) }
{
    if total >= TOO_MANY_PRINTS {
        at_name(best, Phase::Size, x)
    } else {
        best
    }
}

/// The print commands of the calls, added up along them.
fn check_totals(
    counts: &[u64],
    scope: &Scope<'_>,
    calls: &[SitedCall<'_>],
    best: Option<Fault>,
) -> Option<Fault>
    ensures { result ≡ (print_all (scope_in scope.now) counts.now (record { total = 0; best = best }) calls.now).best }
{
    let mut total = 0;
    let mut best = best;
    for call in calls {
        total = capped_sum(total, prints_of(scope, counts, call.name));
        best = check_total(total, call.name, best);
    }
    best
}

/// The fault that decides, of those of too many print commands and of one so far.
pub(crate) fn check_prints(
    alloc: Global,
    calls: &[SitedCall<'_>],
    measuring: &Measuring<'_>,
    best: Option<Fault>,
) -> Result<Option<Fault>, Memory>
    requires { IsSetUp measuring.now }
    ensures { IfOk result (λ b. b ≡
        keep_all best (each (prints_too_much_in (workload_of measuring.now)) (map sited calls.now))) }
{
    let transactions = measuring.workload.transactions.as_slice();
    let counts = count_all_prints(alloc, transactions, measuring)?;
    Ok(check_totals(counts.as_slice(), &measuring.scope, calls, best))
}
