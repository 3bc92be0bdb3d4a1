//! The rules of clients and their calls.

ghost use Rattle.std.specs.Prelude.{◌≡◌, length, ◌==◌, not};
ghost use Rattle.homeo_syntax.specs.SourceView.{plain_call};
ghost use Rattle.homeo_meaning.specs.CallRules.{argument_faults};
ghost use Rattle.homeo_rules.specs.inner.Deciding.{keep_all};
ghost use Rattle.homeo_meaning.specs.NameRules.{when, fault};
ghost use Rattle.homeo_meaning.specs.declared.rules.Phase.TheVariants.{Arity};
ghost use Rattle.homeo_rules.specs.inner.Callers.{params_at, call_faults_of, client_faults_of};
ghost use Rattle.homeo_rules.specs.inner.Listwise.{along_all};
ghost use Rattle.homeo_rules.specs.inner.Scopes.{scope_in};

use crate::deciding::at_name;
use crate::names::scope::Scope;
use crate::rules::bounds::{check_arguments, check_site};
use homeo_meaning::{Fault, Item, Phase};
use homeo_syntax::{Call, Client, Number, RangeDecl, Transaction};

/// A call has as many arguments as there are parameters.
#[tactic(auto, using(crate::proofs::Steps::keeping), unfolding(homeo_meaning::specs::Key::definitions))]
fn check_arity(params: &[RangeDecl], c: &Call, best: Option<Fault>) -> Option<Fault>
    ensures { result ≡ keep_all best (when (not (length c.now.args.items == length params.now)) (fault Arity c.now.name)) }
{
    if c.args.as_slice().len() == params.len() {
        best
    } else {
        at_name(best, Phase::Arity, c.name)
    }
}

/// The arguments of a call, against the parameters.
#[tactic(auto, using(crate::proofs::Callings::callings))]
fn check_call_of(params: &[RangeDecl], c: &Call, best: Option<Fault>) -> Option<Fault>
    ensures { result ≡ keep_all best (argument_faults params.now (plain_call c.now)) }
{
    let best = check_arity(params, c, best);
    check_arguments(params, c.args.as_slice(), best)
}

/// The arguments of a call, against the parameters of the transaction of a number.
fn check_call_at(place: usize, c: &Call, ts: &[Transaction], best: Option<Fault>) -> Option<Fault>
    ensures { result ≡ keep_all best (argument_faults (params_at ts.now place) (plain_call c.now)) }
{
    match ts.get(place) {
        Some(t) => check_call_of(t.params.as_slice(), c, best),
        None => check_call_of(&[], c, best),
    }
}

/// A call names a transaction, and has arguments that fit.
#[tactic(auto, using(crate::proofs::Callings::callings))]
fn check_call(c: &Call, scope: &Scope<'_>, ts: &[Transaction], best: Option<Fault>) -> Option<Fault>
    ensures { result ≡ keep_all best (call_faults_of (scope_in scope.now) ts.now c.now) }
{
    match scope.item(c.name.name) {
        None => at_name(best, Phase::Unknown, c.name),
        Some(Item::Transaction(place)) => check_call_at(place, c, ts, best),
        Some(_) => at_name(best, Phase::Kind, c.name),
    }
}

fn check_calls(
    cs: &[Call],
    scope: &Scope<'_>,
    ts: &[Transaction],
    best: Option<Fault>,
) -> Option<Fault>
    ensures { result ≡ along_all (call_faults_of (scope_in scope.now) ts.now) best cs.now }
{
    let mut best = best;
    for c in cs {
        best = check_call(c, scope, ts, best);
    }
    best
}

/// The calls of a client, and its site.
#[tactic(auto, using(crate::proofs::Callings::callings))]
fn check_client(
    c: &Client,
    sites: Number,
    scope: &Scope<'_>,
    ts: &[Transaction],
    best: Option<Fault>,
) -> Option<Fault>
    ensures { result ≡ keep_all best (client_faults_of sites (scope_in scope.now) ts.now c.now) }
{
    let best = check_calls(c.calls.as_slice(), scope, ts, best);
    check_site(sites, c.site, best)
}

/// All clients.
pub(crate) fn check_clients(
    cs: &[Client],
    sites: Number,
    scope: &Scope<'_>,
    ts: &[Transaction],
    best: Option<Fault>,
) -> Option<Fault>
    ensures { result ≡ along_all (client_faults_of sites (scope_in scope.now) ts.now) best cs.now }
{
    let mut best = best;
    for c in cs {
        best = check_client(c, sites, scope, ts, best);
    }
    best
}
