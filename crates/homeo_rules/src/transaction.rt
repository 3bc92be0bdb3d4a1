//! The rules of bounds and of names in a transaction.

ghost use Rattle.std.specs.Prelude.{◌≡◌, IfOk};
ghost use Rattle.homeo_syntax.specs.SourceView.{plain_transaction};
ghost use Rattle.homeo_rules.specs.inner.Deciding.{keep_all};
ghost use Rattle.homeo_rules.specs.inner.Params.{enter_params};
ghost use Rattle.homeo_rules.specs.inner.Scopes.{scope_in};
ghost use Rattle.homeo_rules.specs.inner.Within.{IsNamed, AreNamed};
ghost use Rattle.homeo_rules.specs.inner.Callers.{transaction_faults_of};
ghost use Rattle.homeo_rules.specs.inner.Listwise.{along_all};

use crate::checker::Checker;
use crate::names::rows::Rows;
use crate::names::scope::Scope;
use crate::rules::bounds::check_ranges;
use crate::walk::walk_commands;
use homeo_meaning::Fault;
use homeo_syntax::{Memory, RangeDecl, Transaction};
use std::alloc::Global;

fn enter_params(ds: &[RangeDecl], scope: &Scope<'_>, k: &mut Checker)
    ensures { k.new ≡ enter_params (scope_in scope.now) k.old ds.now }
{
    for d in ds {
        k.declares_param(scope, d.name);
    }
}

/// The fault that decides, of the transaction's and of one so far.
fn check_transaction(
    alloc: Global,
    t: &Transaction,
    scope: &Scope<'_>,
    names: usize,
    best: Option<Fault>,
) -> Result<Option<Fault>, Memory>
    requires { IsNamed names (plain_transaction t.now) }
    ensures { IfOk result (λ b. b ≡ keep_all best (transaction_faults_of (scope_in scope.now) t.now)) }
{
    let best = check_ranges(t.params.as_slice(), best);
    let mut k = Checker::start(alloc, names, best)?;
    enter_params(t.params.as_slice(), scope, &mut k);
    walk_commands(t.body.as_slice(), scope, &Rows::Outside, &mut k)?;
    Ok(k.best())
}

/// All transactions.
pub(crate) fn check_transactions(
    alloc: Global,
    ts: &[Transaction],
    scope: &Scope<'_>,
    names: usize,
    best: Option<Fault>,
) -> Result<Option<Fault>, Memory>
    requires { AreNamed names ts.now }
    ensures { IfOk result (λ b. b ≡ along_all (transaction_faults_of (scope_in scope.now)) best ts.now) }
{
    let mut best = best;
    for t in ts {
        best = check_transaction(alloc, t, scope, names, best)?;
    }
    Ok(best)
}
