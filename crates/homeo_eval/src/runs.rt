//! Calls of an accepted workload, run on one database.

ghost use Rattle.std.specs.Prelude.{◌≡◌, true, All, map, slice_get, Some, IfOk, OnOk, OnErr};
ghost use Rattle.homeo_syntax.specs.SourceView.{commands, plain_command, plain_call, plain_workload};
ghost use Rattle.homeo_meaning.specs.Schema.{schema_of};
ghost use Rattle.homeo_meaning.specs.Bounds.{IsWithin};
ghost use Rattle.homeo_meaning.specs.Calls.{CallExists, IsGroundCall, ground_outcome};
ghost use Rattle.homeo_meaning.specs.Declarations.{declarations};
ghost use Rattle.homeo_meaning.specs.Acceptance.{weight_limit, IsLightBody};
ghost use Rattle.homeo_eval.specs.inner.BodyRuns.{body_run};
ghost use Rattle.homeo_eval.specs.inner.CanRun.{can_run_all};
ghost use Rattle.homeo_context.specs.Contexts.{call_context};
ghost use Rattle.homeo_meaning.specs.Serial.{start};
ghost use Rattle.homeo_meaning.specs.Serial.{database_like, call_of, call_outcome, serial};

use crate::commands::run_all;
use crate::state::State;
use homeo_context::{Argument, BoundRows, Context, Declarations, argument_values, bind};
use homeo_meaning::{Accepted, CallId, Database, Window};
use homeo_syntax::{Call, Command, List, Memory, Prints, Workload};
use std::alloc::Global;

fn copied(alloc: Global, items: &[i64]) -> Result<Vec<i64>, Memory>
    ensures { IfOk result (λ v. v.items ≡ items.now) }
{
    Ok(Vec::from_slice(alloc, items)?)
}

/// Runs commands on a database, from temporaries 0. Where they end the call, the database stays as it was.
fn run_body(
    alloc: Global,
    body: &[Command],
    declared: &Declarations,
    arguments: &[Argument],
    base: &mut Database,
) -> Result<Prints, Memory>
    requires within { IsWithin declared.now.schema base.old.items }
    requires runs { can_run_all weight_limit (call_context declared.now arguments.now)
        (commands (map plain_command body.now)) (start base.old.items) ≡ true }
    requires after { IsWithin declared.now.schema (database_like base.old.items (body_run declared.now arguments.now
        (commands (map plain_command body.now)) base.old.items).state.database) }
    ensures prints { IfOk result (λ p. p.items ≡ (body_run declared.now arguments.now
        (commands (map plain_command body.now)) base.old.items).prints) }
    ensures database { OnOk result (base.new.items ≡ database_like base.old.items (body_run declared.now arguments.now
        (commands (map plain_command body.now)) base.old.items).state.database) }
    ensures within { IsWithin declared.now.schema base.new.items }
    ensures unchanged { OnErr result (base.new ≡ base.old) }
{
    let mut state = State {
        database: copied(alloc, base.as_slice())?,
        temps: Window::new(alloc),
    };
    let rows = BoundRows::Outside {
        objects: state.database.len(),
    };
    let context = Context::new(alloc, declared, arguments, &rows);
    let mut prints = List::new(alloc);
    let ended = run_all(body, &context, &mut state, &mut prints)?;
    if !ended {
        *base = List::from_vec(state.database);
    }
    Ok(prints)
}

/// Runs the transaction at a place with these arguments on a database: where there is no such
/// transaction, nothing is done.
fn run_at(
    alloc: Global,
    workload: &Workload,
    place: usize,
    declared: &Declarations,
    args: &[i64],
    base: &mut Database,
) -> Result<Prints, Memory>
    requires light { IsLightBody (plain_workload workload.now)
        (slice_get (plain_workload workload.now).transactions place) args.now }
    requires declared { declared.now ≡ declarations (plain_workload workload.now) }
    requires within { IsWithin (schema_of (plain_workload workload.now)) base.old.items }
    ensures prints { IfOk result (λ p. p.items ≡
        (ground_outcome (plain_workload workload.now) place args.now base.old.items).prints) }
    ensures database { OnOk result (base.new.items ≡
        (ground_outcome (plain_workload workload.now) place args.now base.old.items).database) }
    ensures within { IsWithin (schema_of (plain_workload workload.now)) base.new.items }
    ensures unchanged { OnErr result (base.new ≡ base.old) }
{
    match workload.transactions.as_slice().get(place) {
        Some(transaction) => {
            let arguments = bind(alloc, transaction.params.as_slice(), args)?;
            run_body(
                alloc,
                transaction.body.as_slice(),
                declared,
                arguments.as_slice(),
                base,
            )
        }
        None => Ok(List::new(alloc)),
    }
}

fn find_call<'a>(workload: &'a Workload, id: CallId) -> &'a Call
    requires { CallExists (plain_workload workload.now) id }
    ensures { call_of (plain_workload workload.now) id ≡ Some (plain_call result.now) }
{
    let client = &workload.clients.as_slice()[id.client as usize];
    &client.calls.as_slice()[id.seq as usize - 1]
}

/// Runs the transaction of a number with these arguments on a database, from temporaries 0, and
/// gives its prints.
///
/// # Errors
///
/// `Memory` where memory is wanting: the database is then unchanged.
pub fn eval(
    alloc: Global,
    w: &Accepted,
    transaction: u32,
    args: &[i64],
    base: &mut Database,
) -> Result<Prints, Memory>
    requires called { IsGroundCall (plain_workload w.now) transaction args.now }
    requires within { IsWithin (schema_of (plain_workload w.now)) base.old.items }
    ensures prints { IfOk result (λ p. p.items ≡
        (ground_outcome (plain_workload w.now) transaction args.now base.old.items).prints) }
    ensures database { OnOk result (base.new.items ≡
        (ground_outcome (plain_workload w.now) transaction args.now base.old.items).database) }
    ensures within { IsWithin (schema_of (plain_workload w.now)) base.new.items }
    ensures unchanged { OnErr result (base.new ≡ base.old) }
{
    let declared = Declarations::of(alloc, w)?;
    run_at(
        alloc,
        w.workload(),
        transaction as usize,
        &declared,
        args,
        base,
    )
}

/// Runs a client's call on a database, from temporaries 0, and gives its prints.
/// `declared` has the places of the workload's names.
///
/// # Errors
///
/// `Memory` where memory is wanting: the database is then unchanged.
pub fn eval_call(
    alloc: Global,
    w: &Accepted,
    declared: &Declarations,
    call: CallId,
    database: &mut Database,
) -> Result<Prints, Memory>
    requires exists { CallExists (plain_workload w.now) call }
    requires declared { declared.now ≡ declarations (plain_workload w.now) }
    requires within { IsWithin (schema_of (plain_workload w.now)) database.old.items }
    ensures prints { IfOk result (λ p. p.items ≡
        (call_outcome (plain_workload w.now) call database.old.items).prints) }
    ensures database { OnOk result (database.new.items ≡
        (call_outcome (plain_workload w.now) call database.old.items).database) }
    ensures within { IsWithin (schema_of (plain_workload w.now)) database.new.items }
    ensures unchanged { OnErr result (database.new ≡ database.old) }
{
    let workload = w.workload();
    let called = find_call(workload, call);
    let place = declared.transaction(called.name.name);
    let args = argument_values(alloc, called.args.as_slice())?;
    run_at(alloc, workload, place, declared, args.as_slice(), database)
}

/// Runs calls one after another on a database, and gives the prints of each.
/// `declared` has the places of the workload's names.
fn run_each(
    alloc: Global,
    w: &Accepted,
    declared: &Declarations,
    calls: &[CallId],
    database: &mut Database,
) -> Result<Vec<Prints>, Memory>
    requires exist { All (CallExists (plain_workload w.now)) calls.now }
    requires declared { declared.now ≡ declarations (plain_workload w.now) }
    requires within { IsWithin (schema_of (plain_workload w.now)) database.old.items }
    ensures logs { IfOk result (λ logs. map (λ p. p.items) logs.items ≡
        (serial (plain_workload w.now) database.old.items calls.now).logs) }
    ensures database { OnOk result (database.new.items ≡
        (serial (plain_workload w.now) database.old.items calls.now).database) }
    ensures within { OnOk result (IsWithin (schema_of (plain_workload w.now)) database.new.items) }
{
    let mut logs = Vec::new(alloc);
    for call in calls {
        let prints = eval_call(alloc, w, declared, *call, database)?;
        logs.push(prints)?;
    }
    Ok(logs)
}

/// Runs calls one after another on a database, each from temporaries 0, and gives the prints of
/// each.
///
/// # Errors
///
/// `Memory` where memory is wanting: the database is then unchanged.
pub fn serial(
    alloc: Global,
    w: &Accepted,
    calls: &[CallId],
    base: &mut Database,
) -> Result<Vec<Prints>, Memory>
    requires exist { All (CallExists (plain_workload w.now)) calls.now }
    requires within { IsWithin (schema_of (plain_workload w.now)) base.old.items }
    ensures logs { IfOk result (λ logs. map (λ p. p.items) logs.items ≡
        (serial (plain_workload w.now) base.old.items calls.now).logs) }
    ensures database { OnOk result (base.new.items ≡
        (serial (plain_workload w.now) base.old.items calls.now).database) }
    ensures within { IsWithin (schema_of (plain_workload w.now)) base.new.items }
    ensures unchanged { OnErr result (base.new ≡ base.old) }
{
    let mut database = List::from_vec(copied(alloc, base.as_slice())?);
    let declared = Declarations::of(alloc, w)?;
    let logs = run_each(alloc, w, &declared, calls, &mut database)?;
    *base = database;
    Ok(logs)
}
