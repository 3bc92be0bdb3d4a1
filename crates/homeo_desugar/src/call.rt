//! The L form of a ground call.

ghost use Rattle.std.specs.Prelude.{◌≡◌, map, Some, IsSome, slice_get, IfOk};
ghost use Rattle.homeo_syntax.specs.SourceView.{commands, plain_command, plain_transaction, plain_workload};
ghost use Rattle.homeo_syntax.specs.LowView.{plain_lcommand};
ghost use Rattle.homeo_meaning.specs.CallForm.{ground_form};
ghost use Rattle.homeo_meaning.specs.Declarations.{declarations};
ghost use Rattle.homeo_meaning.specs.Ground.{plain_ground};
ghost use Rattle.homeo_meaning.specs.Aborts.{hold_abort};
ghost use Rattle.homeo_meaning.specs.LForm.{body_by, l_form};
ghost use Rattle.homeo_meaning.specs.SameRun.{MeansCall};
ghost use Rattle.homeo_context.specs.Contexts.{call_context};
ghost use Rattle.homeo_desugar.specs.SchemaFits.{SchemaFits};

use crate::forming::form_all;
use crate::undoing::{first_behind, objects_written, undoing};
use homeo_context::{Argument, BoundRows, Context, Declarations, bind};
use homeo_meaning::{Accepted, GroundCall, hold_abort};
use homeo_syntax::{Command, LCommand, Memory, Transaction, Workload};
use std::alloc::Global;

fn find<'a>(workload: &'a Workload, number: u32) -> &'a Transaction
    requires { IsSome (slice_get (plain_workload workload.now).transactions number) }
    ensures { slice_get (plain_workload workload.now).transactions number ≡ Some (plain_transaction result.now) }
{
    &workload.transactions.as_slice()[number as usize]
}

/// The L form of a transaction's commands, with these arguments. Where they can end the call, they are formed twice: which
/// objects they write is read off the first form.
fn form_body<'a>(
    alloc: Global,
    declared: &'a Declarations,
    arguments: &'a [Argument],
    body: &'a [Command],
) -> Result<LCommand, Memory>
    requires { SchemaFits declared.now.schema }
    ensures { IfOk result (λ c. plain_lcommand c ≡ body_by (hold_abort (commands (map plain_command body.now)))
        (call_context declared.now arguments.now) (commands (map plain_command body.now))) }
{
    let rows = BoundRows::Outside {
        objects: declared.object_count(),
    };
    let context = Context::new(alloc, declared, arguments, &rows);
    let mut next = 0;
    let commands = form_all(body, &context, &mut next)?;
    if !hold_abort(body) {
        return Ok(LCommand::Seq { commands });
    }
    let saved = objects_written(alloc, commands.as_slice())?;
    let mut next = first_behind(saved.as_slice())?;
    let commands = form_all(body, &context, &mut next)?;
    undoing(alloc, saved.as_slice(), commands)
}

/// The L form of a transaction with these arguments, in the order of its parameters: nothing else is asked of either.
/// `declared` has the places of the names that the transaction may use, and their objects fit the numbers of an L form.
///
/// # Errors
///
/// `Memory` where memory is wanting.
pub fn form_call(
    alloc: Global,
    declared: &Declarations,
    t: &Transaction,
    args: &[i64],
) -> Result<LCommand, Memory>
    requires { SchemaFits declared.now.schema }
    ensures { IfOk result (λ c. plain_lcommand c ≡ l_form declared.now.schema
        (map (λ p. p.name.name) t.now.params.items) args.now (plain_transaction t.now).body) }
{
    let arguments = bind(alloc, t.params.as_slice(), args)?;
    form_body(alloc, declared, arguments.as_slice(), t.body.as_slice())
}

/// The L form of a ground call: what is analysed of it. It prints what the call prints and leaves what the call leaves.
/// `declared` has the places of the workload's names.
///
/// # Errors
///
/// `Memory` where memory is wanting.
pub fn desugar(
    alloc: Global,
    call: &GroundCall,
    w: &Accepted,
    declared: &Declarations,
) -> Result<LCommand, Memory>
    requires exists { IsSome (slice_get (plain_workload w.now).transactions call.now.transaction) }
    requires declared { declared.now ≡ declarations (plain_workload w.now) }
    ensures form { IfOk result (λ c. plain_lcommand c ≡ ground_form (plain_workload w.now) (plain_ground call.now)) }
    ensures means { IfOk result (λ c. MeansCall (plain_workload w.now) (plain_ground call.now) (plain_lcommand c)) }
{
    let workload = w.workload();
    let transaction = find(workload, call.transaction);
    form_call(alloc, declared, transaction, call.args.as_slice())
}
