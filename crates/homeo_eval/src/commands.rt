//! What commands do.

ghost use Rattle.std.specs.Prelude.{◌≡◌, true, map, length, IfOk};
ghost use Rattle.homeo_syntax.specs.SourceView.{commands, plain_command, plain_cond};
ghost use Rattle.homeo_meaning.specs.Context.{slots};
ghost use Rattle.homeo_meaning.specs.Meaning.{after_prints, visit, does, does_all};
ghost use Rattle.homeo_meaning.specs.Acceptance.{weight_limit};
ghost use Rattle.homeo_eval.specs.inner.CanRun.{visits_fit, can_run, can_run_all};
ghost use Rattle.homeo_eval.specs.inner.States.{state_of, run_of, Serves};
ghost use Rattle.homeo_context.specs.Contexts.{plain_context};
ghost use Rattle.homeo_eval.specs.inner.Visits.{holds_at, cond_fits_at, does_at, can_run_at};

use crate::changes::{delete, is_visited, set_field, set_object, set_row, update};
use crate::inserts::insert;
use crate::phrases::{holds, value};
use crate::state::State;
use homeo_context::{BoundRows, Context};
use homeo_syntax::{Command, Cond, List, Memory};

/// Runs commands at each used slot at which a condition holds of the row, until the call is ended.
#[cycle(runs)]
fn foreach(
    body: &List<Command>,
    test: &Cond,
    row: u32,
    relation: u32,
    context: &Context,
    state: &mut State,
    prints: &mut List<i64>,
) -> Result<bool, Memory>
    requires serves { Serves context.now state.old }
    requires fits { visits_fit (cond_fits_at weight_limit (plain_context context.now) row (plain_cond test.now))
        (can_run_at weight_limit (plain_context context.now) row (commands (map plain_command body.now.items)))
        (holds_at (plain_context context.now) row (plain_cond test.now))
        (does_at (plain_context context.now) row (commands (map plain_command body.now.items)))
        (slots (plain_context context.now) relation) (state_of state.old) ≡ true }
    ensures places { length state.new.database.items ≡ length state.old.database.items }
    ensures run { IfOk result (λ ended. run_of (state_of state.new) prints.new.items ended ≡ after_prints prints.old.items
        (visit (holds_at (plain_context context.now) row (plain_cond test.now))
        (does_at (plain_context context.now) row (commands (map plain_command body.now.items)))
        (slots (plain_context context.now) relation) (state_of state.old))) }
{
    let slots = context.relation(relation);
    for number in 0..slots.count {
        let slot = slots.slot(number);
        if is_visited(test, &slot, row, context, state) {
            let rows = BoundRows::Inside {
                name: row,
                slot,
                outer: context.rows,
            };
            if run_all(body.as_slice(), &context.with(&rows), state, prints)? {
                return Ok(true);
            }
        }
    }
    Ok(false)
}

/// Runs a command, and gives whether it ends the call: the state is left as the command leaves it, and its prints are
/// added.
#[cycle(runs)]
#[tactic(auto, using(homeo_syntax::proofs::SourceViews::command_views, crate::proofs::CommandSteps::runs))]
pub(crate) fn run(
    c: &Command,
    context: &Context,
    state: &mut State,
    prints: &mut List<i64>,
) -> Result<bool, Memory>
    requires serves { Serves context.now state.old }
    requires runs { can_run weight_limit (plain_context context.now) (plain_command c.now) (state_of state.old) ≡ true }
    ensures places { length state.new.database.items ≡ length state.old.database.items }
    ensures run { IfOk result (λ ended. run_of (state_of state.new) prints.new.items ended ≡ after_prints prints.old.items
        (does (plain_context context.now) (plain_command c.now) (state_of state.old))) }
{
    match c {
        Command::Skip => Ok(false),
        Command::Assign { target, value: e } => {
            let v = value(e, context, state);
            state.assign(target.name, v)?;
            Ok(false)
        }
        Command::Write { object, value: e } => {
            let v = value(e, context, state);
            set_object(object.name, v, context, state);
            Ok(false)
        }
        Command::Print { value: e } => {
            let v = value(e, context, state);
            prints.push(v)?;
            Ok(false)
        }
        Command::If { test, yes, no } => {
            if holds(test, context, state) {
                run(yes, context, state, prints)
            } else {
                run(no, context, state, prints)
            }
        }
        Command::Block { commands } => run_all(commands.as_slice(), context, state, prints),
        Command::SetField {
            relation,
            index,
            field,
            value: e,
        } => {
            set_field(relation.name, index, field.name, e, context, state);
            Ok(false)
        }
        Command::SetRow {
            row,
            field,
            value: e,
        } => {
            let v = value(e, context, state);
            set_row(row.name, field.name, v, context, state);
            Ok(false)
        }
        Command::Foreach {
            row,
            relation,
            test,
            body,
        } => foreach(body, test, row.name, relation.name, context, state, prints),
        Command::Insert {
            relation,
            fields,
            into,
        } => {
            insert(relation.name, fields.as_slice(), into.name, context, state)?;
            Ok(false)
        }
        Command::Delete {
            row,
            relation,
            test,
        } => {
            delete(test, row.name, relation.name, context, state);
            Ok(false)
        }
        Command::Update {
            row,
            relation,
            test,
            field,
            value: e,
        } => {
            update(test, row.name, relation.name, field.name, e, context, state);
            Ok(false)
        }
        Command::Abort => Ok(true),
    }
}

/// Runs commands one after another until the call is ended, and gives whether it is.
#[cycle(runs)]
#[tactic(auto, using(crate::proofs::CommandSteps::each, homeo_meaning::proofs::Steps::steps))]
pub(crate) fn run_all(
    cs: &[Command],
    context: &Context,
    state: &mut State,
    prints: &mut List<i64>,
) -> Result<bool, Memory>
    requires serves { Serves context.now state.old }
    requires runs { can_run_all weight_limit (plain_context context.now) (commands (map plain_command cs.now))
        (state_of state.old) ≡ true }
    ensures places { length state.new.database.items ≡ length state.old.database.items }
    ensures run { IfOk result (λ ended. run_of (state_of state.new) prints.new.items ended ≡ after_prints prints.old.items
        (does_all (plain_context context.now) (commands (map plain_command cs.now)) (state_of state.old))) }
{
    for c in cs {
        if run(c, context, state, prints)? {
            return Ok(true);
        }
    }
    Ok(false)
}
