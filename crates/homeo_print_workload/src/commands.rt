//! The tokens of commands.
#![tactic(auto, using(crate::proofs::CommandSteps::command_steps))]

ghost use Rattle.std.specs.Prelude.{◌≡◌, ◌++◌, map, OnOk};
ghost use Rattle.homeo_syntax.specs.SourceView.{commands, plain_cond, plain_field, plain_command};
ghost use Rattle.homeo_syntax.specs.declared.token.Mark.TheVariants.{Comma};
ghost use Rattle.homeo_print_workload.specs.TokensOf.{separated, setting_kinds, rows_kinds, command_kinds, commands_kinds};

use crate::phrases::{push_chosen_of, push_cond, push_expr, push_row_field};
use crate::pieces::Pieces;
use homeo_print::Position;
use homeo_syntax::{Command, Cond, FieldValue, Ident, Mark, Memory};

fn push_setting(out: &mut Pieces, setting: &FieldValue) -> Result<(), Memory>
    ensures pushed { OnOk result (out.new ≡ out.old ++ setting_kinds (plain_field setting.now)) }
{
    out.name(setting.field)?;
    out.mark(Mark::Equal)?;
    push_expr(out, &setting.value, Position::Alone)
}

fn push_settings(out: &mut Pieces, settings: &[FieldValue]) -> Result<(), Memory>
    ensures pushed { OnOk result (out.new
        ≡ out.old ++ separated Comma (map setting_kinds (map plain_field settings.now))) }
{
    match settings {
        [] => Ok(()),
        [first, more @ ..] => {
            push_setting(out, first)?;
            for setting in more {
                out.mark(Mark::Comma)?;
                push_setting(out, setting)?;
            }
            Ok(())
        }
    }
}

/// Puts `row of relation when test` behind the tokens.
fn push_rows(out: &mut Pieces, row: Ident, relation: Ident, test: &Cond) -> Result<(), Memory>
    ensures pushed { OnOk result (out.new ≡ out.old ++ rows_kinds row relation (plain_cond test.now)) }
{
    out.name(row)?;
    push_chosen_of(out, relation)?;
    push_cond(out, test)
}

#[cycle(commands)]
fn push_command(out: &mut Pieces, c: &Command) -> Result<(), Memory>
    ensures pushed { OnOk result (out.new ≡ out.old ++ command_kinds (plain_command c.now)) }
{
    match c {
        Command::Skip => out.mark(Mark::Skip),
        Command::Assign { target, value } => {
            out.name(*target)?;
            out.mark(Mark::Assign)?;
            push_expr(out, value, Position::Alone)
        }
        Command::Write { object, value } => {
            out.mark(Mark::Write)?;
            out.mark(Mark::Open)?;
            out.name(*object)?;
            out.mark(Mark::Equal)?;
            push_expr(out, value, Position::Alone)?;
            out.mark(Mark::Close)
        }
        Command::Print { value } => {
            out.mark(Mark::Print)?;
            out.mark(Mark::Open)?;
            push_expr(out, value, Position::Alone)?;
            out.mark(Mark::Close)
        }
        Command::If { test, yes, no } => {
            out.mark(Mark::If)?;
            push_cond(out, test)?;
            out.mark(Mark::Then)?;
            push_command(out, yes)?;
            out.mark(Mark::Else)?;
            push_command(out, no)
        }
        Command::Block { commands } => {
            out.mark(Mark::OpenBrace)?;
            push_commands(out, commands.as_slice())?;
            out.mark(Mark::CloseBrace)
        }
        Command::SetField {
            relation,
            index,
            field,
            value,
        } => {
            out.name(*relation)?;
            out.mark(Mark::OpenBracket)?;
            push_expr(out, index, Position::Alone)?;
            out.mark(Mark::CloseBracket)?;
            out.mark(Mark::Dot)?;
            out.name(*field)?;
            out.mark(Mark::Assign)?;
            push_expr(out, value, Position::Alone)
        }
        Command::SetRow { row, field, value } => {
            push_row_field(out, *row, *field)?;
            out.mark(Mark::Assign)?;
            push_expr(out, value, Position::Alone)
        }
        Command::Foreach {
            row,
            relation,
            test,
            body,
        } => {
            out.mark(Mark::Foreach)?;
            push_rows(out, *row, *relation, test)?;
            out.mark(Mark::OpenBrace)?;
            push_commands(out, body.as_slice())?;
            out.mark(Mark::CloseBrace)
        }
        Command::Insert {
            relation,
            fields,
            into,
        } => {
            out.mark(Mark::Insert)?;
            out.name(*relation)?;
            out.mark(Mark::Open)?;
            push_settings(out, fields.as_slice())?;
            out.mark(Mark::Close)?;
            out.mark(Mark::Into)?;
            out.name(*into)
        }
        Command::Delete {
            row,
            relation,
            test,
        } => {
            out.mark(Mark::Delete)?;
            push_rows(out, *row, *relation, test)
        }
        Command::Update {
            row,
            relation,
            test,
            field,
            value,
        } => {
            out.mark(Mark::Update)?;
            push_rows(out, *row, *relation, test)?;
            out.mark(Mark::Set)?;
            out.name(*field)?;
            out.mark(Mark::Equal)?;
            push_expr(out, value, Position::Alone)
        }
        Command::Abort => out.mark(Mark::Abort),
    }
}

/// Puts commands behind the tokens, with a semicolon between each two.
#[cycle(commands)]
pub(crate) fn push_commands(out: &mut Pieces, cs: &[Command]) -> Result<(), Memory>
    ensures pushed { OnOk result (out.new ≡ out.old ++ commands_kinds (commands (map plain_command cs.now))) }
{
    match cs {
        [] => Ok(()),
        [first, more @ ..] => {
            push_command(out, first)?;
            for c in more {
                out.mark(Mark::Semicolon)?;
                push_command(out, c)?;
            }
            Ok(())
        }
    }
}
