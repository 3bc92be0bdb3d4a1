//! Which commands can end a call.

ghost use Rattle.std.specs.Prelude.{◌≡◌, map};
ghost use Rattle.homeo_syntax.specs.SourceView.{commands, plain_command};
ghost use Rattle.homeo_meaning.specs.Aborts.{holds_abort, hold_abort};

use homeo_syntax::Command;

/// Whether a command is an abort, or has one in it.
#[cycle(aborts)]
#[tactic(auto, using(homeo_syntax::proofs::SourceViews::command_views, crate::proofs::AbortEquations::holds))]
pub fn holds_abort(c: &Command) -> bool
    ensures { result ≡ holds_abort (plain_command c.now) }
{
    match c {
        Command::Abort => true,
        Command::If { test: _, yes, no } => holds_abort(yes) || holds_abort(no),
        Command::Block { commands } => hold_abort(commands.as_slice()),
        Command::Foreach { body, .. } => hold_abort(body.as_slice()),
        Command::Skip
        | Command::Assign { .. }
        | Command::Write { .. }
        | Command::Print { .. }
        | Command::SetField { .. }
        | Command::SetRow { .. }
        | Command::Insert { .. }
        | Command::Delete { .. }
        | Command::Update { .. } => false,
    }
}

/// Whether one of the commands is an abort, or has one in it.
#[cycle(aborts)]
#[tactic(auto, using(crate::proofs::AbortEquations::lists, crate::proofs::Steps::steps))]
pub fn hold_abort(cs: &[Command]) -> bool
    ensures { result ≡ hold_abort (commands (map plain_command cs.now)) }
{
    let mut held = false;
    for c in cs {
        held = held || holds_abort(c);
    }
    held
}
