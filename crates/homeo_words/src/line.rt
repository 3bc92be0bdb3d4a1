//! The command line as `clap` reads it.

ghost use Rattle.std.specs.Prelude.{◌≡◌, IfOk, false};
ghost use Rattle.clap.specs.Words.{app_of};
ghost use Rattle.clap.specs.declared.builder.command.Command.TheViews.{out-Command as fields_of};
ghost use Rattle.homeo_words.specs.inner.App.{homeo, load, wire, with_words};
ghost use Rattle.homeo_words.specs.inner.Said.{texts};

use clap::{Arg, Command};
use homeo_syntax::Memory;
use std::alloc::Global;

/// `wire` with its number.
fn wire<'a>(alloc: Global) -> Result<Command<'a>, Memory>
    ensures app { IfOk result (λ c. app_of c ≡ wire) }
    ensures local { IfOk result (λ c. (fields_of c).has_globals ≡ false) }
{
    let number = Arg::new(alloc, "NUMBER").required(true);
    let wire = Command::new(alloc, "wire").arg(number)?;
    Ok(wire)
}

/// `load` with its two numbers.
fn load<'a>(alloc: Global) -> Result<Command<'a>, Memory>
    ensures app { IfOk result (λ c. app_of c ≡ load) }
    ensures local { IfOk result (λ c. (fields_of c).has_globals ≡ false) }
{
    let number = Arg::new(alloc, "NUMBER").required(true);
    let calls = Arg::new(alloc, "CALLS").required(true);
    let load = Command::new(alloc, "load").arg(number)?.arg(calls)?;
    Ok(load)
}

/// The commands of one word.
const PLAIN: [&str; 8] = [
    "steps", "run", "tables", "treaty", "serve", "forecast", "certify", "verify",
];

/// A line with commands of one word each.
fn with_words<'a>(
    alloc: Global,
    line: Command<'a>,
    words: &[&'a str],
) -> Result<Command<'a>, Memory>
    ensures { IfOk result (λ c. app_of c ≡ with_words (app_of line.entry) (texts words.now)) }
{
    let mut line = line;
    for word in words {
        line = line.subcommand(Command::new(alloc, word))?;
    }
    Ok(line)
}

/// The commands with their arguments. The words don't include the program's name.
pub(crate) fn command_line<'a>(alloc: Global) -> Result<Command<'a>, Memory>
    ensures { IfOk result (λ c. app_of c ≡ homeo) }
{
    let empty = Command::new(alloc, "homeo").no_binary_name(true);
    let plain = with_words(alloc, empty, &PLAIN)?;
    let with_wire = plain.subcommand(wire(alloc)?)?;
    let homeo = with_wire.subcommand(load(alloc)?)?;
    Ok(homeo)
}
