//! Reading the words of a command line.

ghost use Rattle.std.specs.Prelude.{◌≡◌, ◌↔◌, IfOk, IfSome, IsTrue, Some, option_map};
ghost use Rattle.std.specs.List.{list_any};
ghost use Rattle.clap.specs.Words.{subcommand_of, subcommand_rows_of};
ghost use Rattle.homeo_words.specs.Command.{Say};
ghost use Rattle.homeo_words.specs.inner.App.{homeo};
ghost use Rattle.homeo_words.specs.inner.Said.{Words, begins_with_minus, said_words, texts};

use crate::command::Command;
use crate::line::command_line;
use clap::ArgMatches;
use clap::error::ErrorKind;
use homeo_syntax::{List, Memory, Text};
use std::alloc::Global;

impl Command {
    /// The command that the words are, or `None` where they are no command. They don't include the program's name. Where a word
    /// begins with `-`, `clap` isn't asked.
    ///
    /// # Errors
    ///
    /// `Memory` where memory is wanting.
    pub fn of(alloc: Global, words: &List<Text>) -> Result<Option<Command>, Memory>
        ensures { IfOk result (λ r. (c : Command) → (r ≡ Some c) ↔ Say words.now.items c) }
    {
        if has_option(words.as_slice()) {
            return Ok(None);
        }
        let words = lent(alloc, words.as_slice())?;
        read(alloc, words.as_slice())
    }
}

fn begins_with_minus(word: &str) -> bool
    ensures { result ≡ begins_with_minus word.now }
{
    word.as_bytes().first() == Some(&b'-')
}

fn has_option(words: &[Text]) -> bool
    ensures { result ≡ list_any begins_with_minus words.now }
{
    words.iter().any(|word| begins_with_minus(word.as_str()))
}

fn lent<'a>(alloc: Global, words: &'a [Text]) -> Result<Vec<&'a str>, Memory>
    ensures { IfOk result (λ r. texts r.items ≡ words.now) }
{
    let mut lent = Vec::new(alloc);
    for word in words {
        lent.push(word.as_str())?;
    }
    Ok(lent)
}

fn are_same(words: &[&str], others: &[&str]) -> bool
    ensures { IsTrue result ↔ (texts words.now ≡ texts others.now) }
{
    words == others
}

/// The words of a command, as `clap` tells them apart.
#[derive(Clone, Copy)]
enum Said<'a> {
    /// One word.
    Plain(&'a str),
    /// `wire` and a word.
    Wire { number: &'a str },
    /// `load` and two words.
    Load { number: &'a str, calls: &'a str },
}

impl<'a> Said<'a> {
    /// What `clap` found. It finds the words of each command.
    fn found_in(matches: &ArgMatches<'a>) -> Option<Said<'a>>
        ensures { (words : Words) (c : Command) → Say words c → subcommand_rows_of matches.now ≡ subcommand_of homeo words
            → option_map said_words result ≡ Some words }
    {
        let (name, arguments) = matches.subcommand()?;
        if name == "load" {
            let number = arguments.get_str("NUMBER")?;
            let calls = arguments.get_str("CALLS")?;
            Some(Said::Load { number, calls })
        } else if name == "wire" {
            let number = arguments.get_str("NUMBER")?;
            Some(Said::Wire { number })
        } else {
            Some(Said::Plain(name))
        }
    }

    /// Whether these are all of the words, letter by letter.
    fn are(self, words: &[&str]) -> bool
        ensures { IsTrue result ↔ (texts words.now ≡ said_words self.entry) }
    {
        match self {
            Said::Plain(word) => are_same(words, &[word]),
            Said::Wire { number } => are_same(words, &["wire", number]),
            Said::Load { number, calls } => are_same(words, &["load", number, calls]),
        }
    }

    fn command(self) -> Option<Command>
        ensures { (c : Command) → (result ≡ Some c) ↔ Say (said_words self.entry) c }
    {
        match self {
            Said::Plain(word) => Command::named(word),
            Said::Wire { number } => Command::wire(number),
            Said::Load { number, calls } => Command::load(number, calls),
        }
    }
}

/// The command of what was found, where this is all of the words.
fn checked(words: &[&str], found: Option<Said<'_>>) -> Option<Command>
    ensures only { IfSome result (Say (texts words.now)) }
    ensures all { (c : Command) → option_map said_words found.entry ≡ Some (texts words.now) → Say (texts words.now) c
        → result ≡ Some c }
{
    let said = found?;
    if said.are(words) {
        said.command()
    } else {
        None
    }
}

/// Reads words by `clap`, which fails on the words of a command only where memory is wanting.
fn read<'a>(alloc: Global, words: &'a [&'a str]) -> Result<Option<Command>, Memory>
    ensures only { IfOk result (λ r. IfSome r (Say (texts words.entry.now))) }
    ensures all { IfOk result (λ r. (c : Command) → Say (texts words.entry.now) c → r ≡ Some c) }
{
    let line = command_line(alloc)?;
    match line.try_get_matches_from(words) {
        Ok(matches) => Ok(checked(words, Said::found_in(&matches))),
        Err(error) => match error.kind() {
            ErrorKind::OutOfMemory => Err(Memory),
            _ => Ok(None),
        },
    }
}
