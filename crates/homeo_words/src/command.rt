//! The commands, each with its words.

ghost use Rattle.std.specs.Prelude.{◌≡◌, ◌↔◌, ◌∷◌, [], Some, codes};
ghost use Rattle.homeo_words.specs.Command.{Say};

use crate::numeral::numeral;

/// The fewest calls of a load.
const FEWEST_CALLS: u64 = 1;

/// The most calls of a load.
const MOST_CALLS: u64 = 20_000;

/// What the words of a run ask for (this project's rule).
#[derive(Clone, Copy, Debug, PartialEq, Eq)]
pub enum Command {
    /// Runs the calls in the order of the schedule, and writes the report.
    Steps,
    /// Runs each client in a thread of its own, and writes the report.
    Run,
    /// Writes the symbolic tables of the ground calls, and their joint table.
    Tables,
    /// Writes the treaties at the initial database.
    Treaty,
    /// Answers the batches that the source gives.
    Serve,
    /// Writes how far the calls of the schedule go from the initial database without a cleanup, and what stops the next one.
    Forecast,
    /// Writes the certificate of the round that begins at the initial database.
    Certify,
    /// Writes the verdict on a certificate.
    Verify,
    /// Runs the calls at nodes that send each other packets, by the events that a number chooses, and writes the report.
    Wire { number: u64 },
    /// Makes the load that starts at a number and has so many calls, from 1 to 20,000, runs it as `Run` does, and writes the
    /// summary.
    Load { number: u64, calls: u32 },
}

impl Command {
    /// The command of one word.
    pub(crate) fn named(word: &str) -> Option<Command>
        ensures { (c : Command) → (result ≡ Some c) ↔ Say (word.now ∷ []) c }
    {
        if word == "steps" {
            Some(Command::Steps)
        } else if word == "run" {
            Some(Command::Run)
        } else if word == "tables" {
            Some(Command::Tables)
        } else if word == "treaty" {
            Some(Command::Treaty)
        } else if word == "serve" {
            Some(Command::Serve)
        } else if word == "forecast" {
            Some(Command::Forecast)
        } else if word == "certify" {
            Some(Command::Certify)
        } else if word == "verify" {
            Some(Command::Verify)
        } else {
            None
        }
    }

    /// The command of the word behind `wire`.
    pub(crate) fn wire(number: &str) -> Option<Command>
        ensures { (c : Command) → (result ≡ Some c) ↔ Say (codes "wire" ∷ number.now ∷ []) c }
    {
        let number = numeral(number, 0, u64::MAX)?;
        Some(Command::Wire { number })
    }

    /// The command of the two words behind `load`.
    pub(crate) fn load(number: &str, calls: &str) -> Option<Command>
        ensures { (c : Command) → (result ≡ Some c) ↔ Say (codes "load" ∷ number.now ∷ calls.now ∷ []) c }
    {
        let number = numeral(number, 0, u64::MAX)?;
        let calls = numeral(calls, FEWEST_CALLS, MOST_CALLS)?;
        Some(Command::Load {
            number,
            calls: calls as u32,
        })
    }
}
