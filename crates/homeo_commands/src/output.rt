//! What each command makes of what its source gives.

ghost use Rattle.std.specs.Prelude.{◌≡◌, ◌≢◌, ◌+◌, ◌≤◌, ℕ, List, [], Some, length, IfOk, IsErrOf};
ghost use Rattle.homeo_io.specs.Faults.{Rose};
ghost use Rattle.homeo_io.specs.Moved.{GaveAtMost};
ghost use Rattle.homeo_syntax.specs.declared.workload.Refusal.{Refusal};
ghost use Rattle.homeo_syntax.specs.SourceView.{plain_workload};
ghost use Rattle.homeo_syntax.specs.WellFormed.{IsWellFormed};
ghost use Rattle.homeo_meaning.specs.declared.call.Purpose.TheVariants as purpose;
ghost use Rattle.homeo_words.specs.declared.command.Command.TheVariants as commands;
ghost use Rattle.homeo_meaning.specs.Faults.{faults};
ghost use Rattle.homeo_meaning.specs.Verdict.{Accepts, IsRefused, text_limit};
ghost use Rattle.homeo_commands.specs.Reading.{most_read};
ghost use Rattle.homeo_commands.specs.Made.{IsMade, IsRefusedUnder, IsReport, IsScheduledReport, OfText};
ghost use Rattle.homeo_commands.specs.Called.{HasFewCalls};
ghost use Rattle.homeo_commands.specs.inner.Texts.{Excludes, IsOnText, Makes, purpose_of};

use crate::certify::certify;
use crate::clients::clients;
use crate::load::load;
use crate::stop::Stop;
use crate::tables::tables;
use crate::treaty::treaty;
use crate::verify::verdict;
use crate::wire::wire;
use homeo_accept::{TextRefusal, accepted};
use homeo_build::compile::compile;
use homeo_cluster::Gate;
use homeo_forecast::scheduled_forecast;
use homeo_io::{ReadError, Source, read_all};
use homeo_meaning::{Accepted, Purpose};
use homeo_report::report;
use homeo_steps::steps;
use homeo_syntax::{Memory, Refusal};
use homeo_words::Command;
use std::alloc::Global;
use std::sync::{Arc, Wait};
use std::thread::Threads;

/// The most bytes that a text may have.
const TEXT_LIMIT: usize = 1_048_576;

/// What is told where a text has more bytes.
const TOO_LONG: Refusal = Refusal {
    code: 2,
    offset: 1_048_576,
};

/// The whole output of a command on what its source gives. It isn't `serve`, which answers as it reads (`serve_source`), and a load
/// has at most 20,000 calls. Under `run` and `load` it may wait for locks and workers, and the gate is told of each call.
///
/// # Errors
///
/// `Refused` where what the source tells is refused under the command, `ReadFault` where the source failed, and `Memory` where
/// memory is wanting; never `Usage`. The source has given no more than the command takes.
pub fn output_of<R: Threads + Wait + Sync, S: Source, G: Gate>(
    rt: &R,
    alloc: Global,
    command: Command,
    source: &mut S,
    gate: &G,
) -> Result<Vec<u8>, Stop>
    requires few { HasFewCalls command }
    requires whole { command ≢ commands.Serve }
    ensures made { IfOk result (λ bytes. IsMade command (S.left source.old) (S.left source.new) bytes.items) }
    ensures no_usage { IsErrOf result Stop.Usage → ⊥ }
    ensures refused { (r : Refusal) → IsErrOf result (Stop.Refused r) → IsRefusedUnder command (S.left source.old) r }
    ensures fault { IsErrOf result Stop.ReadFault → Rose (S.faults source.old) (S.faults source.new) }
    ensures gave { GaveAtMost (S.left source.old) (S.left source.new) (most_read command) }
    ensures unread { most_read command ≡ 0 → source.new ≡ source.old }
    ensures no_fault { most_read command ≡ 0 → IsErrOf result Stop.ReadFault → ⊥ }
{
    match command {
        Command::Serve => unreachable!(),
        Command::Verify => verdict(alloc, source),
        Command::Load { number, calls } => Ok(load(rt, alloc, number, calls, gate)?),
        _ => {
            let w = text_of(alloc, source, purpose_of(command))?;
            made_of(rt, alloc, command, w, gate)
        }
    }
}

/// What a text is read for under a command that reads one.
fn purpose_of(command: Command) -> Purpose
    requires { IsOnText command }
    ensures { result ≡ purpose_of command }
{
    match command {
        Command::Steps | Command::Forecast => Purpose::Steps,
        Command::Run | Command::Wire { .. } => Purpose::Run,
        Command::Tables => Purpose::Tables,
        Command::Treaty | Command::Certify => Purpose::Treaty,
        Command::Serve | Command::Verify | Command::Load { .. } => unreachable!(),
    }
}

/// The whole output of a command on a workload that is accepted for its purpose.
fn made_of<R: Threads + Wait + Sync, G: Gate>(
    rt: &R,
    alloc: Global,
    command: Command,
    w: Accepted,
    gate: &G,
) -> Result<Vec<u8>, Stop>
    requires text { IsOnText command }
    requires well_formed { IsWellFormed (plain_workload w) }
    requires sound { faults (purpose_of command) (plain_workload w) ≡ [] }
    ensures made { IfOk result (λ bytes. Makes command (plain_workload w) bytes.items) }
    ensures refused { (r : Refusal) → IsErrOf result (Stop.Refused r) → Excludes command (plain_workload w) r }
    ensures no_other { (IsErrOf result Stop.Usage → ⊥) × (IsErrOf result Stop.ReadFault → ⊥) }
{
    match command {
        Command::Steps => Ok(steps_report(alloc, w)?),
        Command::Run => Ok(run_report(rt, alloc, w, gate)?),
        Command::Tables => Ok(tables(alloc, w)?),
        Command::Treaty => Ok(treaty(alloc, w)?),
        Command::Forecast => Ok(scheduled_forecast(alloc, w)?),
        Command::Certify => certify(alloc, w),
        Command::Wire { number } => wire(alloc, w, number),
        Command::Serve | Command::Verify | Command::Load { .. } => unreachable!(),
    }
}

/// The workload as which the source's text is accepted for a purpose.
fn text_of<S: Source>(alloc: Global, source: &mut S, purpose: Purpose) -> Result<Accepted, Stop>
    ensures well_formed { IfOk result (λ w. IsWellFormed (plain_workload w)) }
    ensures sound { IfOk result (λ w. faults purpose (plain_workload w) ≡ []) }
    ensures read { IfOk result (λ w. OfText purpose (S.left source.old) (S.left source.new) (λ v. v ≡ plain_workload w)) }
    ensures no_usage { IsErrOf result Stop.Usage → ⊥ }
    ensures refused { (r : Refusal) → IsErrOf result (Stop.Refused r) → (text : List ℕ) → S.left source.old ≡ Some text → IsRefused text purpose r }
    ensures fault { IsErrOf result Stop.ReadFault → Rose (S.faults source.old) (S.faults source.new) }
    ensures gave { GaveAtMost (S.left source.old) (S.left source.new) (text_limit + 1) }
{
    match read_all(alloc, source, TEXT_LIMIT) {
        Ok(text) => accept_text(alloc, &text, purpose),
        Err(ReadError::Fault) => Err(Stop::ReadFault),
        Err(ReadError::TooLong { .. }) => Err(Stop::Refused(TOO_LONG)),
        Err(ReadError::Memory) => Err(Stop::Memory),
    }
}

// The workload as which a text is accepted, or the stop.
fn accept_text(alloc: Global, text: &[u8], purpose: Purpose) -> Result<Accepted, Stop>
    requires { length text.now ≤ text_limit }
    ensures well_formed { IfOk result (λ w. IsWellFormed (plain_workload w)) }
    ensures accepted { IfOk result (λ w. Accepts text.now purpose (plain_workload w)) }
    ensures refused { (r : Refusal) → IsErrOf result (Stop.Refused r) → IsRefused text.now purpose r }
    ensures no_other { (IsErrOf result Stop.Usage → ⊥) × (IsErrOf result Stop.ReadFault → ⊥) }
{
    match accepted(alloc, text, purpose) {
        Ok(accepted) => Ok(accepted),
        Err(TextRefusal::Refused(refusal)) => Err(Stop::Refused(refusal)),
        Err(TextRefusal::Memory) => Err(Stop::Memory),
    }
}

// The report of a workload whose calls are made in the order of its schedule.
fn steps_report(alloc: Global, w: Accepted) -> Result<Vec<u8>, Memory>
    requires well_formed { IsWellFormed (plain_workload w) }
    requires sound { faults purpose.Steps (plain_workload w) ≡ [] }
    ensures { IfOk result (λ bytes. IsScheduledReport (plain_workload w) bytes.items) }
{
    let compiled = Arc::new(alloc, compile(alloc, w)?)?;
    let history = steps(alloc, &compiled)?;
    report(alloc, &history, compiled.workload())
}

// The report of a workload whose clients make their calls each in work of its own.
fn run_report<R: Threads + Wait + Sync, G: Gate>(
    rt: &R,
    alloc: Global,
    w: Accepted,
    gate: &G,
) -> Result<Vec<u8>, Memory>
    ensures { IfOk result (λ bytes. IsReport (plain_workload w) bytes.items) }
{
    let compiled = Arc::new(alloc, compile(alloc, w)?)?;
    let history = clients(rt, alloc, Arc::try_clone(&compiled)?, gate)?;
    report(alloc, &history, compiled.workload())
}
