//! The top call, with its promise: words, a source, an output and complaints.

ghost use Rattle.std.specs.Prelude.{◌≡◌, ◌≢◌, ◌⊎◌, ◌↔◌, ℕ, List, Some};
ghost use Rattle.homeo_io.specs.Faults.{Rose};
ghost use Rattle.homeo_io.specs.Moved.{GaveAtMost, TookExactly, TookPrefix};
ghost use Rattle.homeo_syntax.specs.declared.workload.Refusal.{Refusal};
ghost use Rattle.homeo_accept.specs.RefusalLine.{refusal_line};
ghost use Rattle.homeo_words.specs.Command.{IsCommand, Say};
ghost use Rattle.homeo_words.specs.declared.command.Command.{Command};
ghost use Rattle.homeo_words.specs.declared.command.Command.TheVariants as commands;
ghost use Rattle.homeo_commands.specs.Called.{HasFewCalls};
ghost use Rattle.homeo_commands.specs.Made.{CanBeDone, IsMade, IsRefusal, IsRefusedUnder};
ghost use Rattle.homeo_commands.specs.Reading.{most_read};
ghost use Rattle.homeo.specs.Command.{ReadNothing, line_of};
ghost use Rattle.homeo.specs.Outcome.{IsCutOff, IsDone, IsToldRefusal, TellsDoable, TellsRefused, TookLine};
ghost use Rattle.homeo.specs.Serving.{Serves};

use crate::status::{MEMORY_LINE, READ_FAULT_LINE, Status, USAGE_LINE, WRITE_FAULT_LINE};
use homeo_accept::refusal_line;
use homeo_cluster::Gate;
use homeo_commands::{Ending, Stop, output_of, serve_source};
use homeo_io::{Failed, Sink, Source, write_all};
use homeo_syntax::Text;
use homeo_words::Command;
use std::alloc::Global;
use std::sync::Wait;
use std::thread::Threads;

/// Runs the command that the words are, on what the source gives:
///
/// - `steps` runs the calls of a text one after another in the order of its schedule, and writes the report;
/// - `run` runs the calls of each client of a text in work of its own, and writes the report;
/// - `tables` writes the symbolic tables of a text's ground calls, and their joint table;
/// - `treaty` writes the treaties at a text's initial database;
/// - `serve` takes a stream's first frame as its head and each further one as a batch of calls, whose report it writes before it
///   reads on;
/// - `forecast` writes how far the calls of a text go in the order of its schedule without a cleanup, and what stops the next one;
/// - `certify` writes the certificate of the treaties at a text's initial database, and a newline;
/// - `verify` writes the verdict on a certificate;
/// - `wire NUMBER` runs the calls of a text at nodes that send each other packets, by the events that the number chooses, and writes
///   the report of the calls that were made;
/// - `load NUMBER CALLS` reads nothing. It makes a workload of so many calls from the number, runs it as `run` does, and writes its
///   summary.
///
/// The words don't include the program's name. The output goes to `out`, which is offered bytes only when the whole output
/// has been made, or under `serve` all answers to what was read. A fault of `complaints` changes no status. Under `run` and
/// `load` it may wait for locks and workers, and the gate is told of each call.
pub fn run<R: Threads + Wait + Sync, S: Source, O: Sink, E: Sink, G: Gate>(
    rt: &R,
    alloc: Global,
    words: &homeo_syntax::List<Text>,
    source: &mut S,
    out: &mut O,
    complaints: &mut E,
    gate: &G,
) -> Status
    // Status 1, exactly where the words are no command, but for want of memory.
    ensures usage { result ≡ Status.Usage → ¬ IsCommand words.now.items }
    ensures usage_exactly { ¬ IsCommand words.now.items → (result ≡ Status.Usage) ⊎ (result ≡ Status.Memory) }

    // Status 2, exactly where what the source tells is refused under the command. The complaint names code and offset.
    ensures refused { result ≡ Status.Refused → IsToldRefusal words.now.items (S.left source.old)
        (E.taken complaints.old) (E.taken complaints.new) (E.faults complaints.old) (E.faults complaints.new) }
    ensures refused_exactly { TellsRefused words.now.items (S.left source.old) → result ≢ Status.ReadFault → result ≢ Status.WriteFault
        → (result ≡ Status.Refused) ⊎ (result ≡ Status.Memory) }

    // What was read, at every status: at most what the command takes, and what is left is a suffix of what was left.
    ensures gave { (c : Command) → Say words.now.items c → GaveAtMost (S.left source.old) (S.left source.new) (most_read c) }
    // Where that is nothing, and where the words are no command, the source isn't touched and its faults are no reason to stop.
    ensures unread { ReadNothing words.now.items → source.new ≡ source.old }
    ensures unhindered { ReadNothing words.now.items → result ≢ Status.ReadFault }

    // Statuses 4 and 5, only where the count of faults rose in this call.
    ensures read_fault { result ≡ Status.ReadFault → Rose (S.faults source.old) (S.faults source.new) }
    ensures write_fault { result ≡ Status.WriteFault → Rose (O.faults out.old) (O.faults out.new) }

    // What `out` took: nothing, a prefix of the output, or exactly the output. Under `serve` answers are written as their frames end,
    // and each status tells which.
    ensures untouched { ¬ Say words.now.items commands.Serve → result ≢ Status.Done → result ≢ Status.WriteFault → out.new ≡ out.old }
    ensures served { Say words.now.items commands.Serve → Serves result
        (S.left source.old) (S.left source.new) (O.taken out.old) (O.taken out.new) }
    ensures cut_off { ¬ Say words.now.items commands.Serve → result ≡ Status.WriteFault → IsCutOff words.now.items
        (S.left source.old) (S.left source.new) (O.taken out.old) (O.taken out.new) }
    ensures done { result ≡ Status.Done → IsDone words.now.items
        (S.left source.old) (S.left source.new) (O.taken out.old) (O.taken out.new) }

    // What `complaints` took: exactly the status's line, or a prefix where its count rose.
    ensures complaint { result ≢ Status.Refused → TookLine
        (E.taken complaints.old) (E.taken complaints.new) (E.faults complaints.old) (E.faults complaints.new) (line_of result) }

    // Right words, what can be done under them, and no fault.
    ensures complete { TellsDoable words.now.items (S.left source.old) → result ≢ Status.ReadFault → result ≢ Status.WriteFault
        → (result ≡ Status.Done) ⊎ (result ≡ Status.Memory) }
{
    match Command::of(alloc, words) {
        Ok(Some(command)) => match command {
            Command::Serve => serve(alloc, source, out, complaints),
            _ => run_command(rt, alloc, command, source, out, complaints, gate),
        },
        Ok(None) => complain(alloc, Stop::Usage, complaints),
        Err(_) => complain(alloc, Stop::Memory, complaints),
    }
}

/// Runs a command on what the source gives.
fn run_command<R: Threads + Wait + Sync, S: Source, O: Sink, E: Sink, G: Gate>(
    rt: &R,
    alloc: Global,
    command: Command,
    source: &mut S,
    out: &mut O,
    complaints: &mut E,
    gate: &G,
) -> Status
    requires few { HasFewCalls command }
    requires whole { command ≢ commands.Serve }
    ensures no_usage { result ≢ Status.Usage }
    ensures refused { result ≡ Status.Refused → (r : Refusal) × IsRefusedUnder command (S.left source.old) r
        × TookLine (E.taken complaints.old) (E.taken complaints.new) (E.faults complaints.old) (E.faults complaints.new) (refusal_line r) }
    ensures refused_exactly { (bytes : List ℕ) (r : Refusal) → S.left source.old ≡ Some bytes → IsRefusal command bytes r
        → result ≢ Status.ReadFault → (result ≡ Status.Refused) ⊎ (result ≡ Status.Memory) }
    ensures gave { GaveAtMost (S.left source.old) (S.left source.new) (most_read command) }
    ensures unread { most_read command ≡ 0 → source.new ≡ source.old }
    ensures unhindered { most_read command ≡ 0 → result ≢ Status.ReadFault }
    ensures read_fault { result ≡ Status.ReadFault → Rose (S.faults source.old) (S.faults source.new) }
    ensures write_fault { result ≡ Status.WriteFault → Rose (O.faults out.old) (O.faults out.new) }
    ensures untouched { result ≢ Status.Done → result ≢ Status.WriteFault → out.new ≡ out.old }
    ensures cut_off { result ≡ Status.WriteFault → (output : List ℕ)
        × IsMade command (S.left source.old) (S.left source.new) output × TookPrefix (O.taken out.old) (O.taken out.new) output }
    ensures done { result ≡ Status.Done → (output : List ℕ)
        × IsMade command (S.left source.old) (S.left source.new) output × TookExactly (O.taken out.old) (O.taken out.new) output }
    ensures complaint { result ≢ Status.Refused → TookLine
        (E.taken complaints.old) (E.taken complaints.new) (E.faults complaints.old) (E.faults complaints.new) (line_of result) }
    ensures complete { CanBeDone command (S.left source.old) → result ≢ Status.ReadFault → result ≢ Status.WriteFault
        → (result ≡ Status.Done) ⊎ (result ≡ Status.Memory) }
{
    match output_of(rt, alloc, command, source, gate) {
        Ok(output) => match write_all(out, &output) {
            Ok(()) => Status::Done,
            Err(Failed) => {
                say(complaints, WRITE_FAULT_LINE);
                Status::WriteFault
            }
        },
        Err(stop) => complain(alloc, stop, complaints),
    }
}

/// Answers the batches that the source gives.
fn serve<S: Source, O: Sink, E: Sink>(
    alloc: Global,
    source: &mut S,
    out: &mut O,
    complaints: &mut E,
) -> Status
    ensures no_usage { result ≢ Status.Usage }
    ensures refused { result ≡ Status.Refused → (r : Refusal) × IsRefusedUnder commands.Serve (S.left source.old) r
        × TookLine (E.taken complaints.old) (E.taken complaints.new) (E.faults complaints.old) (E.faults complaints.new) (refusal_line r) }
    ensures refused_exactly { (bytes : List ℕ) (r : Refusal) → S.left source.old ≡ Some bytes → IsRefusal commands.Serve bytes r
        → result ≢ Status.ReadFault → result ≢ Status.WriteFault → (result ≡ Status.Refused) ⊎ (result ≡ Status.Memory) }
    ensures gave { GaveAtMost (S.left source.old) (S.left source.new) (most_read commands.Serve) }
    ensures read_fault { result ≡ Status.ReadFault → Rose (S.faults source.old) (S.faults source.new) }
    ensures write_fault { result ≡ Status.WriteFault → Rose (O.faults out.old) (O.faults out.new) }
    ensures served { Serves result (S.left source.old) (S.left source.new) (O.taken out.old) (O.taken out.new) }
    ensures complaint { result ≢ Status.Refused → TookLine
        (E.taken complaints.old) (E.taken complaints.new) (E.faults complaints.old) (E.faults complaints.new) (line_of result) }
    ensures complete { CanBeDone commands.Serve (S.left source.old) → result ≢ Status.ReadFault → result ≢ Status.WriteFault
        → (result ≡ Status.Done) ⊎ (result ≡ Status.Memory) }
{
    match serve_source(alloc, source, out) {
        Ending::Done => Status::Done,
        Ending::Stopped(refusal) => complain(alloc, Stop::Refused(refusal), complaints),
        Ending::Memory => complain(alloc, Stop::Memory, complaints),
        Ending::ReadFault => complain(alloc, Stop::ReadFault, complaints),
        Ending::WriteFault => {
            say(complaints, WRITE_FAULT_LINE);
            Status::WriteFault
        }
    }
}

// Writes a line. A fault of the complaints changes nothing else.
fn say<E: Sink>(complaints: &mut E, line: &str)
    ensures { TookLine (E.taken complaints.old) (E.taken complaints.new) (E.faults complaints.old) (E.faults complaints.new) line.now }
{
    let _ = write_all(complaints, line.as_bytes());
}

// Writes the line of a stop.
fn complain<E: Sink>(alloc: Global, stop: Stop, complaints: &mut E) -> Status
    ensures usage { (stop ≡ Stop.Usage) ↔ (result ≡ Status.Usage) }
    ensures fault { (stop ≡ Stop.ReadFault) ↔ (result ≡ Status.ReadFault) }
    ensures refused { result ≡ Status.Refused → (r : Refusal) × (stop ≡ Stop.Refused r)
        × TookLine (E.taken complaints.old) (E.taken complaints.new) (E.faults complaints.old) (E.faults complaints.new) (refusal_line r) }
    ensures complaint { result ≢ Status.Refused → TookLine
        (E.taken complaints.old) (E.taken complaints.new) (E.faults complaints.old) (E.faults complaints.new) (line_of result) }
    ensures no_output { (result ≢ Status.Done) × (result ≢ Status.WriteFault) }
    ensures refused_exactly { (r : Refusal) → stop ≡ Stop.Refused r → (result ≡ Status.Refused) ⊎ (result ≡ Status.Memory) }
    ensures memory { stop ≡ Stop.Memory → result ≡ Status.Memory }
{
    match stop {
        Stop::Usage => {
            say(complaints, USAGE_LINE);
            Status::Usage
        }
        Stop::Refused(refusal) => match refusal_line(alloc, refusal) {
            Ok(line) => {
                say(complaints, line.as_str());
                Status::Refused
            }
            Err(_) => {
                say(complaints, MEMORY_LINE);
                Status::Memory
            }
        },
        Stop::Memory => {
            say(complaints, MEMORY_LINE);
            Status::Memory
        }
        Stop::ReadFault => {
            say(complaints, READ_FAULT_LINE);
            Status::ReadFault
        }
    }
}
