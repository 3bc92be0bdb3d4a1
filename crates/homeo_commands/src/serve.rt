//! Batches of calls on a stream, answered as they come.

ghost use Rattle.std.specs.Prelude.{◌≡◌, ◌≢◌, ◌+◌, ◌++◌, [], ℕ, List, Some, false};
ghost use Rattle.homeo_io.specs.Faults.{Rose};
ghost use Rattle.homeo_io.specs.Moved.{GaveAtMost, TookExactly, TookPrefix};
ghost use Rattle.homeo_syntax.specs.declared.workload.Refusal.{Refusal};
ghost use Rattle.homeo_session.specs.Streams.{IsAfter, IsServed, EndRefuses};
ghost use Rattle.homeo_words.specs.declared.command.Command.TheVariants as commands;
ghost use Rattle.homeo_commands.specs.Reading.{most_read};
ghost use Rattle.homeo_commands.specs.Served.{ServedAll, ServedTo, ServedEarly, ServedSoFar, ServedPart};

use homeo_io::{Failed, Sink, Source, write_all};
use homeo_session::Session;
use homeo_syntax::{Memory, Refusal};
use std::alloc::Global;

/// The most bytes that are read at once.
const PIECE: usize = 4096;

/// How a session ended.
#[derive(Clone, Copy, Debug, PartialEq, Eq)]
pub enum Ending {
    /// The source was read to its end, and all was answered.
    Done,
    /// The session was stopped.
    Stopped(Refusal),
    /// Memory was wanting.
    Memory,
    /// The source failed.
    ReadFault,
    /// The output failed.
    WriteFault,
}

/// Answers the batches that the source gives: it reads a piece, answers each frame that the piece ends, and reads again only
/// when these answers were taken.
pub fn serve_source<S: Source, O: Sink>(alloc: Global, source: &mut S, out: &mut O) -> Ending
    ensures done { result ≡ Ending.Done → ServedAll (S.left source.old) (S.left source.new) (O.taken out.old) (O.taken out.new) }
    ensures stopped { (r : Refusal) → result ≡ Ending.Stopped r →
        ServedTo r (S.left source.old) (S.left source.new) (O.taken out.old) (O.taken out.new) }
    ensures stopped_early { (r : Refusal) → result ≡ Ending.Stopped r →
        ServedEarly (S.left source.old) (S.left source.new) (O.taken out.old) (O.taken out.new) }
    ensures memory { result ≡ Ending.Memory → ServedEarly (S.left source.old) (S.left source.new) (O.taken out.old) (O.taken out.new) }
    ensures read_fault { result ≡ Ending.ReadFault → ServedSoFar (S.left source.old) (S.left source.new) (O.taken out.old) (O.taken out.new) }
    ensures write_fault { result ≡ Ending.WriteFault → ServedPart (S.left source.old) (S.left source.new) (O.taken out.old) (O.taken out.new) }
    ensures gave { GaveAtMost (S.left source.old) (S.left source.new) (most_read commands.Serve) }
    ensures read_rose { result ≡ Ending.ReadFault → Rose (S.faults source.old) (S.faults source.new) }
    ensures write_rose { result ≡ Ending.WriteFault → Rose (O.faults out.old) (O.faults out.new) }
{
    let Ok(mut session) = Session::begin(alloc) else {
        return Ending::Memory;
    };
    let mut buffer = [0u8; PIECE];
    loop {
        let count = match source.read(&mut buffer) {
            Ok(count) => count,
            Err(Failed) => return Ending::ReadFault,
        };
        if count == 0 {
            return serve_end(alloc, session, out);
        }
        let fed = match session.feed(alloc, &buffer[..count]) {
            Ok(fed) => fed,
            Err(Memory) => return Ending::Memory,
        };
        if let Err(Failed) = write_all(out, fed.answers.as_slice()) {
            return Ending::WriteFault;
        }
        if let Some(stop) = fed.stop {
            return Ending::Stopped(stop);
        }
    }
}

// Answers what the end of the source ends.
fn serve_end<O: Sink>(alloc: Global, session: Session, out: &mut O) -> Ending
    requires { session.spent ≡ false }
    ensures done { (bytes sent : List ℕ) → IsAfter bytes sent session.state → result ≡ Ending.Done → (answer : List ℕ)
        × IsServed bytes (sent ++ answer) × TookExactly (O.taken out.old) (O.taken out.new) answer }
    ensures stopped { (bytes sent : List ℕ) (r : Refusal) → IsAfter bytes sent session.state → result ≡ Ending.Stopped r →
        (sent ≡ []) × EndRefuses bytes r × (out.new ≡ out.old) }
    ensures memory { result ≡ Ending.Memory → out.new ≡ out.old }
    ensures read_fault { result ≢ Ending.ReadFault }
    ensures write_fault { (bytes sent : List ℕ) → IsAfter bytes sent session.state → result ≡ Ending.WriteFault → (answer : List ℕ)
        × IsServed bytes (sent ++ answer) × TookPrefix (O.taken out.old) (O.taken out.new) answer }
    ensures write_rose { result ≡ Ending.WriteFault → Rose (O.faults out.old) (O.faults out.new) }
{
    let Ok(fed) = session.close(alloc) else {
        return Ending::Memory;
    };
    if let Some(stop) = fed.stop {
        return Ending::Stopped(stop);
    }
    match write_all(out, fed.answers.as_slice()) {
        Ok(()) => Ending::Done,
        Err(Failed) => Ending::WriteFault,
    }
}
