//! Whole runs of the top call, over sources and sinks in memory that fail where they are told to.

use crate::same::{same, same_items};
use homeo::{Status, run};
use homeo_cluster::{Gate, OpenGate};
use homeo_io::{MemorySink, MemorySource};
use homeo_syntax::{List, Text};
use std::alloc::Global;
use std::process::Abort;
use std::sync::Wait;
use std::thread::Threads;

/// What a run is given: words, a text, how many bytes a read and a write move at most, how many bytes an output may have, and of each
/// stream the number of the call that fails, or 0.
#[derive(Clone, Copy, Drop)]
pub(crate) struct Given<'a> {
    pub words: &'a [&'a str],
    pub text: &'a str,
    pub read_piece: usize,
    pub write_piece: usize,
    pub room: usize,
    pub read_fails: u64,
    pub write_fails: u64,
    pub complaint_fails: u64,
}

/// How a run ended, and what it wrote to its output and its complaints.
#[derive(Drop)]
pub(crate) struct Ending {
    pub status: Status,
    pub output: Vec<u8>,
    pub complaint: Vec<u8>,
}

/// Short texts by short pieces, without a fault.
pub(crate) const fn plain<'a>(words: &'a [&'a str], text: &'a str) -> Given<'a> {
    Given {
        words,
        text,
        read_piece: 16,
        write_piece: 16,
        room: 4096,
        read_fails: 0,
        write_fails: 0,
        complaint_fails: 0,
    }
}

fn sink(rt: &impl Abort, alloc: Global, given: Given<'_>, fails: u64) -> MemorySink {
    let fails = vec![in alloc; fails].expect(rt, "memory");
    MemorySink::new(alloc, given.room, given.write_piece.max(1), fails).expect(rt, "memory")
}

fn source(rt: &impl Abort, alloc: Global, given: Given<'_>) -> MemorySource {
    let text = given.text.as_bytes().to_vec(alloc).expect(rt, "memory");
    let fails = vec![in alloc; given.read_fails].expect(rt, "memory");
    MemorySource::new(text, given.read_piece.max(1), fails)
}

fn words_of(rt: &impl Abort, alloc: Global, given: Given<'_>) -> List<Text> {
    let mut words = List::new(alloc);
    for word in given.words {
        let word = Text::of(alloc, word).expect(rt, "memory");
        words.push(word).expect(rt, "memory");
    }
    words
}

fn written(rt: &impl Abort, alloc: Global, sink: &MemorySink) -> Vec<u8> {
    sink.bytes().to_vec(alloc).expect(rt, "memory")
}

/// Runs to the end, where a gate is told of each call.
pub(crate) fn run_under<R: Threads + Wait + Abort + Sync, G: Gate>(
    rt: &R,
    alloc: Global,
    given: Given<'_>,
    gate: &G,
) -> Ending {
    let words = words_of(rt, alloc, given);
    let mut source = source(rt, alloc, given);
    let mut taken = sink(rt, alloc, given, given.write_fails);
    let mut said = sink(rt, alloc, given, given.complaint_fails);
    let status = run(rt, alloc, &words, &mut source, &mut taken, &mut said, gate);
    Ending {
        status,
        output: written(rt, alloc, &taken),
        complaint: written(rt, alloc, &said),
    }
}

/// Runs, and compares status, output and complaint.
pub(crate) fn check<R: Threads + Wait + Abort + Sync>(
    rt: &R,
    alloc: Global,
    given: Given<'_>,
    status: Status,
    output: &str,
    complaint: &str,
) {
    let ended = run_under(rt, alloc, given, &OpenGate);
    same(rt, &ended.status, &status);
    same_items(rt, ended.output.as_slice(), output.as_bytes());
    same_items(rt, ended.complaint.as_slice(), complaint.as_bytes());
}

/// Runs on a text whose output may be long, in one piece and without a fault.
pub(crate) fn run_words<R: Threads + Wait + Abort + Sync, G: Gate>(
    rt: &R,
    alloc: Global,
    words: &[&str],
    text: &str,
    gate: &G,
) -> Ending {
    let given = Given {
        read_piece: 65_536,
        write_piece: 65_536,
        room: 1_048_576,
        ..plain(words, text)
    };
    run_under(rt, alloc, given, gate)
}

/// The output of words that are a command, on a text that is accepted under it.
pub(crate) fn output<R: Threads + Wait + Abort + Sync, G: Gate>(
    rt: &R,
    alloc: Global,
    words: &[&str],
    text: &str,
    gate: &G,
) -> Vec<u8> {
    let ending = run_words(rt, alloc, words, text, gate);
    same(rt, &ending.status, &Status::Done);
    same_items(rt, ending.complaint.as_slice(), b"".as_slice());
    ending.output
}
