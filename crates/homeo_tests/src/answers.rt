//! The answers that clients got, beside the history of what was done.

ghost use Rattle.std.specs.Prelude.{◌≡◌, ◌<◌, vec_len};
ghost use Rattle.homeo_syntax.specs.SourceView.{plain_workload};
ghost use Rattle.homeo_history.specs.HistoryView.{plain_history};
ghost use Rattle.homeo_report.specs.Report.{CanReport};
ghost use Rattle.homeo_cluster.specs.Passes.{AreAll};
ghost use Rattle.homeo_cluster.specs.Places.{line_count};

use crate::gates::{Holds, call};
use crate::same::{same, same_items};
use crate::shops::{THREE_AND_ONE, THREE_EACH, compiled, shop};
use homeo_build::Compiled;
use homeo_cluster::{ClientPass, Cluster, ClusterNaming, Gate, OpenGate, blank_for, run_clients};
use homeo_history::{Answer, Entry, History, Path};
use homeo_notes::Blank;
use homeo_report::report;
use homeo_syntax::List;
use std::alloc::Global;
use std::marker::Brand;
use std::process::Abort;
use std::sync::{Arc, Wait};
use std::thread::Threads;

// What all clients were answered, and the history of what was done.
#[derive(Drop)]
struct Day {
    answers: List<Answer>,
    history: History,
}

fn copy_logs<N: ClusterNaming>(
    rt: &impl Abort,
    alloc: Global,
    passes: &[ClientPass<N>],
) -> List<Answer> {
    let mut all = List::new(alloc);
    for pass in passes {
        for answer in pass.log().as_slice() {
            let copied = answer.copy(alloc).expect(rt, "memory");
            all.push(copied).expect(rt, "memory");
        }
    }
    all
}

#[tactic(auto, using(homeo_commands::proofs::Gathering::all_back))]
fn run_day_on<N: ClusterNaming + Send + Sync, R: Threads + Wait + Abort + Sync, G: Gate>(
    rt: &R,
    alloc: Global,
    blank: Blank,
    c: Arc<Compiled>,
    gate: &G,
) -> Day
    requires board { blank ≡ N.board }
    requires workload { plain_workload c.value ≡ N.workload }
    requires lines { blank.words ≡ line_count N.workload }
{
    let (cluster, passes) = Cluster::<N>::begin(alloc, blank, c).expect(rt, "memory");
    let passes = run_clients(rt, alloc, &cluster, passes, gate).expect(rt, "memory");
    let answers = copy_logs(rt, alloc, passes.as_slice());
    let history = cluster.finish(alloc, passes).expect(rt, "memory");
    Day { answers, history }
}

fn run_day<R: Threads + Wait + Abort + Sync, G: Gate>(
    rt: &R,
    alloc: Global,
    c: Arc<Compiled>,
    gate: &G,
) -> Day {
    let blank = blank_for(alloc, &c).expect(rt, "memory");
    run_day_on::<Brand, R, G>(rt, alloc, blank, c, gate)
}

// The entry of an answer's call in the answer's round: at its site, or as the call that closes the round.
fn entry_of<'a>(history: &'a History, answer: &Answer) -> Option<&'a Entry> {
    let round = history.rounds.as_slice().get(answer.round as usize)?;
    let entry = match answer.path {
        Path::Local => {
            let segment = round.segments.as_slice().get(answer.site as usize)?;
            let entries = segment.entries.as_slice();
            entries.iter().find(|e| e.call.client == answer.client && e.call.seq == answer.seq)?
        }
        Path::Cleanup(broken) => {
            let closing = round.closing.as_ref()?;
            if closing.site != answer.site || closing.broken != broken {
                return None;
            }
            &closing.entry
        }
    };
    Some(entry)
}

// Makes the next call of a client's pass, where one is left.
fn make_next<N: ClusterNaming, R: Wait + Abort>(
    rt: &R,
    alloc: Global,
    cluster: &Cluster<N>,
    passes: &mut Vec<ClientPass<N>>,
    client: usize,
)
    requires inside { client < vec_len passes.old }
    requires all { AreAll N.workload passes.old.items }
    ensures all { AreAll N.workload passes.new.items }
{
    if passes[client].left() == 0 {
        return;
    }
    cluster
        .call(rt, alloc, &mut passes[client], &OpenGate)
        .expect(rt, "memory");
}

// Makes calls from one thread: the next one of each of these clients, in order.
fn make_in_order<N: ClusterNaming, R: Wait + Abort>(
    rt: &R,
    alloc: Global,
    cluster: &Cluster<N>,
    passes: &mut Vec<ClientPass<N>>,
    clients: &[usize],
)
    requires all { AreAll N.workload passes.old.items }
    ensures all { AreAll N.workload passes.new.items }
{
    for client in clients {
        if *client < passes.len() {
            make_next(rt, alloc, cluster, passes, *client);
        }
    }
}

fn run_in_order_on<N: ClusterNaming, R: Wait + Abort>(
    rt: &R,
    alloc: Global,
    blank: Blank,
    c: Arc<Compiled>,
    clients: &[usize],
) -> Day
    requires board { blank ≡ N.board }
    requires workload { plain_workload c.value ≡ N.workload }
    requires lines { blank.words ≡ line_count N.workload }
    ensures reportable { CanReport N.workload (plain_history result.history) }
{
    let (cluster, mut passes) = Cluster::<N>::begin(alloc, blank, c).expect(rt, "memory");
    make_in_order(rt, alloc, &cluster, &mut passes, clients);
    let answers = copy_logs(rt, alloc, passes.as_slice());
    let history = cluster.finish(alloc, passes).expect(rt, "memory");
    Day { answers, history }
}

fn run_in_order<R: Wait + Abort>(rt: &R, alloc: Global, c: &Arc<Compiled>, clients: &[usize]) -> Day
    ensures reportable { CanReport (plain_workload c.now.value) (plain_history result.history) }
{
    let blank = blank_for(alloc, c).expect(rt, "memory");
    let shared = Arc::try_clone(c).expect(rt, "memory");
    run_in_order_on::<Brand, R>(rt, alloc, blank, shared, clients)
}

// Whether the answers are as many as this, and each has the prints of its entry.
fn assert_answers_stand(rt: &impl Abort, day: &Day, many: usize) {
    for answer in day.answers.as_slice() {
        let entry = entry_of(&day.history, answer).expect(rt, "an entry of the answer");
        same(rt, &entry.call, &call(answer.client, answer.seq));
        same_items(rt, entry.prints.as_slice(), answer.prints.as_slice());
    }
    same(rt, &day.answers.as_slice().len(), &many);
}

#[test]
fn calls_of_one_thread_are_reported_in_their_order(rt: HostRuntime) {
    let alloc = rt.alloc();
    let text = shop(&rt, alloc, THREE_AND_ONE);
    let compiled = compiled(&rt, alloc, text.as_str());
    let day = run_in_order(&rt, alloc, &compiled, &[0, 0, 1, 0]);
    assert_answers_stand(&rt, &day, 4);
    let told = report(alloc, &day.history, compiled.workload()).expect(&rt, "memory");
    drop(day);
    drop(compiled);
    let expected = b"round 0
site 0
a 1 buy(1): 1
a 2 buy(1): 1
site 1
b 1 buy(1): 1
close 0 clause 0 sum 3 bound 2
a 3 buy(1): 1
round 1
site 0
site 1
database
stock = 1
rounds 2 calls 4
";
    same_items(&rt, told.as_slice(), expected.as_slice());
}

#[test]
fn answers_stand_in_the_history(rt: HostRuntime) {
    let alloc = rt.alloc();
    let gate = Holds::third_calls();
    let text = shop(&rt, alloc, THREE_EACH);
    let compiled = compiled(&rt, alloc, text.as_str());
    let day = run_day(&rt, alloc, compiled, &gate);
    assert!(rt; !gate.was_late(&rt));
    assert_answers_stand(&rt, &day, 6);
    let mut closing = 0u64;
    for answer in day.answers.as_slice() {
        if answer.path != Path::Local {
            closing = closing.wrapping_add(1);
        }
    }
    drop(day);
    same(&rt, &closing, &1);
}
