//! The texts of small histories.

ghost use Rattle.homeo_syntax.specs.SourceView.{plain_workload};
ghost use Rattle.homeo_history.specs.HistoryView.{plain_history};
ghost use Rattle.homeo_report.specs.Report.{CanReport};

use crate::gates::call;
use crate::same::same_items;
use crate::shops::accepted;
use homeo_eval::initial;
use homeo_history::{Closing, Entry, History, Round, Segment};
use homeo_meaning::Accepted;
use homeo_plan::Broken;
use homeo_report::{report, summary};
use homeo_syntax::List;
use std::alloc::Global;
use std::process::Abort;

/// One object `x`, and a client of one call `up` at each of two sites.
const UP: &str = "workload 1
sites 2
object x in 0..3 = 3
transaction up() { skip }
client a at 0 { up() }
client b at 1 { up() }
end
";

/// The same with arguments, at one site.
const UP_BY: &str = "workload 1
sites 1
object x in -1..3 = -1
transaction up(m in 0..9, n in -9..9) { skip }
client a at 0 { up(7, -2) }
end
";

/// The rounds, and the starting values behind them.
fn ended(rt: &impl Abort, alloc: Global, w: &Accepted, rounds: List<Round>) -> History
    ensures { CanReport (plain_workload w.now) (plain_history result) }
{
    let last = initial(alloc, w).expect(rt, "memory");
    History { rounds, last }
}

fn entry(rt: &impl Abort, alloc: Global, client: u32, prints: &[i64]) -> Entry {
    let prints = prints.to_vec(alloc).expect(rt, "memory");
    Entry {
        call: call(client, 1),
        prints: List::from_vec(prints),
    }
}

/// A round of two sites at which no call was made but the closing one.
fn quiet(rt: &impl Abort, alloc: Global, closing: Option<Closing>) -> Round {
    let mut segments = List::new(alloc);
    for _ in 0..2 {
        let entries = List::new(alloc);
        segments.push(Segment { entries }).expect(rt, "memory");
    }
    Round {
        base: List::new(alloc),
        segments,
        closing,
    }
}

/// A round that a call closes which prints these numbers, and an open one.
fn closed_and_open(rt: &impl Abort, alloc: Global, prints: &[i64]) -> List<Round> {
    let closing = Closing {
        site: 1,
        entry: entry(rt, alloc, 1, prints),
        broken: Broken {
            clause: 2,
            sum: -4,
            bound: 0,
        },
    };
    let closed = quiet(rt, alloc, Some(closing));
    let open = quiet(rt, alloc, None);
    let mut rounds = List::new(alloc);
    rounds.push(closed).expect(rt, "memory");
    rounds.push(open).expect(rt, "memory");
    rounds
}

/// An open round of one site, at which a call was made that prints these numbers.
fn one_entry(rt: &impl Abort, alloc: Global, prints: &[i64]) -> List<Round> {
    let entry = entry(rt, alloc, 0, prints);
    let mut entries = List::new(alloc);
    entries.push(entry).expect(rt, "memory");
    let mut segments = List::new(alloc);
    segments.push(Segment { entries }).expect(rt, "memory");
    let round = Round {
        base: List::new(alloc),
        segments,
        closing: None,
    };
    let mut rounds = List::new(alloc);
    rounds.push(round).expect(rt, "memory");
    rounds
}

/// The report of these rounds of a text.
fn reported(rt: &impl Abort, alloc: Global, text: &str, rounds: List<Round>) -> Vec<u8> {
    let w = accepted(rt, alloc, text);
    let history = ended(rt, alloc, &w, rounds);
    let reported = report(alloc, &history, &w).expect(rt, "memory");
    drop(history);
    drop(w);
    reported
}

#[test]
fn rounds_of_closing_calls(rt: HostRuntime) {
    let alloc = rt.alloc();
    let rounds = closed_and_open(&rt, alloc, &[3]);
    let text = reported(&rt, alloc, UP, rounds);
    let want =
        b"round 0\nsite 0\nsite 1\nclose 1 clause 2 sum -4 bound 0\nb 1 up(): 3\nround 1\nsite 0\nsite 1\ndatabase\nx = 3\nrounds 2 calls 1\n";
    same_items(&rt, text.as_slice(), want.as_slice());
}

#[test]
fn an_entry_of_a_site(rt: HostRuntime) {
    let alloc = rt.alloc();
    let rounds = one_entry(&rt, alloc, &[-5, 0]);
    let text = reported(&rt, alloc, UP_BY, rounds);
    let want = b"round 0\nsite 0\na 1 up(7, -2): -5 0\ndatabase\nx = -1\nrounds 1 calls 1\n";
    same_items(&rt, text.as_slice(), want.as_slice());
}

#[test]
fn a_summary_counts_calls_and_prints(rt: HostRuntime) {
    let alloc = rt.alloc();
    let w = accepted(&rt, alloc, UP);
    let rounds = closed_and_open(&rt, alloc, &[3, 4]);
    let history = ended(&rt, alloc, &w, rounds);
    let text = summary(alloc, &history, &w).expect(&rt, "memory");
    drop(history);
    drop(w);
    same_items(
        &rt,
        text.as_slice(),
        b"calls 1\nprints 2\nx = 3\n".as_slice(),
    );
}
