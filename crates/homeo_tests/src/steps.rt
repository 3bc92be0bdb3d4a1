//! Calls of two clients at two sites, made by a core.

ghost use Rattle.std.specs.Prelude.{◌≡◌, ◌<◌, ◌≤◌, length, slice_index_or};
ghost use Rattle.homeo_syntax.specs.SourceView.{plain_workload};
ghost use Rattle.homeo_history.specs.HistoryView.{plain_history};
ghost use Rattle.homeo_history.specs.Legal.{call_count};
ghost use Rattle.homeo_report.specs.Report.{CanReport};

use crate::same::{same, same_items};
use crate::shops::{THREE_AND_ONE, compiled, shop};
use homeo_build::Compiled;
use homeo_core::Core;
use homeo_history::{Answer, History, Path};
use homeo_plan::Broken;
use homeo_report::{report, summary};
use homeo_syntax::List;
use std::alloc::Global;
use std::process::Abort;
use std::sync::Arc;

/// The report of these calls.
const REPORT: &str = "round 0
site 0
a 1 buy(1): 1
a 2 buy(1): 1
site 1
b 1 buy(1): 1
close 0 clause 0 sum 3 bound 2
a 3 buy(1): 1
round 1
site 0
site 1
database
stock = 1
rounds 2 calls 4
";

/// Makes a client's next call, and makes it again where memory was refused: the core is as it was then.
fn step_again(rt: &impl Abort, alloc: Global, core: &mut Core, client: u32) -> Answer
    requires exists { client < length (plain_workload core.old.work).clients }
    requires left { slice_index_or core.old.counts client 0 < call_count (plain_workload core.old.work) client }
    ensures { core.new.work ≡ core.old.work }
{
    match core.step(alloc, client) {
        Ok(answer) => answer,
        Err(_) => core.step(alloc, client).expect(rt, "memory"),
    }
}

/// Makes the next call of each of these clients, of the first two.
fn step_all(rt: &impl Abort, alloc: Global, core: &mut Core, order: &[u32]) -> List<Answer>
    requires { 2 ≤ length (plain_workload core.old.work).clients }
    ensures { core.new.work ≡ core.old.work }
{
    let mut answers = List::new(alloc);
    for client in order {
        if *client >= 2 || core.left(*client) == 0 {
            panic!(rt; "a call is left");
        }
        let answer = step_again(rt, alloc, core, *client);
        answers.push(answer).expect(rt, "memory");
    }
    answers
}

#[tactic(auto, unfolding(homeo_syntax::specs::Key::definitions))]
fn client_count(c: &Compiled) -> u64
    ensures { result ≡ length (plain_workload c.now).clients }
{
    c.workload().workload().clients.as_slice().len() as u64
}

/// A core of a workload with two clients.
#[tactic(auto, unfolding(homeo_core::specs::Key::definitions))]
fn core_of(rt: &impl Abort, alloc: Global, c: &Arc<Compiled>) -> Core
    ensures work { result.work ≡ c.now.value }
    ensures clients { 2 ≤ length (plain_workload result.work).clients }
{
    if client_count(c) < 2 {
        panic!(rt; "two clients");
    }
    let shared = Arc::try_clone(c).expect(rt, "memory");
    Core::begin(alloc, shared).expect(rt, "memory")
}

/// What calls were answered, and their history.
#[derive(Drop)]
struct Made {
    answers: List<Answer>,
    history: History,
}

/// Makes the next call of each of these clients, from the starting values on.
fn make_all(rt: &impl Abort, alloc: Global, c: &Arc<Compiled>, order: &[u32]) -> Made
    ensures reportable { CanReport (plain_workload c.now.value) (plain_history result.history) }
{
    let mut core = core_of(rt, alloc, c);
    let answers = step_all(rt, alloc, &mut core, order);
    let history = core.finish(alloc).expect(rt, "memory");
    Made { answers, history }
}

/// The report and the summary of a history.
fn told(rt: &impl Abort, alloc: Global, c: &Compiled, history: &History) -> (Vec<u8>, Vec<u8>)
    requires { CanReport (plain_workload c.now) (plain_history history.now) }
{
    let reported = report(alloc, history, c.workload()).expect(rt, "memory");
    let summed = summary(alloc, history, c.workload()).expect(rt, "memory");
    (reported, summed)
}

/// The first client's third call closes the first round.
fn check_answers(rt: &impl Abort, answers: &[Answer]) {
    match answers {
        [first, _, other, last] => {
            same_items(rt, first.prints.as_slice(), [1].as_slice());
            assert!(rt; first.path == Path::Local);
            same(rt, &other.site, &1);
            assert!(rt; other.path == Path::Local);
            same(rt, &last.seq, &3);
            same(rt, &last.round, &0);
            assert!(rt;
                last.path
                    == Path::Cleanup(Broken {
                        clause: 0,
                        sum: 3,
                        bound: 2
                    })
            );
            same_items(rt, last.prints.as_slice(), [1].as_slice());
        }
        _ => panic!(rt; "four answers"),
    }
}

/// The second round begins at what the first one left.
fn check_rounds(rt: &impl Abort, history: &History) {
    same_items(rt, history.last.as_slice(), [1].as_slice());
    match history.rounds.as_slice() {
        [closed, open] => {
            same_items(rt, closed.base.as_slice(), [5].as_slice());
            assert!(rt; closed.closing.is_some());
            same_items(rt, open.base.as_slice(), [1].as_slice());
            assert!(rt; open.closing.is_none());
        }
        _ => panic!(rt; "two rounds"),
    }
}

fn compiled_shop(rt: &impl Abort, alloc: Global, clients: &str) -> Arc<Compiled> {
    let text = shop(rt, alloc, clients);
    compiled(rt, alloc, text.as_str())
}

#[test]
fn a_call_that_breaks_its_treaty_closes_the_round(rt: HostRuntime) {
    let alloc = rt.alloc();
    let c = compiled_shop(&rt, alloc, THREE_AND_ONE);
    let made = make_all(&rt, alloc, &c, &[0, 0, 1, 0]);
    check_answers(&rt, made.answers.as_slice());
    check_rounds(&rt, &made.history);
    let (reported, summed) = told(&rt, alloc, &c, &made.history);
    drop(made);
    drop(c);
    same_items(&rt, reported.as_slice(), REPORT.as_bytes());
    same_items(
        &rt,
        summed.as_slice(),
        b"calls 4\nprints 4\nstock = 1\n".as_slice(),
    );
}
