//! Batches on a stream, however it is cut, and the program that serves one.

ghost use Rattle.std.specs.Prelude.{◌<◌};

use crate::runs::{Given, check, plain};
use crate::same::{same, same_items};
use crate::texts::push_times;
use homeo::Status;
use homeo_session::Session;
use homeo_syntax::Refusal;
use std::alloc::Global;
use std::process::Abort;

const HEAD: &str = "workload 1
sites 2
object stock in 0..10 = 5
transaction buy(n in 1..3) { s := read(stock); if n <= s then { write(stock = s - n); print(1) } else print(0) }
end
";

const FIRST: &str = "client a at 0 { buy(1); buy(1) }\nschedule a a\nend\n";

/// Its client is at a site that there isn't.
const ELSEWHERE: &str = "client c at 5 { buy(1) }\nschedule c\nend\n";

/// Its schedule leaves a call out.
const UNSCHEDULED: &str = "client c at 1 { buy(1); buy(1) }\nschedule c\nend\n";

/// It declares a transaction.
const DECLARING: &str = "\ntransaction rest() { skip }\nschedule\nend\n";

/// It has no newline behind its last line.
const SECOND: &str = "client b at 1 { buy(3); buy(3) }\nschedule b b\n end\t";

const FIRST_REPORT: &str =
    "round 0\nsite 0\na 1 buy(1): 1\na 2 buy(1): 1\nsite 1\ndatabase\nstock = 3\nrounds 1 calls 2\n";

const SECOND_REPORT: &str =
    "round 0\nsite 0\nsite 1\nclose 1 clause 0 sum 3 bound 0\nb 1 buy(3): 1\nround 1\nsite 0\nsite 1\nb 2 buy(3): 0\ndatabase\nstock = 0\nrounds 2 calls 2\n";

/// Frames, and what is answered to them.
type Case = (&'static [&'static str], &'static [&'static str]);

const CASES: [Case; 5] = [
    // a head without a batch
    (&[HEAD], &[]),
    // it ends behind the newline of its last line
    (&[HEAD, FIRST], &[FIRST_REPORT]),
    (
        &[HEAD, FIRST, ELSEWHERE],
        &[FIRST_REPORT, "refused E9 at 170\n"],
    ),
    // a batch begins where the last one ended
    (&[HEAD, FIRST, SECOND], &[FIRST_REPORT, SECOND_REPORT]),
    // a refused batch changes nothing
    (
        &[HEAD, FIRST, ELSEWHERE, UNSCHEDULED, DECLARING, SECOND],
        &[
            FIRST_REPORT,
            "refused E9 at 170\n",
            "refused E14 at 202\n",
            "refused E15 at 159\n",
            SECOND_REPORT,
        ],
    ),
];

fn concat(rt: &impl Abort, alloc: Global, parts: &[&str]) -> String {
    let mut text = String::new(alloc);
    for part in parts {
        text.push_str(part).expect(rt, "memory");
    }
    text
}

/// What is answered to a stream that comes in pieces of so many bytes, and stops no session.
fn answers(rt: &impl Abort, alloc: Global, stream: &str, piece: usize) -> Vec<u8>
    requires { 0 < piece }
{
    let mut session = Session::begin(alloc).expect(rt, "memory");
    let mut answers = Vec::new(alloc);
    for bytes in stream.as_bytes().chunks(piece) {
        assert!(rt; !session.spent());
        let fed = session.feed(alloc, bytes).expect(rt, "memory");
        answers
            .extend_from_slice(fed.answers.as_slice())
            .expect(rt, "memory");
    }
    assert!(rt; !session.spent());
    let fed = session.close(alloc).expect(rt, "memory");
    assert!(rt; fed.stop.is_none());
    answers
        .extend_from_slice(fed.answers.as_slice())
        .expect(rt, "memory");
    answers
}

#[test]
fn batches_are_answered_however_the_stream_is_cut(rt: HostRuntime) {
    let alloc = rt.alloc();
    for (frames, lines) in CASES {
        let stream = concat(&rt, alloc, frames);
        let want = concat(&rt, alloc, lines);
        for piece in [65_536, 1] {
            let given = answers(&rt, alloc, stream.as_str(), piece);
            assert_eq!(&rt; given.as_slice(), want.as_bytes(), "in pieces of {piece}");
        }
    }
}

#[test]
fn batches_are_served_however_the_stream_is_cut(rt: HostRuntime) {
    let alloc = rt.alloc();
    for (frames, lines) in CASES {
        let stream = concat(&rt, alloc, frames);
        let want = concat(&rt, alloc, lines);
        for piece in [65_536, 1] {
            let given = Given {
                read_piece: piece,
                write_piece: piece,
                ..plain(&["serve"], stream.as_str())
            };
            check(&rt, alloc, given, Status::Done, want.as_str(), "");
        }
    }
}

/// The most bytes that a frame may have, and a batch's text.
const FRAME: usize = 1_048_576;

/// A text behind so many spaces.
fn behind_spaces(rt: &impl Abort, alloc: Global, spaces: usize, text: &str) -> Vec<u8> {
    let mut bytes = vec![in alloc; b' '; spaces].expect(rt, "memory");
    bytes
        .extend_from_slice(text.as_bytes())
        .expect(rt, "memory");
    bytes
}

/// Feeds a piece, and compares the answers and whether it stops the session.
fn check_piece(
    rt: &impl Abort,
    alloc: Global,
    session: &mut Session,
    piece: &[u8],
    want: &str,
    stop: Option<Refusal>,
) {
    assert!(rt; !session.spent());
    let fed = session.feed(alloc, piece).expect(rt, "memory");
    same_items(rt, fed.answers.as_slice(), want.as_bytes());
    same(rt, &fed.stop, &stop);
    same(rt, &session.spent(), &stop.is_some());
}

/// The head fills a frame, so a batch has room for its last line alone.
#[test]
fn frames_and_batches_end_at_their_limits(rt: HostRuntime) {
    let alloc = rt.alloc();
    let mut session = Session::begin(alloc).expect(&rt, "memory");
    let head = behind_spaces(&rt, alloc, FRAME - 23, "workload 1\nsites 1\nend\n");
    check_piece(&rt, alloc, &mut session, head.as_slice(), "", None);
    let report = "round 0\nsite 0\ndatabase\nrounds 1 calls 0\n";
    check_piece(&rt, alloc, &mut session, b"end\n", report, None);
    let refused = "refused E2 at 1048576\n";
    check_piece(&rt, alloc, &mut session, b" end\n", refused, None);
    let spaces = behind_spaces(&rt, alloc, FRAME, "");
    check_piece(&rt, alloc, &mut session, spaces.as_slice(), "", None);
    let stop = Refusal {
        code: 2,
        offset: 1_048_576,
    };
    check_piece(&rt, alloc, &mut session, b"\n", "", Some(stop));
    drop(session);
}

/// The first four reads give the first batch, the fifth gives the second one, and the sixth finds the end.
#[test]
fn each_read_and_each_write_of_a_session_fails_in_turn(rt: HostRuntime) {
    let alloc = rt.alloc();
    let stream = concat(&rt, alloc, &[HEAD, FIRST, SECOND]);
    let want = concat(&rt, alloc, &[FIRST_REPORT, SECOND_REPORT]);
    let whole = Given {
        read_piece: 53,
        write_piece: 43,
        read_fails: 7,
        write_fails: 7,
        ..plain(&["serve"], stream.as_str())
    };
    check(&rt, alloc, whole, Status::Done, want.as_str(), "");
    for read_fails in 1..7 {
        let taken = if read_fails < 5 { "" } else { FIRST_REPORT };
        let given = Given {
            read_fails,
            ..whole
        };
        let (fault, said) = (Status::ReadFault, "read fault\n");
        check(&rt, alloc, given, fault, taken, said);
    }
    for writes in 0..6 {
        let taken = want.get(0..43 * writes).expect(&rt, "an output as long");
        let given = Given {
            write_fails: writes as u64 + 1,
            ..whole
        };
        let (fault, said) = (Status::WriteFault, "write fault\n");
        check(&rt, alloc, given, fault, taken, said);
    }
}

#[test]
fn a_stop_is_told_behind_the_answers_before_it(rt: HostRuntime) {
    let alloc = rt.alloc();
    let mut long = concat(&rt, alloc, &[HEAD, FIRST]);
    push_times(&rt, &mut long, " ", FRAME as u64);
    long.push_str("\n").expect(&rt, "memory");
    for (stream, output, complaint) in [
        ("", "", "refused E4 at 0\n"),
        ("workload 1\nend\n", "", "refused E4 at 11\n"),
        (long.as_str(), FIRST_REPORT, "refused E2 at 1048576\n"),
    ] {
        let given = Given {
            read_piece: 65_536,
            ..plain(&["serve"], stream)
        };
        check(&rt, alloc, given, Status::Refused, output, complaint);
    }
}
