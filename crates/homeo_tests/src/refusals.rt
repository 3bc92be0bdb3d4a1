//! Texts and words that are refused, and those next to them that aren't.

use crate::runs::{Given, check, plain, run_under};
use crate::same::same_items;
use crate::texts::{
    NOTHING_BEHIND_THE_HEAD, STOCK, STOCK_REPORT, called, in_parentheses, push_times,
};
use homeo::Status;
use homeo_cluster::OpenGate;

#[test]
fn other_words_are_no_command(rt: HostRuntime) {
    let usage =
        "usage: homeo steps or run or tables or treaty or serve or forecast or certify or verify or wire NUMBER or load NUMBER CALLS\n";
    let lists: [&'static [&'static str]; 15] = [
        &[],
        &["step"],
        &["steps", "x"],
        &["steps", "tables"],
        &["load"],
        &["load", "1"],
        &["load", "1", "0"],
        &["load", "1", "20001"],
        &["forecast", "1"],
        &["certify", "1"],
        &["verify", "verify"],
        &["wire"],
        &["wire", "x"],
        &["--help"],
        &[""],
    ];
    for words in lists {
        let given = plain(words, STOCK);
        check(&rt, rt.alloc(), given, Status::Usage, "", usage);
    }
}

#[test]
fn a_faulty_text_is_refused(rt: HostRuntime) {
    for (text, complaint) in [
        ("", "refused E4 at 0\n"),
        (NOTHING_BEHIND_THE_HEAD, "refused E4 at 19\n"),
        ("workload 2\nsites 1\nend\n", "refused E4 at 19\n"),
        ("workload 3\nsites 1\nend\n", "refused E4 at 9\n"),
        (
            "workload 1\nsites 2\nweights 3, 1\nend\n",
            "refused E4 at 19\n",
        ),
        (
            "workload 2\nsites 2\nweights 3\nend\n",
            "refused E8 at 27\n",
        ),
        (
            "workload 2\nsites 2\nweights 3, 1001\nend\n",
            "refused E9 at 30\n",
        ),
        (
            "workload 2\nsites 2\nweights 0, 0\nend\n",
            "refused E9 at 27\n",
        ),
        // in version 1 `abort` is a name
        (
            "workload 1\nsites 2\nobject x in 0..9 = 4\ntransaction t(n in 1..5) { write(x = read(x) - n); print(read(x)); if read(x) < 2 then abort else skip; print(9) }\nclient a at 0 { t(1); t(2) }\nschedule a a\nend\n",
            "refused E4 at 133\n",
        ),
        // a schedule that ends before the calls do
        (
            "workload 1\nsites 2\nobject stock in 0..10 = 5\ntransaction buy(n in 1..3) { s := read(stock); if n <= s then { write(stock = s - n); print(1) } else print(0) }\nclient a at 0 { buy(1); buy(1); buy(1) }\nclient b at 1 { buy(1) }\nschedule a a b\nend\n",
            "refused E14 at 239\n",
        ),
        // an argument past its range stands before that
        (
            "workload 1\nsites 2\nobject stock in 0..10 = 5\ntransaction buy(n in 1..3) { s := read(stock); if n <= s then { write(stock = s - n); print(1) } else print(0) }\nclient a at 0 { buy(1); buy(1); buy(1) }\nclient b at 1 { buy(4) }\nschedule a a b a\nend\n",
            "refused E9 at 219\n",
        ),
        // and a name that stands twice before a name that is not there
        (
            "workload 1\nsites 2\nobject stock in 0..10 = 5\ntransaction buy(n in 1..3) { s := read(stock); if n <= s then { write(stock = s - n); print(1) } else print(0) }\nclient a at 0 { buy(1); buy(1); buy(1) }\nclient a at 1 { sell(1) }\nschedule a a b a\nend\n",
            "refused E5 at 206\n",
        ),
        // a call that is too large
        (
            "workload 1\nsites 1\ntransaction grow() { t := 1; t := t + t; t := t + t; t := t + t; t := t + t; t := t + t; t := t + t; t := t + t; t := t + t; t := t + t; t := t + t; t := t + t; t := t + t; t := t + t; t := t + t; t := t + t; t := t + t }\nclient a at 0 { grow() }\nschedule a\nend\n",
            "refused E11 at 257\n",
        ),
        ("workload 1\n\0", "refused E1 at 11\n"),
        ("workload 1\nsites 0\nend\n", "refused E13 at 17\n"),
        ("workload 1\nsites 17\nend\n", "refused E13 at 17\n"),
        (
            "workload 1\nsites 1\nobject x in 0..9999999999999999999 = 0\nend\n",
            "refused E3 at 34\n",
        ),
        (
            "workload 1\nsites 1\nobject x in 0..1000000000001 = 0\nend\n",
            "refused E9 at 34\n",
        ),
        (
            "workload 1\nsites 1\nobject x in 5..4 = 5\nend\n",
            "refused E9 at 31\n",
        ),
        (
            "workload 1\nsites 1\nobject x in 0..3 = 4\nend\n",
            "refused E9 at 38\n",
        ),
        (
            "workload 1\nsites 1\ntransaction t() { print(x) }\nend\n",
            "refused E6 at 43\n",
        ),
        (
            "workload 1\nsites 1\ntransaction t() { skip }\nclient a at 0 { t() }\nend\n",
            "refused E14 at 66\n",
        ),
    ] {
        let given = plain(&["steps"], text);
        check(&rt, rt.alloc(), given, Status::Refused, "", complaint);
    }
}

#[test]
fn each_beginning_of_a_text_is_refused(rt: HostRuntime) {
    let alloc = rt.alloc();
    for length in 0..244 {
        let text = STOCK.get(0..length).expect(&rt, "a text as long");
        let ended = run_under(&rt, alloc, plain(&["steps"], text), &OpenGate);
        assert_eq!(rt; ended.status, Status::Refused, "at {length}");
        same_items(&rt, ended.output.as_slice(), b"".as_slice());
        // the assignment's mark is cut in two
        let complaint = if length == 77 {
            "refused E3 at 76\n"
        } else {
            "refused E4 at "
        };
        assert!(rt;
            ended.complaint.as_slice().starts_with(complaint.as_bytes()),
            "at {length}"
        );
    }
    let whole = STOCK.get(0..244).expect(&rt, "a text as long");
    let given = plain(&["steps"], whole);
    check(&rt, alloc, given, Status::Done, STOCK_REPORT, "");
}

#[test]
fn a_text_past_a_limit_is_refused(rt: HostRuntime) {
    let alloc = rt.alloc();
    let deep = in_parentheses(&rt, alloc, 30);
    let nothing_ran = "round 0\nsite 0\ndatabase\nrounds 1 calls 0\n";
    let given = plain(&["steps"], deep.as_str());
    check(&rt, alloc, given, Status::Done, nothing_ran, "");
    let mut spaces = String::new(alloc);
    push_times(&rt, &mut spaces, " ", 1_048_577);
    let mut more_spaces = String::new(alloc);
    push_times(&rt, &mut more_spaces, spaces.as_str(), 16);
    let deeper = in_parentheses(&rt, alloc, 31);
    let calls = called(&rt, alloc, "skip", 0, 20_000);
    let prints = called(&rt, alloc, "print(1)", 50, 19_999);
    for (command, text, complaint) in [
        ("steps", deeper.as_str(), "refused E4 at 73\n"),
        ("steps", calls.as_str(), "refused E13 at 80060\n"),
        ("run", prints.as_str(), "refused E11 at 78942\n"),
        ("treaty", spaces.as_str(), "refused E2 at 1048576\n"),
        ("certify", NOTHING_BEHIND_THE_HEAD, "refused E4 at 19\n"),
        ("verify", more_spaces.as_str(), "refused E2 at 16777216\n"),
        // under `tables` alone the rows of a call are counted
        (
            "tables",
            "workload 1\nsites 1\nobject x in 0..9 = 5\ntransaction t() { if read(x) < 1 then print(1) else print(0); if read(x) < 1 then print(1) else print(0); if read(x) < 1 then print(1) else print(0); if read(x) < 1 then print(1) else print(0); if read(x) < 1 then print(1) else print(0); if read(x) < 1 then print(1) else print(0); if read(x) < 1 then print(1) else print(0); if read(x) < 1 then print(1) else print(0); if read(x) < 1 then print(1) else print(0); if read(x) < 1 then print(1) else print(0); if read(x) < 1 then print(1) else print(0); if read(x) < 1 then print(1) else print(0); if read(x) < 1 then print(1) else print(0) }\nclient a at 0 { t() }\nschedule a\nend\n",
            "refused E12 at 647\n",
        ),
    ] {
        let words = [command];
        let given = Given {
            read_piece: 65_536,
            write_piece: 65_536,
            ..plain(&words, text)
        };
        check(&rt, alloc, given, Status::Refused, "", complaint);
    }
    // under `wire` alone a text has at most 200 calls
    let many = called(&rt, alloc, "skip", 0, 200);
    let given = plain(&["wire", "1"], many.as_str());
    check(
        &rt,
        alloc,
        given,
        Status::Refused,
        "",
        "refused E18 at 860\n",
    );
}
