//! Streams that fail at each of their calls in turn, and give or take one byte a call.

use crate::runs::{Given, check, plain};
use crate::texts::{NOTHING_BEHIND_THE_HEAD, STOCK, STOCK_REPORT};
use homeo::Status;

/// A command, a text on which its output is always the same, that output, and how many bytes a call of a stream moves at most. A
/// load reads no text.
type Case = (&'static [&'static str], &'static str, &'static str, usize);

const CASES: [Case; 9] = [
    (&["steps"], STOCK, STOCK_REPORT, 1),
    // one client, so its calls meet in one order
    (
        &["run"],
        "workload 1\nsites 2\nobject stock in 0..10 = 5\ntransaction buy(n in 1..3) { s := read(stock); if n <= s then { write(stock = s - n); print(1) } else print(0) }\nclient a at 0 { buy(1); buy(1); buy(1) }\nend\n",
        "round 0\nsite 0\na 1 buy(1): 1\na 2 buy(1): 1\nsite 1\nclose 0 clause 0 sum 3 bound 2\na 3 buy(1): 1\nround 1\nsite 0\nsite 1\ndatabase\nstock = 2\nrounds 2 calls 3\n",
        16,
    ),
    (
        &["tables"],
        "workload 1\nsites 1\nobject x in 0..10 = 5\ntransaction t() { write(x = read(x) + 1) }\nclient a at 0 { t() }\nend\n",
        "call 0 t() at 0 rows 2\nrow 0\nwhen 0 <= (base(x) + x@0) + 1 and (base(x) + x@0) + 1 <= 10\ndo { write(x@0 = ((base(x) + x@0) + 1) - base(x)) }\nrow 1\nwhen not (0 <= (base(x) + x@0) + 1 and (base(x) + x@0) + 1 <= 10)\ndo {}\njoint 2\npick 0\npick 1\n",
        16,
    ),
    (
        &["treaty"],
        "workload 1\nsites 2\nobject x in 0..10 = 5\ntransaction t() { if read(x) = 3 then print(1) else print(0) }\nclient a at 0 { t() }\nend\n",
        "clauses 1\n0 slack 1 bounds 0 1 form -1*x@0 -1*x@1\nfreezes 0\n",
        16,
    ),
    (
        &["forecast"],
        "workload 1\nsites 2\nobject x in 0..10 = 9\ntransaction t() { write(x = read(x) + 1) }\nclient a at 0 { t(); t() }\nschedule a a\nend\n",
        "kept 0 of 2\n0 bounds 10 0\n1 bounds 0 0\nstop a 1 clause 1 peaks 1 0 slack 0\n",
        16,
    ),
    (
        &["certify"],
        "workload 1\nsites 1\nobject x in 0..9 = 5\ntransaction t() { print(1) }\nclient a at 0 { t() }\nend\n",
        "{\"base\":[5],\"bounds\":[],\"calls\":[{\"command\":[[\"seq\",1],[\"print\"],[\"lit\",1]],\"site\":0}],\"clauses\":[],\"freezes\":[],\"sites\":1,\"version\":1}\n",
        16,
    ),
    // its newline is read too
    (
        &["verify"],
        "{\"base\":[9],\"bounds\":[],\"calls\":[{\"command\":[[\"print\"],[\"delta\",0,0]],\"site\":1}],\"clauses\":[],\"freezes\":[],\"sites\":2,\"version\":1}\n",
        "invalid freeze 0 0 0\n",
        16,
    ),
    (
        &["wire", "1"],
        "workload 1\nsites 2\nobject x in 0..10 = 9\ntransaction t() { write(x = read(x) + 1) }\nclient a at 0 { t() }\nclient b at 1 { t() }\nend\n",
        "round 0\nsite 0\nsite 1\nclose 1 clause 1 sum 1 bound 0\nb 1 t():\nround 1\nsite 0\na 1 t():\nsite 1\ndatabase\nx = 10\nrounds 2 calls 2\n",
        16,
    ),
    (
        &["load", "1", "1"],
        "",
        "calls 1\nprints 1\nc0 = 0\nc1 = 0\nc2 = 0\nc3 = 0\nc4 = 8\nc5 = 0\nc6 = 0\nc7 = 0\n",
        16,
    ),
];

/// How many calls of a source give the text, with the one that finds its end.
fn reads_of(text: &str, piece: usize) -> u64 {
    match text.len() {
        0 => 0,
        bytes => (bytes.div_ceil(piece.max(1)) as u64).saturating_add(1),
    }
}

#[test]
fn each_read_fails_in_turn(rt: HostRuntime) {
    for (words, text, output, piece) in CASES {
        let by_pieces = Given {
            read_piece: piece,
            write_piece: piece,
            ..plain(words, text)
        };
        let reads = reads_of(text, piece);
        for before in 0..reads {
            let given = Given {
                read_fails: before + 1,
                ..by_pieces
            };
            let (fault, said) = (Status::ReadFault, "read fault\n");
            check(&rt, rt.alloc(), given, fault, "", said);
        }
        let later = Given {
            read_fails: reads.saturating_add(1),
            ..by_pieces
        };
        check(&rt, rt.alloc(), later, Status::Done, output, "");
    }
}

#[test]
fn each_write_fails_in_turn(rt: HostRuntime) {
    for (words, text, output, piece) in CASES {
        let by_pieces = Given {
            read_piece: piece,
            write_piece: piece,
            ..plain(words, text)
        };
        let writes = output.len().div_ceil(piece.max(1));
        for before in 0..writes {
            let given = Given {
                write_fails: before as u64 + 1,
                ..by_pieces
            };
            let taken = output
                .get(0..before.saturating_mul(piece))
                .expect(&rt, "an output as long");
            let (fault, said) = (Status::WriteFault, "write fault\n");
            check(&rt, rt.alloc(), given, fault, taken, said);
        }
        let later = Given {
            write_fails: (writes as u64).saturating_add(1),
            ..by_pieces
        };
        check(&rt, rt.alloc(), later, Status::Done, output, "");
        let by_bytes = Given {
            read_piece: 1,
            write_piece: 1,
            ..plain(words, text)
        };
        check(&rt, rt.alloc(), by_bytes, Status::Done, output, "");
    }
}

#[test]
fn a_complaint_that_fails_changes_no_status(rt: HostRuntime) {
    let alloc = rt.alloc();
    let failing = Given {
        complaint_fails: 1,
        ..plain(&["steps"], STOCK)
    };
    check(&rt, alloc, failing, Status::Done, STOCK_REPORT, "");
    let words = Given {
        words: &[],
        ..failing
    };
    check(&rt, alloc, words, Status::Usage, "", "");
    let text = Given {
        text: NOTHING_BEHIND_THE_HEAD,
        ..failing
    };
    check(&rt, alloc, text, Status::Refused, "", "");
    // sixteen bytes of the line, and not its end
    let cut = Given {
        complaint_fails: 2,
        ..text
    };
    check(&rt, alloc, cut, Status::Refused, "", "refused E4 at 19");
    let reading = Given {
        read_fails: 1,
        ..failing
    };
    check(&rt, alloc, reading, Status::ReadFault, "", "");
    let writing = Given {
        write_fails: 1,
        ..failing
    };
    check(&rt, alloc, writing, Status::WriteFault, "", "");
}
