//! Outputs of commands on small texts, beside those that `faults` compares.

use crate::runs::{check, plain};
use crate::texts::{ENDED, LIMITED_SLOTS, ONE_WRITER, STOCK, WEIGHTED_STOCK};
use homeo::Status;
use std::alloc::Global;
use std::process::Abort;

#[test]
fn calls_are_reported_with_their_rounds(rt: HostRuntime) {
    for (text, report) in [
        // nothing is declared
        (
            "workload 1\nsites 1\nend\n",
            "round 0\nsite 0\ndatabase\nrounds 1 calls 0\n",
        ),
        // a round is closed, and the next call finds the base that this leaves
        (
            "workload 1\nsites 2\nobject stock in 0..10 = 1\ntransaction buy(n in 1..3) { s := read(stock); if n <= s then { write(stock = s - n); print(1) } else print(0) }\nclient a at 0 { buy(1) }\nclient b at 1 { buy(1) }\nschedule a b\nend\n",
            "round 0\nsite 0\nsite 1\nclose 0 clause 0 sum 1 bound 0\na 1 buy(1): 1\nround 1\nsite 0\nsite 1\nb 1 buy(1): 0\ndatabase\nstock = 0\nrounds 2 calls 2\n",
        ),
        // what a site prints of an object is frozen at the other sites
        (
            "workload 1\nsites 2\nobject x in 0..10 = 5\ntransaction show() { print(read(x)) }\ntransaction raise() { write(x = read(x) + 1) }\nclient a at 0 { show() }\nclient b at 1 { raise(); raise() }\nschedule b a b\nend\n",
            "round 0\nsite 0\nsite 1\nclose 1 clause 2 sum 1 bound 0\nb 1 raise():\nround 1\nsite 0\na 1 show(): 6\nsite 1\nclose 1 clause 2 sum 1 bound 0\nb 2 raise():\nround 2\nsite 0\nsite 1\ndatabase\nx = 7\nrounds 3 calls 3\n",
        ),
        // each call takes the next row of a relation, until none is free
        (
            LIMITED_SLOTS,
            "round 0\nsite 0\nclose 0 clause 0 sum 1 bound 0\na 1 p(): 0 1\nround 1\nsite 0\nclose 0 clause 1 sum 1 bound 0\na 2 p(): 0 2\nround 2\nsite 0\nclose 0 clause 2 sum 1 bound 0\na 3 p(): 0 3\nround 3\nsite 0\nclose 0 clause 3 sum 1 bound 0\na 4 p(): 0 4\nround 4\nsite 0\na 5 p(): 0 0\ndatabase\nR.0.used = 1\nR.0.f = 7\nR.1.used = 1\nR.1.f = 7\nR.2.used = 1\nR.2.f = 7\nR.3.used = 1\nR.3.f = 7\nrounds 5 calls 5\n",
        ),
        // one site, whose own treaty is the whole one
        (
            "workload 1\nsites 1\nobject stock in 0..10 = 5\ntransaction buy(n in 1..3) { s := read(stock); if n <= s then { write(stock = s - n); print(1) } else print(0) }\nclient a at 0 { buy(1); buy(1); buy(1); buy(1) }\nclient b at 0 { buy(1) }\nschedule a a b a a\nend\n",
            "round 0\nsite 0\na 1 buy(1): 1\na 2 buy(1): 1\nb 1 buy(1): 1\na 3 buy(1): 1\nclose 0 clause 0 sum 5 bound 4\na 4 buy(1): 1\nround 1\nsite 0\ndatabase\nstock = 0\nrounds 2 calls 5\n",
        ),
        // a write of a constant moves what the other site may not
        (
            "workload 1\nsites 2\nobject stock in 0..10 = 1\ntransaction fill() { if read(stock) < 2 then write(stock = 9) else skip }\nclient a at 0 { fill() }\nclient b at 1 { fill() }\nschedule a b\nend\n",
            "round 0\nsite 0\nsite 1\nclose 0 clause 0 sum 8 bound 0\na 1 fill():\nround 1\nsite 0\nsite 1\nb 1 fill():\ndatabase\nstock = 9\nrounds 2 calls 2\n",
        ),
        // what one site alone writes and prints is local
        (
            "workload 1\nsites 2\nobject x in 0..10 = 5\ntransaction show() { print(read(x)) }\ntransaction raise() { write(x = read(x) + 1) }\nclient a at 0 { raise(); show(); raise(); show() }\nschedule a a a a\nend\n",
            "round 0\nsite 0\na 1 raise():\na 2 show(): 6\na 3 raise():\na 4 show(): 7\nsite 1\ndatabase\nx = 7\nrounds 1 calls 4\n",
        ),
        // a write past a bound changes nothing, and breaks nothing
        (
            "workload 1\nsites 1\nobject x in 0..10 = 10\ntransaction raise() { write(x = read(x) + 1) }\nclient a at 0 { raise() }\nschedule a\nend\n",
            "round 0\nsite 0\na 1 raise():\ndatabase\nx = 10\nrounds 1 calls 1\n",
        ),
        // two writes of one call have a clause each
        (
            "workload 1\nsites 2\nobject x in 0..10 = 5\ntransaction twice() { write(x = read(x) + 1); write(x = read(x) + 1) }\nclient a at 0 { twice() }\nschedule a\nend\n",
            "round 0\nsite 0\nsite 1\nclose 0 clause 3 sum 2 bound 1\na 1 twice():\nround 1\nsite 0\nsite 1\ndatabase\nx = 7\nrounds 2 calls 1\n",
        ),
        // a call that prints what it wrote
        (
            "workload 1\nsites 2\nobject x in 0..3 = 2\ntransaction up() { write(x = read(x) + 1); print(read(x)) }\nclient a at 0 { up() }\nclient b at 1 { up() }\nschedule b a\nend\n",
            "round 0\nsite 0\nsite 1\nclose 1 clause 1 sum 1 bound 0\nb 1 up(): 3\nround 1\nsite 0\na 1 up(): 3\nsite 1\ndatabase\nx = 3\nrounds 2 calls 2\n",
        ),
        // 8,192 ways through a call, of which one is walked
        (
            "workload 1\nsites 1\nobject x in 0..9 = 5\ntransaction t() { if read(x) < 1 then print(1) else print(0); if read(x) < 1 then print(1) else print(0); if read(x) < 1 then print(1) else print(0); if read(x) < 1 then print(1) else print(0); if read(x) < 1 then print(1) else print(0); if read(x) < 1 then print(1) else print(0); if read(x) < 1 then print(1) else print(0); if read(x) < 1 then print(1) else print(0); if read(x) < 1 then print(1) else print(0); if read(x) < 1 then print(1) else print(0); if read(x) < 1 then print(1) else print(0); if read(x) < 1 then print(1) else print(0); if read(x) < 1 then print(1) else print(0) }\nclient a at 0 { t() }\nschedule a\nend\n",
            "round 0\nsite 0\na 1 t(): 0 0 0 0 0 0 0 0 0 0 0 0 0\ndatabase\nx = 5\nrounds 1 calls 1\n",
        ),
        // site 0 sells three of a slack of four
        (
            WEIGHTED_STOCK,
            "round 0\nsite 0\na 1 buy(1): 1\na 2 buy(1): 1\na 3 buy(1): 1\nsite 1\nb 1 buy(1): 1\ndatabase\nstock = 1\nrounds 1 calls 4\n",
        ),
        // the one site that writes has all of the slack
        (
            ONE_WRITER,
            "round 0\nsite 0\na 1 raise():\na 2 show(): 6\na 3 raise():\na 4 show(): 7\nsite 1\ndatabase\nx = 7\nrounds 1 calls 4\n",
        ),
        // a call that ends itself keeps its prints alone
        (
            ENDED,
            "round 0\nsite 0\nsite 1\nclose 0 clause 5 sum 1 bound 0\na 1 t(1): 3 9\nround 1\nsite 0\na 2 t(2): 1\nsite 1\ndatabase\nx = 3\nrounds 2 calls 2\n",
        ),
    ] {
        let given = plain(&["steps"], text);
        check(&rt, rt.alloc(), given, Status::Done, report, "");
    }
}

#[test]
fn no_call_has_one_joint_row(rt: HostRuntime) {
    let given = plain(&["tables"], "workload 1\nsites 1\nend\n");
    let joint = "joint 1\npick\n";
    check(&rt, rt.alloc(), given, Status::Done, joint, "");
}

#[test]
fn treaties_are_written(rt: HostRuntime) {
    for (text, treaties) in [
        // slacks that two sites can't share evenly
        (
            "workload 1\nsites 2\nobject stock in 0..10 = 8\ntransaction buy(n in 1..3) { s := read(stock); if n <= s then { write(stock = s - n); print(1) } else print(0) }\nclient a at 0 { buy(1); buy(1); buy(1) }\nclient b at 1 { buy(1) }\nschedule a a b a\nend\n",
            "clauses 2\n0 slack 7 bounds 3 4 form -1*stock@0 -1*stock@1\n1 slack 3 bounds 1 2 form 1*stock@0 1*stock@1\nfreezes 0\n",
        ),
        // what a write of a constant needs
        (
            "workload 1\nsites 2\nobject stock in 0..10 = 1\ntransaction fill() { if read(stock) < 2 then write(stock = 9) else skip }\nclient a at 0 { fill() }\nclient b at 1 { fill() }\nschedule a b\nend\n",
            "clauses 1\n0 slack 0 bounds 0 0 form 1*stock@0 1*stock@1\nfreezes 2\n1 stock@0\n2 stock@1\n",
        ),
        // a product of two objects
        (
            "workload 1\nsites 2\nobject x in 0..10 = 4\nobject y in 0..10 = 5\ntransaction look() { if read(x) * read(y) <= 20 then print(1) else print(0) }\nclient a at 0 { look() }\nend\n",
            "clauses 0\nfreezes 4\n0 x@0\n1 x@1\n2 y@0\n3 y@1\n",
        ),
        // a condition of which each test is false
        (
            "workload 1\nsites 2\nobject x in 0..10 = 5\nobject y in 0..10 = 7\ntransaction t() { if not (read(x) <= 2 and read(y) <= 2) then print(1) else print(0) }\nclient a at 0 { t() }\nend\n",
            "clauses 1\n0 slack 2 bounds 1 1 form -1*x@0 -1*x@1\nfreezes 0\n",
        ),
        // an object that starts at its bound has no slack
        (
            "workload 1\nsites 1\nobject x in 0..10 = 10\ntransaction raise() { write(x = read(x) + 1) }\nclient a at 0 { raise() }\nschedule a\nend\n",
            "clauses 1\n0 slack 0 bounds 0 form -1*x@0\nfreezes 0\n",
        ),
        // each write has its bounds as clauses
        (
            "workload 1\nsites 2\nobject x in 0..10 = 5\ntransaction twice() { write(x = read(x) + 1); write(x = read(x) + 1) }\nclient a at 0 { twice() }\nschedule a\nend\n",
            "clauses 4\n0 slack 6 bounds 3 3 form -1*x@0 -1*x@1\n1 slack 4 bounds 2 2 form 1*x@0 1*x@1\n2 slack 7 bounds 3 4 form -1*x@0 -1*x@1\n3 slack 3 bounds 1 2 form 1*x@0 1*x@1\nfreezes 0\n",
        ),
        // slacks that are shared by weights
        (
            WEIGHTED_STOCK,
            "clauses 2\n0 slack 4 bounds 3 1 form -1*stock@0 -1*stock@1\n1 slack 6 bounds 4 2 form 1*stock@0 1*stock@1\nfreezes 0\n",
        ),
        // a site that doesn't write has nothing of the slack
        (
            ONE_WRITER,
            "clauses 2\n0 slack 6 bounds 6 0 form -1*x@0 -1*x@1\n1 slack 4 bounds 4 0 form 1*x@0 1*x@1\nfreezes 1\n2 x@1\n",
        ),
    ] {
        let given = plain(&["treaty"], text);
        check(&rt, rt.alloc(), given, Status::Done, treaties, "");
    }
}

/// A text, and its certificate.
type Certified = (&'static str, &'static str);

const CERTIFIED: [Certified; 3] = [
    // nothing is declared
    (
        "workload 1\nsites 1\nend\n",
        r#"{"base":[],"bounds":[],"calls":[],"clauses":[],"freezes":[],"sites":1,"version":1}"#,
    ),
    // an object that starts at its bound
    (
        "workload 1\nsites 1\nobject x in 0..10 = 10\ntransaction raise() { write(x = read(x) + 1) }\nclient a at 0 { raise() }\nschedule a\nend\n",
        r#"{"base":[10],"bounds":[[0]],"calls":[{"command":[["seq",1],["if",2],["<="],["lit",0],["sum",2],["sum",2],["base",0],["delta",0,0],["lit",1],["<="],["sum",2],["sum",2],["base",0],["delta",0,0],["lit",1],["lit",10],["write",0,0],["sum",2],["sum",2],["sum",2],["base",0],["delta",0,0],["lit",1],["neg"],["base",0],["skip"]],"site":0}],"clauses":[{"slack":0,"terms":[[0,0,-1]]}],"freezes":[],"sites":1,"version":1}"#,
    ),
    // what the other site has of an object may not move
    (
        "workload 1\nsites 2\nobject a in 0..1 = 0\nobject x in 0..8 = 5\ntransaction turn(n in -9..-2) { write(x = read(x) + n); write(x = read(x) + read(a) - n) }\nclient c at 1 { turn(-2) }\nend\n",
        r#"{"base":[0,5],"bounds":[[1,2],[2,3],[2,3],[1,2]],"calls":[{"command":[["seq",2],["if",2],["<="],["lit",0],["sum",2],["sum",3],["base",1],["delta",1,0],["delta",1,1],["lit",-2],["<="],["sum",2],["sum",3],["base",1],["delta",1,0],["delta",1,1],["lit",-2],["lit",8],["write",1,1],["sum",3],["sum",2],["sum",3],["base",1],["delta",1,0],["delta",1,1],["lit",-2],["neg"],["base",1],["neg"],["delta",1,0],["skip"],["if",2],["<="],["lit",0],["sum",3],["sum",3],["base",1],["delta",1,0],["delta",1,1],["sum",3],["base",0],["delta",0,0],["delta",0,1],["neg"],["lit",-2],["<="],["sum",3],["sum",3],["base",1],["delta",1,0],["delta",1,1],["sum",3],["base",0],["delta",0,0],["delta",0,1],["neg"],["lit",-2],["lit",8],["write",1,1],["sum",3],["sum",3],["sum",3],["base",1],["delta",1,0],["delta",1,1],["sum",3],["base",0],["delta",0,0],["delta",0,1],["neg"],["lit",-2],["neg"],["base",1],["neg"],["delta",1,0],["skip"]],"site":1}],"clauses":[{"slack":3,"terms":[[1,0,-1],[1,1,-1]]},{"slack":5,"terms":[[1,0,1],[1,1,1]]},{"slack":5,"terms":[[0,0,-1],[0,1,-1],[1,0,-1],[1,1,-1]]},{"slack":3,"terms":[[0,0,1],[0,1,1],[1,0,1],[1,1,1]]}],"freezes":[[0,0]],"sites":2,"version":1}"#,
    ),
];

#[test]
fn certificates_are_written_and_are_valid(rt: HostRuntime) {
    let alloc = rt.alloc();
    for (text, certificate) in CERTIFIED {
        let line = format!(in alloc; "{certificate}\n").expect(&rt, "memory");
        let given = plain(&["certify"], text);
        check(&rt, alloc, given, Status::Done, line.as_str(), "");
        let given = plain(&["verify"], line.as_str());
        check(&rt, alloc, given, Status::Done, "valid\n", "");
        // its newline is no part of it
        let given = plain(&["verify"], certificate);
        check(&rt, alloc, given, Status::Done, "valid\n", "");
    }
}

/// A certificate of two sites, whose second call is this command at site 1.
fn certificate_of(rt: &impl Abort, alloc: Global, command: &str) -> String {
    let head =
        r#"{"base":[9],"bounds":[[3,4]],"calls":[{"command":[["skip"]],"site":0},{"command":["#;
    let end =
        r#"],"site":1}],"clauses":[{"slack":7,"terms":[[0,1,1]]}],"freezes":[],"sites":2,"version":1}"#;
    let mut text = String::from_str(alloc, head).expect(rt, "memory");
    text.push_str(command).expect(rt, "memory");
    text.push_str(end).expect(rt, "memory");
    text
}

#[test]
fn calls_of_certificates_are_judged(rt: HostRuntime) {
    let alloc = rt.alloc();
    for (command, verdict) in [
        // a delta of its own site that is at most 7
        (
            r#"["if",1],["<="],["delta",0,1],["lit",7],["write",0,1],["lit",1],["skip"]"#,
            "valid\n",
        ),
        // at most 6, which no clause keeps
        (
            r#"["if",1],["<="],["delta",0,1],["lit",6],["skip"],["skip"]"#,
            "invalid clause 1\n",
        ),
        (
            r#"["print"],["product",2],["lit",1000000000000000000],["lit",5]"#,
            "invalid size 1\n",
        ),
        (r#"["print"],["delta",0,0]"#, "invalid freeze 1 0 0\n"),
        (r#"["write",0,0],["lit",1]"#, "invalid foreign 1\n"),
        // an object that isn't there
        (r#"["print"],["base",1]"#, "invalid shape\n"),
    ] {
        let certificate = certificate_of(&rt, alloc, command);
        let given = plain(&["verify"], certificate.as_str());
        check(&rt, alloc, given, Status::Done, verdict, "");
    }
}

#[test]
fn other_bytes_are_judged(rt: HostRuntime) {
    for (bytes, verdict) in [
        ("", "invalid json\n"),
        ("{}\n\n", "invalid shape\n"),
        (
            r#"{"base":[],"bounds":[[0],[1]],"calls":[],"clauses":[{"slack":0,"terms":[]},{"slack":2,"terms":[]}],"freezes":[],"sites":1,"version":1}"#,
            "invalid bounds 1\n",
        ),
    ] {
        let given = plain(&["verify"], bytes);
        check(&rt, rt.alloc(), given, Status::Done, verdict, "");
    }
}

#[test]
fn forecasts_are_written(rt: HostRuntime) {
    for (text, forecast) in [
        // every call is served by bounds that differ from the even ones
        (
            "workload 1\nsites 2\nobject stock in 0..10 = 5\ntransaction buy(n in 1..3) { s := read(stock); if n <= s then { write(stock = s - n); print(1) } else print(0) }\nclient a at 0 { buy(1); buy(1); buy(1) }\nclient b at 1 { buy(1) }\nschedule a a b a\nend\n",
            "kept 4 of 4\n0 bounds 3 1\n1 bounds 6 0\nstop none\n",
        ),
        // one call more than any bounds serve
        (
            "workload 1\nsites 2\nobject stock in 0..10 = 5\ntransaction buy(n in 1..3) { s := read(stock); if n <= s then { write(stock = s - n); print(1) } else print(0) }\nclient a at 0 { buy(1); buy(1); buy(1) }\nclient b at 1 { buy(1); buy(1) }\nschedule a a b a b\nend\n",
            "kept 4 of 5\n0 bounds 3 1\n1 bounds 6 0\nstop b 2 clause 0 peaks 3 2 slack 4\n",
        ),
        // what the other site prints may not move
        (
            "workload 1\nsites 2\nobject x in 0..10 = 5\ntransaction show() { print(read(x)) }\ntransaction raise() { write(x = read(x) + 1) }\nclient a at 0 { show() }\nclient b at 1 { raise(); raise() }\nschedule b a b\nend\n",
            "kept 0 of 3\n0 bounds 6 0\n1 bounds 4 0\nstop b 1 freeze 2 x@1 value 1\n",
        ),
    ] {
        let given = plain(&["forecast"], text);
        check(&rt, rt.alloc(), given, Status::Done, forecast, "");
    }
}

#[test]
fn rounds_by_packets_are_reported(rt: HostRuntime) {
    let given = plain(&["wire", "1"], STOCK);
    let report =
        "round 0\nsite 0\na 1 buy(1): 1\na 2 buy(1): 1\nsite 1\nb 1 buy(1): 1\nclose 0 clause 0 sum 3 bound 2\na 3 buy(1): 1\nround 1\nsite 0\nsite 1\ndatabase\nstock = 1\nrounds 2 calls 4\n";
    check(&rt, rt.alloc(), given, Status::Done, report, "");
}
