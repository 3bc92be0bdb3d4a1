//! Certificates of rounds, and the verdicts on texts.

ghost use Rattle.homeo_syntax.specs.SourceView.{plain_workload};
ghost use Rattle.homeo_build.specs.Plan.{IsPlanOf};

use crate::same::{same, same_items};
use crate::shops::compiled;
use crate::texts::push_times;
use homeo_build::Compiled;
use homeo_build::treaties::treaties;
use homeo_cert::{CertError, certificate};
use homeo_certificate::Verdict;
use homeo_eval::initial;
use homeo_plan::{Delta, RoundPlan};
use homeo_verify::verify;
use std::alloc::Global;
use std::process::Abort;

/// What it writes last depends on an object that the other site may not move.
const TURN: &str = "workload 1
sites 2
object a in 0..1 = 0
object x in 0..8 = 5
transaction turn(n in -9..-2) { write(x = read(x) + n); write(x = read(x) + read(a) - n) }
client c at 1 { turn(-2) }
end
";

const CERTIFICATE: &str =
    r#"{"base":[0,5],"bounds":[[1,2],[2,3],[2,3],[1,2]],"calls":[{"command":[["seq",2],["if",2],["<="],["lit",0],["sum",2],["sum",3],["base",1],["delta",1,0],["delta",1,1],["lit",-2],["<="],["sum",2],["sum",3],["base",1],["delta",1,0],["delta",1,1],["lit",-2],["lit",8],["write",1,1],["sum",3],["sum",2],["sum",3],["base",1],["delta",1,0],["delta",1,1],["lit",-2],["neg"],["base",1],["neg"],["delta",1,0],["skip"],["if",2],["<="],["lit",0],["sum",3],["sum",3],["base",1],["delta",1,0],["delta",1,1],["sum",3],["base",0],["delta",0,0],["delta",0,1],["neg"],["lit",-2],["<="],["sum",3],["sum",3],["base",1],["delta",1,0],["delta",1,1],["sum",3],["base",0],["delta",0,0],["delta",0,1],["neg"],["lit",-2],["lit",8],["write",1,1],["sum",3],["sum",3],["sum",3],["base",1],["delta",1,0],["delta",1,1],["sum",3],["base",0],["delta",0,0],["delta",0,1],["neg"],["lit",-2],["neg"],["base",1],["neg"],["delta",1,0],["skip"]],"site":1}],"clauses":[{"slack":3,"terms":[[1,0,-1],[1,1,-1]]},{"slack":5,"terms":[[1,0,1],[1,1,1]]},{"slack":5,"terms":[[0,0,-1],[0,1,-1],[1,0,-1],[1,1,-1]]},{"slack":3,"terms":[[0,0,1],[0,1,1],[1,0,1],[1,1,1]]}],"freezes":[[0,0]],"sites":2,"version":1}"#;

/// The plan of the round that begins at the starting values.
fn first_plan(rt: &impl Abort, alloc: Global, c: &Compiled) -> RoundPlan
    ensures { IsPlanOf (plain_workload c.now) result.base.items result }
{
    let base = initial(alloc, c.workload()).expect(rt, "memory");
    treaties(alloc, c, &base, None).expect(rt, "memory")
}

/// The certificate of that round.
fn first_certificate(rt: &impl Abort, alloc: Global, c: &Compiled) -> Vec<u8> {
    let plan = first_plan(rt, alloc, c);
    let text = certificate(alloc, c, &plan).expect(rt, "a certificate");
    drop(plan);
    text
}

/// The verdict on a text that isn't too long for one.
fn verdict_on(rt: &impl Abort, alloc: Global, text: &[u8]) -> Verdict {
    assert!(rt; text.len() <= 16_777_216);
    verify(alloc, text).expect(rt, "memory")
}

#[test]
fn the_certificate_of_a_round_is_valid(rt: HostRuntime) {
    let alloc = rt.alloc();
    let c = compiled(&rt, alloc, TURN);
    let text = first_certificate(&rt, alloc, &c);
    drop(c);
    same_items(&rt, text.as_slice(), CERTIFICATE.as_bytes());
    let verdict = verdict_on(&rt, alloc, text.as_slice());
    same(&rt, &verdict, &Verdict::Valid);
}

#[test]
fn a_verdict_is_the_first_fault(rt: HostRuntime) {
    let delta = Delta { object: 0, site: 0 };
    for (text, verdict) in [
        (
            r#"{"base":[9],"bounds":[],"calls":[{"command":[["print"],["delta",0,0]],"site":1}],"clauses":[],"freezes":[],"sites":2,"version":1}"#,
            Verdict::Freeze { call: 0, delta },
        ),
        ("{}", Verdict::Shape),
        ("[", Verdict::Json),
    ] {
        let told = verdict_on(&rt, rt.alloc(), text.as_bytes());
        same(&rt, &told, &verdict);
    }
}

/// Eight calls at 16 sites, each of which prints 900 sums over the object.
fn long_prints(rt: &impl Abort, alloc: Global) -> String {
    let head = "workload 1\nsites 16\nobject x in 0..8 = 5\ntransaction t(n in 0..9) { ";
    let print =
        "print(n + read(x) + read(x) + read(x) + read(x) + read(x) + read(x) + read(x) + read(x) + read(x) + read(x) + 0); ";
    let calls = "skip }\nclient c at 1 { t(1); t(2); t(3); t(4); t(5); t(6); t(7); t(8) }\nend\n";
    let mut text = String::from_str(alloc, head).expect(rt, "memory");
    push_times(rt, &mut text, print, 900);
    text.push_str(calls).expect(rt, "memory");
    text
}

/// Each call adds 2,304,944 bytes to the 178 of the rest.
#[test]
fn a_certificate_may_be_too_long(rt: HostRuntime) {
    let alloc = rt.alloc();
    let text = long_prints(&rt, alloc);
    let c = compiled(&rt, alloc, text.as_str());
    let plan = first_plan(&rt, alloc, &c);
    match certificate(alloc, &c, &plan) {
        Err(CertError::TooLong { bytes }) => same(&rt, &bytes, &18_439_730),
        _ => panic!(rt; "a text that is too long"),
    }
}
