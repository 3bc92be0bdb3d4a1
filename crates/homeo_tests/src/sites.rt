//! The calls of one client at its site.

ghost use Rattle.std.specs.Prelude.{◌≡◌, IfSome};
ghost use Rattle.homeo_syntax.specs.SourceView.{plain_workload};
ghost use Rattle.homeo_history.specs.Legal.{IsCallAt};
ghost use Rattle.homeo_tests.specs.inner.Sites.{IsFirstSite};

use crate::same::{same, same_items};
use crate::shops::{THREE_AND_ONE, accepted_shop};
use homeo_build::Compiled;
use homeo_build::compile::compile;
use homeo_build::treaties::plan_at;
use homeo_eval::initial;
use homeo_meaning::{Accepted, CallId};
use homeo_plan::Broken;
use homeo_site::{Outcome, Site, SiteStart};
use homeo_syntax::{List, Prints};
use std::alloc::Global;
use std::process::Abort;
use std::sync::Arc;

/// The call of this number of the first client, if there is one and the client is at site 0.
pub(crate) fn first_client_call(w: &Accepted, seq: u64) -> Option<CallId>
    ensures { IfSome result (IsCallAt (plain_workload w.now) 0) }
{
    match w.workload().clients.as_slice() {
        [client, ..] => {
            let count = client.calls.as_slice().len();
            if client.site.value == 0 && 1 <= seq && seq as usize <= count {
                Some(CallId { client: 0, seq })
            } else {
                None
            }
        }
        _ => None,
    }
}

/// Site 0 in the round that begins at the starting values.
fn first_site(rt: &impl Abort, alloc: Global, w: Accepted) -> (Arc<Compiled, Global>, Site)
    ensures { IsFirstSite result.0.value result.1 }
{
    // its rules hold
    let _workload = w.workload();
    let base = initial(alloc, &w).expect(rt, "memory");
    let made = compile(alloc, w).expect(rt, "memory");
    let compiled = Arc::new(alloc, made).expect(rt, "memory");
    let plan = plan_at(alloc, &compiled, &base).expect(rt, "memory");
    let start = SiteStart::new(alloc, &compiled, &plan, 0, 0).expect(rt, "memory");
    drop(plan);
    (compiled, Site::begin(start))
}

/// Attempts a call, and commits its change where it keeps the treaty.
fn make(rt: &impl Abort, alloc: Global, site: &mut Site, call: CallId) -> Option<Broken>
    requires { IsCallAt (plain_workload site.old.work) site.old.state.number call }
    ensures work { site.new.work ≡ site.old.work }
    ensures number { site.new.state.number ≡ site.old.state.number }
{
    let outcome = site.attempt(alloc, call).expect(rt, "memory");
    match outcome {
        Outcome::Keeps(change) => {
            site.commit(change);
            None
        }
        Outcome::Breaks(broken) => Some(broken),
    }
}

/// Makes the call of this number of the first client.
fn make_first(
    rt: &impl Abort,
    alloc: Global,
    compiled: &Compiled,
    site: &mut Site,
    seq: u64,
) -> Option<Broken>
    requires { IsFirstSite compiled.now site.old }
    ensures { IsFirstSite compiled.now site.new }
{
    let call = first_client_call(compiled.workload(), seq).expect(rt, "a call");
    make(rt, alloc, site, call)
}

/// Two calls were made, and each printed 1.
fn check_entries(rt: &impl Abort, site: &Site) {
    match site.segment().entries.as_slice() {
        [first, second] => {
            same_items(rt, first.prints.as_slice(), [1].as_slice());
            same_items(rt, second.prints.as_slice(), [1].as_slice());
        }
        _ => panic!(rt; "two entries"),
    }
}

/// Two of five are this site's to sell.
#[test]
fn a_site_sells_until_its_treaty_breaks(rt: HostRuntime) {
    let alloc = rt.alloc();
    let w = accepted_shop(&rt, alloc, THREE_AND_ONE);
    let (compiled, mut site) = first_site(&rt, alloc, w);
    same(&rt, &make_first(&rt, alloc, &compiled, &mut site, 1), &None);
    same(&rt, &make_first(&rt, alloc, &compiled, &mut site, 2), &None);
    let broken = Broken {
        clause: 0,
        sum: 3,
        bound: 2,
    };
    let found = make_first(&rt, alloc, &compiled, &mut site, 3);
    drop(compiled);
    same(&rt, &found, &Some(broken));
    check_entries(&rt, &site);
    drop(site);
}

/// The first client's first call, attempted in its room with a copy of its prints.
fn attempt_first(
    rt: &impl Abort,
    alloc: Global,
    compiled: &Compiled,
    site: &mut Site,
) -> (Outcome, List<Prints>)
    requires { IsFirstSite compiled.now site.old }
{
    let call = first_client_call(compiled.workload(), 1).expect(rt, "a call");
    let (room, mut answers) = site.room(alloc, call, 1).expect(rt, "memory");
    let outcome = site.attempt_in(call, room, &mut answers);
    (outcome, answers)
}

#[test]
fn prints_are_copied_into_the_answers(rt: HostRuntime) {
    let alloc = rt.alloc();
    let w = accepted_shop(&rt, alloc, THREE_AND_ONE);
    let (compiled, mut site) = first_site(&rt, alloc, w);
    let (outcome, answers) = attempt_first(&rt, alloc, &compiled, &mut site);
    drop(site);
    drop(compiled);
    match outcome {
        Outcome::Keeps(change) => same_items(&rt, change.prints.as_slice(), [1].as_slice()),
        Outcome::Breaks(broken) => panic!(rt; "breaks {broken:?}"),
    }
    match answers.as_slice() {
        [copy] => same_items(&rt, copy.as_slice(), [1].as_slice()),
        _ => panic!(rt; "one copy"),
    }
    drop(answers);
}
