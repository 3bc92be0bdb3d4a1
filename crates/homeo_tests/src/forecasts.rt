//! How far lists of calls go that no schedule has.

ghost use Rattle.homeo_syntax.specs.SourceView.{plain_workload};
ghost use Rattle.homeo_history.specs.Legal.{IsCallAt};

use crate::same::{same, same_items};
use crate::shops::{ONE_SITE, compiled, shop};
use crate::sites::first_client_call;
use homeo_build::Compiled;
use homeo_eval::initial;
use homeo_forecast::{Outlook, Stop, forecast};
use homeo_meaning::CallId;
use std::alloc::Global;
use std::process::Abort;

/// The forecast of a call six times over.
fn outlook_of_six(rt: &impl Abort, alloc: Global, c: &Compiled, call: CallId) -> Outlook
    requires { IsCallAt (plain_workload c.now) 0 call }
{
    let base = initial(alloc, c.workload()).expect(rt, "memory");
    let calls = [call, call, call, call, call, call];
    forecast(alloc, c, &base, calls.as_slice()).expect(rt, "memory")
}

/// Four of the calls are served where the first site has all of the slack, and the fifth would take a fifth of four.
fn check_outlook(rt: &impl Abort, outlook: &Outlook) {
    same(rt, &outlook.kept, &4);
    match outlook.config.bounds.as_slice() {
        [stock, room] => {
            same_items(rt, stock.as_slice(), [4, 0].as_slice());
            same_items(rt, room.as_slice(), [6, 0].as_slice());
        }
        _ => panic!(rt; "two clauses"),
    }
    match &outlook.stop {
        Some(
            Stop::Spent {
                clause: 0,
                peaks,
                slack: 4,
            },
        ) => same_items(rt, peaks.as_slice(), [5, 0].as_slice()),
        _ => panic!(rt; "a spent slack"),
    }
}

#[test]
fn a_forecast_is_of_any_list_of_calls(rt: HostRuntime) {
    let alloc = rt.alloc();
    let text = shop(&rt, alloc, ONE_SITE);
    let c = compiled(&rt, alloc, text.as_str());
    // the one purchase of the text again and again
    let call = first_client_call(c.workload(), 1).expect(&rt, "a call");
    let outlook = outlook_of_six(&rt, alloc, &c, call);
    check_outlook(&rt, &outlook);
}
