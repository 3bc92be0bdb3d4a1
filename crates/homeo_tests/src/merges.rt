//! Rounds made here, and the merges of one.

ghost use Rattle.std.specs.Prelude.{◌≡◌, length};

use crate::gates::call;
use crate::same::same_items;
use homeo_history::{Entry, Round, Segment};
use homeo_merge::{MergeError, interleave};
use homeo_syntax::List;
use std::alloc::Global;
use std::process::Abort;

fn segment(rt: &impl Abort, alloc: Global, client: u32, calls: u64) -> Segment {
    let mut entries = List::new(alloc);
    for seq in 1..=calls {
        let entry = Entry {
            call: call(client, seq),
            prints: List::new(alloc),
        };
        entries.push(entry).expect(rt, "memory");
    }
    Segment { entries }
}

fn round_of_two_sites(rt: &impl Abort, alloc: Global) -> Round
    ensures { length result.segments.items ≡ 2 }
{
    let mut segments = List::new(alloc);
    let (first, second) = (segment(rt, alloc, 0, 2), segment(rt, alloc, 1, 1));
    segments.push(first).expect(rt, "memory");
    segments.push(second).expect(rt, "memory");
    Round {
        base: List::new(alloc),
        segments,
        closing: None,
    }
}

#[test]
fn a_choice_picks_each_segment_in_its_own_order(rt: HostRuntime) {
    let round = round_of_two_sites(&rt, rt.alloc());
    let calls = interleave(rt.alloc(), &round, [1, 0, 0].as_slice()).expect(&rt, "a merge");
    drop(round);
    same_items(
        &rt,
        calls.as_slice(),
        [call(1, 1), call(0, 1), call(0, 2)].as_slice(),
    );
}

#[test]
fn a_choice_without_a_site_that_has_entries_does_not_fit(rt: HostRuntime) {
    let round = round_of_two_sites(&rt, rt.alloc());
    let misfit = interleave(rt.alloc(), &round, [0, 0].as_slice()).err();
    drop(round);
    assert!(rt;
        misfit
            == Some(MergeError::Misfit {
                site: 1,
                chosen: 0,
                length: 1
            })
    );
}
