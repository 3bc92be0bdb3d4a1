//! Gates that wait in turns, where each takes the gate's own lock, reads what was noted there and lets it go; and one that counts.

ghost use Rattle.std.specs.Prelude.{◌<◌, IfSome};

use homeo_cluster::Gate;
use homeo_meaning::CallId;
use std::sync::{Mutex, Wait};
use std::thread;

/// The most turns that a call is held.
const MOST_TURNS: u64 = 50_000_000;

/// The turns that the first call is held by `HoldsFirst`.
const FIRST_TURNS: u64 = 100_000;

/// A call that is held, at the lock of its site, until another is inside.
#[derive(Clone, Copy)]
pub struct Hold {
    pub call: CallId,
    pub until: CallId,
}

/// The call of a client, from 0, with this number, from 1.
pub const fn call(client: u32, seq: u64) -> CallId {
    CallId { client, seq }
}

/// The number of the last call of each of two clients that came inside, and whether one was held for all turns.
#[derive(Drop)]
struct Inside {
    last: [u64; 2],
    late: bool,
}

/// Holds calls of two clients, each until another is inside.
#[derive(Drop)]
pub struct Holds {
    holds: [Hold; 2],
    inside: Mutex<Inside>,
}

impl Holds {
    pub fn new(holds: [Hold; 2]) -> Holds {
        Holds {
            holds,
            inside: Mutex::new(Inside {
                last: [0; 2],
                late: false,
            }),
        }
    }

    /// Holds the third calls of both clients, each until the other is inside.
    pub fn third_calls() -> Holds {
        Holds::new([
            Hold {
                call: call(0, 3),
                until: call(1, 3),
            },
            Hold {
                call: call(1, 3),
                until: call(0, 3),
            },
        ])
    }

    /// Whether a call was held for all turns.
    pub fn was_late<R: Wait>(&self, rt: &R) -> bool {
        self.inside.lock(rt).late
    }

    fn note<R: Wait>(&self, rt: &R, call: CallId) {
        let mut inside = self.inside.lock(rt);
        if let Some(last) = inside.last.get_mut(call.client as usize) {
            *last = call.seq;
        }
    }

    fn is_inside<R: Wait>(&self, rt: &R, call: CallId) -> bool {
        match self.inside.lock(rt).last.get(call.client as usize) {
            Some(last) => *last >= call.seq,
            None => false,
        }
    }

    fn hold<R: Wait>(&self, rt: &R, until: CallId) {
        for _turn in 0..MOST_TURNS {
            if self.is_inside(rt, until) {
                return;
            }
            thread::yield_now();
        }
        self.inside.lock(rt).late = true;
    }
}

impl Gate for Holds {
    fn inside<R: Wait>(&self, rt: &R, _site: u32, client: u32, seq: u64) {
        let inside = call(client, seq);
        self.note(rt, inside);
        for hold in self.holds.as_slice() {
            if hold.call == inside {
                self.hold(rt, hold.until);
            }
        }
    }
}

/// How many calls have come inside, and whether a second one did while the first was held.
#[derive(Drop)]
struct Company {
    calls: u64,
    together: bool,
}

/// Holds the first call that is inside.
#[derive(Drop)]
pub struct HoldsFirst {
    company: Mutex<Company>,
}

impl HoldsFirst {
    pub fn new() -> HoldsFirst {
        HoldsFirst {
            company: Mutex::new(Company {
                calls: 0,
                together: false,
            }),
        }
    }

    /// Whether another call came inside while the first was held.
    pub fn were_together<R: Wait>(&self, rt: &R) -> bool {
        self.company.lock(rt).together
    }

    /// How many calls have come inside.
    pub fn calls<R: Wait>(&self, rt: &R) -> u64 {
        self.company.lock(rt).calls
    }

    // Notes a call, and tells how many there are.
    fn enter<R: Wait>(&self, rt: &R) -> u64 {
        let mut company = self.company.lock(rt);
        company.calls = company.calls.saturating_add(1);
        company.calls
    }

    fn hold<R: Wait>(&self, rt: &R) {
        for _turn in 0..FIRST_TURNS {
            if self.calls(rt) > 1 {
                self.company.lock(rt).together = true;
                return;
            }
            thread::yield_now();
        }
    }
}

impl Gate for HoldsFirst {
    fn inside<R: Wait>(&self, rt: &R, _site: u32, _client: u32, _seq: u64) {
        if self.enter(rt) == 1 {
            self.hold(rt);
        }
    }
}

/// Of eight clients how often each of three calls has come inside at its client's site, and how many calls came elsewhere.
#[derive(Drop)]
struct Calls {
    times: [u64; 24],
    elsewhere: u64,
}

/// Counts each call that is inside. Client 0 is at site 0, client 1 at site 1 and so on, and behind the last site at site 0 again.
#[derive(Drop)]
pub struct CountsCalls {
    sites: u32,
    calls: Mutex<Calls>,
}

impl CountsCalls {
    pub fn new(sites: u32) -> CountsCalls {
        CountsCalls {
            sites,
            calls: Mutex::new(Calls {
                times: [0; 24],
                elsewhere: 0,
            }),
        }
    }

    /// How often each call has come inside at its client's site: of client 0 call 1, 2 and 3, then of client 1.
    pub fn times<R: Wait>(&self, rt: &R) -> [u64; 24] {
        self.calls.lock(rt).times
    }

    /// How many calls came inside at another site, or are past those that are counted.
    pub fn elsewhere<R: Wait>(&self, rt: &R) -> u64 {
        self.calls.lock(rt).elsewhere
    }

    /// Where a call is counted.
    fn place(&self, site: u32, client: u32, seq: u64) -> Option<usize>
        ensures { IfSome result (λ place. place < 24) }
    {
        let client_site = client.checked_rem(self.sites)?;
        let call = (seq as usize).checked_sub(1)?;
        if client_site == site && client < 8 && call < 3 {
            Some(client as usize * 3 + call)
        } else {
            None
        }
    }
}

impl Gate for CountsCalls {
    fn inside<R: Wait>(&self, rt: &R, site: u32, client: u32, seq: u64) {
        let place = self.place(site, client, seq);
        let mut calls = self.calls.lock(rt);
        match place {
            Some(place) => calls.times[place] = calls.times[place].saturating_add(1),
            None => calls.elsewhere = calls.elsewhere.saturating_add(1),
        }
    }
}
