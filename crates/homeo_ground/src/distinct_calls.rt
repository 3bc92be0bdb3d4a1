//! The distinct ground calls among calls that are put one after another.

ghost use Rattle.std.specs.Prelude.{◌≡◌, [], ◌∷◌, false, IfOk, OnOk};
ghost use Rattle.std.specs.List.{list_any};
ghost use Rattle.homeo_meaning.specs.NumberRules.{same_ground, distinct_after};
ghost use Rattle.homeo_meaning.specs.CallPlaces.{place_among};
ghost use Rattle.homeo_ground.specs.Sited.{sited};
ghost use Rattle.homeo_ground.specs.inner.Keys.{sited_all, AreKeys};

use crate::key::{Key, key_of};
use crate::sited::SitedCall;
use homeo_syntax::Memory;
use indexmap::IndexSet;
use std::alloc::Global;

/// The first call of each ground call, in the order in which they were put, and their keys.
#[derive(Drop)]
pub(crate) struct DistinctCalls<'a> {
    pub keys: IndexSet<Key>,
    pub calls: Vec<SitedCall<'a>>,
    /// The key of the call that was put last, whose memory serves the next: most calls are none that is new.
    last: Key,
}

impl<'a> DistinctCalls<'a> {
    /// None yet.
    pub fn new(alloc: Global) -> DistinctCalls<'a>
        ensures keys { AreKeys result }
        ensures calls { sited_all result ≡ [] }
    {
        DistinctCalls {
            keys: IndexSet::new(alloc),
            calls: Vec::new(alloc),
            last: Key::new(alloc),
        }
    }

    /// The place of a call that is new, after it is put behind the calls.
    fn put_new(&mut self, alloc: Global, call: SitedCall<'a>) -> Result<usize, Memory>
        requires keys { AreKeys self.old }
        requires new { list_any (same_ground (sited call)) (sited_all self.old) ≡ false }
        ensures keys { OnOk result (AreKeys self.new) }
        ensures calls { OnOk result (sited_all self.new ≡ distinct_after (sited_all self.old) (sited call.entry ∷ [])) }
        ensures place { IfOk result (λ place. place ≡ place_among (sited_all self.new) (sited call.entry)) }
    {
        let key = key_of(alloc, call)?;
        let (place, _) = self.keys.insert_full(key)?;
        self.calls.push(call)?;
        Ok(place)
    }

    /// The place of a call, after it is put behind the calls if none of them is the same ground call.
    pub fn put(&mut self, alloc: Global, call: SitedCall<'a>) -> Result<usize, Memory>
        requires { AreKeys self.old }
        ensures keys { OnOk result (AreKeys self.new) }
        ensures calls { OnOk result (sited_all self.new ≡ distinct_after (sited_all self.old) (sited call.entry ∷ [])) }
        ensures place { IfOk result (λ place. place ≡ place_among (sited_all self.new) (sited call.entry)) }
    {
        self.last.put(call)?;
        match self.keys.get_index_of(&self.last) {
            Some(place) => Ok(place),
            None => self.put_new(alloc, call),
        }
    }
}
