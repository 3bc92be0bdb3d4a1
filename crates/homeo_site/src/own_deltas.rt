//! A site's own deltas.

ghost use Rattle.std.specs.Prelude.{◌≡◌, ℕ, false, length, IfOk};
ghost use Rattle.homeo_meaning.specs.Serial.{values_of};
ghost use Rattle.homeo_outline.specs.Numbers.{has};

use homeo_meaning::Database;
use homeo_syntax::{List, Memory};
use std::alloc::Global;
use std::marker::Model;
use std::mem;

/// A site's deltas, one for each object. Beside them stands a list that is level with them, for the next local step to run on, or
/// empty.
#[derive(Drop)]
pub(crate) struct OwnDeltas {
    deltas: Database,
    level: Vec<i64>,
}

impl Model for OwnDeltas {
    ghost use Rattle.std.specs.Prelude.{◌≡◌, ◌⊎◌, List, [], ℤ};

    ghost Value = { List ℤ };

    ghost view = { λ d. d.deltas.items };

    ghost invariant = { λ d. (d.level.items ≡ []) ⊎ (d.level.items ≡ d.deltas.items) };
}

impl OwnDeltas {
    /// The deltas of a list. It takes no memory.
    pub(crate) fn new(alloc: Global, deltas: Database) -> OwnDeltas
        ensures { result ≡ deltas.items }
    {
        OwnDeltas {
            deltas,
            level: Vec::new(alloc),
        }
    }

    /// Lends the deltas.
    pub(crate) fn list(&self) -> &Database
        ensures { result.now.items ≡ self.now }
    {
        &self.deltas
    }

    /// Gives the level list away, or makes one where there is none.
    pub(crate) fn copy(&mut self, alloc: Global) -> Result<Database, Memory>
        ensures same { self.new ≡ self.old }
        ensures copy { IfOk result (λ d. d.items ≡ self.old) }
    {
        let mut copy = mem::replace(&mut self.level, Vec::new(alloc));
        if copy.is_empty() {
            copy.extend_from_slice(self.deltas.as_slice())?;
        }
        Ok(List::from_vec(copy))
    }

    /// Goes on to the deltas that a local step left, which wrote no other objects than these. It takes no memory, and about the time
    /// of these objects.
    pub(crate) fn go_on(&mut self, deltas: Database, written: &[u32])
        requires count { length deltas.items ≡ length self.old }
        requires written { (n : ℕ) → has n written.now ≡ false → values_of deltas.items n ≡ values_of self.old n }
        ensures { self.new ≡ deltas.items }
    {
        let mut before = mem::replace(&mut self.deltas, deltas).into_vec();
        bring_level(&mut before, self.deltas.as_slice(), written);
        self.level = before;
    }

    /// Goes on to the deltas of another round. It takes no memory, and the list of the old ones becomes room for the level one.
    pub(crate) fn renew(&mut self, start: OwnDeltas)
        ensures { self.new ≡ start }
    {
        let OwnDeltas { deltas, level: _ } = start;
        let mut before = mem::replace(&mut self.deltas, deltas).into_vec();
        before.clear();
        self.level = before;
    }
}

/// Brings a list level with another of its length, from which it differs at no other places than these.
fn bring_level(list: &mut Vec<i64>, other: &[i64], places: &[u32])
    requires count { length list.old.items ≡ length other.now }
    requires places { (n : ℕ) → has n places.now ≡ false → values_of other.now n ≡ values_of list.old.items n }
    ensures { list.new.items ≡ other.now }
{
    for place in places {
        let place = *place as usize;
        // (each is)
        if place < other.len() {
            list[place] = other[place];
        }
    }
}
