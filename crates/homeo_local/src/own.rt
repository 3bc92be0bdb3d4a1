//! The values that a run at a site reads and changes.

ghost use Rattle.std.specs.Prelude.{◌≡◌, ◌<◌, length, OnOk};
ghost use Rattle.homeo_meaning.specs.LowMeaning.{BaseAt, put};
ghost use Rattle.homeo_local.specs.inner.Own.{plain_own};
ghost use Rattle.homeo_local.specs.inner.Leads.{Leads};

use homeo_meaning::padded::item_or;
use homeo_split::{Reads, Store, Temporaries};
use homeo_syntax::{Memory, SplitName, Temp};

/// The base, the site's deltas, the temporaries, and the objects that were written, in order.
///
/// An object is its base and its delta. Their sum wraps, and so does what a write takes off: a run begins with sums that fit, and
/// what is written fits, so the sum is the object's value whatever its delta is, and nothing has to be known of deltas on the way.
#[derive(Drop)]
pub(crate) struct Own<'a> {
    pub(crate) base: &'a [i64],
    pub(crate) deltas: Vec<i64>,
    pub(crate) temporaries: Temporaries,
    pub(crate) written: Vec<u32>,
}

impl Reads for Own<'_> {
    ghost use Rattle.homeo_local.specs.inner.Own.{plain_own};

    ghost values = { λ o. plain_own o };

    #[tactic(auto, unfolding(crate::specs::inner::Key::definitions))]
    fn temp(&self, t: Temp) -> i64 {
        self.temporaries.get(t)
    }

    #[tactic(auto, unfolding(crate::specs::inner::Key::definitions, homeo_meaning::specs::Key::definitions))]
    fn read(&self, x: SplitName) -> i64 {
        match x {
            SplitName::Whole(object) => self.object(object as usize),
            SplitName::Base(object) => self.object(object as usize),
            SplitName::Delta { .. } => 0,
        }
    }
}

impl Store for Own<'_> {
    ghost use Rattle.std.specs.Prelude.{length};
    ghost use Rattle.std.proofs.Common.{ap};
    ghost use Rattle.homeo_local.specs.OwnValues.{own_shape};
    ghost use Rattle.homeo_local.specs.inner.Leads.{Leads, stays, goes_on};

    ghost shape = { λ o. own_shape (length o.deltas.items) };

    ghost leads_to = { λ o p. Leads o p };

    fn assign(&mut self, t: Temp, v: i64) -> Result<(), Memory> {
        self.temporaries.set(t, v)
    }

    fn write(&mut self, x: SplitName, v: i64) -> Result<(), Memory> {
        match x {
            SplitName::Whole(object) => self.set_object(object, v),
            SplitName::Base(object) => self.set_object(object, v),
            // (there is no such place)
            SplitName::Delta { .. } => Ok(()),
        }
    }

    ghost keeps_shape = { λ o p l. ap own_shape l.count };

    ghost stays = { stays };

    ghost goes_on = { goes_on };
}

impl Own<'_> {
    /// The value of an object.
    fn object(&self, x: usize) -> i64
        ensures { result ≡ plain_own self.now (BaseAt x) }
    {
        item_or(self.base, x, 0).wrapping_add(item_or(self.deltas.as_slice(), x, 0))
    }

    /// Sets an object that is there.
    fn set_object(&mut self, x: u32, v: i64) -> Result<(), Memory>
        requires { x < length self.old.deltas.items }
        ensures set { OnOk result (plain_own self.new ≡ put (plain_own self.old) (BaseAt x) v) }
        ensures leads { OnOk result (Leads self.old self.new) }
    {
        self.written.push(x)?;
        self.deltas[x as usize] = v.wrapping_sub(item_or(self.base, x as usize, 0));
        Ok(())
    }
}
