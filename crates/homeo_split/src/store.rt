//! What commands change.

ghost use Rattle.std.specs.Prelude.{◌≡◌, true, OnOk};
ghost use Rattle.homeo_meaning.specs.LowMeaning.{TempAt, location_of, put};
ghost use Rattle.homeo_split.specs.Shape.{Shape, has_place};

use crate::reads::Reads;
use homeo_syntax::{Memory, SplitName, Temp};

/// What commands change: each temporary can be set, and each split name that is there.
pub trait Store: Reads {
    /// The split names that are there.
    ghost shape: { Self → Shape };

    /// What is true beside the values of a state and of one that it was changed to.
    ghost leads_to: { Self → Self → Type 0 };

    /// Sets a temporary.
    ///
    /// # Errors
    ///
    /// `Memory` when out of memory. Then nothing is told of what is set.
    fn assign(&mut self, t: Temp, v: i64) -> Result<(), Memory>
        ensures set { OnOk result (Self.values self.new ≡ put (Self.values self.old) (TempAt t) v) }
        ensures leads { OnOk result (leads_to self.old self.new) };

    /// Sets a name that is there.
    ///
    /// # Errors
    ///
    /// `Memory` when out of memory. Then nothing is told of what is set.
    fn write(&mut self, x: SplitName, v: i64) -> Result<(), Memory>
        requires { has_place (shape self.old) x ≡ true }
        ensures set { OnOk result (Self.values self.new ≡ put (Self.values self.old) (location_of x) v) }
        ensures leads { OnOk result (leads_to self.old self.new) };

    /// The same names are there.
    ghost keeps_shape: { (s t : Self) → leads_to s t → shape t ≡ shape s };

    /// No change.
    ghost stays: { (s : Self) → leads_to s s };

    /// One change after another.
    ghost goes_on: { (s t u : Self) → leads_to s t → leads_to t u → leads_to s u };
}
