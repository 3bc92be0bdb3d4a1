//! What expressions read.

ghost use Rattle.std.specs.Prelude.{◌≡◌};
ghost use Rattle.homeo_meaning.specs.LowMeaning.{State, TempAt, location_of};

use homeo_syntax::{SplitName, Temp};

/// What expressions read: it has a value for each temporary and for each split name.
pub trait Reads {
    /// The values of all locations.
    ghost values: { Self → State };

    /// The value of a temporary.
    fn temp(&self, t: Temp) -> i64
        ensures { result ≡ values self.now (TempAt t) };

    /// The value of a name.
    fn read(&self, x: SplitName) -> i64
        ensures { result ≡ values self.now (location_of x) };
}
