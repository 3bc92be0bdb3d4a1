//! Where a command sets a value, as a key of maps.

ghost use Rattle.std.specs.Prelude.{◌≡◌};
ghost use Rattle.homeo_meaning.specs.LowMeaning.{TempAt, location_of};
ghost use Rattle.homeo_split.specs.Places.{plain_place};

use homeo_syntax::{SplitName, Temp};

/// A temporary of the text or a fresh one, the base's value of an object, or a delta of one. A whole object is its base.
#[derive(Clone, Copy, PartialEq, Eq, Hash)]
pub enum Place {
    /// A temporary, by the number of its name.
    Named(u32),
    /// A temporary that analysis made, by its number.
    Fresh(u32),
    /// The base's value of an object.
    Base(u32),
    /// An object's delta of a site.
    Delta { object: u32, site: u32 },
}

/// The place of a temporary.
pub fn place_of_temp(t: Temp) -> Place
    ensures { plain_place result ≡ TempAt t }
{
    match t {
        Temp::Named(name) => Place::Named(name),
        Temp::Fresh(number) => Place::Fresh(number),
    }
}

/// The place of a name.
#[tactic(auto, unfolding(homeo_meaning::specs::Key::definitions))]
pub fn place_of(name: SplitName) -> Place
    ensures { plain_place result ≡ location_of name }
{
    match name {
        SplitName::Whole(object) => Place::Base(object),
        SplitName::Base(object) => Place::Base(object),
        SplitName::Delta { object, site } => Place::Delta { object, site },
    }
}
