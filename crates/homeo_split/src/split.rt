//! Databases that are split over sites.

ghost use Rattle.std.specs.Prelude.{◌≡◌};
ghost use Rattle.homeo_meaning.specs.LowMeaning.{DeltaAt};
ghost use Rattle.homeo_split.specs.States.{state_of};

use crate::reads::Reads;
use homeo_meaning::Database;
use homeo_meaning::padded::item_or;
use homeo_syntax::{List, SplitName, Temp};

/// A database that is split over sites (Roy et al., SIGMOD 2015): the base's value of each object by its number, and for
/// each site a delta of each object.
#[derive(Drop)]
pub struct Split {
    pub base: Database,
    pub deltas: List<Database>,
}

/// Temporaries are 0.
impl Reads for Split {
    ghost use Rattle.homeo_split.specs.States.{state_of};

    ghost values = { λ s. state_of s };

    #[tactic(auto, unfolding(crate::specs::Key::definitions))]
    fn temp(&self, _: Temp) -> i64 {
        0
    }

    #[tactic(auto, unfolding(crate::specs::Key::definitions, homeo_meaning::specs::Key::definitions))]
    fn read(&self, x: SplitName) -> i64 {
        match x {
            SplitName::Whole(object) => item_or(self.base.as_slice(), object as usize, 0),
            SplitName::Base(object) => item_or(self.base.as_slice(), object as usize, 0),
            SplitName::Delta { object, site } => self.delta(object as usize, site as usize),
        }
    }
}

impl Split {
    #[tactic(auto, unfolding(crate::specs::Key::definitions))]
    fn delta(&self, object: usize, site: usize) -> i64
        ensures { result ≡ state_of self.now (DeltaAt object site) }
    {
        match self.deltas.as_slice().get(site) {
            Some(deltas) => item_or(deltas.as_slice(), object, 0),
            None => 0,
        }
    }
}
