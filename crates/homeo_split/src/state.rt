//! The values that a run reads and changes.

ghost use Rattle.std.specs.Prelude.{◌≡◌};
ghost use Rattle.homeo_meaning.specs.LowMeaning.{DeltaAt};
ghost use Rattle.homeo_split.specs.inner.States.{plain_state};

use crate::reads::Reads;
use crate::store::Store;
use crate::temporaries::Temporaries;
use homeo_meaning::padded::item_or;
use homeo_syntax::{Memory, SplitName, Temp};

/// The values of the base, of the deltas by site, and of the temporaries.
#[derive(Drop)]
pub(crate) struct State {
    pub(crate) base: Vec<i64>,
    pub(crate) deltas: Vec<Vec<i64>>,
    pub(crate) temporaries: Temporaries,
}

impl Reads for State {
    ghost use Rattle.homeo_split.specs.inner.States.{plain_state};

    ghost values = { λ s. plain_state s };

    #[tactic(auto, unfolding(crate::specs::Key::definitions))]
    fn temp(&self, t: Temp) -> i64 {
        self.temporaries.get(t)
    }

    #[tactic(auto, unfolding(crate::specs::Key::definitions, homeo_meaning::specs::Key::definitions))]
    fn read(&self, x: SplitName) -> i64 {
        match x {
            SplitName::Whole(object) => item_or(self.base.as_slice(), object as usize, 0),
            SplitName::Base(object) => item_or(self.base.as_slice(), object as usize, 0),
            SplitName::Delta { object, site } => self.delta(object as usize, site as usize),
        }
    }
}

impl Store for State {
    ghost use Rattle.std.specs.Prelude.{◌≡◌, refl};
    ghost use Rattle.std.proofs.Common.{◌∙◌};
    ghost use Rattle.homeo_split.specs.inner.States.{state_shape};

    ghost shape = { λ s. state_shape s };

    ghost leads_to = { λ s t. state_shape t ≡ state_shape s };

    fn assign(&mut self, t: Temp, v: i64) -> Result<(), Memory> {
        self.temporaries.set(t, v)
    }

    fn write(&mut self, x: SplitName, v: i64) -> Result<(), Memory> {
        match x {
            SplitName::Whole(object) => self.base[object as usize] = v,
            SplitName::Base(object) => self.base[object as usize] = v,
            SplitName::Delta { object, site } => self.deltas[site as usize][object as usize] = v,
        }
        Ok(())
    }

    ghost keeps_shape = { λ s t same. same };

    ghost stays = { λ s. refl };

    ghost goes_on = { λ s t u first then. then ∙ first };
}

impl State {
    #[tactic(auto, unfolding(crate::specs::Key::definitions))]
    fn delta(&self, object: usize, site: usize) -> i64
        ensures { result ≡ plain_state self.now (DeltaAt object site) }
    {
        match self.deltas.get(site) {
            Some(deltas) => item_or(deltas.as_slice(), object, 0),
            None => 0,
        }
    }
}
