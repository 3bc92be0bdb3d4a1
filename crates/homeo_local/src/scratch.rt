//! The lists that the local steps of a site use one after another.

ghost use Rattle.std.specs.Prelude.{◌≡◌, pos};
ghost use Rattle.homeo_syntax.specs.declared.low.Temp.{Temp};
ghost use Rattle.homeo_split.specs.States.{temps_of};

use homeo_split::Temporaries;
use std::alloc::Global;
use std::mem;

/// Lists that local steps use one after another, so that each need not make its own. What stands in them changes nothing of a step.
#[derive(Drop)]
pub struct Scratch {
    temporaries: Temporaries,
}

impl Scratch {
    /// No lists: the first step makes them. It takes no memory.
    pub fn new(alloc: Global) -> Scratch {
        Scratch {
            temporaries: Temporaries::new(alloc),
        }
    }

    /// Temporaries that are all 0.
    pub(crate) fn temporaries(&mut self, alloc: Global) -> Temporaries
        ensures { (t : Temp) → temps_of result t ≡ pos 0 }
    {
        let mut temporaries = mem::replace(&mut self.temporaries, Temporaries::new(alloc));
        temporaries.clear();
        temporaries
    }

    /// Takes the temporaries of a run that has ended.
    pub(crate) fn take_back_temporaries(&mut self, temporaries: Temporaries) {
        self.temporaries = temporaries;
    }
}
