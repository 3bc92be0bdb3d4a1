//! The temporaries of a run.

ghost use Rattle.std.specs.Prelude.{◌≡◌, pos, if◌then◌else◌, OnOk};
ghost use Rattle.homeo_syntax.specs.declared.low.Temp.{Temp};
ghost use Rattle.homeo_meaning.specs.LowMeaning.{same_temp};
ghost use Rattle.homeo_split.specs.States.{temps_of};

use homeo_meaning::Window;
use homeo_syntax::{Memory, Temp};
use std::alloc::Global;

/// The values of the temporaries of a run by their numbers, those of the text and the fresh ones: 0 where none was set. A text's are
/// numbered by its names, so those of a call lie together and may begin far from 0.
#[derive(Drop)]
pub struct Temporaries {
    pub named: Window<i64>,
    pub fresh: Window<i64>,
}

impl Temporaries {
    /// All temporaries are 0.
    #[tactic(auto, unfolding(crate::specs::Key::definitions))]
    pub fn new(alloc: Global) -> Temporaries
        ensures { (t : Temp) → temps_of result t ≡ pos 0 }
    {
        Temporaries {
            named: Window::new(alloc),
            fresh: Window::new(alloc),
        }
    }

    /// Sets all temporaries to 0, and keeps the memory.
    #[tactic(auto, unfolding(crate::specs::Key::definitions))]
    pub fn clear(&mut self)
        ensures { (t : Temp) → temps_of self.new t ≡ pos 0 }
    {
        self.named.clear();
        self.fresh.clear();
    }

    /// The value of a temporary.
    #[tactic(auto, unfolding(crate::specs::Key::definitions))]
    pub fn get(&self, t: Temp) -> i64
        ensures { result ≡ temps_of self.now t }
    {
        match t {
            Temp::Named(n) => self.named.get(n as usize, 0),
            Temp::Fresh(n) => self.fresh.get(n as usize, 0),
        }
    }

    /// Sets a temporary.
    ///
    /// # Errors
    ///
    /// `Memory` when out of memory. Then nothing is told of what is set.
    pub fn set(&mut self, t: Temp, v: i64) -> Result<(), Memory>
        ensures { OnOk result ((u : Temp) → temps_of self.new u ≡
            if same_temp t u then v else temps_of self.old u) }
    {
        match t {
            Temp::Named(n) => self.named.put(n as usize, v, 0),
            Temp::Fresh(n) => self.fresh.put(n as usize, v, 0),
        }
    }
}
