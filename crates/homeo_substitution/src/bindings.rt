//! What stands at the places that a command has set.

ghost use Rattle.std.specs.Prelude.{◌≡◌, Some, None, IfOk, OnOk};
ghost use Rattle.std.specs.Option.{option_map};
ghost use Rattle.homeo_meaning.specs.LowMeaning.{put};
ghost use Rattle.homeo_substitution.specs.Bindings.{bound};
ghost use Rattle.homeo_split.specs.Places.{plain_place};
ghost use Rattle.homeo_substitution.specs.Shared.{plain_shared};

use crate::shared::Shared;
use homeo_split::Place;
use homeo_syntax::Memory;
use std::alloc::Global;
use std::collections::HashMap;
use std::rc::Rc;

/// At each place that was set the expression that stands there now, which speaks of the state before the command. Copies
/// share the expressions.
#[derive(Drop)]
pub struct Bindings {
    expressions: HashMap<Place, Rc<Shared>>,
}

impl Bindings {
    /// Nothing was set.
    pub fn new(alloc: Global) -> Bindings
        ensures { bound result ≡ (λ l. None) }
    {
        Bindings {
            expressions: HashMap::new(alloc),
        }
    }

    /// Makes a copy, which shares the expressions.
    ///
    /// # Errors
    ///
    /// `Memory` when out of memory.
    pub fn copy(&self) -> Result<Bindings, Memory>
        ensures { IfOk result (λ b. bound b ≡ bound self.now) }
    {
        Ok(Bindings {
            expressions: self.expressions.clone()?,
        })
    }

    /// Sets a place: the expression stands there now, in place of what stood there.
    ///
    /// # Errors
    ///
    /// `Memory` when out of memory.
    pub fn bind(&mut self, place: Place, value: Rc<Shared>) -> Result<(), Memory>
        ensures { OnOk result (bound self.new ≡ put (bound self.old) (plain_place place) (Some (plain_shared value.value))) }
    {
        self.expressions.insert(place, value)?;
        Ok(())
    }

    /// What stands at a place, if it was set.
    pub(crate) fn at(&self, place: Place) -> Option<&Rc<Shared>>
        ensures { option_map (λ e. plain_shared e.now.value) result ≡ bound self.now (plain_place place) }
    {
        self.expressions.get(&place)
    }
}
