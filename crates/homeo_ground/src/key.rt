//! What tells calls apart as ground calls.

ghost use Rattle.std.specs.Prelude.{◌≡◌, IfOk, OnOk};
ghost use Rattle.homeo_ground.specs.Sited.{sited};
ghost use Rattle.homeo_ground.specs.inner.Keys.{call_of, unplaced};

use crate::sited::{SitedCall, put_values, values};
use homeo_syntax::Memory;
use std::alloc::Global;

/// A call's name, the values of its arguments and its site, wherever it stands in the text.
#[derive(PartialEq, Eq, Hash, Drop)]
pub(crate) struct Key {
    pub name: u32,
    pub args: Vec<i64>,
    pub site: i64,
}

/// The key of a call.
pub(crate) fn key_of(alloc: Global, call: SitedCall<'_>) -> Result<Key, Memory>
    ensures { IfOk result (λ k. call_of k ≡ unplaced (sited call.entry)) }
{
    Ok(Key {
        name: call.name.name,
        args: values(alloc, call.args)?,
        site: call.site,
    })
}

impl Key {
    /// A key of no arguments.
    pub fn new(alloc: Global) -> Key {
        Key {
            name: 0,
            args: Vec::new(alloc),
            site: 0,
        }
    }

    /// Becomes the key of a call, in the memory that it has where the arguments fit.
    pub fn put(&mut self, call: SitedCall<'_>) -> Result<(), Memory>
        ensures { OnOk result (call_of self.new ≡ unplaced (sited call.entry)) }
    {
        put_values(&mut self.args, call.args)?;
        self.name = call.name.name;
        self.site = call.site;
        Ok(())
    }
}
