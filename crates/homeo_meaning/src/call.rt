//! Calls, ground calls, and what a text is read for.

ghost use Rattle.std.specs.Prelude.{◌≡◌, IfOk};
ghost use Rattle.homeo_meaning.specs.Ground.{plain_ground};

use homeo_syntax::{List, Memory};
use std::alloc::Global;

/// A call of a client: the client's number, from 0, and the number of the call among the client's, from 1.
#[derive(Clone, Copy, Debug, PartialEq, Eq)]
pub struct CallId {
    pub client: u32,
    pub seq: u64,
}

/// A transaction with its arguments at a site: what distinct calls may share.
#[derive(Drop)]
pub struct GroundCall {
    /// The number of the transaction in the order of the text, from 0.
    pub transaction: u32,
    /// The arguments, in the order of the transaction's parameters.
    pub args: List<i64>,
    /// The number of the site, from 0.
    pub site: u32,
}

impl GroundCall {
    /// Makes an equal value.
    ///
    /// # Errors
    ///
    /// `Memory` where memory is wanting.
    pub fn copy(&self, alloc: Global) -> Result<GroundCall, Memory>
        ensures { IfOk result (λ c. plain_ground c ≡ plain_ground self.now) }
    {
        let args = Vec::from_slice(alloc, self.args.as_slice())?;
        Ok(GroundCall {
            transaction: self.transaction,
            args: List::from_vec(args),
            site: self.site,
        })
    }
}

/// What a text is read for.
#[derive(Clone, Copy, Debug, PartialEq, Eq)]
pub enum Purpose {
    /// To run its calls in the order of its schedule.
    Steps,
    /// To run each client by itself.
    Run,
    /// To print symbolic tables.
    Tables,
    /// To print the treaties at the initial database.
    Treaty,
}
