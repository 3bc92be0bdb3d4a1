//! What attempts of calls come to, and what is found before.

use homeo_meaning::{CallId, Database};
use homeo_plan::Broken;
use homeo_syntax::{List, Prints};

/// What the attempt of a call at its site comes to (Roy et al., SIGMOD 2015).
#[derive(Drop)]
pub enum Outcome {
    /// The site's treaty holds after the call.
    Keeps(Change),
    /// It doesn't: this fails first.
    Breaks(Broken),
}

/// What a call makes of its site.
#[derive(Drop)]
pub struct Change {
    pub call: CallId,
    /// The site's deltas after the call, one for each object.
    pub deltas: Database,
    /// The objects that the call wrote, by number: rising, each once.
    pub written: List<u32>,
    /// What the call prints, in order.
    pub prints: Prints,
}

/// A call's local step, found and not yet made, with all the memory that making it needs.
#[derive(Drop)]
pub struct Room {
    pub call: CallId,
    /// The site's deltas after the call, one for each object.
    pub deltas: Database,
    /// The objects that the call wrote, by number: rising, each once.
    pub written: List<u32>,
    /// What the call prints, in order.
    pub prints: Prints,
}
