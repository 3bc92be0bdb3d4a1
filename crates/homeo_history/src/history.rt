//! The history of a run.

use homeo_meaning::{CallId, Database};
use homeo_plan::Broken;
use homeo_syntax::{List, Prints};

/// A call that was made, and what it printed, in order.
#[derive(Drop)]
pub struct Entry {
    pub call: CallId,
    pub prints: Prints,
}

/// The entries of one site in one round, in the order in which its calls were made.
#[derive(Drop)]
pub struct Segment {
    pub entries: List<Entry>,
}

/// The call that ends a round, its site, from 0, and what of the site's treaty it breaks.
#[derive(Drop)]
pub struct Closing {
    pub site: u32,
    pub entry: Entry,
    pub broken: Broken,
}

/// A round: the database that it begins with, a segment for each site, and the call that closes it. An open round
/// has no such call.
#[derive(Drop)]
pub struct Round {
    pub base: Database,
    pub segments: List<Segment>,
    pub closing: Option<Closing>,
}

/// The rounds of a run, in order, and the database that they leave.
#[derive(Drop)]
pub struct History {
    pub rounds: List<Round>,
    pub last: Database,
}
