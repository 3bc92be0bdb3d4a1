//! The plan of a round.

use crate::templates::{Config, Template};
use homeo_meaning::Database;

/// What a round is run by (Roy et al., SIGMOD 2015).
#[derive(Drop)]
pub struct RoundPlan {
    /// The database that the round begins with.
    pub base: Database,
    pub template: Template,
    pub config: Config,
}
