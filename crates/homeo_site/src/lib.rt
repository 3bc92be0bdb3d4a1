//! A site in a round: it runs the calls of its own clients by itself while its treaty holds, and says what fails where it
//! doesn't.
#![tactic(auto)]

mod attempts;
mod bare;
mod effects;
pub mod laws;
mod lists;
mod own_deltas;
mod own_round;
mod own_treaty;
mod planner;
mod site;
mod start;

pub use attempts::{Change, Outcome, Room};
pub use bare::{BareSite, Ran};
pub use own_treaty::own_sum;
pub use planner::Planner;
pub use site::Site;
pub use start::SiteStart;
