//! What each command makes of what its source gives.
#![tactic(auto)]

mod certify;
mod clients;
mod load;
mod output;
mod serve;
mod stop;
mod tables;
mod treaty;
mod verify;
mod wire;

pub use output::output_of;
pub use serve::{Ending, serve_source};
pub use stop::Stop;
