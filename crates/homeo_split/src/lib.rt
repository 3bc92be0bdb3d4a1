//! Commands over split names, run on a database that is split over sites and on whatever else can be set; and what is true of such commands.
#![tactic(auto)]

mod arithmetic;
mod commands;
pub mod laws;
mod phrases;
mod places;
mod reads;
mod runs;
mod shape;
mod split;
mod state;
mod store;
mod temporaries;

pub use arithmetic::{minus, plus, times};
pub use commands::run;
pub use phrases::{holds, value};
pub use places::{Place, place_of, place_of_temp};
pub use reads::Reads;
pub use runs::eval_l;
pub use split::Split;
pub use store::Store;
pub use temporaries::Temporaries;
