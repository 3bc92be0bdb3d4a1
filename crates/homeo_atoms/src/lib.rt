//! By linear forms at a base: the atoms of formulas, what residuals need of other sites, and the template of what many ground calls
//! ask and need.
#![tactic(auto)]

mod following;
mod formulas;
mod freezes;
mod joining;
mod residuals;

pub use formulas::atoms;
pub use joining::template;
pub use residuals::needs;
