//! Linear forms, their sums and products, and the forms of expressions at what stands at each place.
#![tactic(auto)]

mod checked;
mod constants;
mod deltas;
mod expressions;
mod form;
mod items;
mod numbers;
mod objects;
mod standing;
mod terms;

pub use checked::checked_form;
pub use constants::constant;
pub use deltas::{in_order as deltas_in_order, push_written};
pub use expressions::{difference as expression_difference, form as expression_form};
pub use form::Form;
pub use standing::Standing;
