//! What stands fixed while a phrase is run or analysed: the declarations by their names, the arguments of the call, and the
//! row variables with their slots.
#![tactic(auto)]

mod arguments;
mod context;
mod declarations;
mod slots;
mod spot;

pub use arguments::{Argument, argument_of, argument_or, argument_values, bind};
pub use context::{BoundRows, Context, find_row};
pub use declarations::{Declarations, Places};
pub use slots::{Slot, Slots};
pub use spot::{Spot, find_field};
