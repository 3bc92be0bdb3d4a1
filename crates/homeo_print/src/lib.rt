//! The texts of calls, symbolic tables, joint tables and treaties (this project's rule: the layout, and where parentheses stand).
#![tactic(auto)]

mod append;
mod calls;
mod choices;
mod even;
mod formulas;
mod objects;
mod position;
mod spaced;
mod tables;
mod templates;
mod terms;
mod treaties;

pub use append::{
    push_byte, push_bytes, push_heading, push_integer, push_number, push_numbers, push_signed,
    push_wide,
};
pub use calls::{name_of, print_call, push_call};
pub use choices::{print_joint, print_too_many_choices};
pub use objects::ObjectNames;
pub use position::Position;
pub use tables::{print_row, print_table_heading};
pub use templates::print_template;
pub use treaties::print_plan;
