//! What names stand for.

pub mod field_table;
pub mod items;
pub mod rows;
pub mod scope;
