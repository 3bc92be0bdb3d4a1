//! The rules, a file for those of one thing.

pub mod bodies;
pub mod bounds;
pub mod calls;
pub mod distinct;
pub mod fields;
pub mod limits;
pub mod objects;
pub mod prints;
pub mod relations;
pub mod schedule;
pub mod site_weights;
pub mod sizes;
