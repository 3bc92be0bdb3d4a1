//! Databases.

use homeo_syntax::List;

/// The values of all objects, in the order of their numbers: those that are declared, then of each relation the slots in
/// turn, each first whether it is used (1) or free (0), and then its fields.
pub type Database = List<i64>;
