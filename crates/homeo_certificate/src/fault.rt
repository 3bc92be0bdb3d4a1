//! The faults of a call.

use homeo_plan::Delta;

/// What is at fault in a call.
#[derive(Clone, Copy)]
pub enum Fault {
    /// A number of a form is above 4 * 10^18 in size.
    TooLarge,
    /// A delta that has to be frozen isn't.
    NotFrozen(Delta),
    /// No clause keeps a test as it is.
    NoClause,
    /// A write is to anything but a delta of the call's site.
    ForeignWrite,
}
