//! The rule that a board keeps at each atomic step.

use atomic_table::TableRule;
use std::collections::LinkedList;

/// What a seat at a board knows, for contracts alone: no value of it is made. By line: the list, where the seat owns the line;
/// what it has seen; what it was told and hasn't taken in yet. And from `first` to below `end` the lines that it deals next.
pub struct View {
    pub owned: LinkedList<Option<LinkedList<LinkedList<i64>>>>,
    pub seen: LinkedList<LinkedList<LinkedList<i64>>>,
    pub told: LinkedList<LinkedList<LinkedList<i64>>>,
    pub first: u64,
    pub end: u64,
}

/// The rule of a board: each line has one owner, its word is the length of its list, and what a seat has seen of a line is a
/// prefix of the line's list. Its key is the number of lines.
pub struct Law;

impl TableRule<u8, View, usize> for Law {
    ghost use Rattle.homeo_notes.specs.Boards.{newcomer};
    ghost use Rattle.homeo_notes.specs.inner.Rule.{Kept};

    ghost holds = { Kept };

    ghost first = { newcomer };
}
