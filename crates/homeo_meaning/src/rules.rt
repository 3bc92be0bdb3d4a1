/// What a declaration declares, with its number among its like, from 0.
#[derive(Clone, Copy, Debug, PartialEq, Eq)]
pub enum Item {
    Object(usize),
    Relation(usize),
    Transaction(usize),
    Client(usize),
}

/// What a name is within one transaction alone.
#[derive(Clone, Copy, Debug, PartialEq, Eq)]
pub enum Local {
    Absent,
    Parameter,
    Temporary,
}

/// What a name stands for at a place of a transaction.
#[derive(Clone, Copy, Debug, PartialEq, Eq)]
pub enum Binding {
    Unbound,
    Item(Item),
    Parameter,
    /// A row variable, with the name of the relation that it goes over.
    Row(u32),
    Temporary,
}

/// The phases of the rules, in the order in which they are tried.
#[derive(Clone, Copy, Debug, PartialEq, Eq)]
pub enum Phase {
    /// E5: a name that is declared twice.
    Duplicate,
    /// E6: a name that is not known.
    Unknown,
    /// E7: a name of another kind.
    Kind,
    /// E8: a wrong number of arguments, or of an insert's fields.
    Arity,
    /// E9: a number out of its bounds.
    Bounds,
    /// E13: more than a limit allows.
    Limits,
    /// E14: a schedule that doesn't fit the calls.
    Schedule,
    /// E11: a call that is too large or too deep, or calls that are too large or print too much together.
    Size,
    /// E10: an expression whose values may get too large.
    Weight,
    /// E12: a call whose table has too many rows, or tables that are too large together.
    Rows,
}

/// A rule that is broken, and where.
#[derive(Clone, Copy, Debug, PartialEq, Eq)]
pub struct Fault {
    pub phase: Phase,
    /// In bytes from the start of the text.
    pub offset: u64,
}
