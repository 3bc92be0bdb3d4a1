//! How a run ends: the statuses, and the lines that complaints get.

ghost use Rattle.std.specs.Prelude.{◌≡◌};
ghost use Rattle.homeo.specs.Command.{number_of};

/// What is said of words that are no command.
pub const USAGE_LINE: &str =
    "usage: homeo steps or run or tables or treaty or serve or forecast or certify or verify or wire NUMBER or load NUMBER CALLS\n";

/// What is said where memory is wanting.
pub const MEMORY_LINE: &str = "out of memory\n";

/// What is said where the source failed.
pub const READ_FAULT_LINE: &str = "read fault\n";

/// What is said where the output failed.
pub const WRITE_FAULT_LINE: &str = "write fault\n";

/// How a run ended.
#[derive(Clone, Copy, Debug, PartialEq, Eq)]
pub enum Status {
    /// All was done, and the whole output was taken.
    Done,
    /// The words are no command.
    Usage,
    /// The text is refused.
    Refused,
    /// Memory was wanting.
    Memory,
    /// The source failed.
    ReadFault,
    /// The output failed.
    WriteFault,
}

impl Status {
    /// The exit status, from 0 to 5.
    pub fn number(self) -> u8
        ensures { result ≡ number_of self }
    {
        match self {
            Status::Done => 0,
            Status::Usage => 1,
            Status::Refused => 2,
            Status::Memory => 3,
            Status::ReadFault => 4,
            Status::WriteFault => 5,
        }
    }
}
