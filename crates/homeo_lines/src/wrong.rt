//! What is wrong with a line.

ghost use Rattle.std.specs.Prelude.{◌≡◌};

/// The version of the format of lines and snapshots.
pub const FORMAT: u64 = 1;

/// An error: its code, and what it says.
#[derive(Clone, Copy, Debug, PartialEq, Eq)]
pub struct Wrong {
    pub code: u64,
    pub text: &'static str,
}

/// A line that isn't of the format, and what is wrong with it.
pub fn malformed(text: &'static str) -> Wrong
    ensures code { result.code ≡ 12 }
    ensures text { result.text.now ≡ text.now }
{
    Wrong { code: 12, text }
}

/// A call that no client of the site has.
pub const UNLISTED: Wrong = Wrong {
    code: 10,
    text: "no such call is listed for a client of this site",
};

/// A message that only a node takes that is one of a list.
pub const NO_INIT: Wrong = Wrong {
    code: 11,
    text: "no init yet",
};

/// A request behind as many as may wait.
pub const FULL: Wrong = Wrong {
    code: 11,
    text: "as many requests wait as may",
};

/// A request whose answer isn't known any more.
pub const LATE: Wrong = Wrong {
    code: 13,
    text: "a later request of the client was taken",
};
