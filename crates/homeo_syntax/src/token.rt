//! Tokens: what the grammar is made of (this project's rule).

ghost use Rattle.std.specs.Prelude.{◌≡◌};
ghost use Rattle.homeo_syntax.specs.Marks.{mark_text};
ghost use Rattle.homeo_syntax.specs.Versions.{version_number};

/// A symbol or a reserved word.
#[derive(Clone, Copy, Debug, PartialEq, Eq)]
pub enum Mark {
    /// `:=`
    Assign,
    /// `..`
    Dots,
    /// `<=`
    LessEqual,
    /// `<`
    Less,
    /// `=`
    Equal,
    /// `+`
    Plus,
    /// `-`
    Minus,
    /// `*`
    Star,
    /// `(`
    Open,
    /// `)`
    Close,
    /// `[`
    OpenBracket,
    /// `]`
    CloseBracket,
    /// `{`
    OpenBrace,
    /// `}`
    CloseBrace,
    /// `,`
    Comma,
    /// `;`
    Semicolon,
    /// `.`
    Dot,
    Workload,
    Sites,
    Object,
    In,
    Relation,
    Transaction,
    Client,
    At,
    Schedule,
    End,
    If,
    Then,
    Else,
    Skip,
    Write,
    Read,
    Print,
    Foreach,
    Of,
    When,
    Insert,
    Into,
    Delete,
    Update,
    Set,
    Count,
    Sum,
    Used,
    And,
    Not,
    True,
    Weights,
    Abort,
}

impl Mark {
    /// How the mark is spelled: one to eleven bytes of ASCII.
    pub fn text(self) -> &'static [u8]
        ensures { result.now ≡ mark_text self }
    {
        match self {
            Mark::Assign => b":=",
            Mark::Dots => b"..",
            Mark::LessEqual => b"<=",
            Mark::Less => b"<",
            Mark::Equal => b"=",
            Mark::Plus => b"+",
            Mark::Minus => b"-",
            Mark::Star => b"*",
            Mark::Open => b"(",
            Mark::Close => b")",
            Mark::OpenBracket => b"[",
            Mark::CloseBracket => b"]",
            Mark::OpenBrace => b"{",
            Mark::CloseBrace => b"}",
            Mark::Comma => b",",
            Mark::Semicolon => b";",
            Mark::Dot => b".",
            Mark::Workload => b"workload",
            Mark::Sites => b"sites",
            Mark::Object => b"object",
            Mark::In => b"in",
            Mark::Relation => b"relation",
            Mark::Transaction => b"transaction",
            Mark::Client => b"client",
            Mark::At => b"at",
            Mark::Schedule => b"schedule",
            Mark::End => b"end",
            Mark::If => b"if",
            Mark::Then => b"then",
            Mark::Else => b"else",
            Mark::Skip => b"skip",
            Mark::Write => b"write",
            Mark::Read => b"read",
            Mark::Print => b"print",
            Mark::Foreach => b"foreach",
            Mark::Of => b"of",
            Mark::When => b"when",
            Mark::Insert => b"insert",
            Mark::Into => b"into",
            Mark::Delete => b"delete",
            Mark::Update => b"update",
            Mark::Set => b"set",
            Mark::Count => b"count",
            Mark::Sum => b"sum",
            Mark::Used => b"used",
            Mark::And => b"and",
            Mark::Not => b"not",
            Mark::True => b"true",
            Mark::Weights => b"weights",
            Mark::Abort => b"abort",
        }
    }
}

/// A version of the language of texts.
#[derive(Clone, Copy, Debug, PartialEq, Eq)]
pub enum Version {
    /// Version 1: slack is shared evenly.
    First,
    /// Version 2: slack is shared by weights, and `weights` and `abort` are no names.
    Second,
}

impl Version {
    /// The number after the word `workload`.
    pub fn number(self) -> u8
        ensures { result ≡ version_number self }
    {
        match self {
            Version::First => 1,
            Version::Second => 2,
        }
    }
}

/// What a token is: a name by its index among the distinct names of the text, a number without a sign, or a mark.
#[derive(Clone, Copy, Debug, PartialEq, Eq)]
pub enum Kind {
    Name(u32),
    Number(i64),
    Fixed(Mark),
}

/// A token, and the offset of its first byte in the text, in bytes from 0.
#[derive(Clone, Copy, Debug, PartialEq, Eq)]
pub struct Token {
    pub kind: Kind,
    pub offset: u64,
}
