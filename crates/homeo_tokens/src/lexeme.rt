//! The token that a text begins with (this project's rule).

ghost use Rattle.std.specs.Prelude.{◌≡◌, ◌<◌, ◌≤◌, length, None, option_map, EachIndex, IsTrue, slice_index, pos, bytes_eq, ◌∷◌, [], false};
ghost use Rattle.std.specs.List.{prefix_len};
ghost use Rattle.homeo_syntax.specs.Lexemes as spec;
ghost use Rattle.homeo_syntax.specs.Marks.{mark_text};
ghost use Rattle.homeo_syntax.specs.Tokens as tokens;
ghost use Rattle.homeo_syntax.specs.Versions.{also_reserved};
ghost use Rattle.homeo_syntax.specs.declared.token.Version.TheVariants as version;
ghost use Rattle.homeo_tokens.specs.Views.{plain_lexeme, plain_found};
ghost use Rattle.homeo_tokens.specs.inner.Lexemes.{fixed, symbol_lexeme};

use homeo_syntax::{Mark, Version};

/// A token before names have numbers: a name as the text spells it, a number of at most 18 digits, or a mark.
#[derive(Clone, Copy, Debug)]
pub enum Lexeme<'a> {
    Name(&'a str),
    Number(i64),
    Fixed(Mark),
}

/// The words that are no names in any version, by their first letters.
const WORDS_IN_A: [Mark; 2] = [Mark::At, Mark::And];

const WORDS_IN_C: [Mark; 2] = [Mark::Client, Mark::Count];

const WORDS_IN_D: [Mark; 1] = [Mark::Delete];

const WORDS_IN_E: [Mark; 2] = [Mark::End, Mark::Else];

const WORDS_IN_F: [Mark; 1] = [Mark::Foreach];

const WORDS_IN_I: [Mark; 4] = [Mark::In, Mark::If, Mark::Insert, Mark::Into];

const WORDS_IN_N: [Mark; 1] = [Mark::Not];

const WORDS_IN_O: [Mark; 2] = [Mark::Object, Mark::Of];

const WORDS_IN_P: [Mark; 1] = [Mark::Print];

const WORDS_IN_R: [Mark; 2] = [Mark::Relation, Mark::Read];

const WORDS_IN_S: [Mark; 5] = [
    Mark::Sites,
    Mark::Schedule,
    Mark::Skip,
    Mark::Set,
    Mark::Sum,
];

const WORDS_IN_T: [Mark; 3] = [Mark::Transaction, Mark::Then, Mark::True];

const WORDS_IN_U: [Mark; 2] = [Mark::Update, Mark::Used];

const WORDS_IN_W: [Mark; 3] = [Mark::Workload, Mark::Write, Mark::When];

/// The words that are no names in version 2, beside these.
const LATER_RESERVED: [Mark; 2] = [Mark::Weights, Mark::Abort];

/// The most bytes of a name.
const LONGEST_NAME: usize = 32;

/// The most digits of a number.
const MOST_DIGITS: usize = 18;

/// A space, a tab, a carriage return or a newline.
pub fn is_space(b: u8) -> bool
    ensures { result ≡ spec.is_space b }
{
    b == b' ' || b == b'\t' || b == b'\r' || b == b'\n'
}

fn is_letter(b: u8) -> bool
    ensures { result ≡ spec.is_letter b }
{
    (b >= b'a' && b <= b'z') || (b >= b'A' && b <= b'Z')
}

fn is_digit(b: u8) -> bool
    ensures { result ≡ spec.is_digit b }
{
    b >= b'0' && b <= b'9'
}

fn is_word(b: u8) -> bool
    ensures { result ≡ spec.is_word b }
{
    is_letter(b) || is_digit(b) || b == b'_'
}

/// Whether two texts are one. They are compared byte by byte, since most are short and unlike.
fn is_same(left: &[u8], right: &[u8]) -> bool
    ensures { result ≡ bytes_eq left.now right.now }
{
    if left.len() != right.len() {
        return false;
    }
    for place in 0..left.len() {
        if left[place] != right[place] {
            return false;
        }
    }
    true
}

/// Whether a mark is spelled so.
fn is_spelled(mark: Mark, text: &[u8]) -> bool
    ensures { result ≡ bytes_eq text.now (mark_text mark) }
{
    is_same(text, mark.text())
}

/// The mark among these that is spelled so.
fn look_up(marks: &[Mark], text: &[u8]) -> Option<Mark>
    ensures { result ≡ spec.look_up marks.now text.now }
{
    marks.iter().copied().find(|mark| is_spelled(*mark, text))
}

/// The mark of a reserved word.
fn reserved_word(text: &[u8]) -> Option<Mark>
    ensures { result ≡ spec.look_up spec.reserved text.now }
{
    match text.first() {
        Some(b'a') => look_up(&WORDS_IN_A, text),
        Some(b'c') => look_up(&WORDS_IN_C, text),
        Some(b'd') => look_up(&WORDS_IN_D, text),
        Some(b'e') => look_up(&WORDS_IN_E, text),
        Some(b'f') => look_up(&WORDS_IN_F, text),
        Some(b'i') => look_up(&WORDS_IN_I, text),
        Some(b'n') => look_up(&WORDS_IN_N, text),
        Some(b'o') => look_up(&WORDS_IN_O, text),
        Some(b'p') => look_up(&WORDS_IN_P, text),
        Some(b'r') => look_up(&WORDS_IN_R, text),
        Some(b's') => look_up(&WORDS_IN_S, text),
        Some(b't') => look_up(&WORDS_IN_T, text),
        Some(b'u') => look_up(&WORDS_IN_U, text),
        Some(b'w') => look_up(&WORDS_IN_W, text),
        _ => None,
    }
}

/// The symbol of two bytes.
fn double_symbol(first: u8, second: u8) -> Option<Mark>
    ensures { result ≡ spec.look_up spec.double_symbols (first ∷ second ∷ []) }
{
    match (first, second) {
        (b':', b'=') => Some(Mark::Assign),
        (b'.', b'.') => Some(Mark::Dots),
        (b'<', b'=') => Some(Mark::LessEqual),
        _ => None,
    }
}

/// The symbol of one byte.
fn single_symbol(byte: u8) -> Option<Mark>
    ensures { result ≡ spec.look_up spec.single_symbols (byte ∷ []) }
{
    match byte {
        b'<' => Some(Mark::Less),
        b'=' => Some(Mark::Equal),
        b'+' => Some(Mark::Plus),
        b'-' => Some(Mark::Minus),
        b'*' => Some(Mark::Star),
        b'(' => Some(Mark::Open),
        b')' => Some(Mark::Close),
        b'[' => Some(Mark::OpenBracket),
        b']' => Some(Mark::CloseBracket),
        b'{' => Some(Mark::OpenBrace),
        b'}' => Some(Mark::CloseBrace),
        b',' => Some(Mark::Comma),
        b';' => Some(Mark::Semicolon),
        b'.' => Some(Mark::Dot),
        _ => None,
    }
}

/// The symbol that the text begins with, the longest that fits, and its length in bytes.
fn symbol(text: &[u8]) -> Option<(Mark, usize)>
    requires { 0 < length text.now }
    ensures { option_map fixed result ≡ symbol_lexeme text.now }
{
    if text.len() > 1 {
        if let Some(mark) = double_symbol(text[0], text[1]) {
            return Some((mark, 2));
        }
    }
    let mark = single_symbol(text[0])?;
    Some((mark, 1))
}

/// How many bytes from the front on are of a word.
fn word_len(text: &[u8]) -> usize
    ensures { result ≡ prefix_len spec.is_word text.now }
{
    text.iter().take_while(|b| is_word(**b)).count()
}

/// How many bytes from the front on are digits.
fn digits_len(text: &[u8]) -> usize
    ensures { result ≡ prefix_len spec.is_digit text.now }
{
    text.iter().take_while(|b| is_digit(**b)).count()
}

/// A reserved word, or a name.
fn word(text: &[u8]) -> Lexeme<'_>
    requires { EachIndex text.now (λ k. IsTrue (spec.is_word (slice_index text.now k))) }
    ensures { plain_lexeme result ≡ spec.word_as text.now (spec.look_up spec.reserved text.now) }
{
    match reserved_word(text) {
        Some(mark) => Lexeme::Fixed(mark),
        None => match str::from_utf8(text) {
            Ok(name) => Lexeme::Name(name),
            Err(_) => unreachable!(),
        },
    }
}

/// The value of a few digits.
fn number(digits: &[u8]) -> i64
    requires few { length digits.now ≤ 18 }
    requires each { EachIndex digits.now (λ k. IsTrue (spec.is_digit (slice_index digits.now k))) }
    ensures { result ≡ pos (spec.number_value digits.now) }
{
    let mut value: u64 = 0;
    for d in digits {
        value = value * 10 + (*d - b'0') as u64;
    }
    value as i64
}

pub(crate) fn is_workload(mark: Mark) -> bool
    ensures { result ≡ tokens.is_workload mark }
{
    match mark {
        Mark::Workload => true,
        _ => false,
    }
}

/// The words that are no names in this version, beside those that never are.
fn also_reserved(version: Version) -> &'static [Mark]
    ensures { result.now ≡ also_reserved version }
{
    match version {
        Version::First => &[],
        Version::Second => &LATER_RESERVED,
    }
}

/// Whether a word may be one that version 2 alone reserves, by its first letter.
pub(crate) fn may_be_later(word: &[u8]) -> bool
    ensures { result ≡ false → spec.look_up (also_reserved version.Second) word.now ≡ None }
{
    match word.first() {
        Some(b'a' | b'w') => true,
        _ => false,
    }
}

/// The token as a version has it: a word is a mark where the version reserves it.
pub(crate) fn lexeme_in<'a>(version: Version, lexeme: Lexeme<'a>) -> Lexeme<'a>
    ensures { plain_lexeme result ≡ tokens.lexeme_in version (plain_lexeme lexeme.entry) }
{
    match lexeme {
        Lexeme::Name(word) => match look_up(also_reserved(version), word.as_bytes()) {
            Some(mark) => Lexeme::Fixed(mark),
            None => lexeme,
        },
        Lexeme::Number(_) | Lexeme::Fixed(_) => lexeme,
    }
}

/// The token that the text begins with, the longest that fits, and its length in bytes.
pub fn first_lexeme(text: &[u8]) -> Option<(Lexeme<'_>, usize)>
    ensures { plain_found result ≡ spec.lexeme_of text.now }
{
    let first = *text.first()?;
    if is_letter(first) {
        let n = word_len(text);
        if n > LONGEST_NAME {
            return None;
        }
        Some((word(&text[..n]), n))
    } else if is_digit(first) {
        let n = digits_len(text);
        if n > MOST_DIGITS {
            return None;
        }
        Some((Lexeme::Number(number(&text[..n])), n))
    } else {
        let (mark, n) = symbol(text)?;
        Some((Lexeme::Fixed(mark), n))
    }
}
