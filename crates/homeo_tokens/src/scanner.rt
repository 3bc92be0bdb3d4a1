//! From a text to its tokens (this project's rule).

ghost use Rattle.std.specs.Prelude.{◌≡◌, ◌<◌, ◌^◌, length, not, position, IfOk, IfErr};
ghost use Rattle.homeo_syntax.specs.Tokens.{is_good};
ghost use Rattle.homeo_tokens.specs.Scans.{IsScanned, Stops};

use crate::lexeme::{first_lexeme, is_space};
use crate::numbering::{Numbered, Numbering};
use homeo_syntax::Memory;
use std::alloc::Global;

/// Why a text has no tokens.
#[derive(Clone, Copy, Debug, PartialEq, Eq)]
pub enum ScanError {
    /// An allocation failed.
    Memory,
    /// No token begins at this offset, in bytes from 0.
    At(usize),
}

impl From<Memory> for ScanError {
    ghost use Rattle.std.specs.Prelude.{◌≡◌};
    ghost use Rattle.homeo_tokens.specs.declared.scanner.ScanError.TheVariants as error;

    ghost from_gives = { λ _ e. e ≡ error.Memory };

    fn from(_e: Memory) -> ScanError {
        ScanError::Memory
    }
}

/// A byte of printing ASCII, a space, a tab or an end of line.
fn is_good(b: u8) -> bool
    ensures { result ≡ is_good b }
{
    (b >= b' ' && b <= b'~') || is_space(b)
}

/// The offset of the first byte that is no printing ASCII, space, tab or end of line, in bytes from 0.
pub fn first_bad_byte(text: &[u8]) -> Option<usize>
    ensures { result ≡ position (λ b. not (is_good b)) text.now }
{
    text.iter().position(|b| !is_good(*b))
}

/// The tokens of a text with each name as its index among the distinct names, which are in first-seen order, and the
/// text's version, which its first two tokens tell. It takes time in proportion to the text's length, which must be below 2^32 bytes.
///
/// # Errors
///
/// `At` with the offset of the first byte at which a token should begin and none does, in bytes from 0, and `Memory`
/// when out of memory.
pub fn scan(alloc: Global, text: &[u8]) -> Result<Numbered, ScanError>
    requires { length text.now < 2 ^ 32 }
    ensures tokens { IfOk result (IsScanned text.now) }
    ensures stops { IfErr result (Stops text.now) }
{
    let mut numbering = Numbering::new(alloc);
    let mut at = 0usize;
    'text: while at < text.len() {
        if is_space(text[at]) {
            at += 1;
        } else {
            match first_lexeme(&text[at..]) {
                Some((lexeme, len)) => {
                    numbering.put(lexeme, at)?;
                    at += len;
                }
                None => return Err(ScanError::At(at)),
            }
        }
    }
    let numbered = numbering.finish(alloc)?;
    Ok(numbered)
}
