//! From the bytes to the workload.

ghost use Rattle.std.specs.Prelude.{◌≡◌, ◌<◌, ◌≤◌, length, Err, IfOk, IsErrOf};
ghost use Rattle.homeo_syntax.specs.declared.workload.Refusal.{Refusal};
ghost use Rattle.homeo_syntax.specs.SourceView.{plain_workload};
ghost use Rattle.homeo_syntax.specs.Tokens.{unversioned};
ghost use Rattle.homeo_syntax.specs.Reads.{Reads, IsUnread, offset_at};
ghost use Rattle.homeo_syntax.specs.WellFormed.{IsWellFormed};
ghost use Rattle.homeo_reader.specs.inner.Exact.{ReadsExactly, ParsesExactly};

use crate::parser::{Fault, Parser};
use homeo_syntax::{List, Refusal, Text, Token, Version, Workload};
use homeo_tokens::{Numbered, ScanError, first_bad_byte, scan};
use std::alloc::Global;

/// Why no workload was read.
#[derive(Clone, Copy, Debug, PartialEq, Eq)]
pub enum ReadRefusal {
    /// The text is no workload: the code, 1, 3 or 4, and the offset of its first fault.
    Refused(Refusal),
    /// There was not enough memory.
    Memory,
}

/// A byte that no text may have.
const BAD_BYTE: u8 = 1;

/// No token begins there.
const NO_TOKEN: u8 = 3;

/// No workload goes on with the token there.
const NO_PHRASE: u8 = 4;

/// The offset of the first of these tokens, or of the end of the text.
fn first_offset(tokens: &[Token], end: u64) -> u64
    ensures { result ≡ offset_at end tokens.now }
{
    match tokens.split_first() {
        Some((t, _)) => t.offset,
        None => end,
    }
}

/// What a fault of the tokens at this offset is to the caller.
fn refusal_after(fault: Fault, offset: u64) -> ReadRefusal
    ensures memory { fault ≡ Fault.Memory → result ≡ ReadRefusal.Memory }
    ensures stuck { fault ≡ Fault.Stuck → result ≡ ReadRefusal.Refused (record { code = 4; offset = offset }) }
{
    match fault {
        Fault::Memory => ReadRefusal::Memory,
        Fault::Stuck => refused(NO_PHRASE, offset),
    }
}

/// The workload of this version with these names that all of the tokens are, of a text that ends at this offset.
fn parse(
    alloc: Global,
    version: Version,
    tokens: &[Token],
    names: List<Text>,
    end: u64,
) -> Result<Workload, ReadRefusal>
    ensures { ParsesExactly version names.items tokens.now end result }
{
    let mut parser = Parser { rest: tokens };
    let parsed = parser.workload(alloc, version, names);
    let rest = parser.rest;
    match parsed {
        Ok(workload) => {
            if rest.is_empty() {
                Ok(workload)
            } else {
                Err(refused(NO_PHRASE, first_offset(rest, end)))
            }
        }
        Err(fault) => Err(refusal_after(fault, first_offset(rest, end))),
    }
}

/// The refusal with this code at this offset.
fn refused(code: u8, offset: u64) -> ReadRefusal
    ensures { result ≡ ReadRefusal.Refused (record { code = code; offset = offset }) }
{
    ReadRefusal::Refused(Refusal { code, offset })
}

/// The refusal of a text in which no token begins at this offset. A bad byte comes first, wherever it stands.
fn no_token(bytes: &[u8], offset: usize) -> ReadRefusal
    requires { unversioned bytes.now ≡ Err offset }
    ensures { ReadsExactly bytes.now (Err result) }
{
    match first_bad_byte(bytes) {
        Some(bad) => refused(BAD_BYTE, bad as u64),
        None => refused(NO_TOKEN, offset as u64),
    }
}

/// Reads a workload, or gives the code and the offset of the first fault. Where all bytes are of tokens or spaces, none is bad.
fn read_exactly(alloc: Global, bytes: &[u8]) -> Result<Workload, ReadRefusal>
    requires { length bytes.now ≤ 1048576 }
    ensures { ReadsExactly bytes.now result }
{
    let numbered = match scan(alloc, bytes) {
        Ok(numbered) => numbered,
        Err(ScanError::Memory) => return Err(ReadRefusal::Memory),
        Err(ScanError::At(offset)) => return Err(no_token(bytes, offset)),
    };
    let Numbered {
        version,
        tokens,
        names,
    } = numbered;
    parse(alloc, version, tokens.as_slice(), names, bytes.len() as u64)
}

/// Reads the workload of a text, given as its bytes, of which there are at most 1,048,576. It takes time linear in
/// their number.
///
/// The language of the texts and the codes of their refusals are this project's own (docs/LANGUAGE.md).
///
/// # Errors
///
/// `Refused` comes only for a text that is no workload, with the code and the offset, in bytes from the text's start,
/// of its first fault: 1 at the first byte that no text may have; else 3 at the first offset where a token should
/// begin and none does; else 4 at the first token with which no workload goes on, or at the end of the text.
/// `Memory` says that there was not enough memory, and nothing of the text.
pub fn read(alloc: Global, bytes: &[u8]) -> Result<Workload, ReadRefusal>
    requires { length bytes.now ≤ 1048576 }
    ensures reads { IfOk result (λ w. Reads bytes.now (plain_workload w)) }
    ensures well_formed { IfOk result (λ w. IsWellFormed (plain_workload w)) }
    ensures refused { (r : Refusal) → IsErrOf result (ReadRefusal.Refused r) → IsUnread bytes.now r }
{
    read_exactly(alloc, bytes)
}
