//! The names of a text as numbers (this project's rule).

ghost use Rattle.std.specs.Prelude.{◌≡◌, ◌+◌, ◌<◌, ◌≤◌, ◌^◌, [], length, IfOk, OnOk};
ghost use Rattle.indexmap.specs.IndexSet.{index_set_len};
ghost use Rattle.homeo_syntax.specs.Tokens.{kind_in, lexeme_in, with_lexeme};
ghost use Rattle.homeo_tokens.specs.Views.{plain_lexeme};
ghost use Rattle.homeo_tokens.specs.inner.Names.{plain_names};
ghost use Rattle.homeo_tokens.specs.inner.Numbers.{kinds_second, version_by, IsFew, Numbers, Adds};

use crate::lexeme::{Lexeme, is_workload, lexeme_in, may_be_later};
use homeo_syntax::{Kind, List, Memory, Text, Token, Version};
use indexmap::IndexSet;
use std::alloc::Global;

/// The version of a text, its tokens, and the distinct names that they number: a name token has its name's index, from 0.
#[derive(Drop)]
pub struct Numbered {
    pub version: Version,
    pub tokens: Vec<Token>,
    pub names: List<Text>,
}

/// The tokens so far, and the distinct names that they number, where these stand in the text.
#[derive(Drop)]
pub(crate) struct Numbering<'a> {
    pub names: IndexSet<&'a str>,
    pub tokens: Vec<Token>,
}

/// What a token is, after its name is put behind the names if it is not among them.
fn number_lexeme<'a>(names: &mut IndexSet<&'a str>, lexeme: Lexeme<'a>) -> Result<Kind, Memory>
    requires { index_set_len names.old < 2 ^ 32 }
    ensures names { OnOk result (plain_names names.new ≡ with_lexeme (plain_names names.old) (plain_lexeme lexeme.entry)) }
    ensures kind { IfOk result (λ k. k ≡ kind_in (plain_names names.new) (plain_lexeme lexeme.entry)) }
    ensures few { OnOk result (index_set_len names.new ≤ index_set_len names.old + 1) }
{
    match lexeme {
        Lexeme::Name(name) => match names.insert_full(name) {
            Ok((index, _)) => Ok(Kind::Name(index as u32)),
            Err(_) => Err(Memory),
        },
        Lexeme::Number(value) => Ok(Kind::Number(value)),
        Lexeme::Fixed(mark) => Ok(Kind::Fixed(mark)),
    }
}

/// A copy of the names.
fn copy_names(alloc: Global, names: &IndexSet<&str>) -> Result<List<Text>, Memory>
    ensures { IfOk result (λ l. l.items ≡ plain_names names.now) }
{
    let mut texts = List::new(alloc);
    for name in names.as_slice() {
        texts.push(Text::of(alloc, name)?)?;
    }
    Ok(texts)
}

/// Whether a text that begins with these two tokens is in version 2.
fn begins_second(first: Kind, second: Kind) -> bool
    ensures { result ≡ kinds_second first second }
{
    match first {
        Kind::Fixed(mark) => match second {
            Kind::Number(n) => is_workload(mark) && n == 2,
            _ => false,
        },
        _ => false,
    }
}

/// The version of a text with these tokens.
fn version_of(tokens: &[Token]) -> Version
    ensures { result ≡ version_by tokens.now }
{
    if tokens.len() > 1 && begins_second(tokens[0].kind, tokens[1].kind) {
        Version::Second
    } else {
        Version::First
    }
}

/// The token as the version of a text that begins with these tokens has it. Few words ask for the version.
#[tactic(auto, using(crate::proofs::Growing::name_stays))]
fn lexeme_behind<'a>(tokens: &[Token], lexeme: Lexeme<'a>) -> Lexeme<'a>
    ensures { plain_lexeme result ≡ lexeme_in (version_by tokens.now) (plain_lexeme lexeme.entry) }
{
    match lexeme {
        Lexeme::Name(word) => {
            if may_be_later(word.as_bytes()) {
                lexeme_in(version_of(tokens), lexeme)
            } else {
                lexeme
            }
        }
        Lexeme::Number(_) | Lexeme::Fixed(_) => lexeme,
    }
}

impl<'a> Numbering<'a> {
    /// No tokens yet.
    pub fn new(alloc: Global) -> Numbering<'a>
        ensures few { IsFew result }
        ensures numbers { Numbers [] result }
    {
        Numbering {
            names: IndexSet::new(alloc),
            tokens: Vec::new(alloc),
        }
    }

    /// Puts a token at this offset behind the others. A word is a mark where the version of the text reserves it.
    pub fn put(&mut self, lexeme: Lexeme<'a>, offset: usize) -> Result<(), Memory>
        requires room { length self.old.tokens.items < 2 ^ 32 }
        requires few { IsFew self.old }
        ensures few { OnOk result (IsFew self.new) }
        ensures more { OnOk result (length self.new.tokens.items ≡ length self.old.tokens.items + 1) }
        ensures numbers { OnOk result (Adds self.old (record { lexeme = plain_lexeme lexeme.entry; offset = offset }) self.new) }
    {
        let lexeme = lexeme_behind(self.tokens.as_slice(), lexeme);
        let kind = number_lexeme(&mut self.names, lexeme)?;
        self.tokens.push(Token {
            kind,
            offset: offset as u64,
        })?;
        Ok(())
    }

    /// The tokens with their version, in a list without room to spare, and a copy of the names.
    pub fn finish(self, alloc: Global) -> Result<Numbered, Memory>
        ensures version { IfOk result (λ n. n.version ≡ version_by self.entry.tokens.items) }
        ensures tokens { IfOk result (λ n. n.tokens.items ≡ self.entry.tokens.items) }
        ensures names { IfOk result (λ n. n.names.items ≡ plain_names self.entry.names) }
    {
        let names = copy_names(alloc, &self.names)?;
        let mut tokens = self.tokens;
        tokens.shrink_to_fit();
        Ok(Numbered {
            version: version_of(tokens.as_slice()),
            tokens,
            names,
        })
    }
}
