//! Tokens as text.

ghost use Rattle.std.specs.Prelude.{◌≡◌, [], ◌++◌, map, get_or, IfOk, OnOk};
ghost use Rattle.homeo_print_workload.specs.inner.Pieces.{kind_of};
ghost use Rattle.homeo_print_workload.specs.Layout.{token_text, mark_sort, sort_of, loose_gap, name_gap, opening_gap, dot_gap, gap, after_minus, after, printed};

use crate::pieces::Piece;
use homeo_print::{push_bytes, push_number};
use homeo_syntax::{Mark, Memory, Text};
use std::alloc::Global;

/// How a token stands beside others.
#[derive(Clone, Copy, Debug, PartialEq, Eq)]
pub(crate) enum Sort {
    /// A reserved word that begins a line.
    Line,
    /// A word or a symbol with a space at each side.
    Word,
    /// A word that parentheses follow.
    Call,
    Name,
    Number,
    Minus,
    /// `(` or `[`
    Opening,
    /// `)` or `]`
    Closing,
    /// `,` or `;`
    Comma,
    /// `..`
    Dots,
    /// `.`
    Dot,
}

/// What stands in front of the next token.
#[derive(Clone, Copy, Debug, PartialEq, Eq)]
pub(crate) enum Before {
    /// Nothing, an opening bracket, `..` or a sign: what the next token follows at once.
    Tight,
    /// `.`
    Dot,
    /// A name or a word that parentheses follow.
    Head,
    /// A number or a closing bracket.
    End,
    /// Anything else.
    Apart,
}

#[tactic(auto, unfolding(crate::specs::Key::definitions))]
fn mark_sort(mark: Mark) -> Sort
    ensures sort { result ≡ mark_sort mark }
{
    match mark {
        Mark::Sites
        | Mark::Object
        | Mark::Relation
        | Mark::Transaction
        | Mark::Client
        | Mark::Schedule
        | Mark::End
        | Mark::Weights => Sort::Line,
        Mark::Read | Mark::Write | Mark::Print | Mark::Count | Mark::Sum => Sort::Call,
        Mark::Minus => Sort::Minus,
        Mark::Open | Mark::OpenBracket => Sort::Opening,
        Mark::Close | Mark::CloseBracket => Sort::Closing,
        Mark::Comma | Mark::Semicolon => Sort::Comma,
        Mark::Dots => Sort::Dots,
        Mark::Dot => Sort::Dot,
        Mark::Assign
        | Mark::LessEqual
        | Mark::Less
        | Mark::Equal
        | Mark::Plus
        | Mark::Star
        | Mark::OpenBrace
        | Mark::CloseBrace
        | Mark::Workload
        | Mark::In
        | Mark::At
        | Mark::If
        | Mark::Then
        | Mark::Else
        | Mark::Skip
        | Mark::Foreach
        | Mark::Of
        | Mark::When
        | Mark::Insert
        | Mark::Into
        | Mark::Delete
        | Mark::Update
        | Mark::Set
        | Mark::Used
        | Mark::And
        | Mark::Not
        | Mark::True
        | Mark::Abort => Sort::Word,
    }
}

#[tactic(auto, unfolding(crate::specs::Key::definitions))]
fn sort_of(piece: Piece) -> Sort
    ensures sort { result ≡ sort_of (kind_of piece) }
{
    match piece {
        Piece::Name(_) => Sort::Name,
        Piece::Number(_) => Sort::Number,
        Piece::Fixed(mark) => mark_sort(mark),
    }
}

#[tactic(auto, unfolding(crate::specs::Key::definitions))]
fn loose_gap(before: Before) -> &'static [u8]
    ensures text { result.now ≡ loose_gap before }
{
    match before {
        Before::Tight => b"",
        Before::Dot | Before::Head | Before::End | Before::Apart => b" ",
    }
}

#[tactic(auto, unfolding(crate::specs::Key::definitions))]
fn name_gap(before: Before) -> &'static [u8]
    ensures text { result.now ≡ name_gap before }
{
    match before {
        Before::Tight | Before::Dot => b"",
        Before::Head | Before::End | Before::Apart => b" ",
    }
}

#[tactic(auto, unfolding(crate::specs::Key::definitions))]
fn opening_gap(before: Before) -> &'static [u8]
    ensures text { result.now ≡ opening_gap before }
{
    match before {
        Before::Tight | Before::Head => b"",
        Before::Dot | Before::End | Before::Apart => b" ",
    }
}

#[tactic(auto, unfolding(crate::specs::Key::definitions))]
fn dot_gap(before: Before) -> &'static [u8]
    ensures text { result.now ≡ dot_gap before }
{
    match before {
        Before::Dot => b" ",
        Before::Tight | Before::Head | Before::End | Before::Apart => b"",
    }
}

/// What stands in front of a token.
#[tactic(auto, unfolding(crate::specs::Key::definitions))]
fn gap(before: Before, sort: Sort) -> &'static [u8]
    ensures text { result.now ≡ gap before sort }
{
    match sort {
        Sort::Line => b"\n",
        Sort::Word | Sort::Call | Sort::Number | Sort::Minus => loose_gap(before),
        Sort::Name => name_gap(before),
        Sort::Opening => opening_gap(before),
        Sort::Closing | Sort::Comma => b"",
        Sort::Dots | Sort::Dot => dot_gap(before),
    }
}

#[tactic(auto, unfolding(crate::specs::Key::definitions))]
fn after_minus(before: Before) -> Before
    ensures state { result ≡ after_minus before }
{
    match before {
        Before::Head | Before::End => Before::Apart,
        Before::Tight | Before::Dot | Before::Apart => Before::Tight,
    }
}

/// What a token leaves for the next one.
#[tactic(auto, unfolding(crate::specs::Key::definitions))]
fn after(before: Before, sort: Sort) -> Before
    ensures state { result ≡ after before sort }
{
    match sort {
        Sort::Line | Sort::Word | Sort::Comma => Before::Apart,
        Sort::Call | Sort::Name => Before::Head,
        Sort::Number | Sort::Closing => Before::End,
        Sort::Minus => after_minus(before),
        Sort::Opening | Sort::Dots => Before::Tight,
        Sort::Dot => Before::Dot,
    }
}

fn name_text(names: &[Text], index: u32) -> &[u8]
    ensures text { result.now ≡ get_or names.now index [] }
{
    match names.get(index as usize) {
        Some(name) => name.as_str().as_bytes(),
        None => b"",
    }
}

/// Puts a token behind a text.
#[tactic(auto, unfolding(crate::specs::Key::definitions))]
fn push_token(text: &mut Vec<u8>, names: &[Text], piece: Piece) -> Result<(), Memory>
    ensures pushed { OnOk result (text.new.items ≡ text.old.items ++ token_text names.now (kind_of piece)) }
{
    match piece {
        Piece::Name(index) => push_bytes(text, name_text(names, index)),
        Piece::Number(value) => push_number(text, value),
        Piece::Fixed(mark) => push_bytes(text, mark.text()),
    }
}

/// The text of tokens, with these names.
pub(crate) fn text_of(alloc: Global, names: &[Text], pieces: &[Piece]) -> Result<Vec<u8>, Memory>
    ensures text { IfOk result (λ text. text.items ≡ printed names.now (map kind_of pieces.now)) }
{
    let mut text = Vec::new(alloc);
    let mut before = Before::Tight;
    for piece in pieces {
        let sort = sort_of(*piece);
        push_bytes(&mut text, gap(before, sort))?;
        push_token(&mut text, names, *piece)?;
        before = after(before, sort);
    }
    push_bytes(&mut text, b"\n")?;
    Ok(text)
}
