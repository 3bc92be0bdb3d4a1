//! The tokens that a text is made of.

ghost use Rattle.std.specs.Prelude.{◌≡◌, [], ◌∷◌, ◌++◌, map, OnOk};
ghost use Rattle.homeo_print_workload.specs.TokensOf.{name_of, mark_of, value_of};
ghost use Rattle.homeo_print_workload.specs.inner.Pieces.{kind_of};

use homeo_syntax::{Ident, Mark, Memory};
use std::alloc::Global;
use std::marker::Model;

/// A token to be printed: a name by its index among the names, a number without a sign, or a mark.
#[derive(Clone, Copy, Debug, PartialEq, Eq)]
pub(crate) enum Piece {
    Name(u32),
    Number(u64),
    Fixed(Mark),
}

/// Tokens, to which others are put.
#[derive(Drop)]
pub(crate) struct Pieces {
    pieces: Vec<Piece>,
}

impl Model for Pieces {
    ghost use Rattle.std.specs.Prelude.{List, map};
    ghost use Rattle.homeo_syntax.specs.declared.token.Kind.{Kind};
    ghost use Rattle.homeo_print_workload.specs.inner.Pieces.{kind_of};

    ghost Value = { List Kind };

    ghost view = { λ p. map kind_of p.pieces.items };
}

impl Pieces {
    /// Makes an empty list of tokens, and takes no memory.
    pub(crate) fn new(alloc: Global) -> Pieces
        ensures empty { result ≡ [] }
    {
        Pieces {
            pieces: Vec::new(alloc),
        }
    }

    /// Lends the tokens.
    pub(crate) fn as_slice(&self) -> &[Piece]
        ensures tokens { map kind_of result.now ≡ self.now }
    {
        self.pieces.as_slice()
    }

    #[tactic(auto, unfolding(crate::specs::Key::definitions))]
    fn push(&mut self, piece: Piece) -> Result<(), Memory>
        ensures pushed { OnOk result (self.new ≡ self.old ++ kind_of piece ∷ []) }
    {
        self.pieces.push(piece)?;
        Ok(())
    }

    /// Puts a mark behind the tokens.
    #[tactic(auto, unfolding(crate::specs::Key::definitions))]
    pub(crate) fn mark(&mut self, mark: Mark) -> Result<(), Memory>
        ensures pushed { OnOk result (self.new ≡ self.old ++ mark_of mark) }
    {
        self.push(Piece::Fixed(mark))
    }

    /// Puts a name behind the tokens.
    #[tactic(auto, unfolding(crate::specs::Key::definitions))]
    pub(crate) fn name(&mut self, name: Ident) -> Result<(), Memory>
        ensures pushed { OnOk result (self.new ≡ self.old ++ name_of name) }
    {
        self.push(Piece::Name(name.name))
    }

    /// Puts a number behind the tokens, and its sign in front of it where it is negative.
    #[tactic(auto, unfolding(crate::specs::Key::definitions))]
    pub(crate) fn value(&mut self, value: i64) -> Result<(), Memory>
        ensures pushed { OnOk result (self.new ≡ self.old ++ value_of value) }
    {
        if value < 0 {
            self.mark(Mark::Minus)?;
            self.push(Piece::Number(value.unsigned_abs()))
        } else {
            self.push(Piece::Number(value.unsigned_abs()))
        }
    }
}
