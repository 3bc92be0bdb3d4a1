//! What one party has of a board.

use crate::Naming;
use crate::rule::View;
use atomic_table::Seat;
use std::marker::{Model, PhantomData};

/// What one party has of the board that N names. Contracts see the lists of the lines that it owns, and for each line a list
/// that it has seen.
#[derive(Drop)]
pub struct Holder<N: Naming> {
    pub(crate) seat: Seat<u8, View>,
    pub(crate) of: PhantomData<N>,
}

impl<N: Naming> Model for Holder<N> {
    ghost use Rattle.std.specs.Prelude.{◌≡◌, []};
    ghost use Rattle.homeo_notes.specs.Lines.{Held, IsWithin};
    ghost use Rattle.homeo_notes.specs.Boards.{held};

    ghost Value = { Held };

    ghost view = { λ h. held h.seat.me.0 };

    ghost invariant = { λ h. (h.seat.table_id ≡ N.board) × (h.seat.me.1 ≡ []) × IsWithin N.board.words (held h.seat.me.0) };
}
