//! A board before it has its name, and what names it.

ghost use Rattle.std.specs.Prelude.{◌≡◌, ◌<◌, replicate, IfOk};
ghost use Rattle.atomic_table.specs.Seated.{TableId};

use crate::rule::{Law, View};
use atomic_table::{Seat, Table};
use std::alloc::{AllocError, Global};
use std::marker::{Brand, Model};

/// Want of memory.
#[derive(Clone, Copy, Debug, PartialEq, Eq)]
pub struct Memory;

/// Names one board, for contracts alone. A function over `N: Naming` is called with std's `Brand` for N, and the caller's
/// proof picks the board.
pub trait Naming {
    ghost use Rattle.atomic_table.specs.Seated.{TableId};

    /// The board that it names.
    ghost board: { TableId };
}

impl Naming for Brand {
    ghost use Rattle.std.specs.Prelude.{[]};

    ghost board = { record { words = 0; slots = 0; views_name = 0; atom = 0; block = 0; offset = 0; slot_names = [] } };
}

/// A board that has no name yet, whose lists are all empty. Contracts see which board it is; the `words` of that are the
/// number of its lines, 1 or more.
#[derive(Drop)]
pub struct Blank {
    pub(crate) table: Table<u8, View, usize, Law, Global>,
    pub(crate) seat: Seat<u8, View>,
}

impl Model for Blank {
    ghost use Rattle.atomic_table.specs.Seated.{TableId};
    ghost use Rattle.homeo_notes.specs.Boards.{IsUnused};

    ghost Value = { TableId };

    ghost view = { λ b. b.table.shared.table_id };

    ghost invariant = { λ b. IsUnused b.table.shared.table_id b.table.shared.key b.seat.table_id b.seat.me };
}

impl Blank {
    /// A board of that many lines, 1 or more, numbered from 0.
    ///
    /// # Errors
    ///
    /// Want of memory for a word a line, and for the copy of it that it is made from.
    pub fn new(alloc: Global, lines: u32) -> Result<Blank, Memory>
        requires some { 0 < lines }
        ensures lines { IfOk result (λ b. b.words ≡ lines) }
    {
        let count = lines as usize;
        let Ok(words) = zeros(alloc, count) else {
            return Err(Memory);
        };
        match Table::of_words(alloc, words.as_slice(), &count) {
            Ok((table, seat)) => Ok(Blank { table, seat }),
            Err(_) => Err(Memory),
        }
    }
}

fn zeros(alloc: Global, count: usize) -> Result<Vec<u64>, AllocError>
    ensures { IfOk result (λ v. v.items ≡ replicate count 0) }
{
    let mut words = Vec::new(alloc);
    for _i in 0..count {
        words.push(0)?;
    }
    Ok(words)
}
