//! The kinds of atomic step at a board. Each is made by one seat, and what it tells is a definition of `specs/inner/Steps`.

use crate::rule::View;
use atomic_table::{Join, Play, Split};
use std::marker::{Brand, PhantomData};

/// Names an entry, for contracts alone.
pub trait EntryNaming {
    ghost use Rattle.std.specs.Prelude.{List, ℤ};

    /// The entry.
    ghost entry: { List ℤ };
}

impl EntryNaming for Brand {
    ghost use Rattle.std.specs.Prelude.{[]};

    ghost entry = { [] };
}

/// Adds 1 to the word of an owned line, whose list then has the entry as its last.
pub struct Add<E: EntryNaming> {
    of: PhantomData<E>,
}

impl<E: EntryNaming> Play<u8, View> for Add<E> {
    ghost use Rattle.homeo_notes.specs.inner.Steps.{Adds};

    ghost then = { Adds E.entry };
}

/// Loads a word: what the seat has seen of its own lines is a prefix of their lists.
pub struct Look;

impl Play<u8, View> for Look {
    ghost use Rattle.homeo_notes.specs.inner.Steps.{Looks};

    ghost then = { Looks };
}

/// Loads word 0 and takes in what was told.
pub struct Learn;

impl Play<u8, View> for Learn {
    ghost use Rattle.homeo_notes.specs.inner.Steps.{Learns};

    ghost then = { Learns };
}

/// Names the lines from `first` to below `end`, for contracts alone.
pub trait LinesNaming {
    ghost use Rattle.std.specs.Prelude.{ℕ};

    /// The first of the lines.
    ghost first: { ℕ };

    /// The line behind the last.
    ghost end: { ℕ };
}

impl LinesNaming for Brand {
    ghost first = { 0 };

    ghost end = { 0 };
}

/// Loads word 0 and marks which lines are dealt next.
pub struct Mark<C: LinesNaming> {
    of: PhantomData<C>,
}

impl<C: LinesNaming> Play<u8, View> for Mark<C> {
    ghost use Rattle.homeo_notes.specs.inner.Steps.{Marks};

    ghost then = { Marks C.first C.end };
}

/// Splits off a seat with the marked lines.
pub struct Deal;

impl Split<View> for Deal {
    ghost use Rattle.homeo_notes.specs.inner.Steps.{stays, dealt};

    ghost left = { stays };

    ghost right = { dealt };
}

/// A note, which owns nothing: it is split off one seat and joined to another, which it tells what the first knows.
pub struct Note;

impl Split<View> for Note {
    ghost use Rattle.homeo_notes.specs.inner.Steps.{noted};

    ghost left = { λ v. v };

    ghost right = { noted };
}

impl Join<View> for Note {
    ghost use Rattle.homeo_notes.specs.inner.Steps.{told_by, spent};

    ghost both = { told_by };

    ghost spent = { spent };
}
