//! Numbers behind spaces, where the same come again and again: their texts are kept.

ghost use Rattle.std.specs.Prelude.{◌≡◌, ◌∷◌, ◌++◌, IfOk, OnOk};
ghost use Rattle.std.specs.Fmt.{signed_decimal};

use crate::append::{push_byte, push_bytes, push_wide};
use homeo_syntax::Memory;
use std::alloc::Global;
use std::marker::Model;
use std::mem;

/// How long a text may become before its memory grows.
const ROOM: usize = 24;

/// A number, with its text behind a space.
#[derive(Drop)]
struct SpacedNumber {
    number: i128,
    text: Vec<u8>,
}

impl Model for SpacedNumber {
    ghost use Rattle.std.specs.Prelude.{◌≡◌, ◌∷◌, ℤ};
    ghost use Rattle.std.specs.Fmt.{signed_decimal};

    ghost Value = { ℤ };

    ghost view = { λ s. s.number };

    ghost invariant = { λ s. s.text.items ≡ 32 ∷ signed_decimal s.number };
}

impl SpacedNumber {
    fn of(alloc: Global, number: i128) -> Result<SpacedNumber, Memory>
        ensures { IfOk result (λ s. s ≡ number) }
    {
        let mut text = Vec::with_capacity(alloc, ROOM)?;
        push_byte(&mut text, b' ')?;
        push_wide(&mut text, number)?;
        Ok(SpacedNumber { number, text })
    }

    fn number(&self) -> i128
        ensures { result ≡ self.now }
    {
        self.number
    }

    fn text(&self) -> &[u8]
        ensures { result.now ≡ 32 ∷ signed_decimal self.now }
    {
        self.text.as_slice()
    }
}

/// The two numbers that were pushed last, as the bounds of an even split are at most two.
#[derive(Drop)]
pub(crate) struct LastTwo {
    last: SpacedNumber,
    other: SpacedNumber,
}

impl LastTwo {
    pub(crate) fn new(alloc: Global) -> Result<LastTwo, Memory> {
        Ok(LastTwo {
            last: SpacedNumber::of(alloc, 0)?,
            other: SpacedNumber::of(alloc, 1)?,
        })
    }

    /// Appends a number behind a space.
    pub(crate) fn push(&mut self, out: &mut Vec<u8>, number: i128) -> Result<(), Memory>
        ensures { OnOk result (out.new.items ≡ out.old.items ++ 32 ∷ signed_decimal number) }
    {
        self.turn_to(*out.allocator(), number)?;
        push_bytes(out, self.last.text())
    }

    /// Makes a number the last one.
    fn turn_to(&mut self, alloc: Global, number: i128) -> Result<(), Memory>
        ensures { OnOk result (self.new.last ≡ number) }
    {
        if self.last.number() == number {
            return Ok(());
        }
        mem::swap(&mut self.last, &mut self.other);
        if self.last.number() != number {
            self.last = SpacedNumber::of(alloc, number)?;
        }
        Ok(())
    }
}
