//! The lines behind a text.

ghost use Rattle.std.specs.Prelude.{◌≡◌, ◌<◌, ◌≤◌, ◌+◌, ◌++◌, [], ℕ, List, true, false, length, OnOk};
ghost use Rattle.homeo_syntax.specs.declared.workload.Workload.{Workload};
ghost use Rattle.homeo_process.specs.Taking.{line_limit};
ghost use Rattle.homeo_process.specs.inner.Lines.{no_lines, Keeps, IsAlong, Gains};
ghost use Rattle.homeo_process.specs.inner.Shells.{Took};

use crate::shell::Shell;
use homeo_syntax::Memory;
use memchr::memchr;
use std::alloc::Global;
use std::marker::Model;

/// The most bytes of a line.
const LINE_LIMIT: usize = 16_777_216;

/// What is kept of the lines behind a text: the shell, the bytes of the line that hasn't ended, and whether that has too many, so
/// that none is kept.
#[derive(Drop)]
pub(crate) struct Lines {
    shell: Shell,
    rest: Vec<u8>,
    skips: bool,
}

impl Model for Lines {
    ghost use Rattle.std.specs.Coded.{codes};
    ghost use Rattle.homeo_syntax.specs.contracts.workload.Workload as workload;
    ghost use Rattle.homeo_process.specs.inner.Lines.{LinesValue};

    ghost Value = { LinesValue };

    ghost coded = { Prim.hlevel (codes, workload.the_row.coded) };

    ghost view = { λ l. record { node = l.shell; rest = l.rest.items; skips = l.skips } };
}

impl Lines {
    /// Before any byte.
    pub(crate) fn begin(alloc: Global, shell: Shell) -> Lines
        ensures { result ≡ no_lines shell }
    {
        Lines {
            shell,
            rest: Vec::new(alloc),
            skips: false,
        }
    }

    /// Takes bytes, and appends what the lines give that end among them.
    ///
    /// # Errors
    ///
    /// `Memory` when out of memory. The lines are to be taken no more.
    pub(crate) fn take(
        &mut self,
        alloc: Global,
        piece: &[u8],
        answers: &mut Vec<u8>,
    ) -> Result<(), Memory>
        ensures { (work : Workload) (bytes given : List ℕ) → IsAlong work bytes given self.old → OnOk result
            (Gains answers.old.items answers.new.items (λ more. IsAlong work (bytes ++ piece.now) (given ++ more) self.new)) }
    {
        let mut left = piece;
        while let Some(end) = memchr(b'\n', left) {
            let (line, more) = left.split_at(end);
            self.end_line(alloc, line, answers)?;
            left = &more[1..];
        }
        self.keep(left)
    }

    /// Keeps the bytes of a line that hasn't ended, unless there are too many.
    fn keep(&mut self, part: &[u8]) -> Result<(), Memory>
        ensures node { self.new.node ≡ self.old.node }
        ensures keeps { (line : List ℕ) → Keeps self.old line → OnOk result (Keeps self.new (line ++ part.now)) }
    {
        if self.is_long(part) {
            self.skips = true;
            self.rest.clear();
            return Ok(());
        }
        Ok(self.rest.extend_from_slice(part)?)
    }

    /// Takes the line that ends with these bytes, and keeps none of the next.
    fn end_line(&mut self, alloc: Global, end: &[u8], answers: &mut Vec<u8>) -> Result<(), Memory>
        ensures took { (line : List ℕ) → Keeps self.old line → OnOk result
            (Took self.old.node (line ++ end.now) self.new.node answers.old.items answers.new.items) }
        ensures keeps { OnOk result (Keeps self.new []) }
    {
        if self.is_long(end) {
            self.shell.refuse_long(alloc, answers)?;
        } else if self.rest.is_empty() {
            self.shell.take(alloc, end, answers)?;
        } else {
            self.rest.extend_from_slice(end)?;
            self.shell.take(alloc, &self.rest, answers)?;
        }
        self.rest.clear();
        self.skips = false;
        Ok(())
    }

    /// Whether the line has too many bytes with these more.
    fn is_long(&self, part: &[u8]) -> bool
        ensures long { (line : List ℕ) → Keeps self.now line → result ≡ true → line_limit < length (line ++ part.now) }
        ensures fits { result ≡ false → (self.now.skips ≡ false) × (length self.now.rest + length part.now ≤ line_limit) }
    {
        self.skips || self.rest.len() + part.len() > LINE_LIMIT
    }
}
