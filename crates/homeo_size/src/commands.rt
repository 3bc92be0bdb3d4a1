//! How large commands are, and the names' extents after them.

ghost use Rattle.std.specs.Prelude.{◌≡◌, map, IfOk, OnOk};
ghost use Rattle.homeo_syntax.specs.LowView.{low_commands, plain_lcommand};
ghost use Rattle.homeo_size.specs.inner.Parts.{empty};
ghost use Rattle.homeo_size.specs.inner.Measuring.{after, after_all, measured, all_measured};
ghost use Rattle.homeo_size.specs.inner.Tables.{store_in};

use crate::extent::written;
use crate::extents::{Entry, Extents};
use crate::measures::{EMPTY, Measure, chosen, followed, valued, writing};
use homeo_syntax::{LCommand, Memory};
use std::alloc::Global;

impl Extents {
    /// Measures a command, and leaves the extents after it.
    #[cycle(commands)]
    #[tactic(auto, using(homeo_syntax::proofs::LowViews::low_command_views, crate::proofs::Equations::stores, crate::proofs::Equations::steps))]
    pub(crate) fn command(
        &mut self,
        alloc: Global,
        c: &LCommand,
        sites: u64,
    ) -> Result<Measure, Memory>
        ensures measure { IfOk result (λ m. m ≡ measured sites (plain_lcommand c.now) (store_in self.old)) }
        ensures store { OnOk result (store_in self.new ≡ after sites (plain_lcommand c.now) (store_in self.old)) }
    {
        match c {
            LCommand::Skip => Ok(EMPTY),
            LCommand::Assign { target, value } => {
                let value = self.expr(value);
                self.set(Entry::Temp(*target), value)?;
                Ok(valued(value))
            }
            LCommand::Write { target, value } => {
                let value = self.expr(value);
                self.set(Entry::Name(*target), written(sites, value))?;
                Ok(writing(sites, value))
            }
            LCommand::Print { value } => Ok(valued(self.expr(value))),
            LCommand::Seq { commands } => self.commands(alloc, commands.as_slice(), sites),
            LCommand::If { test, yes, no } => {
                let test = self.cond(test);
                let start = self.log.len();
                let yes = self.command(alloc, yes, sites)?;
                let left = self.left(alloc, start, no)?;
                self.take_back(start)?;
                let no = self.command(alloc, no, sites)?;
                self.raise_all(left.as_slice())?;
                Ok(chosen(test, yes, no))
            }
        }
    }

    /// Measures commands one after another as a sequence, and leaves the extents after them.
    #[cycle(commands)]
    #[tactic(auto, using(crate::proofs::Equations::lists, homeo_meaning::proofs::Steps::steps))]
    fn commands(&mut self, alloc: Global, cs: &[LCommand], sites: u64) -> Result<Measure, Memory>
        ensures measure { IfOk result (λ m. m ≡
            all_measured sites (low_commands (map plain_lcommand cs.now)) (store_in self.old) empty) }
        ensures store { OnOk result (store_in self.new ≡
            after_all sites (low_commands (map plain_lcommand cs.now)) (store_in self.old)) }
    {
        let mut all = EMPTY;
        for c in cs {
            let one = self.command(alloc, c, sites)?;
            all = followed(all, one);
        }
        Ok(all)
    }
}
