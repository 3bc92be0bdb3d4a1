//! The bounds of slacks that are split evenly. The same slacks come again and again, so the texts of two are kept.
#![tactic(auto, using(crate::proofs::TreatySteps::treaty_steps))]

ghost use Rattle.std.specs.Prelude.{◌≡◌, ◌≤ℤ◌, ◌++◌, pos, replicate, IsTrue, IfOk, OnOk};
ghost use Rattle.homeo_meaning.specs.Small.{IsSmall};
ghost use Rattle.homeo_plan.specs.Config.{split};
ghost use Rattle.homeo_plan.specs.Limit.{form_limit};
ghost use Rattle.homeo_print.specs.Names.{numbers_text};

use crate::append::push_bytes;
use crate::spaced::LastTwo;
use homeo_config::even_bound;
use homeo_syntax::Memory;
use std::alloc::Global;
use std::marker::Model;
use std::mem;

/// Appends the bounds of so many sites among which a slack is split evenly, each behind a space.
fn push_even_bounds(
    out: &mut Vec<u8>,
    last: &mut LastTwo,
    slack: i128,
    sites: u32,
) -> Result<(), Memory>
    requires not_negative { pos 0 ≤ℤ slack }
    requires small { IsSmall form_limit slack }
    ensures { OnOk result (out.new.items ≡ out.old.items ++ numbers_text (split (replicate sites 1) slack)) }
{
    for site in 0..sites {
        last.push(out, even_bound(slack, sites, site))?;
    }
    Ok(())
}

/// A slack that is split among so many sites, with the text of their bounds.
#[derive(Drop)]
struct EvenSplit {
    slack: i128,
    sites: u32,
    text: Vec<u8>,
}

impl Model for EvenSplit {
    ghost use Rattle.std.specs.Prelude.{◌≡◌, ℕ, List, replicate};
    ghost use Rattle.homeo_plan.specs.Config.{split};
    ghost use Rattle.homeo_print.specs.Names.{numbers_text};

    ghost Value = { List ℕ };

    ghost view = { λ s. s.text.items };

    ghost invariant = { λ s. s.text.items ≡ numbers_text (split (replicate s.sites 1) s.slack) };
}

impl EvenSplit {
    fn of(
        alloc: Global,
        numbers: &mut LastTwo,
        slack: i128,
        sites: u32,
    ) -> Result<EvenSplit, Memory>
        requires not_negative { pos 0 ≤ℤ slack }
        requires small { IsSmall form_limit slack }
        ensures { IfOk result (λ s. s ≡ numbers_text (split (replicate sites 1) slack)) }
    {
        let mut text = Vec::new(alloc);
        push_even_bounds(&mut text, numbers, slack, sites)?;
        Ok(EvenSplit { slack, sites, text })
    }

    fn text(&self) -> &[u8]
        ensures { result.now ≡ self.now }
    {
        self.text.as_slice()
    }

    fn is_of(&self, slack: i128, sites: u32) -> bool
        ensures { IsTrue result → self.now ≡ numbers_text (split (replicate sites 1) slack) }
    {
        self.slack == slack && self.sites == sites
    }
}

/// The two slacks that were split last: a call that moves many objects by one number has two for all of them.
#[derive(Drop)]
pub(crate) struct EvenSplits {
    numbers: LastTwo,
    last: EvenSplit,
    other: EvenSplit,
}

impl EvenSplits {
    pub(crate) fn new(alloc: Global) -> Result<EvenSplits, Memory> {
        let mut numbers = LastTwo::new(alloc)?;
        let last = EvenSplit::of(alloc, &mut numbers, 0, 0)?;
        let other = EvenSplit::of(alloc, &mut numbers, 0, 0)?;
        Ok(EvenSplits {
            numbers,
            last,
            other,
        })
    }

    /// Appends the bounds of so many sites among which a slack is split evenly, as `push_even_bounds` does.
    pub(crate) fn push(&mut self, out: &mut Vec<u8>, slack: i128, sites: u32) -> Result<(), Memory>
        requires not_negative { pos 0 ≤ℤ slack }
        requires small { IsSmall form_limit slack }
        ensures { OnOk result (out.new.items ≡ out.old.items ++ numbers_text (split (replicate sites 1) slack)) }
    {
        self.turn_to(*out.allocator(), slack, sites)?;
        push_bytes(out, self.last.text())
    }

    /// Makes a slack the last one.
    fn turn_to(&mut self, alloc: Global, slack: i128, sites: u32) -> Result<(), Memory>
        requires not_negative { pos 0 ≤ℤ slack }
        requires small { IsSmall form_limit slack }
        ensures { OnOk result (self.new.last ≡ numbers_text (split (replicate sites 1) slack)) }
    {
        if self.last.is_of(slack, sites) {
            return Ok(());
        }
        mem::swap(&mut self.last, &mut self.other);
        if !self.last.is_of(slack, sites) {
            self.last = EvenSplit::of(alloc, &mut self.numbers, slack, sites)?;
        }
        Ok(())
    }
}
