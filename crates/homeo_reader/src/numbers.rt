//! Numbers and ranges of them.

ghost use Rattle.std.specs.Prelude.{◌≤ℤ◌, pos, IfOk};
ghost use Rattle.homeo_reader.specs.inner.Reading.{Gives, same, number_read};
ghost use Rattle.homeo_reader.specs.inner.Declarations.{signed_read, range_read};

use crate::parser::{Fault, Parser};
use homeo_syntax::{Kind, Mark, Number};

impl<'a> Parser<'a> {
    /// Takes a number.
    pub(crate) fn number(&mut self) -> Result<Number, Fault>
        ensures gives { Gives same result self.new.rest.now (number_read self.old.rest.now) }
        ensures natural { IfOk result (λ n. pos 0 ≤ℤ n.value) }
    {
        match self.rest.split_first() {
            Some((t, rest)) => match t.kind {
                Kind::Number(value) if value >= 0 => {
                    self.rest = rest;
                    Ok(Number {
                        value,
                        offset: t.offset,
                    })
                }
                _ => Err(Fault::Stuck),
            },
            None => Err(Fault::Stuck),
        }
    }

    /// Takes a number with or without a sign.
    #[tactic(auto, using(crate::proofs::DeclarationSteps::signed_reads), unfolding(crate::specs::inner::Declarations::signed_do, crate::specs::inner::Declarations::signed_by))]
    pub(crate) fn signed(&mut self) -> Result<Number, Fault>
        ensures { Gives same result self.new.rest.now (signed_read self.old.rest.now) }
    {
        match self.rest.split_first() {
            Some((t, rest)) => match t.kind {
                Kind::Fixed(Mark::Minus) => {
                    self.rest = rest;
                    let number = self.number()?;
                    Ok(Number {
                        value: -number.value,
                        offset: t.offset,
                    })
                }
                _ => self.number(),
            },
            None => Err(Fault::Stuck),
        }
    }

    /// Takes a range, as its lower and its upper bound.
    #[tactic(auto, using(crate::proofs::DeclarationSteps::range_reads), unfolding(crate::specs::inner::Declarations::range_do))]
    pub(crate) fn range(&mut self) -> Result<(Number, Number), Fault>
        ensures { Gives same result self.new.rest.now (range_read self.old.rest.now) }
    {
        let lo = self.signed()?;
        self.expect(Mark::Dots)?;
        let hi = self.signed()?;
        Ok((lo, hi))
    }
}
