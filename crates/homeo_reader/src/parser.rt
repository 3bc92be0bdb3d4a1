//! The tokens that are left, and what takes one of them.

ghost use Rattle.std.specs.Prelude.{◌≡◌, [], ◌∷◌, ◌++◌, IfOk, IfErr, OnOk};
ghost use Rattle.homeo_reader.specs.inner.Reading.{Gives, TakesMark, ident_read, mark_read, same};

use homeo_syntax::{Ident, Kind, List, Mark, Memory, Token};
use std::alloc::{AllocError, AllocFailed, Global};

/// Why nothing was read.
#[derive(Clone, Copy, Debug, PartialEq, Eq)]
pub(crate) enum Fault {
    /// There was not enough memory.
    Memory,
    /// No phrase goes on with the next token, which is then still there, or there is none.
    Stuck,
}

impl From<AllocError> for Fault {
    ghost use Rattle.std.specs.Prelude.{◌≡◌};
    ghost use Rattle.homeo_reader.specs.declared.parser.Fault.TheVariants.{Memory};

    ghost from_gives = { λ _ e. e ≡ Memory };

    fn from(_e: AllocError) -> Fault {
        Fault::Memory
    }
}

impl<T: Drop> From<AllocFailed<T>> for Fault {
    ghost use Rattle.std.specs.Prelude.{◌≡◌};
    ghost use Rattle.homeo_reader.specs.declared.parser.Fault.TheVariants.{Memory};

    ghost from_gives = { λ _ e. e ≡ Memory };

    fn from(_e: AllocFailed<T>) -> Fault {
        Fault::Memory
    }
}

impl From<Memory> for Fault {
    ghost use Rattle.std.specs.Prelude.{◌≡◌};
    ghost use Rattle.homeo_reader.specs.declared.parser.Fault.TheVariants as fault;

    ghost from_gives = { λ _ e. e ≡ fault.Memory };

    fn from(_e: Memory) -> Fault {
        Fault::Memory
    }
}

/// The tokens that are left. After a fault the first of them is the one at fault.
#[derive(Drop)]
pub(crate) struct Parser<'a> {
    pub(crate) rest: &'a [Token],
}

impl<'a> Parser<'a> {
    /// Takes this mark.
    pub(crate) fn expect(&mut self, mark: Mark) -> Result<(), Fault>
        ensures { Gives same result self.new.rest.now (mark_read mark self.old.rest.now) }
    {
        match self.rest.split_first() {
            Some((t, rest)) => {
                if t.kind == Kind::Fixed(mark) {
                    self.rest = rest;
                    Ok(())
                } else {
                    Err(Fault::Stuck)
                }
            }
            None => Err(Fault::Stuck),
        }
    }

    /// Takes a name.
    pub(crate) fn name(&mut self) -> Result<Ident, Fault>
        ensures { Gives same result self.new.rest.now (ident_read self.old.rest.now) }
    {
        match self.rest.split_first() {
            Some((t, rest)) => match t.kind {
                Kind::Name(name) => {
                    self.rest = rest;
                    Ok(Ident {
                        name,
                        offset: t.offset,
                    })
                }
                _ => Err(Fault::Stuck),
            },
            None => Err(Fault::Stuck),
        }
    }

    /// Takes this mark, if it comes next.
    pub(crate) fn takes(&mut self, mark: Mark) -> bool
        ensures { TakesMark result mark self.old.rest.now self.new.rest.now }
    {
        match self.rest.split_first() {
            Some((t, rest)) => {
                if t.kind == Kind::Fixed(mark) {
                    self.rest = rest;
                    true
                } else {
                    false
                }
            }
            None => false,
        }
    }
}

/// Appends an item. The first takes room for two, which most lists are.
pub(crate) fn append<T: Drop>(items: &mut Vec<T>, item: T) -> Result<(), Fault>
    ensures items { OnOk result (items.new.items ≡ items.old.items ++ item ∷ []) }
    ensures memory { IfErr result (λ e. e ≡ Fault.Memory) }
{
    if items.is_empty() {
        items.reserve_exact(2)?;
    }
    items.push(item)?;
    Ok(())
}

/// Two items, with room for no more.
pub(crate) fn pair<T: Drop>(alloc: Global, first: T, second: T) -> Result<Vec<T>, Fault>
    ensures ok { IfOk result (λ v. v.items ≡ first ∷ second ∷ []) }
    ensures memory { IfErr result (λ e. e ≡ Fault.Memory) }
{
    let mut items = Vec::new(alloc);
    items.reserve_exact(2)?;
    items.push(first)?;
    items.push(second)?;
    Ok(items)
}

/// One item and then others, as a list that takes no more memory than it needs.
pub(crate) fn list_of<T: Drop>(first: T, mut others: Vec<T>) -> Result<List<T>, Fault>
    ensures ok { IfOk result (λ l. l.items ≡ first ∷ others.items) }
    ensures memory { IfErr result (λ e. e ≡ Fault.Memory) }
{
    others.reserve_exact(1)?;
    others.insert(0, first)?;
    others.shrink_to_fit();
    Ok(List::from_vec(others))
}
