//! The extents of names in tables, with a log of their changes.

ghost use Rattle.std.specs.Prelude.{◌≡◌, map, IfOk, OnOk};
ghost use Rattle.homeo_syntax.specs.LowView.{low_commands, plain_lcommand};
ghost use Rattle.homeo_meaning.specs.LowMeaning.{TempAt, BaseAt, location_of, put};
ghost use Rattle.homeo_size.specs.inner.Store.{entry_sized, with_entry, kept_in, set_entry, back_to, since, raise_entry, raised, kept_sets, kept_all, left_by};
ghost use Rattle.homeo_size.specs.inner.Tables.{sizes_in, store_in};

use crate::extent::{Extent, SINGLE, greater, no_more};
use homeo_meaning::{Window, padded};
use homeo_syntax::{LCommand, Memory, SplitName, Temp};
use std::alloc::Global;

/// An entry of the tables.
#[derive(Clone, Copy)]
pub(crate) enum Entry {
    Temp(Temp),
    Name(SplitName),
}

/// An entry of the tables, and its extent at some time.
#[derive(Clone, Copy)]
pub(crate) struct Kept {
    pub(crate) entry: Entry,
    pub(crate) extent: Extent,
}

/// The extents of the objects, of the temporaries of the text, and of the others, each by its number: elsewhere stands what
/// nothing changed. The log has what each changed entry was before, in the order of the changes.
#[derive(Drop)]
pub(crate) struct Extents {
    pub(crate) objects: Vec<Extent>,
    pub(crate) named: Window<Extent>,
    pub(crate) fresh: Window<Extent>,
    pub(crate) log: Vec<Kept>,
    /// The extent of an object past the last.
    pub(crate) absent: Extent,
}

impl Extents {
    #[tactic(auto, unfolding(crate::specs::inner::Key::definitions))]
    fn entry(&self, entry: Entry) -> Extent
        ensures { result ≡ entry_sized (sizes_in self.now) entry }
    {
        match entry {
            Entry::Temp(t) => self.temp(t),
            Entry::Name(x) => self.name(x),
        }
    }

    #[tactic(auto, unfolding(crate::specs::inner::Key::definitions))]
    pub(crate) fn temp(&self, t: Temp) -> Extent
        ensures { result ≡ sizes_in self.now (TempAt t) }
    {
        match t {
            Temp::Named(name) => self.named.get(name as usize, SINGLE),
            Temp::Fresh(number) => self.fresh.get(number as usize, SINGLE),
        }
    }

    #[tactic(auto, unfolding(crate::specs::inner::Key::definitions, homeo_meaning::specs::Key::definitions))]
    pub(crate) fn name(&self, x: SplitName) -> Extent
        ensures { result ≡ sizes_in self.now (location_of x) }
    {
        match x {
            SplitName::Whole(object) | SplitName::Base(object) => self.object(object),
            SplitName::Delta { .. } => SINGLE,
        }
    }

    #[tactic(auto, unfolding(crate::specs::inner::Key::definitions))]
    fn object(&self, object: u32) -> Extent
        ensures { result ≡ sizes_in self.now (BaseAt object) }
    {
        padded::item_or(self.objects.as_slice(), object as usize, self.absent)
    }

    /// Changes an entry, and leaves the log as it is.
    #[tactic(auto, unfolding(crate::specs::inner::Key::definitions))]
    fn put(&mut self, entry: Entry, extent: Extent) -> Result<(), Memory>
        ensures sizes { OnOk result (sizes_in self.new ≡ with_entry (sizes_in self.old) entry extent) }
        ensures log { self.new.log.items ≡ self.old.log.items }
    {
        match entry {
            Entry::Temp(t) => self.put_temp(t, extent),
            Entry::Name(x) => self.put_name(x, extent),
        }
    }

    fn put_temp(&mut self, t: Temp, extent: Extent) -> Result<(), Memory>
        ensures sizes { OnOk result (sizes_in self.new ≡ put (sizes_in self.old) (TempAt t) extent) }
        ensures log { self.new.log.items ≡ self.old.log.items }
    {
        match t {
            Temp::Named(name) => self.named.put(name as usize, extent, SINGLE),
            Temp::Fresh(number) => self.fresh.put(number as usize, extent, SINGLE),
        }
    }

    #[tactic(auto, unfolding(homeo_meaning::specs::Key::definitions))]
    fn put_name(&mut self, x: SplitName, extent: Extent) -> Result<(), Memory>
        ensures sizes { OnOk result (sizes_in self.new ≡ put (sizes_in self.old) (location_of x) extent) }
        ensures log { self.new.log.items ≡ self.old.log.items }
    {
        match x {
            SplitName::Whole(object) | SplitName::Base(object) => self.put_object(object, extent),
            // (no call's form writes one)
            SplitName::Delta { .. } => Err(Memory),
        }
    }

    fn put_object(&mut self, object: u32, extent: Extent) -> Result<(), Memory>
        ensures sizes { OnOk result (sizes_in self.new ≡ put (sizes_in self.old) (BaseAt object) extent) }
        ensures log { self.new.log.items ≡ self.old.log.items }
    {
        padded::put(&mut self.objects, object as usize, extent, self.absent)
    }

    #[tactic(auto, unfolding(crate::specs::inner::Key::definitions))]
    fn kept(&self, entry: Entry) -> Kept
        ensures { result ≡ kept_in (sizes_in self.now) entry }
    {
        Kept {
            entry,
            extent: self.entry(entry),
        }
    }

    pub(crate) fn set(&mut self, entry: Entry, extent: Extent) -> Result<(), Memory>
        ensures { OnOk result (store_in self.new ≡ set_entry (store_in self.old) entry extent) }
    {
        let kept = self.kept(entry);
        self.log.push(kept)?;
        self.put(entry, extent)
    }

    /// Takes all changes back that came after so many.
    pub(crate) fn take_back(&mut self, start: usize) -> Result<(), Memory>
        ensures { OnOk result (store_in self.new ≡ back_to start (store_in self.old)) }
    {
        while self.log.len() > start {
            match self.log.pop() {
                Some(kept) => self.put(kept.entry, kept.extent)?,
                None => {}
            }
        }
        Ok(())
    }

    /// The entries that changed after so many changes, as they are now.
    fn since(&self, alloc: Global, start: usize) -> Result<Vec<Kept>, Memory>
        ensures { IfOk result (λ changed. changed.items ≡ since start (store_in self.now)) }
    {
        let mut changed = Vec::new(alloc);
        for index in start..self.log.len() {
            let kept = self.kept(self.log[index].entry);
            changed.push(kept)?;
        }
        Ok(changed)
    }

    /// Makes an entry the greater of what it is and of this. Where it stays what it is, nothing is logged.
    #[tactic(auto, unfolding(crate::specs::inner::Key::definitions))]
    fn raise(&mut self, entry: Entry, extent: Extent) -> Result<(), Memory>
        ensures { OnOk result (store_in self.new ≡ raise_entry (store_in self.old) entry extent) }
    {
        let now = self.entry(entry);
        if no_more(extent, now) {
            Ok(())
        } else {
            self.set(entry, greater(extent, now))
        }
    }

    #[tactic(auto, using(crate::proofs::Along::changes))]
    pub(crate) fn raise_all(&mut self, kept: &[Kept]) -> Result<(), Memory>
        ensures { OnOk result (store_in self.new ≡ raised kept.now (store_in self.old)) }
    {
        for k in kept {
            self.raise(k.entry, k.extent)?;
        }
        Ok(())
    }

    /// Keeps, as they are now, the entries that a command may leave less than they were: those that it sets, or more. Of an `if`
    /// they are those of its first branch, so that a chain of many is not gone through at each of its `if`s.
    #[cycle(sets)]
    #[tactic(auto, using(homeo_syntax::proofs::LowViews::low_command_views, crate::proofs::Equations::sets))]
    fn keep_sets(&self, c: &LCommand, kept: &mut Vec<Kept>) -> Result<(), Memory>
        ensures { OnOk result (kept.new.items ≡ kept_sets (sizes_in self.now) (plain_lcommand c.now) kept.old.items) }
    {
        match c {
            LCommand::Skip | LCommand::Print { .. } => Ok(()),
            LCommand::Assign { target, value: _ } => {
                kept.push(self.kept(Entry::Temp(*target)))?;
                Ok(())
            }
            LCommand::Write { target, value: _ } => {
                kept.push(self.kept(Entry::Name(*target)))?;
                Ok(())
            }
            LCommand::Seq { commands } => self.keep_all(commands.as_slice(), kept),
            LCommand::If {
                test: _,
                yes,
                no: _,
            } => self.keep_sets(yes, kept),
        }
    }

    #[cycle(sets)]
    #[tactic(auto, using(crate::proofs::Equations::set_lists, homeo_meaning::proofs::Steps::steps))]
    fn keep_all(&self, cs: &[LCommand], kept: &mut Vec<Kept>) -> Result<(), Memory>
        ensures { OnOk result (kept.new.items ≡
            kept_all (sizes_in self.now) (low_commands (map plain_lcommand cs.now)) kept.old.items) }
    {
        for c in cs {
            self.keep_sets(c, kept)?;
        }
        Ok(())
    }

    /// What a first branch, which began after so many changes, leaves of the entries that it changed, and of those that the
    /// second may leave less than they were: of all others the second leaves the greater.
    #[tactic(auto, unfolding(crate::specs::inner::Key::definitions))]
    pub(crate) fn left(
        &self,
        alloc: Global,
        start: usize,
        second: &LCommand,
    ) -> Result<Vec<Kept>, Memory>
        ensures { IfOk result (λ left. left.items ≡ left_by start (store_in self.now) (plain_lcommand second.now)) }
    {
        let mut left = self.since(alloc, start)?;
        self.keep_sets(second, &mut left)?;
        Ok(left)
    }
}
