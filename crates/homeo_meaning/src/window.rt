//! Tables that keep the items of a stretch of places.

ghost use Rattle.std.specs.Prelude.{◌≡◌, ℕ, ◌==◌, ◌≤◌, ◌<◌, ◌+◌, [], length, true, false, if◌then◌else◌, OnOk};
ghost use Rattle.homeo_meaning.specs.Windowed.{item_at};
ghost use Rattle.homeo_meaning.specs.inner.Kept.{keeps};

use crate::padded::{item_or, make_first_room};
use homeo_syntax::Memory;
use std::alloc::Global;
use std::marker::Model;

/// A table that has an item at every place, and keeps those of a stretch of places around the first that was put: at all others
/// is the absent one. So it stays small where the places that are put lie together, however far they are from 0.
///
/// The absent item is told at each call, and is to be the same at all.
#[derive(Drop)]
pub struct Window<T> {
    first: usize,
    items: Vec<T>,
}

impl<T> Model for Window<T> {
    ghost use Rattle.homeo_meaning.specs.Windowed.{Windowed};

    ghost Value = { Windowed T };

    ghost view = { λ w. record { first = w.first; items = w.items.items } };
}

impl<T: Copy + Drop> Window<T> {
    /// The absent item is at every place. It takes no memory.
    pub fn new(alloc: Global) -> Window<T>
        ensures { (n : ℕ) (absent : T) → item_at result n absent ≡ absent }
    {
        Window {
            first: 0,
            items: Vec::new(alloc),
        }
    }

    /// Puts the absent item at every place, and keeps the memory.
    pub fn clear(&mut self)
        ensures { (n : ℕ) (absent : T) → item_at self.new n absent ≡ absent }
    {
        self.items.clear();
    }

    /// The item at a place.
    #[inline]
    pub fn get(&self, n: usize, absent: T) -> T
        ensures { result ≡ item_at self.now n absent }
    {
        if n < self.first {
            absent
        } else {
            item_or(self.items.as_slice(), n - self.first, absent)
        }
    }

    /// Puts an item at a place.
    ///
    /// # Errors
    ///
    /// `Memory` when out of memory.
    #[inline]
    pub fn put(&mut self, n: usize, item: T, absent: T) -> Result<(), Memory>
        ensures { OnOk result ((m : ℕ) → item_at self.new m absent ≡ if n == m then item else item_at self.old m absent) }
    {
        if self.keeps(n) {
            self.set(n, item);
            Ok(())
        } else {
            self.put_beyond(n, item, absent)
        }
    }

    #[inline]
    fn keeps(&self, n: usize) -> bool
        ensures { result ≡ keeps self.now n }
    {
        n >= self.first && n - self.first < self.items.len()
    }

    #[inline]
    fn set(&mut self, n: usize, item: T)
        requires { keeps self.old n ≡ true }
        ensures { (m : ℕ) (absent : T) → item_at self.new m absent ≡ if n == m then item else item_at self.old m absent }
    {
        self.items[n - self.first] = item;
    }

    // (apart from `put`, which so stays small enough to stand where it is called)
    #[inline(never)]
    fn put_beyond(&mut self, n: usize, item: T, absent: T) -> Result<(), Memory>
        requires { keeps self.old n ≡ false }
        ensures { OnOk result ((m : ℕ) → item_at self.new m absent ≡ if n == m then item else item_at self.old m absent) }
    {
        self.reach(n, absent)?;
        self.set(n, item);
        Ok(())
    }

    /// Widens the stretch so that it has a place.
    fn reach(&mut self, n: usize, absent: T) -> Result<(), Memory>
        requires { keeps self.old n ≡ false }
        ensures keeps { OnOk result (keeps self.new n ≡ true) }
        ensures same { OnOk result ((m : ℕ) → item_at self.new m absent ≡ item_at self.old m absent) }
    {
        if self.items.is_empty() {
            self.begin(n, absent)
        } else if n < self.first {
            self.reach_down(n, absent)
        } else {
            self.reach_up(n, absent)
        }
    }

    fn begin(&mut self, n: usize, absent: T) -> Result<(), Memory>
        requires { self.old.items ≡ [] }
        ensures keeps { OnOk result (keeps self.new n ≡ true) }
        ensures same { OnOk result ((m : ℕ) → item_at self.new m absent ≡ item_at self.old m absent) }
    {
        make_first_room(&mut self.items)?;
        self.items.push(absent)?;
        self.first = n;
        Ok(())
    }

    // (by as many more as there are, so that places in falling order are not moved each time)
    fn reach_down(&mut self, n: usize, absent: T) -> Result<(), Memory>
        requires { n < self.old.first }
        ensures keeps { OnOk result (keeps self.new n ≡ true) }
        ensures same { OnOk result ((m : ℕ) → item_at self.new m absent ≡ item_at self.old m absent) }
    {
        let count = self.items.len();
        let first = n.saturating_sub(count);
        let room = self.first - first;
        let all = count.checked_add(room).ok_or(Memory)?;
        self.items.resize(all, absent)?;
        self.items.rotate_right(room);
        self.first = first;
        Ok(())
    }

    fn reach_up(&mut self, n: usize, absent: T) -> Result<(), Memory>
        requires { self.old.first + length self.old.items ≤ n }
        ensures keeps { OnOk result (keeps self.new n ≡ true) }
        ensures same { OnOk result ((m : ℕ) → item_at self.new m absent ≡ item_at self.old m absent) }
    {
        self.items.resize(n - self.first, absent)?;
        self.items.push(absent)?;
        Ok(())
    }
}
