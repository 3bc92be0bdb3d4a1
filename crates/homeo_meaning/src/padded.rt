//! Tables that have an item at every place: past their end it is the absent one.

ghost use Rattle.std.specs.Prelude.{◌≡◌, ℕ, ◌==◌, ◌≤◌, length, if◌then◌else◌, slice_index_or, OnOk};

use homeo_syntax::Memory;

/// The item at a place.
pub fn item_or<T: Copy>(items: &[T], n: usize, absent: T) -> T
    ensures { result ≡ slice_index_or items.now n absent }
{
    if n < items.len() { items[n] } else { absent }
}

/// For how many items a table has room that gets its first.
const FIRST_ROOM: usize = 32;

/// Makes room for the first items of a table, so that it does not grow at each of them.
pub(crate) fn make_first_room<T>(items: &mut Vec<T>) -> Result<(), Memory>
    ensures { items.new.items ≡ items.old.items }
{
    if items.is_empty() {
        items.reserve(FIRST_ROOM)?;
    }
    Ok(())
}

/// Puts an item at a place, with absent ones below it where the table was shorter.
///
/// # Errors
///
/// `Memory` when out of memory, and then some absent items may stand behind those that were there.
#[inline]
pub fn put<T: Copy + Drop>(items: &mut Vec<T>, n: usize, item: T, absent: T) -> Result<(), Memory>
    ensures { OnOk result ((m : ℕ) → slice_index_or items.new.items m absent ≡
        if n == m then item else slice_index_or items.old.items m absent) }
{
    if n < items.len() {
        items[n] = item;
        Ok(())
    } else {
        put_behind(items, n, item, absent)
    }
}

// (apart from `put`, which so stays small enough to stand where it is called)
#[inline(never)]
fn put_behind<T: Copy + Drop>(
    items: &mut Vec<T>,
    n: usize,
    item: T,
    absent: T,
) -> Result<(), Memory>
    requires { length items.old.items ≤ n }
    ensures { OnOk result ((m : ℕ) → slice_index_or items.new.items m absent ≡
        if n == m then item else slice_index_or items.old.items m absent) }
{
    make_first_room(items)?;
    items.resize(n, absent)?;
    items.push(item)?;
    Ok(())
}
