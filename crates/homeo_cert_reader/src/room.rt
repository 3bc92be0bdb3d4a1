//! Lists with room for what is said to come.

ghost use Rattle.std.specs.Prelude.{◌≡◌, [], IfOk};

use homeo_syntax::{List, Memory};
use std::alloc::Global;

/// The most items for which room is made before they are read, so that a count alone takes little memory.
const MOST_ROOM: u64 = 1024;

/// An empty list with room for so many items, or for 1,024 of more.
pub(crate) fn list_with_room<T>(alloc: Global, count: u64) -> Result<List<T>, Memory>
    ensures { IfOk result (λ l. l ≡ record { items = []; spare = 0 }) }
{
    let room = count.min(MOST_ROOM) as usize;
    Ok(List::from_vec(Vec::with_capacity(alloc, room)?))
}
