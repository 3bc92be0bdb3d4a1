//! The lists that an attempt of a call needs.

ghost use Rattle.std.specs.Prelude.{◌≡◌, [], ◌≤◌, All, length, pos, replicate, IfOk};

use homeo_syntax::{List, Memory, Numbers, Prints};
use std::alloc::Global;
use std::mem;

/// So many zeros.
pub(crate) fn zeros(alloc: Global, count: usize) -> Result<Numbers, Memory>
    ensures { IfOk result (λ z. z.items ≡ replicate count (pos 0)) }
{
    Ok(List::from_vec(vec![in alloc; 0; count]?))
}

/// An empty list with room for so many prints.
pub(crate) fn empty_prints(alloc: Global, count: u64) -> Result<Prints, Memory>
    ensures { IfOk result (λ p. p ≡ record { items = []; spare = count }) }
{
    let mut prints = List::from_vec(Vec::with_capacity(alloc, count as usize)?);
    prints.reserve(count)?;
    Ok(prints)
}

/// So many empty lists, each with room for so many prints.
pub(crate) fn empty_copies(alloc: Global, copies: u32, count: u64) -> Result<List<Prints>, Memory>
    ensures { IfOk result (λ l. l.items ≡ replicate copies (record { items = []; spare = count })) }
{
    let mut lists = Vec::with_capacity(alloc, copies as usize)?;
    for _ in 0..copies {
        lists.push(empty_prints(alloc, count)?)?;
    }
    Ok(List::from_vec(lists))
}

/// Copies prints into an empty list that has room for them.
fn copy_prints(prints: &[i64], copy: &mut Prints)
    requires empty { copy.old.items ≡ [] }
    requires spare { length prints.now ≤ copy.old.spare }
    ensures { copy.new.items ≡ prints.now }
{
    for number in prints {
        let _ = copy.push(*number);
    }
}

/// Copies prints into each of such lists, and gives them back: where there are such lists, in the first of them, whose place their own
/// list takes, since that one may have room to spare. It takes no memory.
pub(crate) fn copy_to_all(alloc: Global, prints: Prints, copies: &mut List<Prints>) -> Prints
    requires { All (λ copy. (copy.items ≡ []) × (length prints.items ≤ copy.spare)) copies.old.items }
    ensures prints { result.items ≡ prints.items }
    ensures count { length copies.new.items ≡ length copies.old.items }
    ensures copied { All (λ copy. copy.items ≡ prints.items) copies.new.items }
{
    let mut lists = mem::replace(copies, List::new(alloc)).into_vec();
    let numbers = prints.as_slice();
    for place in 0..lists.len() {
        copy_prints(numbers, &mut lists[place]);
    }
    let mut kept = prints;
    if !lists.is_empty() {
        kept = mem::replace(&mut lists[0], kept);
    }
    *copies = List::from_vec(lists);
    kept
}
