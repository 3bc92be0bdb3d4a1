//! The fold of a split database.

ghost use Rattle.std.specs.Prelude.{◌≡◌, ◌<◌, length, IfOk};
ghost use Rattle.homeo_meaning.specs.LowMeaning.{whole};
ghost use Rattle.homeo_meaning.specs.Serial.{values_of};
ghost use Rattle.homeo_plan.specs.Split.{fold_state};
ghost use Rattle.homeo_split.specs.States.{state_of};
ghost use Rattle.homeo_fold.specs.Folding.{SumsFit, HasNoOtherDeltas, folded, folded_at};

use homeo_meaning::Database;
use homeo_meaning::padded::item_or;
use homeo_split::Split;
use homeo_syntax::{List, Memory};
use std::alloc::Global;

fn fold_object(split: &Split, object: usize) -> i64
    requires object { object < length split.now.base.items }
    requires fits { SumsFit split.now }
    ensures { result ≡ folded_at split.now object }
{
    let mut sum = split.base.as_slice()[object];
    for deltas in split.deltas.as_slice() {
        sum += item_or(deltas.as_slice(), object, 0);
    }
    sum
}

/// The database that a split one folds to (Roy et al., SIGMOD 2015): each object of the base, in their order, with the
/// deltas of all sites added to it, from the first site on. A delta that a site doesn't have is 0.
///
/// The base of an object and each of its sums on the way must be within the range of `i64`. Where no site has a delta of an
/// object that the base doesn't have, the database as a whole is the fold of the split one.
///
/// # Errors
///
/// `Memory` when out of memory.
pub fn fold(alloc: Global, split: &Split) -> Result<Database, Memory>
    requires fits { SumsFit split.now }
    ensures fold { IfOk result (λ d. d.items ≡ folded split.now) }
    ensures state { HasNoOtherDeltas split.now → IfOk result (λ d. whole (values_of d.items) ≡
        fold_state (length split.now.deltas.items) (state_of split.now)) }
{
    let mut database = List::new(alloc);
    for object in 0..split.base.as_slice().len() {
        database.push(fold_object(split, object))?;
    }
    Ok(database)
}
