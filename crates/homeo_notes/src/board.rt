//! The board, and what its holders do at it. No call here takes memory or waits.

ghost use Rattle.std.specs.Prelude.{◌≡◌, ℕ, ◌<◌, ◌≤◌, ◌^◌, ◌++◌, ◌∷◌, [], length};
ghost use mathlib.Core.List.{IsPrefix};
ghost use Rattle.homeo_notes.specs.Lines.{IsOwner, HasSeen, TellsOf, list_at, seen_at, with_list, owner_of_all, after_telling, without_lines, only_lines};
ghost use Rattle.homeo_notes.specs.inner.Steps.{marked};

use crate::rule::{Law, View};
use crate::steps::{Add, Deal, EntryNaming, Learn, LinesNaming, Look, Mark, Note};
use crate::{Blank, Holder, Naming};
use atomic_table::{Seat, Table};
use std::alloc::Global;
use std::marker::{Brand, PhantomData};

/// The board that N names.
#[derive(Drop)]
pub struct Board<N: Naming> {
    table: Table<u8, View, usize, Law, Global>,
    of: PhantomData<N>,
    ghost named: { table.shared.table_id ≡ N.board },
    ghost lines: { table.shared.key ≡ N.board.words },
    ghost some: { 0 < table.shared.table_id.words },
}

impl<N: Naming> Board<N> {
    /// The blank board under its name, which is N, and a holder that owns every line and has seen nothing.
    pub fn begin(blank: Blank) -> (Board<N>, Holder<N>)
        requires named { blank ≡ N.board }
        ensures all { result.1 ≡ owner_of_all N.board.words }
    {
        let Blank { table, seat } = blank;
        (
            Board {
                table,
                of: PhantomData,
            },
            Holder {
                seat,
                of: PhantomData,
            },
        )
    }

    /// Moves the lines from `first` to below `end`, one at least, to a new holder. `from` owns them. The new holder has seen
    /// what `from` has seen.
    pub fn deal(&self, from: &mut Holder<N>, first: u32, end: u32) -> Holder<N>
        requires range { first < end }
        requires owner { (i : ℕ) → first ≤ i → i < end → IsOwner from.old i }
        ensures from { from.new ≡ without_lines first end from.old }
        ensures new { result ≡ only_lines first end from.old }
    {
        self.mark::<Brand>(&mut from.seat, first, end);
        let seat = self.table.shared.split_seat::<Deal>(&mut from.seat);
        Holder {
            seat,
            of: PhantomData,
        }
    }

    /// Appends one entry, `head` followed by `body`, to the list of the line. The holder owns the line, and the list is shorter
    /// than 2^63.
    pub fn extend(&self, holder: &mut Holder<N>, line: u32, head: &[i64], body: &[i64])
        requires owner { IsOwner holder.old line }
        requires room { length (list_at holder.old line) < 2 ^ 63 }
        ensures appended { holder.new ≡ with_list holder.old line (list_at holder.old line ++ (head.now ++ body.now) ∷ []) }
    {
        self.add::<Brand>(holder, line, head, body)
    }

    /// Lets `to` have seen, of each line, the longest of what it had seen, what `from` had seen and what `from` owns. The
    /// others of these lists are prefixes of it.
    pub fn tell(&self, from: &mut Holder<N>, to: &mut Holder<N>)
        ensures from { from.new ≡ from.old }
        ensures to { to.new ≡ after_telling from.old to.old }
        ensures prefixes { (i : ℕ) → TellsOf from.old to.old i }
    {
        // A split and a join tell nothing. So a look shows that what `from` has seen begins what it owns, and `to` takes in
        // what the note told by a load of its own.
        self.table.shared.load::<Look>(&mut from.seat, 0);
        let note = self.table.shared.split_seat::<Note>(&mut from.seat);
        self.table.shared.join_seat::<Note>(&mut to.seat, note);
        self.table.shared.load::<Learn>(&mut to.seat, 0);
    }

    /// Shows that what the holder has seen of the line is a prefix of the list that it owns there. The holder owns the line.
    pub fn look(&self, holder: &mut Holder<N>, line: u32)
        requires owner { IsOwner holder.old line }
        ensures same { holder.new ≡ holder.old }
        ensures prefix { IsPrefix (seen_at holder.old line) (list_at holder.old line) }
    {
        self.table
            .shared
            .load::<Look>(&mut holder.seat, line as usize);
    }

    /// Shows that the list of `one`, which `left` owns, and that of `other`, which `right` owns, are equal, where each of the
    /// two has seen at least its own list on the other's line. Each tells the other, and looks at its own line.
    pub fn meet(&self, left: &mut Holder<N>, one: u32, right: &mut Holder<N>, other: u32)
        requires owners { IsOwner left.old one × IsOwner right.old other }
        requires left { HasSeen left.old other (list_at left.old one) }
        requires right { HasSeen right.old one (list_at right.old other) }
        ensures equal { list_at left.old one ≡ list_at right.old other }
        ensures left { left.new ≡ after_telling (after_telling left.old right.old) left.old }
        ensures right { right.new ≡ after_telling left.old right.old }
        ensures left_seen { (i : ℕ) → HasSeen left.new i (seen_at left.old i) }
        ensures right_seen { (i : ℕ) → HasSeen right.new i (seen_at right.old i) }
    {
        self.tell(left, right);
        self.tell(right, left);
        self.look(left, one);
        self.look(right, other);
    }

    // Appends the entry that E names: a step can't see the arguments of the call that makes it.
    fn add<E: EntryNaming>(&self, holder: &mut Holder<N>, line: u32, head: &[i64], body: &[i64])
        requires owner { IsOwner holder.old line }
        requires room { length (list_at holder.old line) < 2 ^ 63 }
        requires entry { E.entry ≡ head.now ++ body.now }
        ensures { holder.new ≡ with_list holder.old line (list_at holder.old line ++ (head.now ++ body.now) ∷ []) }
    {
        self.table
            .shared
            .fetch_add::<Add<E>>(&mut holder.seat, line as usize, 1);
    }

    // Marks the lines that C names, from `first` to below `end`, as those that are dealt next.
    fn mark<C: LinesNaming>(&self, seat: &mut Seat<u8, View>, first: u32, end: u32)
        requires table { seat.old.table_id ≡ N.board }
        requires range { (C.first ≡ first) × (C.end ≡ end) }
        ensures same { (seat.new.table_id ≡ seat.old.table_id) × (seat.new.id ≡ seat.old.id) × (seat.new.me.1 ≡ seat.old.me.1) }
        ensures view { seat.new.me.0 ≡ marked first end seat.old.me.0 }
    {
        self.table.shared.load::<Mark<C>>(seat, 0);
    }
}
