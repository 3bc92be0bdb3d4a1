//! Two lists that go together: each owner has seen at least its own on the other's line.

ghost use Rattle.std.specs.Prelude.{◌≡◌, ℕ, ◌<◌, ◌^◌, ◌++◌, ◌∷◌, [], length};
ghost use Rattle.homeo_notes.specs.Lines.{IsOwner, HasSeen, list_at};
ghost use Rattle.homeo_cluster.specs.inner.Grows.{Rose, Grew};

use homeo_notes::{Board, Holder, Naming};

/// The two lists are equal.
pub(crate) fn meet_pair<N: Naming>(
    board: &Board<N>,
    left: &mut Holder<N>,
    one: u32,
    right: &mut Holder<N>,
    other: u32,
)
    requires owners { IsOwner left.old one × IsOwner right.old other }
    requires left { HasSeen left.old other (list_at left.old one) }
    requires right { HasSeen right.old one (list_at right.old other) }
    ensures equal { list_at left.old one ≡ list_at right.old other }
    ensures left { Rose left.old left.new }
    ensures right { Rose right.old right.new }
{
    board.meet(left, one, right, other);
}

/// `to` has then seen at least what `from` owns.
pub(crate) fn tell_on<N: Naming>(board: &Board<N>, from: &mut Holder<N>, to: &mut Holder<N>)
    ensures from { from.new ≡ from.old }
    ensures rose { Rose to.old to.new }
    ensures told { (i : ℕ) → HasSeen to.new i (list_at from.old i) }
{
    board.tell(from, to);
}

/// Both lists get one entry more.
pub(crate) fn extend_pair<N: Naming>(
    board: &Board<N>,
    left: &mut Holder<N>,
    one: u32,
    right: &mut Holder<N>,
    other: u32,
    head: &[i64],
    body: &[i64],
)
    requires owners { IsOwner left.old one × IsOwner right.old other }
    requires left { HasSeen left.old other (list_at left.old one) }
    requires right { HasSeen right.old one (list_at right.old other) }
    requires room { length (list_at right.old other) < 2 ^ 63 }
    ensures equal { list_at left.old one ≡ list_at right.old other }
    ensures left { Grew left.old left.new one (head.now ++ body.now) }
    ensures right { Grew right.old right.new other (head.now ++ body.now) }
    ensures left_seen { HasSeen left.new other (list_at left.new one) }
    ensures right_seen { HasSeen right.new one (list_at right.new other) }
{
    meet_pair(board, left, one, right, other);
    board.extend(left, one, head, body);
    board.extend(right, other, head, body);
    tell_on(board, left, right);
    tell_on(board, right, left);
}

/// The list of `one` gets the entry that the list of `other` is longer by.
pub(crate) fn follow_pair<N: Naming>(
    board: &Board<N>,
    left: &mut Holder<N>,
    one: u32,
    right: &mut Holder<N>,
    other: u32,
    head: &[i64],
    body: &[i64],
)
    requires owners { IsOwner left.old one × IsOwner right.old other }
    requires ahead { list_at right.old other ≡ list_at left.old one ++ (head.now ++ body.now) ∷ [] }
    requires room { length (list_at left.old one) < 2 ^ 63 }
    ensures left { Grew left.old left.new one (head.now ++ body.now) }
    ensures right { Rose right.old right.new }
    ensures equal { list_at left.new one ≡ list_at right.new other }
    ensures left_seen { HasSeen left.new other (list_at left.new one) }
    ensures right_seen { HasSeen right.new one (list_at right.new other) }
{
    board.extend(left, one, head, body);
    tell_on(board, left, right);
    tell_on(board, right, left);
}
