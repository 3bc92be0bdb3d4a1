//! Two holders who extend, tell, look and meet.

ghost use Rattle.std.specs.Prelude.{◌≡◌, ◌∷◌, [], pos};
ghost use Rattle.homeo_notes.specs.Lines.{list_at};

use homeo_notes::{Blank, Board, Holder, Naming};
use std::marker::Brand;

fn is_shared<T: Sync>(_shared: &T) {}

fn is_sent<T: Send>(_sent: &T) {}

// Threads may share a board, and a holder may go over to another thread.
fn crosses_threads<N: Naming + Send + Sync>(board: &Board<N>, holder: &Holder<N>) {
    is_shared(board);
    is_sent(holder);
}

// Of three lines, `left` has line 0 and `right` line 1. Both lists get the entry 1, 2, 3.
fn agree<N: Naming + Send + Sync>(blank: Blank) -> (Holder<N>, Holder<N>)
    requires named { blank ≡ N.board }
    requires lines { blank.words ≡ 3 }
    ensures left { list_at result.0 0 ≡ (pos 1 ∷ pos 2 ∷ pos 3 ∷ []) ∷ [] }
    ensures right { list_at result.1 1 ≡ list_at result.0 0 }
{
    let (board, mut rest) = Board::<N>::begin(blank);
    crosses_threads(&board, &rest);
    let mut left = board.deal(&mut rest, 0, 1);
    let mut right = board.deal(&mut rest, 1, 2);
    board.extend(&mut left, 0, &[1], &[2, 3]);
    board.extend(&mut right, 1, &[1, 2], &[3]);
    board.tell(&mut left, &mut right);
    board.tell(&mut right, &mut left);
    board.look(&mut left, 0);
    board.meet(&mut left, 0, &mut right, 1);
    (left, right)
}

// No holder of a board leaves the function in which N names it.
fn agree_within<N: Naming + Send + Sync>(blank: Blank)
    requires named { blank ≡ N.board }
    requires lines { blank.words ≡ 3 }
{
    let (_left, _right) = agree::<N>(blank);
}

#[test]
fn two_holders_agree(rt: HostRuntime) {
    let blank = Blank::new(rt.alloc(), 3).expect(&rt, "memory");
    agree_within::<Brand>(blank);
}
