//! What lies under the lock of the book.

ghost use Rattle.homeo_cluster.specs.inner.Cells.{IsBook};

use crate::naming::ClusterNaming;
use homeo_history::Round;
use homeo_meaning::Database;
use homeo_notes::Holder;
use homeo_syntax::List;
use std::marker::Model;

/// The closed rounds, the base of the open one, and the holder of the book's lines on the board.
#[derive(Drop)]
pub(crate) struct Book<N: ClusterNaming> {
    pub(crate) closed: List<Round>,
    pub(crate) base: Database,
    pub(crate) holder: Holder<N>,
}

impl<N: ClusterNaming> Model for Book<N> {
    ghost use Rattle.std.specs.Prelude.{map};
    ghost use Rattle.homeo_history.specs.HistoryView.{plain_round};
    ghost use Rattle.homeo_cluster.specs.inner.Cells.{BookValue, IsBook};

    ghost Value = { BookValue };

    ghost view = { λ b. record { closed = map plain_round b.closed.items; base = b.base.items; held = b.holder } };

    ghost invariant = { λ b. IsBook N.workload (record {
      closed = map plain_round b.closed.items;
      base = b.base.items;
      held = b.holder;
    }) };
}

impl<N: ClusterNaming> Book<N> {
    /// It has its facts.
    pub(crate) fn facts(&self)
        ensures { IsBook N.workload self.now }
    {
        let _rounds = self.closed.as_slice();
    }
}
