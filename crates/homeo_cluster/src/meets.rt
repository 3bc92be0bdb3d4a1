//! Where the owners of two lists that go together are both in hand, the lists are equal.

ghost use Rattle.std.specs.Prelude.{◌≡◌, ◌<◌, length};
ghost use Rattle.homeo_history.specs.Legal.{IsClientAt};
ghost use Rattle.homeo_cluster.specs.inner.Cells.{IsCell, cell_of, book_lists};
ghost use Rattle.homeo_cluster.specs.inner.Meets.{SameCell, SameBook, SamePass};

use crate::book::Book;
use crate::cell::SiteCell;
use crate::frame::Frame;
use crate::naming::ClusterNaming;
use crate::pairs::meet_pair;
use crate::pass::ClientPass;

impl<N: ClusterNaming> Frame<N> {
    /// The answers in a pass are those that its client's site gave.
    pub(crate) fn meet_done(&self, cell: &mut SiteCell<N>, pass: &mut ClientPass<N>)
        requires home { IsClientAt N.workload cell.old.site.state.number pass.old.client }
        ensures cell { SameCell N.workload cell.old cell.new }
        ensures pass { SamePass pass.old pass.new }
        ensures met { pass.old.log ≡ (cell_of N.workload cell.old).lists.done pass.old.client }
    {
        let line = self.done(pass.client);
        meet_pair(
            &self.board,
            &mut cell.holder,
            line,
            &mut pass.holder,
            pass.client,
        );
    }

    /// What a client's site has of it in closed rounds is what the book has.
    pub(crate) fn meet_shut(&self, cell: &mut SiteCell<N>, book: &mut Book<N>, client: u32)
        requires exists { client < length N.workload.clients }
        requires home { IsClientAt N.workload cell.old.site.state.number client }
        ensures cell { SameCell N.workload cell.old cell.new }
        ensures book { SameBook N.workload book.old book.new }
        ensures met { (cell_of N.workload cell.old).lists.shut client ≡ (book_lists N.workload book.old.held).kept client }
    {
        let shut = self.shut(client);
        let kept = self.kept(client);
        meet_pair(&self.board, &mut cell.holder, shut, &mut book.holder, kept);
    }

    /// The bases that a site has been at are those of all rounds.
    pub(crate) fn meet_at(&self, cell: &mut SiteCell<N>, book: &mut Book<N>)
        ensures is { IsCell N.workload cell.old }
        ensures cell { SameCell N.workload cell.old cell.new }
        ensures book { SameBook N.workload book.old book.new }
        ensures met { (cell_of N.workload cell.old).lists.at ≡ (book_lists N.workload book.old.held).bases }
    {
        let line = self.at(cell.site.number());
        let bases = self.bases();
        meet_pair(&self.board, &mut cell.holder, line, &mut book.holder, bases);
    }
}
