//! The end of a round at one site: what it has answered goes over into the book, and it goes on to the next round.

ghost use Rattle.std.specs.Prelude.{◌≡◌, ◌+◌, ◌<◌, ◌≤◌, ◌^◌, ◌∷◌, ◌++◌, [], true, false, Some, length, slice_get, slice_set};
ghost use Rattle.homeo_syntax.specs.SourceView.{plain_workload};
ghost use Rattle.homeo_notes.specs.Lines.{IsOwner, HasSeen, list_at};
ghost use Rattle.homeo_meaning.specs.Bounds.{IsWithin};
ghost use Rattle.homeo_meaning.specs.Schema.{schema_of};
ghost use Rattle.homeo_history.specs.Answers.{local_answer};
ghost use Rattle.homeo_history.specs.HistoryView.{plain_entry, plain_answer};
ghost use Rattle.homeo_history.specs.Legal.{IsClientAt, call_count};
ghost use Rattle.homeo_site.specs.SiteState.{renewed};
ghost use Rattle.homeo_assembly.specs.Events.{IsNext};
ghost use Rattle.homeo_assembly.specs.Facts.{SiteFacts};
ghost use Rattle.homeo_assembly.specs.Written.{written};
ghost use Rattle.homeo_cluster.specs.inner.Cells.{HoldsAt, site_lists};
ghost use Rattle.homeo_cluster.specs.Places.{kept_line, shut_line, at_line, bases_line};
ghost use Rattle.homeo_cluster.specs.inner.Grows.{Grew};
ghost use Rattle.homeo_cluster.specs.inner.Moves.{KeepsEach, ArePairs, IsMoving, AreShort};
ghost use Rattle.homeo_cluster.specs.inner.Renewed.{CanAsk, IsAsked, IsGiven, IsRenewed};

use crate::cell::SiteCell;
use crate::frame::Frame;
use crate::naming::ClusterNaming;
use crate::pairs::{extend_pair, follow_pair};
use crate::writing::{closing_head, local_head};
use homeo_core::Prepared;
use homeo_history::{Answer, Entry, Path};
use homeo_notes::Holder;
use homeo_plan::Broken;
use homeo_site::Site;

impl<N: ClusterNaming> Frame<N> {
    /// The answer to an entry of a site goes over into the book.
    fn move_entry(
        &self,
        entry: &Entry,
        number: u32,
        round: u64,
        site: &mut Holder<N>,
        book: &mut Holder<N>,
    )
        requires there { entry.now.call.client < length N.workload.clients }
        requires owners { IsOwner site.old (shut_line N.workload entry.now.call.client) × IsOwner book.old (kept_line N.workload entry.now.call.client) }
        requires site { HasSeen site.old (kept_line N.workload entry.now.call.client) (list_at site.old (shut_line N.workload entry.now.call.client)) }
        requires book { HasSeen book.old (shut_line N.workload entry.now.call.client) (list_at book.old (kept_line N.workload entry.now.call.client)) }
        requires room { length (list_at book.old (kept_line N.workload entry.now.call.client)) ≤ call_count N.workload entry.now.call.client }
        ensures site { Grew site.old site.new (shut_line N.workload entry.now.call.client) (written (local_answer round number (plain_entry entry.now))) }
        ensures book { Grew book.old book.new (kept_line N.workload entry.now.call.client) (written (local_answer round number (plain_entry entry.now))) }
        ensures site_seen { HasSeen site.new (kept_line N.workload entry.now.call.client) (list_at site.new (shut_line N.workload entry.now.call.client)) }
        ensures book_seen { HasSeen book.new (shut_line N.workload entry.now.call.client) (list_at book.new (kept_line N.workload entry.now.call.client)) }
    {
        let client = entry.call.client;
        let _few = self.calls(client);
        let shut = self.shut(client);
        let kept = self.kept(client);
        let head = local_head(entry.call.seq, number, round);
        extend_pair(
            &self.board,
            site,
            shut,
            book,
            kept,
            &head,
            entry.prints.as_slice(),
        );
    }

    /// So do those to all its entries.
    fn move_segment(&self, site: &Site, holder: &mut Holder<N>, book: &mut Holder<N>)
        requires facts { SiteFacts N.workload site.now.state (site_lists N.workload site.now.state.number holder.old) }
        requires holds { HoldsAt N.workload site.now.state.number holder.old }
        requires book { KeepsEach N.workload book.old }
        requires pairs { ArePairs N.workload site.now.state.number holder.old book.old }
        requires short { AreShort N.workload site.now.state.number holder.old }
        ensures moved { IsMoving N.workload site.now.state (length site.now.state.segment) holder.old book.old holder.new book.new }
    {
        let number = site.number();
        let round = site.round();
        for entry in site.segment().entries.as_slice() {
            self.move_entry(entry, number, round, holder, book);
        }
    }

    /// The answer to the closing call goes to its client, where this is one of the site, and into the book.
    fn give(
        &self,
        number: u32,
        site: &mut Holder<N>,
        book: &mut Holder<N>,
        asker: &mut Holder<N>,
        answer: &Answer,
        broken: Broken,
    )
        requires there { answer.now.client < length N.workload.clients }
        requires path { answer.now.path ≡ Path.Cleanup broken }
        requires holds { HoldsAt N.workload number site.old }
        requires pairs { ArePairs N.workload number site.old book.old }
        requires book { KeepsEach N.workload book.old }
        requires asker { IsClientAt N.workload number answer.now.client → CanAsk N.workload (plain_answer answer.now) asker.old }
        requires room { IsClientAt N.workload number answer.now.client
            → length (list_at book.old (kept_line N.workload answer.now.client)) ≤ call_count N.workload answer.now.client }
        ensures next { IsNext N.workload number (plain_answer answer.now) (site_lists N.workload number site.old).done }
        ensures given { IsGiven N.workload number (plain_answer answer.now) site.old book.old site.new book.new }
        ensures asked { IsAsked N.workload number (plain_answer answer.now) asker.old asker.new }
    {
        let client = answer.client;
        let _few = self.calls(client);
        if self.home(client) == number {
            let head = closing_head(answer.seq, answer.site, answer.round, broken);
            let done = self.done(client);
            extend_pair(
                &self.board,
                site,
                done,
                asker,
                client,
                &head,
                answer.prints.as_slice(),
            );
            let shut = self.shut(client);
            let kept = self.kept(client);
            extend_pair(
                &self.board,
                site,
                shut,
                book,
                kept,
                &head,
                answer.prints.as_slice(),
            );
        }
    }

    /// The site goes on to the next round, whose base the book has noted. All that the site has answered goes over into the book,
    /// with the answer to the closing call where this is one of the site's client.
    pub(crate) fn renew(
        &self,
        cell: &mut SiteCell<N>,
        book: &mut Holder<N>,
        asker: &mut Holder<N>,
        prepared: &mut Prepared,
        next: &[i64],
        answer: &Answer,
        broken: Broken,
    )
        requires waits { slice_get prepared.old.waiting cell.old.site.state.number ≡ Some true }
        requires round { cell.old.site.state.round ≡ prepared.old.round }
        requires work { plain_workload prepared.old.work ≡ N.workload }
        requires next { next.now ≡ prepared.old.next }
        requires within { IsWithin (schema_of N.workload) prepared.old.next }
        requires path { answer.now.path ≡ Path.Cleanup broken }
        requires there { answer.now.client < length N.workload.clients }
        requires book { KeepsEach N.workload book.old }
        requires pairs { ArePairs N.workload cell.old.site.state.number cell.old.held book.old }
        requires short { AreShort N.workload cell.old.site.state.number cell.old.held }
        requires few { cell.old.site.state.round + 1 < 2 ^ 63 }
        requires ahead { list_at book.old (bases_line N.workload) ≡
            list_at cell.old.held (at_line N.workload cell.old.site.state.number) ++ next.now ∷ [] }
        requires asker { IsClientAt N.workload cell.old.site.state.number answer.now.client
            → CanAsk N.workload (plain_answer answer.now) asker.old }
        ensures renewed { IsRenewed N.workload prepared.old.next (plain_answer answer.now) cell.old cell.new book.old book.new }
        ensures asked { IsAsked N.workload cell.old.site.state.number (plain_answer answer.now) asker.old asker.new }
        ensures taken { prepared.new ≡ record {
          work = prepared.old.work;
          round = prepared.old.round;
          base = prepared.old.base;
          closing = prepared.old.closing;
          next = prepared.old.next;
          segments = slice_set prepared.old.segments cell.old.site.state.number cell.old.site.state.segment;
          waiting = slice_set prepared.old.waiting cell.old.site.state.number false;
        } }
    {
        self.accepted();
        let number = cell.number();
        self.move_segment(&cell.site, &mut cell.holder, book);
        self.give(number, &mut cell.holder, book, asker, answer, broken);
        let at = self.at(number);
        let bases = self.bases();
        follow_pair(&self.board, &mut cell.holder, at, book, bases, &[], next);
        prepared.install(&mut cell.site);
    }
}
