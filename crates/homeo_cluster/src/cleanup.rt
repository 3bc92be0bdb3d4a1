//! A call that breaks its site's treaty, under the locks of the book and of all sites.

ghost use Rattle.std.specs.Prelude.{◌≡◌, ℕ, ◌<◌, ◌+◌, ◌^◌, ◌∷◌, ◌++◌, [], true, length, map, take, replicate, vec_len, All, IfOk, OnErr, FitsSigned};
ghost use Rattle.std.specs.Int.{w64};
ghost use Rattle.homeo_syntax.specs.SourceView.{plain_workload};
ghost use Rattle.homeo_meaning.specs.Bounds.{IsWithin};
ghost use Rattle.homeo_meaning.specs.Schema.{schema_of};
ghost use Rattle.homeo_plan.specs.Planned.{sites_of};
ghost use Rattle.homeo_history.specs.HistoryView.{plain_answer, plain_round};
ghost use Rattle.homeo_history.specs.Answers.{called, closing_answer};
ghost use Rattle.homeo_history.specs.Legal.{IsClientAt};
ghost use Rattle.homeo_core.specs.Events.{BreaksCall};
ghost use Rattle.homeo_core.specs.Books.{book_of};
ghost use Rattle.homeo_core.specs.Joined.{gathered};
ghost use Rattle.homeo_core.specs.SiteLists.{AreAt};
ghost use Rattle.homeo_assembly.specs.Events.{InHand};
ghost use Rattle.homeo_cluster.specs.inner.Cells.{cells_of, book_state, book_lists, HoldsBook, IsBook};
ghost use Rattle.homeo_cluster.specs.Passes.{IsReplied, next_call};
ghost use Rattle.homeo_cluster.specs.inner.Meets.{SameBook, AreNumbered, CellsNumbered, MetAt, MetShut, site_states};
ghost use Rattle.homeo_cluster.specs.inner.Moves.{KeepsEach};
ghost use Rattle.homeo_cluster.specs.inner.Renewed.{CanAsk, WasAsked};
ghost use Rattle.homeo_cluster.specs.inner.Rows.{held_cells, CanRenew, HaveGoneOn, IsPrepared, prepared_at};

use crate::book::Book;
use crate::cell::SiteCell;
use crate::cluster::Cluster;
use crate::frame::Frame;
use crate::local::{Tried, push_reserved};
use crate::naming::ClusterNaming;
use crate::pass::ClientPass;
use homeo_core::{Prepared, prepare};
use homeo_history::{Answer, Path, Round};
use homeo_meaning::{CallId, Database};
use homeo_notes::Holder;
use homeo_plan::Broken;
use homeo_round::Gather;
use homeo_syntax::{List, Memory};
use std::alloc::Global;
use std::sync::{MutexGuard, Wait};

/// More rounds than any list has.
const MOST_ROUNDS: u64 = 1 << 62;

impl<N: ClusterNaming> Cluster<N> {
    /// Attempts the next call of a pass once more under the locks of the book and of all sites, and closes the round by it where it
    /// breaks its site's treaty.
    pub(crate) fn close_or_make<R: Wait>(
        &self,
        rt: &R,
        alloc: Global,
        home: u32,
        pass: &mut ClientPass<N>,
    ) -> Result<Answer, Memory>
        requires home { IsClientAt N.workload home pass.old.client }
        requires inside { home < sites_of N.workload }
        requires left { 0 < pass.old.left }
        ensures replied { IfOk result (λ a. IsReplied N.workload pass.old pass.new (plain_answer a)) }
        ensures unchanged { OnErr result (pass.new ≡ pass.old) }
    {
        pass.facts();
        let mut book = self.book.lock(rt);
        let mut cells = self.lock_all(rt, alloc)?;
        match self.frame.attempt(alloc, &mut *cells[home as usize], pass)? {
            Tried::Done(answer) => Ok(answer),
            Tried::Breaks(broken) => {
                self.frame
                    .close(alloc, &mut *book, &mut cells, home, pass, broken)
            }
        }
    }

    /// The locks of all sites, in the order of their numbers.
    fn lock_all<R: Wait>(
        &self,
        rt: &R,
        alloc: Global,
    ) -> Result<Vec<MutexGuard<'_, SiteCell<N>>>, Memory>
        ensures count { IfOk result (λ v. vec_len v ≡ sites_of N.workload) }
        ensures numbers { IfOk result (λ v. AreNumbered (held_cells v.items)) }
    {
        let mut cells = Vec::new(alloc);
        for lock in &self.sites {
            let cell = lock.lock(rt);
            // It never differs, but no type says which lock has which site.
            if cell.number() as usize != cells.len() {
                return Err(Memory);
            }
            cells.push(cell)?;
        }
        Ok(cells)
    }
}

impl<N: ClusterNaming> Frame<N> {
    /// Closes the round by the next call of a pass, which breaks its site's treaty. All memory is taken before anything changes.
    fn close(
        &self,
        alloc: Global,
        book: &mut Book<N>,
        cells: &mut Vec<MutexGuard<'_, SiteCell<N>>>,
        home: u32,
        pass: &mut ClientPass<N>,
        broken: Broken,
    ) -> Result<Answer, Memory>
        requires count { vec_len cells.old ≡ sites_of N.workload }
        requires numbers { AreNumbered (held_cells cells.old.items) }
        requires home { IsClientAt N.workload home pass.old.client }
        requires left { 0 < pass.old.left }
        requires breaks { BreaksCall N.workload (site_states (held_cells cells.old.items)) home (next_call pass.old) broken }
        ensures replied { IfOk result (λ a. IsReplied N.workload pass.old pass.new (plain_answer a)) }
        ensures unchanged { OnErr result (pass.new ≡ pass.old) }
    {
        self.accepted();
        book.facts();
        self.meet_row(cells, book);
        let made = self.prepare_row(alloc, book, cells, home, pass.next(), broken)?;
        // in a box it is dropped in one step, where memory is refused behind it
        let prepared = Box::new(alloc, made)?;
        let answer = prepared.answer().copy(alloc)?;
        let logged = answer.copy(alloc)?;
        let next = Vec::from_slice(alloc, prepared.next().as_slice())?;
        book.closed.reserve(1)?;
        pass.log.reserve(pass.left)?;
        self.end_round(
            &mut book.closed,
            &mut book.base,
            &mut book.holder,
            cells,
            &mut pass.holder,
            Box::into_inner(prepared),
            next.as_slice(),
            &answer,
            broken,
        );
        push_reserved(&mut pass.log, logged);
        pass.left -= 1;
        Ok(answer)
    }

    /// Makes all ready for the end of the round: the closing call is run on the gathered database, and each site's start in the
    /// next round is made.
    fn prepare_row(
        &self,
        alloc: Global,
        book: &Book<N>,
        cells: &Vec<MutexGuard<'_, SiteCell<N>>>,
        home: u32,
        call: CallId,
        broken: Broken,
    ) -> Result<Prepared, Memory>
        requires count { vec_len cells.now ≡ sites_of N.workload }
        requires hand { InHand N.workload (book_state book.now) (book_lists N.workload book.now.held)
            (cells_of N.workload (held_cells cells.now.items)) }
        requires breaks { BreaksCall N.workload (site_states (held_cells cells.now.items)) home call broken }
        ensures { IfOk result (IsPrepared N.workload (book_state book.now) (site_states (held_cells cells.now.items)) home call broken) }
    {
        self.accepted();
        let gather = gather_row(alloc, book, cells)?;
        // all sites share it
        let last = cells[0].plan();
        let prepared = prepare(alloc, gather, &self.compiled, last, call, broken)?;
        Ok(prepared)
    }

    /// Ends the round, for which all is ready: each site goes on to the next one, and the closed round comes to the others. It takes
    /// no memory.
    fn end_round(
        &self,
        closed: &mut List<Round>,
        base: &mut Database,
        book: &mut Holder<N>,
        cells: &mut Vec<MutexGuard<'_, SiteCell<N>>>,
        asker: &mut Holder<N>,
        prepared: Prepared,
        next: &[i64],
        answer: &Answer,
        broken: Broken,
    )
        requires room { 0 < closed.old.spare }
        requires count { vec_len cells.old ≡ sites_of N.workload }
        requires numbers { AreNumbered (held_cells cells.old.items) }
        requires hand { InHand N.workload (book_of closed.old.items base.old.items) (book_lists N.workload book.old)
            (cells_of N.workload (held_cells cells.old.items)) }
        requires holds { HoldsBook N.workload book.old }
        requires breaks { BreaksCall N.workload (site_states (held_cells cells.old.items)) answer.now.site
            (called (plain_answer answer.now)) broken }
        requires prepared { IsPrepared N.workload (book_of closed.old.items base.old.items) (site_states (held_cells cells.old.items))
            answer.now.site (called (plain_answer answer.now)) broken prepared }
        requires answer { plain_answer answer.now ≡ closing_answer prepared.round prepared.closing }
        requires next { next.now ≡ prepared.next }
        requires asker { CanAsk N.workload (plain_answer answer.now) asker.old }
        ensures book { IsBook N.workload (record {
          closed = map plain_round closed.new.items;
          base = base.new.items;
          held = book.new;
        }) }
        ensures asked { WasAsked N.workload (plain_answer answer.now) asker.old asker.new }
    {
        self.accepted();
        let mut prepared = prepared;
        let bases = self.bases();
        self.board.extend(book, bases, &[], next);
        self.renew_row(cells, book, asker, &mut prepared, next, answer, broken);
        let (round, last, _answer) = prepared.closed();
        push_round(closed, round);
        *base = last;
    }

    /// The lists of all sites and of the book are found equal.
    fn meet_row(&self, cells: &mut Vec<MutexGuard<'_, SiteCell<N>>>, book: &mut Book<N>)
        requires count { vec_len cells.old ≡ sites_of N.workload }
        requires numbers { AreNumbered (held_cells cells.old.items) }
        ensures count { vec_len cells.new ≡ sites_of N.workload }
        ensures numbers { AreNumbered (held_cells cells.new.items) }
        ensures states { site_states (held_cells cells.new.items) ≡ site_states (held_cells cells.old.items) }
        ensures met { InHand N.workload (book_state book.new) (book_lists N.workload book.new.held)
            (cells_of N.workload (held_cells cells.new.items)) }
    {
        book.facts();
        self.meet_row_bases(cells, book);
        self.meet_row_clients(cells, book);
    }

    /// Each site has been at the bases that the book has.
    fn meet_row_bases(&self, cells: &mut Vec<MutexGuard<'_, SiteCell<N>>>, book: &mut Book<N>)
        ensures count { vec_len cells.new ≡ vec_len cells.old }
        ensures cells { cells_of N.workload (held_cells cells.new.items) ≡ cells_of N.workload (held_cells cells.old.items) }
        ensures book { SameBook N.workload book.old book.new }
        ensures met { MetAt N.workload (vec_len cells.old) (cells_of N.workload (held_cells cells.old.items))
            (book_lists N.workload book.old.held) }
    {
        for i in 0..cells.len() {
            self.meet_at(&mut *cells[i], book);
        }
    }

    /// Each client's site has shut what the book has kept of it.
    fn meet_row_clients(&self, cells: &mut Vec<MutexGuard<'_, SiteCell<N>>>, book: &mut Book<N>)
        requires count { vec_len cells.old ≡ sites_of N.workload }
        requires numbers { CellsNumbered (cells_of N.workload (held_cells cells.old.items)) }
        ensures count { vec_len cells.new ≡ vec_len cells.old }
        ensures cells { cells_of N.workload (held_cells cells.new.items) ≡ cells_of N.workload (held_cells cells.old.items) }
        ensures book { SameBook N.workload book.old book.new }
        ensures met { MetShut N.workload (length N.workload.clients) (cells_of N.workload (held_cells cells.old.items))
            (book_lists N.workload book.old.held) }
    {
        for client in 0..self.clients() {
            let home = self.home(client);
            self.meet_shut(&mut *cells[home as usize], book, client);
        }
    }

    /// Each site goes on to the next round.
    fn renew_row(
        &self,
        cells: &mut Vec<MutexGuard<'_, SiteCell<N>>>,
        book: &mut Holder<N>,
        asker: &mut Holder<N>,
        prepared: &mut Prepared,
        next: &[i64],
        answer: &Answer,
        broken: Broken,
    )
        requires numbers { AreNumbered (held_cells cells.old.items) }
        requires rounds { AreAt prepared.old.round prepared.old.base (site_states (held_cells cells.old.items)) }
        requires segments { length prepared.old.segments ≡ vec_len cells.old }
        requires waiting { prepared.old.waiting ≡ replicate (vec_len cells.old) true }
        requires work { plain_workload prepared.old.work ≡ N.workload }
        requires next { next.now ≡ prepared.old.next }
        requires within { IsWithin (schema_of N.workload) prepared.old.next }
        requires path { answer.now.path ≡ Path.Cleanup broken }
        requires there { answer.now.client < length N.workload.clients }
        requires each { CanRenew N.workload next.now book.old (held_cells cells.old.items) }
        requires book { KeepsEach N.workload book.old }
        requires asker { CanAsk N.workload (plain_answer answer.now) asker.old }
        ensures gone { HaveGoneOn N.workload next.now (plain_answer answer.now) (vec_len cells.old) (held_cells cells.old.items)
            (held_cells cells.new.items) book.old book.new asker.old asker.new }
        ensures prepared { prepared.new ≡ prepared_at prepared.old (site_states (held_cells cells.old.items)) (vec_len cells.old) }
    {
        for i in 0..cells.len() {
            self.renew(&mut *cells[i], book, asker, prepared, next, answer, broken);
        }
    }
}

/// The base of the round with the deltas of all its sites.
fn gather_row<N: ClusterNaming>(
    alloc: Global,
    book: &Book<N>,
    cells: &Vec<MutexGuard<'_, SiteCell<N>>>,
) -> Result<Gather, Memory>
    requires at { AreAt (length book.now.closed) book.now.base (site_states (held_cells cells.now.items)) }
    requires fits { (n : ℕ) → All (FitsSigned w64) (gathered book.now.base (take n (site_states (held_cells cells.now.items)))) }
    ensures few { IfOk result (λ g. g.round + 1 < 2 ^ 63) }
    ensures gathered { IfOk result (λ g. g ≡ record {
      round = length book.now.closed;
      base = book.now.base;
      sum = gathered book.now.base (site_states (held_cells cells.now.items));
      added = vec_len cells.now;
    }) }
{
    let round = book.closed.as_slice().len() as u64;
    // No list is as long.
    if round >= MOST_ROUNDS {
        return Err(Memory);
    }
    let mut gather = Gather::begin(alloc, round, &book.base)?;
    for i in 0..cells.len() {
        gather.add(cells[i].site());
    }
    Ok(gather)
}

/// Appends a round, for which the list has room.
fn push_round(closed: &mut List<Round>, round: Round)
    requires { 0 < closed.old.spare }
    ensures { closed.new.items ≡ closed.old.items ++ round ∷ [] }
{
    match closed.push(round) {
        Ok(()) => {}
        Err(_) => unreachable!(),
    }
}
