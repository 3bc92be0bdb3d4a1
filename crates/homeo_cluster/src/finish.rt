//! The history of a cluster whose passes have come back.

ghost use Rattle.std.specs.Prelude.{◌≡◌, ℕ, ◌<◌, ◌^◌, length, map, take, All, FitsSigned, IfOk, vec_len};
ghost use Rattle.std.specs.Int.{w64};
ghost use Rattle.homeo_meaning.specs.Bounds.{IsWithin};
ghost use Rattle.homeo_meaning.specs.Initial.{initial};
ghost use Rattle.homeo_meaning.specs.Schema.{schema_of};
ghost use Rattle.homeo_plan.specs.Planned.{sites_of};
ghost use Rattle.homeo_history.specs.HistoryView.{plain_segment, plain_history};
ghost use Rattle.homeo_core.specs.Joined.{AreJoined, gathered, history_of, segments_of};
ghost use Rattle.homeo_core.specs.SiteLists.{AreAt};
ghost use Rattle.homeo_assembly.specs.Laws.{IsAssembled};
ghost use Rattle.homeo_cluster.specs.inner.Cells.{cells_of, book_lists, book_state};
ghost use Rattle.homeo_cluster.specs.Passes.{AreAll, logs_of};
ghost use Rattle.homeo_cluster.specs.inner.Meets.{SameBook, AreNumbered, CellsNumbered, MetAt, MetShut, MetDone, AreSettled, site_states};

use crate::book::Book;
use crate::cell::SiteCell;
use crate::cluster::Cluster;
use crate::frame::Frame;
use crate::naming::ClusterNaming;
use crate::pass::ClientPass;
use homeo_history::{History, Round, Segment};
use homeo_meaning::Database;
use homeo_round::Gather;
use homeo_syntax::{List, Memory};
use std::alloc::Global;
use std::sync::Mutex;

impl<N: ClusterNaming> Cluster<N> {
    /// The history of the calls that were made: a legal one, of as many calls of each client as its pass has answers, in which
    /// each of these answers stands. The passes are all those of this cluster, in order.
    ///
    /// # Errors
    ///
    /// `Memory` when out of memory.
    pub fn finish(self, alloc: Global, mut passes: Vec<ClientPass<N>>) -> Result<History, Memory>
        requires all { AreAll N.workload passes.items }
        ensures assembled { IfOk result (λ h. IsAssembled N.workload (logs_of passes.items) (plain_history h)) }
        ensures within { IfOk result (λ h. IsWithin (schema_of N.workload) (plain_history h).last) }
    {
        let Cluster { frame, book, sites } = self;
        let mut book = book.into_inner();
        let mut cells = open_all(alloc, sites)?;
        frame.accepted();
        frame.settle(&mut cells, &mut book, &mut passes);
        frame.history(alloc, book, cells)
    }
}

impl<N: ClusterNaming> Frame<N> {
    /// Meets all: each site with the book, and each client's site with the book and with the client's pass.
    fn settle(
        &self,
        cells: &mut Vec<SiteCell<N>>,
        book: &mut Book<N>,
        passes: &mut Vec<ClientPass<N>>,
    )
        requires count { vec_len cells.old ≡ sites_of N.workload }
        requires numbers { AreNumbered cells.old.items }
        requires all { AreAll N.workload passes.old.items }
        ensures cells { cells_of N.workload cells.new.items ≡ cells_of N.workload cells.old.items }
        ensures book { SameBook N.workload book.old book.new }
        ensures settled { AreSettled N.workload (book_state book.old) (book_lists N.workload book.old.held)
            (cells_of N.workload cells.old.items) (logs_of passes.old.items) }
    {
        book.facts();
        self.meet_sites(cells, book);
        self.meet_clients(cells, book);
        self.meet_passes(cells, passes);
    }

    /// Meets each site with the book.
    fn meet_sites(&self, cells: &mut Vec<SiteCell<N>>, book: &mut Book<N>)
        ensures cells { cells_of N.workload cells.new.items ≡ cells_of N.workload cells.old.items }
        ensures book { SameBook N.workload book.old book.new }
        ensures met { MetAt N.workload (vec_len cells.old) (cells_of N.workload cells.old.items)
            (book_lists N.workload book.old.held) }
    {
        for i in 0..cells.len() {
            self.meet_at(&mut cells[i], book);
        }
    }

    /// Meets, for each client, its site with the book.
    fn meet_clients(&self, cells: &mut Vec<SiteCell<N>>, book: &mut Book<N>)
        requires count { vec_len cells.old ≡ sites_of N.workload }
        requires numbers { CellsNumbered (cells_of N.workload cells.old.items) }
        ensures cells { cells_of N.workload cells.new.items ≡ cells_of N.workload cells.old.items }
        ensures book { SameBook N.workload book.old book.new }
        ensures met { MetShut N.workload (length N.workload.clients) (cells_of N.workload cells.old.items)
            (book_lists N.workload book.old.held) }
    {
        for client in 0..self.clients() {
            let home = self.home(client);
            self.meet_shut(&mut cells[home as usize], book, client);
        }
    }

    /// Meets each pass with its client's site.
    fn meet_passes(&self, cells: &mut Vec<SiteCell<N>>, passes: &mut Vec<ClientPass<N>>)
        requires count { vec_len cells.old ≡ sites_of N.workload }
        requires numbers { CellsNumbered (cells_of N.workload cells.old.items) }
        requires all { AreAll N.workload passes.old.items }
        ensures cells { cells_of N.workload cells.new.items ≡ cells_of N.workload cells.old.items }
        ensures met { MetDone N.workload (length N.workload.clients) (cells_of N.workload cells.old.items)
            (logs_of passes.old.items) }
    {
        for client in 0..self.clients() {
            let home = self.home(client);
            self.meet_done(&mut cells[home as usize], &mut passes[client as usize]);
        }
    }

    /// The closed rounds, then the open one.
    fn history(
        &self,
        alloc: Global,
        book: Book<N>,
        cells: Vec<SiteCell<N>>,
    ) -> Result<History, Memory>
        requires joined { AreJoined N.workload (initial N.workload) (book_state book) (site_states cells.items) }
        ensures history { IfOk result (λ h. plain_history h ≡ history_of (book_state book) (site_states cells.items)) }
        ensures within { IfOk result (λ h. IsWithin (schema_of N.workload) (plain_history h).last) }
    {
        self.accepted();
        let Book {
            mut closed,
            base,
            holder: _,
        } = book;
        let last = last_database(
            alloc,
            closed.as_slice().len() as u64,
            &base,
            cells.as_slice(),
        )?;
        let segments = into_segments(alloc, cells)?;
        closed.push(Round {
            base,
            segments,
            closing: None,
        })?;
        Ok(History {
            rounds: closed,
            last,
        })
    }
}

/// The sites, out of their locks.
fn open_all<N: ClusterNaming>(
    alloc: Global,
    locks: Vec<Mutex<SiteCell<N>>>,
) -> Result<Vec<SiteCell<N>>, Memory>
    ensures count { IfOk result (λ v. vec_len v ≡ vec_len locks) }
    ensures numbers { IfOk result (λ v. AreNumbered v.items) }
{
    let mut cells = Vec::new(alloc);
    for lock in locks {
        let cell = lock.into_inner();
        // It never differs, but no type says which lock has which site.
        if cell.number() as usize != cells.len() {
            return Err(Memory);
        }
        cells.push(cell)?;
    }
    Ok(cells)
}

/// The base of a round with the deltas of all its sites.
fn last_database<N: ClusterNaming>(
    alloc: Global,
    round: u64,
    base: &Database,
    cells: &[SiteCell<N>],
) -> Result<Database, Memory>
    requires round { round < 2 ^ 63 }
    requires at { AreAt round base.now.items (site_states cells.now) }
    requires fits { (n : ℕ) → All (FitsSigned w64) (gathered base.now.items (take n (site_states cells.now))) }
    ensures { IfOk result (λ d. d.items ≡ gathered base.now.items (site_states cells.now)) }
{
    let mut gather = Gather::begin(alloc, round, base)?;
    for cell in cells {
        gather.add(cell.site());
    }
    Ok(gather.into_values())
}

/// The segments of all sites.
fn into_segments<N: ClusterNaming>(
    alloc: Global,
    cells: Vec<SiteCell<N>>,
) -> Result<List<Segment>, Memory>
    ensures { IfOk result (λ s. map plain_segment s.items ≡ segments_of (site_states cells.items)) }
{
    let mut segments = List::new(alloc);
    for cell in cells {
        segments.push(cell.into_site().into_segment())?;
    }
    Ok(segments)
}
