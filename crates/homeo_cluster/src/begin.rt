//! The start of a cluster.

ghost use Rattle.std.specs.Prelude.{◌≡◌, ◌+◌, ◌<◌, [], length, vec_len, IfOk, OnOk};
ghost use Rattle.homeo_syntax.specs.SourceView.{plain_workload};
ghost use Rattle.homeo_meaning.specs.Initial.{initial};
ghost use Rattle.homeo_plan.specs.Planned.{sites_of, policy};
ghost use Rattle.homeo_outline.specs.ObjectPlan.{config_in};
ghost use Rattle.homeo_build.specs.Plan.{IsObjectPlan};
ghost use Rattle.homeo_cluster.specs.Passes.{AreBegun};
ghost use Rattle.homeo_cluster.specs.Places.{line_count};
ghost use Rattle.homeo_cluster.specs.inner.Begun.{AreLeft, IsRest, IsFirst, AreFirst, first_line};

use crate::book::Book;
use crate::cell::SiteCell;
use crate::cluster::Cluster;
use crate::frame::Frame;
use crate::lines::{at_lines_of, count_lines, done_lines_of};
use crate::naming::ClusterNaming;
use crate::pass::ClientPass;
use homeo_build::Compiled;
use homeo_build::treaties::plan_at;
use homeo_eval::initial;
use homeo_meaning::Database;
use homeo_notes::{Blank, Board, Holder};
use homeo_outline::ObjectPlan;
use homeo_site::{Site, SiteStart};
use homeo_syntax::{List, Memory};
use std::alloc::Global;
use std::sync::{Arc, Mutex};

/// A blank for the board of a cluster: four lines for each client, one for each site, and one more.
///
/// # Errors
///
/// `Memory` when out of memory.
pub fn blank_for(alloc: Global, c: &Compiled) -> Result<Blank, Memory>
    ensures lines { IfOk result (λ b. b.words ≡ line_count (plain_workload c.now)) }
{
    match Blank::new(alloc, count_lines(c.workload())) {
        Ok(blank) => Ok(blank),
        Err(_) => Err(Memory),
    }
}

impl<N: ClusterNaming> Cluster<N> {
    /// All sites in a first round on the initial database, each behind its lock, and a pass for each client, in order, with no
    /// answers and all calls left. The names are those of this blank, which has the lines that `blank_for` gives, and of this
    /// workload.
    ///
    /// # Errors
    ///
    /// `Memory` when out of memory.
    pub fn begin(
        alloc: Global,
        blank: Blank,
        c: Arc<Compiled>,
    ) -> Result<(Cluster<N>, Vec<ClientPass<N>>), Memory>
        requires board { blank ≡ N.board }
        requires workload { plain_workload c.value ≡ N.workload }
        requires lines { blank.words ≡ line_count N.workload }
        ensures passes { IfOk result (λ p. AreBegun N.workload p.1.items) }
    {
        let base = initial(alloc, c.workload())?;
        let plan = plan_at(alloc, &c, &base)?;
        let done_lines = done_lines_of(alloc, c.workload())?;
        let at_lines = at_lines_of(alloc, c.workload())?;
        let (board, mut rest) = Board::begin(blank);
        let frame = Frame {
            board,
            compiled: c,
            done_lines,
            at_lines,
        };
        let passes = frame.first_passes(alloc, &mut rest)?;
        frame.write_base(&mut rest, &base);
        let sites = frame.first_sites(alloc, &plan, &mut rest)?;
        let book = frame.first_book(alloc, base, rest);
        let cluster = Cluster {
            frame,
            book: Mutex::new(book),
            sites,
        };
        Ok((cluster, passes))
    }
}

impl<N: ClusterNaming> Frame<N> {
    /// The passes of all clients, in order, before any call.
    fn first_passes(
        &self,
        alloc: Global,
        rest: &mut Holder<N>,
    ) -> Result<Vec<ClientPass<N>>, Memory>
        requires rest { AreLeft 0 (line_count N.workload) rest.old }
        ensures rest { OnOk result (AreLeft (length N.workload.clients) (line_count N.workload) rest.new) }
        ensures passes { IfOk result (λ passes. AreFirst (length N.workload.clients) passes.items) }
    {
        let mut passes = Vec::new(alloc);
        for client in 0..self.clients() {
            let pass = self.first_pass(alloc, rest, client);
            passes.push(pass)?;
        }
        Ok(passes)
    }

    /// A client's pass before any call. It gets the first of the lines that are left.
    fn first_pass(&self, alloc: Global, rest: &mut Holder<N>, client: u32) -> ClientPass<N>
        requires exists { client < length N.workload.clients }
        requires rest { AreLeft client (line_count N.workload) rest.old }
        ensures rest { AreLeft (client + 1) (line_count N.workload) rest.new }
        ensures client { result.client ≡ client }
        ensures log { result.log ≡ [] }
    {
        self.accepted();
        let holder = self.board.deal(rest, client, client + 1);
        ClientPass {
            client,
            left: self.calls(client),
            log: List::new(alloc),
            holder,
        }
    }

    /// Writes the first base into the list of the bases of all rounds.
    fn write_base(&self, rest: &mut Holder<N>, base: &Database)
        requires base { base.now.items ≡ initial N.workload }
        requires rest { AreLeft (length N.workload.clients) (line_count N.workload) rest.old }
        ensures { IsRest N.workload (initial N.workload) 0 rest.new }
    {
        let line = self.bases();
        self.board.extend(rest, line, &[], base.as_slice());
    }

    /// All sites, in order, in a first round on the plan's base.
    fn first_sites(
        &self,
        alloc: Global,
        plan: &Arc<ObjectPlan>,
        rest: &mut Holder<N>,
    ) -> Result<Vec<Mutex<SiteCell<N>>>, Memory>
        requires plan { IsObjectPlan (plain_workload self.now) plan.now.value.base.items plan.now.value }
        requires policy { config_in plan.now.value ≡
            policy (plain_workload self.now) plan.now.value.base.items }
        requires base { plan.now.value.base.items ≡ initial N.workload }
        requires rest { IsRest N.workload (initial N.workload) 0 rest.old }
        ensures rest { OnOk result (IsRest N.workload (initial N.workload) (sites_of N.workload) rest.new) }
        ensures count { IfOk result (λ sites. vec_len sites ≡ sites_of N.workload) }
    {
        self.accepted();
        let mut sites = Vec::new(alloc);
        let mut first = 2 * self.clients();
        for site in 0..self.sites() {
            let cell = self.first_site(alloc, plan, rest, site, first)?;
            sites.push(Mutex::new(cell))?;
            first = self.at(site) + 1;
        }
        Ok(sites)
    }

    /// A site in a first round on the plan's base. It gets the lines from `first` on.
    fn first_site(
        &self,
        alloc: Global,
        plan: &Arc<ObjectPlan>,
        rest: &mut Holder<N>,
        site: u32,
        first: u32,
    ) -> Result<SiteCell<N>, Memory>
        requires plan { IsObjectPlan (plain_workload self.now) plan.now.value.base.items plan.now.value }
        requires policy { config_in plan.now.value ≡
            policy (plain_workload self.now) plan.now.value.base.items }
        requires base { plan.now.value.base.items ≡ initial N.workload }
        requires site { site < sites_of N.workload }
        requires first { first ≡ first_line N.workload site }
        requires rest { IsRest N.workload (initial N.workload) site rest.old }
        ensures rest { OnOk result (IsRest N.workload (initial N.workload) (site + 1) rest.new) }
    {
        self.accepted();
        let start = SiteStart::new(alloc, &self.compiled, plan, site, 0)?;
        let holder = self.deal_site(rest, site, first, &plan.base);
        Ok(SiteCell {
            site: Site::begin(start),
            holder,
        })
    }

    /// Writes the first base into the list of the bases that the site has been at, and deals the site its lines, which are
    /// those from `first` on.
    fn deal_site(&self, rest: &mut Holder<N>, site: u32, first: u32, base: &Database) -> Holder<N>
        requires site { site < sites_of N.workload }
        requires first { first ≡ first_line N.workload site }
        requires base { base.now.items ≡ initial N.workload }
        requires rest { IsRest N.workload (initial N.workload) site rest.old }
        ensures rest { IsRest N.workload (initial N.workload) (site + 1) rest.new }
        ensures dealt { IsFirst N.workload (initial N.workload) site result }
    {
        self.accepted();
        let at = self.at(site);
        self.board.extend(rest, at, &[], base.as_slice());
        let mut holder = self.board.deal(rest, first, at + 1);
        self.board.tell(&mut holder, rest);
        self.board.tell(rest, &mut holder);
        holder
    }

    /// The book of no closed rounds. It gets the lines that are left.
    fn first_book(&self, alloc: Global, base: Database, rest: Holder<N>) -> Book<N>
        requires base { base.items ≡ initial N.workload }
        requires rest { IsRest N.workload (initial N.workload) (sites_of N.workload) rest }
    {
        self.accepted();
        Book {
            closed: List::new(alloc),
            base,
            holder: rest,
        }
    }
}
