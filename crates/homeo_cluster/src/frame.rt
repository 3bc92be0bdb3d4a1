//! What all parts of a cluster share.

ghost use Rattle.std.specs.Prelude.{◌≡◌, ◌<◌, ◌+◌, ◌*◌, ◌^◌, length};
ghost use Rattle.homeo_meaning.specs.Acceptance.{IsAccepted};
ghost use Rattle.homeo_plan.specs.Planned.{sites_of};
ghost use Rattle.homeo_history.specs.Legal.{IsClientAt, call_count};
ghost use Rattle.homeo_cluster.specs.Places.{kept_line, done_line, shut_line, at_line, bases_line};

use crate::naming::ClusterNaming;
use homeo_build::Compiled;
use homeo_core::clients::{call_count, client_count, site_count, site_of};
use homeo_notes::Board;
use std::marker::Model;
use std::sync::Arc;

/// The board with the places of its lines, and the compiled workload.
#[derive(Drop)]
pub(crate) struct Frame<N: ClusterNaming> {
    pub(crate) board: Board<N>,
    pub(crate) compiled: Arc<Compiled>,
    pub(crate) done_lines: Vec<u32>,
    pub(crate) at_lines: Vec<u32>,
}

impl<N: ClusterNaming> Model for Frame<N> {
    ghost use Rattle.homeo_syntax.specs.declared.workload.Workload.{Workload};
    ghost use Rattle.homeo_syntax.specs.contracts.workload.Workload.{the_row};
    ghost use Rattle.homeo_cluster.specs.inner.Frames.{IsFrame};

    ghost Value = { Workload };

    ghost coded = { the_row.coded };

    ghost view = { λ f. f.compiled.value };

    ghost invariant = { λ f. IsFrame N.workload f.compiled.value f.done_lines.items f.at_lines.items };
}

impl<N: ClusterNaming> Frame<N> {
    /// The workload is accepted.
    pub(crate) fn accepted(&self)
        ensures { IsAccepted N.workload }
    {
        let _clients = client_count(self.compiled.workload());
    }

    /// How many clients there are.
    pub(crate) fn clients(&self) -> u32
        ensures { result ≡ length N.workload.clients }
    {
        client_count(self.compiled.workload()) as u32
    }

    /// How many sites there are.
    pub(crate) fn sites(&self) -> u32
        ensures { result ≡ sites_of N.workload }
    {
        site_count(self.compiled.workload())
    }

    /// The site of a client.
    pub(crate) fn home(&self, client: u32) -> u32
        requires exists { client < length N.workload.clients }
        ensures at { IsClientAt N.workload result client }
        ensures bound { result < sites_of N.workload }
    {
        self.accepted();
        site_of(self.compiled.workload(), client)
    }

    /// How many calls a client has.
    pub(crate) fn calls(&self, client: u32) -> u64
        requires exists { client < length N.workload.clients }
        ensures count { result ≡ call_count N.workload client }
        ensures few { result < 2 ^ 63 }
    {
        call_count(self.compiled.workload(), client)
    }

    /// The line of what the book has kept of a client.
    pub(crate) fn kept(&self, client: u32) -> u32
        requires exists { client < length N.workload.clients }
        ensures { result ≡ kept_line N.workload client }
    {
        self.accepted();
        self.clients() + client
    }

    /// The line of what a client's site has done for it.
    pub(crate) fn done(&self, client: u32) -> u32
        requires exists { client < length N.workload.clients }
        ensures { result ≡ done_line N.workload client }
    {
        self.done_lines[client as usize]
    }

    /// The line of what of this is shut.
    pub(crate) fn shut(&self, client: u32) -> u32
        requires exists { client < length N.workload.clients }
        ensures { result ≡ shut_line N.workload client }
    {
        self.accepted();
        self.done(client) + 1
    }

    /// The line of the bases that a site has been at.
    pub(crate) fn at(&self, site: u32) -> u32
        requires exists { site < sites_of N.workload }
        ensures { result ≡ at_line N.workload site }
    {
        self.at_lines[site as usize]
    }

    /// The line of the bases of all rounds.
    pub(crate) fn bases(&self) -> u32
        ensures { result ≡ bases_line N.workload }
    {
        self.accepted();
        4 * self.clients() + self.sites()
    }
}
