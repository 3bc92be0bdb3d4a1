//! A client's pass.

ghost use Rattle.std.specs.Prelude.{◌≡◌, ◌<◌, ◌≤◌, ◌+◌, ◌^◌, length, map};
ghost use Rattle.homeo_history.specs.HistoryView.{plain_answer};
ghost use Rattle.homeo_history.specs.Legal.{call_count};
ghost use Rattle.homeo_cluster.specs.Passes.{IsPass, next_call};

use crate::naming::ClusterNaming;
use homeo_history::Answer;
use homeo_meaning::CallId;
use homeo_notes::Holder;
use homeo_syntax::List;
use std::marker::Model;

/// A client's leave to make its calls in a cluster, one after another, from any thread. It keeps the answers that the client
/// got.
#[derive(Drop)]
pub struct ClientPass<N: ClusterNaming> {
    pub(crate) client: u32,
    pub(crate) left: u64,
    pub(crate) log: List<Answer>,
    pub(crate) holder: Holder<N>,
}

impl<N: ClusterNaming> Model for ClientPass<N> {
    ghost use Rattle.std.specs.Prelude.{map};
    ghost use Rattle.homeo_history.specs.HistoryView.{plain_answer};
    ghost use Rattle.homeo_cluster.specs.Passes.{PassValue, IsPass};

    ghost Value = { PassValue };

    ghost view = { λ p. record { client = p.client; left = p.left; log = map plain_answer p.log.items; held = p.holder } };

    ghost invariant = { λ p. IsPass N.workload (record {
      client = p.client;
      left = p.left;
      log = map plain_answer p.log.items;
      held = p.holder;
    }) };
}

impl<N: ClusterNaming> ClientPass<N> {
    /// The client, from 0, in the order of the text.
    pub fn client(&self) -> u32
        ensures client { result ≡ self.now.client }
        ensures exists { result < length N.workload.clients }
    {
        self.client
    }

    /// How many calls the client has left.
    pub fn left(&self) -> u64
        ensures left { result ≡ self.now.left }
        ensures all { length self.now.log + result ≡ call_count N.workload self.now.client }
    {
        self.left
    }

    /// Lends the answers that the client got, in order.
    pub fn log(&self) -> &List<Answer>
        ensures { map plain_answer result.now.items ≡ self.now.log }
    {
        &self.log
    }

    /// It has its facts.
    pub(crate) fn facts(&self)
        ensures { IsPass N.workload self.now }
    {
        let _log = self.log.as_slice();
    }

    /// The client's next call.
    pub(crate) fn next(&self) -> CallId
        requires { 0 < self.now.left }
        ensures call { result ≡ next_call self.now }
        ensures few { result.seq ≤ 2 ^ 63 }
    {
        CallId {
            client: self.client,
            seq: self.log.as_slice().len() as u64 + 1,
        }
    }
}
