//! A desk as plain data.

ghost use Rattle.std.specs.Prelude.{◌≡◌, IsTrue};
ghost use Rattle.homeo_desk.specs.DeskView.{calls_of};

use crate::output::{Answer, Request};
use homeo_live::NodeState;
use homeo_meaning::CallId;

/// All that a desk is: its node, how many calls the node has made alone in its round, the requests that wait, in the order of the
/// node's calls that wait, and the last answer of each client that has one.
#[derive(Drop)]
pub struct DeskState {
    pub node: NodeState,
    pub made: u64,
    pub queue: Vec<Request>,
    pub answered: Vec<Answer>,
}

/// Whether these requests are those of these calls, one for each, in order.
pub(crate) fn are_of(requests: &[Request], calls: &[CallId]) -> bool
    ensures yes { IsTrue result → calls_of requests.now ≡ calls.now }
    ensures no { calls_of requests.now ≡ calls.now → IsTrue result }
{
    if requests.len() != calls.len() {
        return false;
    }
    for i in 0..requests.len() {
        if requests[i].call != calls[i] {
            return false;
        }
    }
    true
}
