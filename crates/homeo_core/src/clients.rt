//! What a workload says of its sites and clients.

ghost use Rattle.std.specs.Prelude.{◌≡◌, ◌<◌, ◌≤◌, ◌^◌, Some, pos, ◌≤ℤ◌, IsTrue, length, slice_get};
ghost use Rattle.homeo_syntax.specs.SourceView.{plain_client, plain_workload};
ghost use Rattle.homeo_meaning.specs.Acceptance.{IsAccepted};
ghost use Rattle.homeo_meaning.specs.Schema.{nat_of};
ghost use Rattle.homeo_plan.specs.Planned.{sites_of};
ghost use Rattle.homeo_history.specs.Legal.{IsClientAt, IsCallAt, call_count};

use homeo_meaning::{Accepted, CallId};
use homeo_syntax::Client;

/// How many sites there are, from 1 to 16.
pub fn site_count(w: &Accepted) -> u32
    ensures count { result ≡ sites_of (plain_workload w.now) }
    ensures some { 1 ≤ result }
    ensures few { result ≤ 16 }
{
    natural(w.workload().sites.value)
}

/// How many clients there are, 64 at most.
#[tactic(auto, unfolding(homeo_syntax::specs::Key::definitions))]
pub fn client_count(w: &Accepted) -> u64
    ensures count { result ≡ length (plain_workload w.now).clients }
    ensures few { result ≤ 64 }
    ensures accepted { IsAccepted (plain_workload w.now) }
{
    w.workload().clients.as_slice().len() as u64
}

/// The site of a client.
pub fn site_of(w: &Accepted, client: u32) -> u32
    requires exists { client < length (plain_workload w.now).clients }
    ensures { IsClientAt (plain_workload w.now) result client }
{
    natural(client_of(w, client).site.value)
}

/// Whether a client at this site has the call.
pub fn is_call_at(w: &Accepted, site: u32, call: CallId) -> bool
    ensures yes { IsTrue result → IsCallAt (plain_workload w.now) site call }
    ensures no { IsCallAt (plain_workload w.now) site call → IsTrue result }
{
    if u64::from(call.client) >= client_count(w) {
        return false;
    }
    if call.seq == 0 {
        return false;
    }
    if call.seq > call_count(w, call.client) {
        return false;
    }
    site_of(w, call.client) == site
}

/// How many calls a client has.
pub fn call_count(w: &Accepted, client: u32) -> u64
    requires exists { client < length (plain_workload w.now).clients }
    ensures count { result ≡ call_count (plain_workload w.now) client }
    ensures few { result < 2 ^ 63 }
{
    client_of(w, client).calls.as_slice().len() as u64
}

#[tactic(auto, unfolding(homeo_syntax::specs::Key::definitions))]
fn client_of(w: &Accepted, client: u32) -> &Client
    requires exists { client < length (plain_workload w.now).clients }
    ensures found { slice_get (plain_workload w.now).clients client ≡ Some (plain_client result.now) }
    ensures accepted { IsAccepted (plain_workload w.now) }
{
    &w.workload().clients.as_slice()[client as usize]
}

/// A number of sites as a text has it.
fn natural(n: i64) -> u32
    requires some { pos 0 ≤ℤ n }
    requires few { n ≤ℤ pos 16 }
    ensures { result ≡ nat_of n }
{
    n as u32
}
