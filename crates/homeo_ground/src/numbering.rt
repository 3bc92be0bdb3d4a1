//! The distinct ground calls of clients, and which of them each call is.

ghost use Rattle.std.specs.Prelude.{◌≡◌, [], map, IfOk, OnOk};
ghost use Rattle.std.specs.List.{flat_map};
ghost use Rattle.homeo_syntax.specs.SourceView.{plain_client};
ghost use Rattle.homeo_meaning.specs.GlobalNames.{sited_calls_of};
ghost use Rattle.homeo_meaning.specs.NumberRules.{distinct_after};
ghost use Rattle.homeo_meaning.specs.CallPlaces.{place_among, places_among};
ghost use Rattle.homeo_ground.specs.Sited.{sited};
ghost use Rattle.homeo_ground.specs.inner.Keys.{sited_all, AreKeys};

use crate::distinct_calls::DistinctCalls;
use crate::sited::SitedCall;
use homeo_syntax::{Client, Memory};
use std::alloc::Global;

/// The distinct ground calls of clients, and which of them each call is.
#[derive(Drop)]
pub struct Numbered<'a> {
    /// The first call of each ground call: clients in order, and the calls of each in order.
    pub calls: Vec<SitedCall<'a>>,
    /// By client, and in it by call, the place of the call's ground call among `calls`.
    pub places: Vec<Vec<usize>>,
}

/// The places of a client's calls, after those are put behind the calls that are new.
fn number_client<'a>(
    alloc: Global,
    client: &'a Client,
    distinct: &mut DistinctCalls<'a>,
) -> Result<Vec<usize>, Memory>
    requires { AreKeys distinct.old }
    ensures keys { OnOk result (AreKeys distinct.new) }
    ensures calls { OnOk result (sited_all distinct.new ≡
        distinct_after (sited_all distinct.old) (sited_calls_of (plain_client client.now))) }
    ensures places { IfOk result (λ places. places.items ≡
        map (place_among (sited_all distinct.new)) (sited_calls_of (plain_client client.now))) }
{
    let calls = client.calls.as_slice();
    let mut places = Vec::with_capacity(alloc, calls.len())?;
    for call in calls {
        let place = distinct.put(alloc, SitedCall::of(client, call))?;
        places.push(place)?;
    }
    Ok(places)
}

/// By client, the places of the calls, after those are put among no calls yet.
fn number_each<'a>(
    alloc: Global,
    clients: &'a [Client],
    distinct: &mut DistinctCalls<'a>,
) -> Result<Vec<Vec<usize>>, Memory>
    requires keys { AreKeys distinct.old }
    requires none { sited_all distinct.old ≡ [] }
    ensures calls { OnOk result (sited_all distinct.new ≡
        distinct_after [] (flat_map sited_calls_of (map plain_client clients.now))) }
    ensures places { IfOk result (λ all. map (λ places. places.items) all.items ≡
        places_among (sited_all distinct.new) (map plain_client clients.now)) }
{
    let mut places = Vec::with_capacity(alloc, clients.len())?;
    for client in clients {
        let numbers = number_client(alloc, client, distinct)?;
        places.push(numbers)?;
    }
    Ok(places)
}

/// Finds the distinct ground calls of clients, in about the time that their calls and arguments take.
/// Nothing is asked of the clients: they may be those of a workload that breaks rules.
///
/// # Errors
///
/// `Memory` when out of memory.
pub fn number_clients(alloc: Global, clients: &[Client]) -> Result<Numbered<'_>, Memory>
    ensures calls { IfOk result (λ n. map sited n.calls.items ≡
        distinct_after [] (flat_map sited_calls_of (map plain_client clients.now))) }
    ensures places { IfOk result (λ n. map (λ places. places.items) n.places.items ≡
        places_among (map sited n.calls.items) (map plain_client clients.now)) }
{
    let mut distinct = DistinctCalls::new(alloc);
    let places = number_each(alloc, clients, &mut distinct)?;
    Ok(Numbered {
        calls: distinct.calls,
        places,
    })
}
