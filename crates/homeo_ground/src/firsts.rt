//! The first call of each ground call, found by the places of all calls.

ghost use Rattle.std.specs.Prelude.{◌≡◌, [], map, IfOk, OnOk};
ghost use Rattle.std.specs.List.{flat_map};
ghost use Rattle.homeo_syntax.specs.SourceView.{plain_client};
ghost use Rattle.homeo_meaning.specs.CallPlaces.{places_among};
ghost use Rattle.homeo_meaning.specs.GlobalNames.{sited_calls_of};
ghost use Rattle.homeo_meaning.specs.NumberRules.{distinct_after};
ghost use Rattle.homeo_ground.specs.Sited.{sited};
ghost use Rattle.homeo_ground.specs.inner.Firsts.{ArePlaces};

use crate::sited::SitedCall;
use homeo_syntax::{Client, Memory};
use std::alloc::Global;

/// Puts behind the first calls those of a client that are new: the place of such a call is the number of those before it.
fn push_firsts<'a>(
    client: &'a Client,
    places: &[usize],
    firsts: &mut Vec<SitedCall<'a>>,
) -> Result<(), Memory>
    requires { ArePlaces (map sited firsts.old.items) (sited_calls_of (plain_client client.now)) places.now }
    ensures { OnOk result (map sited firsts.new.items ≡
        distinct_after (map sited firsts.old.items) (sited_calls_of (plain_client client.now))) }
{
    let calls = client.calls.as_slice();
    for (k, call) in calls.iter().enumerate() {
        if places[k] == firsts.len() {
            firsts.push(SitedCall::of(client, call))?;
        }
    }
    Ok(())
}

/// The first call of each ground call, by the places of the clients' calls among them, in about the time that it takes to read
/// these.
pub(crate) fn first_calls<'a>(
    alloc: Global,
    clients: &'a [Client],
    places: &[Vec<usize>],
) -> Result<Vec<SitedCall<'a>>, Memory>
    requires { map (λ row. row.items) places.now ≡
        places_among (distinct_after [] (flat_map sited_calls_of (map plain_client clients.now))) (map plain_client clients.now) }
    ensures { IfOk result (λ calls. map sited calls.items ≡
        distinct_after [] (flat_map sited_calls_of (map plain_client clients.now))) }
{
    let mut firsts = Vec::new(alloc);
    for (i, client) in clients.iter().enumerate() {
        push_firsts(client, places[i].as_slice(), &mut firsts)?;
    }
    Ok(firsts)
}
