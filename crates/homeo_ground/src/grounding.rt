//! The ground calls of an accepted workload.

ghost use Rattle.std.specs.Prelude.{◌≡◌, ◌<◌, ◌^◌, All, length, map, slice_get, IfOk};
ghost use Rattle.homeo_syntax.specs.Source as s;
ghost use Rattle.homeo_syntax.specs.SourceView.{plain_workload};
ghost use Rattle.homeo_meaning.specs.Declarations.{declarations};
ghost use Rattle.homeo_meaning.specs.Acceptance.{IsAccepted};
ghost use Rattle.homeo_meaning.specs.CallPlaces.{call_places};
ghost use Rattle.homeo_meaning.specs.Ground.{plain_ground, grounds, ground_of};
ghost use Rattle.homeo_meaning.specs.NumberRules.{ground_calls};
ghost use Rattle.homeo_ground.specs.Grounding.{grounding, IsCallIn, IsCalled};
ghost use Rattle.homeo_ground.specs.Sited.{sited};
ghost use Rattle.homeo_ground.specs.inner.Grounds.{ground_by, IsSite};

use crate::firsts::first_calls;
use crate::numbering::{Numbered, number_clients};
use crate::sited::{SitedCall, ground_call};
use homeo_context::Declarations;
use homeo_meaning::{Accepted, CallId, GroundCall};
use homeo_syntax::{Memory, Workload};
use std::alloc::Global;
use std::marker::Model;

/// The distinct ground calls of a workload, and which of them each call is.
#[derive(Drop)]
pub struct Grounding {
    calls: Vec<GroundCall>,
    places: Vec<Vec<usize>>,
}

impl Model for Grounding {
    ghost use Rattle.std.specs.Prelude.{◌<◌, ◌^◌, length, map};
    ghost use Rattle.homeo_meaning.specs.Ground.{plain_ground};
    ghost use Rattle.homeo_ground.specs.Table.{GroundTable};

    ghost Value = { GroundTable };

    ghost view = { λ g. record {
      calls = map plain_ground g.calls.items;
      places = map (λ places. places.items) g.places.items;
    } };

    ghost invariant = { λ g. length g.calls.items < 2 ^ 32 };
}

/// The ground calls of calls, each with its transaction by its number.
fn made_calls(
    alloc: Global,
    numbering: &Declarations,
    calls: &[SitedCall<'_>],
) -> Result<Vec<GroundCall>, Memory>
    requires sites { All (λ c. IsSite c.site) calls.now }
    requires few { length numbering.now.transactions < 2 ^ 32 }
    ensures { IfOk result (λ made. map plain_ground made.items ≡
        map (ground_by numbering.now.transactions) (map sited calls.now)) }
{
    let mut made = Vec::new(alloc);
    for call in calls {
        made.push(ground_call(alloc, *call, numbering)?)?;
    }
    Ok(made)
}

impl Grounding {
    /// The grounding of a workload, made of its numbered calls.
    fn of_numbered(
        alloc: Global,
        w: &Workload,
        declared: &Declarations,
        numbered: Numbered<'_>,
    ) -> Result<Grounding, Memory>
        requires accepted { IsAccepted (plain_workload w.now) }
        requires declared { declared.now ≡ declarations (plain_workload w.now) }
        requires calls { map sited numbered.calls.items ≡ ground_calls (plain_workload w.now) }
        requires places { map (λ row. row.items) numbered.places.items ≡ call_places (plain_workload w.now) }
        ensures table { IfOk result (λ g. g ≡ grounding (plain_workload w.now)) }
        ensures calls { IfOk result (λ g. g.calls ≡ grounds (plain_workload w.now)) }
        ensures called { IfOk result (λ g. All (IsCalled (plain_workload w.now)) g.calls) }
    {
        let calls = made_calls(alloc, declared, numbered.calls.as_slice())?;
        Ok(Grounding {
            calls,
            places: numbered.places,
        })
    }

    /// Finds the distinct ground calls of a workload, in about the time that its calls and their
    /// arguments take. `declared` has the places of the workload's names.
    ///
    /// # Errors
    ///
    /// `Memory` when out of memory.
    pub fn of(alloc: Global, w: &Accepted, declared: &Declarations) -> Result<Grounding, Memory>
        requires { declared.now ≡ declarations (plain_workload w.now) }
        ensures table { IfOk result (λ g. g ≡ grounding (plain_workload w.now)) }
        ensures calls { IfOk result (λ g. g.calls ≡ grounds (plain_workload w.now)) }
        ensures called { IfOk result (λ g. All (IsCalled (plain_workload w.now)) g.calls) }
    {
        let workload = w.workload();
        let numbered = number_clients(alloc, workload.clients.as_slice())?;
        Grounding::of_numbered(alloc, workload, declared, numbered)
    }

    /// As `of`, where the places of the calls are known, as acceptance found them: by client, where each call's ground call stands
    /// among the distinct ones. No call is looked up.
    ///
    /// # Errors
    ///
    /// `Memory` when out of memory.
    pub fn with_places(
        alloc: Global,
        w: &Accepted,
        declared: &Declarations,
        places: Vec<Vec<usize>>,
    ) -> Result<Grounding, Memory>
        requires declared { declared.now ≡ declarations (plain_workload w.now) }
        requires places { map (λ row. row.items) places.items ≡ call_places (plain_workload w.now) }
        ensures table { IfOk result (λ g. g ≡ grounding (plain_workload w.now)) }
        ensures calls { IfOk result (λ g. g.calls ≡ grounds (plain_workload w.now)) }
        ensures called { IfOk result (λ g. All (IsCalled (plain_workload w.now)) g.calls) }
    {
        let workload = w.workload();
        let calls = first_calls(alloc, workload.clients.as_slice(), places.as_slice())?;
        Grounding::of_numbered(alloc, workload, declared, Numbered { calls, places })
    }

    /// Lends the distinct ground calls, each where it is first called: clients in order, and the
    /// calls of each in order.
    pub fn calls(&self) -> &[GroundCall]
        ensures { map plain_ground result.now ≡ self.now.calls }
    {
        self.calls.as_slice()
    }

    /// The place of a call's ground call among the distinct ones, in constant time and without
    /// memory. The call is one of the workload that this is the grounding of.
    pub fn place(&self, call: CallId) -> u32
        requires exists { IsCallIn self.now call }
        ensures within { result < length self.now.calls }
        ensures place { (w : s.Workload) → self.now ≡ grounding w →
            slice_get (grounds w) result ≡ ground_of w call }
    {
        let places = self.places[call.client as usize].as_slice();
        places[call.seq as usize - 1] as u32
    }
}
