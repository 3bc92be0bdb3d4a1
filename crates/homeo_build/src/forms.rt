//! The L forms of ground calls, once for each transaction with arguments.

ghost use Rattle.std.specs.Prelude.{◌≡◌, ◌<◌, [], All, length, map, slice_get, slice_index_or, Some, IfOk, OnOk};
ghost use Rattle.homeo_syntax.specs.LowView.{plain_lcommand};
ghost use Rattle.homeo_syntax.specs.Source as s;
ghost use Rattle.homeo_syntax.specs.SourceView.{plain_workload};
ghost use Rattle.homeo_meaning.specs.CallForm.{ground_form};
ghost use Rattle.homeo_meaning.specs.Declarations.{declarations};
ghost use Rattle.homeo_meaning.specs.Forms.{AreForms, body_of, with_body};
ghost use Rattle.homeo_meaning.specs.Ground.{plain_ground, grounds};
ghost use Rattle.homeo_ground.specs.Grounding.{IsCalled};
ghost use Rattle.homeo_follow.specs.Named.{named};
ghost use Rattle.homeo_build.specs.inner.Bodies.{call_body, AreBodies, StayPlaced};

use crate::names::names_of;
use homeo_context::Declarations;
use homeo_desugar::desugar;
use homeo_meaning::{Accepted, GroundCall};
use homeo_syntax::{LCommand, List, Memory};
use indexmap::IndexSet;
use std::alloc::Global;

/// The L forms of ground calls, over whole objects, once for each transaction with arguments; of each ground call the place of
/// its own; and of each form the objects that it names.
#[derive(Drop)]
pub(crate) struct Forms {
    pub(crate) forms: List<LCommand>,
    pub(crate) places: Vec<usize>,
    pub(crate) names: Vec<Vec<u32>>,
}

impl Forms {
    /// The L forms that acceptance made, with the objects that they name.
    pub(crate) fn found(
        alloc: Global,
        forms: List<LCommand>,
        places: Vec<usize>,
    ) -> Result<Forms, Memory>
        ensures forms { IfOk result (λ f. f.forms.items ≡ forms.items) }
        ensures places { IfOk result (λ f. f.places.items ≡ places.items) }
        ensures names { IfOk result (λ f. map (λ ns. ns.items) f.names.items ≡ map named (map plain_lcommand f.forms.items)) }
    {
        let names = names_of(alloc, forms.as_slice())?;
        Ok(Forms {
            forms,
            places,
            names,
        })
    }

    /// Lends the L form of the ground call of this number.
    pub(crate) fn form(&self, call: usize) -> &LCommand
        requires within { call < length self.now.places.items }
        requires placed { slice_index_or self.now.places.items call 0 < length self.now.forms.items }
        ensures { slice_get (map plain_lcommand self.now.forms.items) (slice_index_or self.now.places.items call 0) ≡ Some (plain_lcommand result.now) }
    {
        let places = self.places.as_slice();
        let forms = self.forms.as_slice();
        let place = places[call];
        &forms[place]
    }
}

/// A transaction with its arguments, which the L form of a ground call depends on.
#[derive(PartialEq, Eq, Hash, Drop)]
struct Body {
    transaction: u32,
    args: Vec<i64>,
}

/// Transactions with arguments, each with its L form.
#[derive(Drop)]
struct Bodies {
    bodies: IndexSet<Body>,
    forms: List<LCommand>,
}

/// The transaction of a ground call, with its arguments.
fn body_of(alloc: Global, call: &GroundCall) -> Result<Body, Memory>
    ensures transaction { IfOk result (λ b. b.transaction ≡ call.now.transaction) }
    ensures args { IfOk result (λ b. b.args.items ≡ call.now.args.items) }
{
    Ok(Body {
        transaction: call.transaction,
        args: Vec::from_slice(alloc, call.args.as_slice())?,
    })
}

impl Bodies {
    /// None yet.
    fn new(alloc: Global) -> Bodies
        ensures bodies { (w : s.Workload) → AreBodies w result }
        ensures keys { result.bodies.keys ≡ [] }
        ensures forms { result.forms.items ≡ [] }
    {
        Bodies {
            bodies: IndexSet::new(alloc),
            forms: List::new(alloc),
        }
    }

    /// The place of the L form of a ground call, which is made if no call of its transaction with the same arguments had one.
    fn place(
        &mut self,
        alloc: Global,
        call: &GroundCall,
        w: &Accepted,
        declared: &Declarations,
    ) -> Result<usize, Memory>
        requires declared { declared.now ≡ declarations (plain_workload w.now) }
        requires called { IsCalled (plain_workload w.now) (plain_ground call.now) }
        requires bodies { AreBodies (plain_workload w.now) self.old }
        ensures bodies { OnOk result (AreBodies (plain_workload w.now) self.new) }
        ensures stay { OnOk result (StayPlaced (map plain_lcommand self.old.forms.items) (map plain_lcommand self.new.forms.items)) }
        ensures place { IfOk result (λ n. slice_get (map plain_lcommand self.new.forms.items) n ≡
            Some (ground_form (plain_workload w.now) (plain_ground call.now))) }
        ensures keys { OnOk result (map call_body self.new.bodies.keys ≡
            with_body (map call_body self.old.bodies.keys) (body_of (plain_ground call.now))) }
    {
        let body = body_of(alloc, call)?;
        let (place, is_new) = self.bodies.insert_full(body)?;
        if is_new {
            let form = desugar(alloc, call, w, declared)?;
            self.forms.push(form)?;
            return Ok(place);
        }
        Ok(place)
    }
}

/// The L forms of all ground calls of a workload with the objects that they name, where acceptance didn't make them, in about the
/// time that their texts and arguments take.
pub(crate) fn forms_of(
    alloc: Global,
    w: &Accepted,
    declared: &Declarations,
    calls: &[GroundCall],
) -> Result<Forms, Memory>
    requires declared { declared.now ≡ declarations (plain_workload w.now) }
    requires called { All (IsCalled (plain_workload w.now)) (map plain_ground calls.now) }
    requires calls { map plain_ground calls.now ≡ grounds (plain_workload w.now) }
    ensures forms { IfOk result (λ f. AreForms (plain_workload w.now) (map plain_lcommand f.forms.items) f.places.items) }
    ensures names { IfOk result (λ f. map (λ ns. ns.items) f.names.items ≡ map named (map plain_lcommand f.forms.items)) }
{
    let mut bodies = Bodies::new(alloc);
    let mut places = Vec::new(alloc);
    for call in calls {
        places.push(bodies.place(alloc, call, w, declared)?)?;
    }
    let Bodies { bodies: _, forms } = bodies;
    let names = names_of(alloc, forms.as_slice())?;
    Ok(Forms {
        forms,
        places,
        names,
    })
}
