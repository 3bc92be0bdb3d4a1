//! The end of a round at one node.

ghost use Rattle.std.specs.Prelude.{◌≡◌, ◌<◌, ◌^◌, Some, slice_get, length, map, IfOk, IfSome, IsSome};
ghost use Rattle.homeo_syntax.specs.SourceView.{plain_workload};
ghost use Rattle.homeo_meaning.specs.Acceptance.{IsAccepted};
ghost use Rattle.homeo_meaning.specs.Bounds.{all_bounds};
ghost use Rattle.homeo_meaning.specs.Schema.{schema_of};
ghost use Rattle.homeo_plan.specs.Planned.{sites_of};
ghost use Rattle.homeo_history.specs.Legal.{IsCallAt};
ghost use Rattle.homeo_nodes.specs.Coming.{CanClose};
ghost use Rattle.homeo_carry.specs.CarryView.{plain_bounds, plain_said, journal_of, IsClosed};

use crate::answers::Answers;
use crate::bounds::Bounds;
use crate::calls::carried_calls;
use crate::carrying::{Rounds, make_all, next_round};
use crate::said::Said;
use crate::sums::fold_said;
use homeo_history::Answer;
use homeo_nodes::Breach;
use homeo_site::{BareSite, Planner};
use homeo_syntax::{List, Memory};
use std::alloc::Global;

/// What a node goes on with when it has closed its round: its site, and the answers to the calls of its own clients that were made
/// so, in the order in which they were made.
#[derive(Drop)]
pub struct Closed {
    pub site: BareSite,
    pub answers: List<Answer>,
}

/// Closes the round of a site by a call on what all sites have said, and makes the calls that their states carry. There is nothing
/// where no sites can have said this.
///
/// # Errors
///
/// `Memory` when out of memory.
pub fn close(
    alloc: Global,
    planner: &mut Planner,
    bounds: &[Bounds],
    site: &BareSite,
    u: Breach,
    states: &[Said],
) -> Result<Option<Closed>, Memory>
    requires work { site.now.work ≡ planner.old }
    requires bounds { map plain_bounds bounds.now ≡ all_bounds (schema_of (plain_workload planner.old)) }
    requires accepted { IsAccepted (plain_workload planner.old) }
    requires call { IsCallAt (plain_workload planner.old) u.site u.call }
    requires states { length states.now ≡ sites_of (plain_workload planner.old) }
    ensures closed { IfOk result (λ o. IfSome o (IsClosed planner.old u (map plain_said states.now) site.now.state)) }
    ensures closes { CanClose (plain_workload planner.old) (journal_of site.now.state) u (map plain_said states.now) →
        site.now.state.round < 2 ^ 62 → IfOk result IsSome }
    ensures planner { planner.new ≡ planner.old }
{
    let Some(whole) = fold_said(alloc, site.base().as_slice(), states)? else {
        return Ok(None);
    };
    let calls = carried_calls(alloc, planner.compiled().workload(), u, states)?;
    let answers = Answers::none(alloc, site.number());
    let here = Breach {
        round: site.round(),
        ..u
    };
    let Some(next) = next_round(alloc, planner, bounds, answers, here, whole)? else {
        return Ok(None);
    };
    let Some(made) = make_all(alloc, planner, bounds, next, calls.as_slice())? else {
        return Ok(None);
    };
    Ok(Some(outcome_of(made)))
}

/// What the node goes on with when all calls are made.
fn outcome_of(x: Rounds) -> Closed
    requires { x.answers.own < length x.sites.items }
    ensures site { slice_get x.sites.items x.answers.own ≡ Some result.site }
    ensures answers { result.answers ≡ x.answers.given }
{
    let Rounds {
        mut sites,
        answers,
        ..
    } = x;
    Closed {
        site: sites.swap_remove(answers.own as usize),
        answers: answers.given,
    }
}
