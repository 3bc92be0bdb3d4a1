//! The next call of a client at its own site.

ghost use Rattle.std.specs.Prelude.{◌≡◌, IfOk, OnErr};
ghost use Rattle.homeo_syntax.specs.SourceView.{plain_workload};
ghost use Rattle.homeo_history.specs.Legal.{IsCallAt};
ghost use Rattle.homeo_round.specs.Tried.{IsTried, after_try};

use homeo_meaning::CallId;
use homeo_plan::Broken;
use homeo_site::{Outcome, Site};
use homeo_syntax::{Memory, Prints};
use std::alloc::Global;

/// What a site did with a call.
#[derive(Drop)]
pub enum Tried {
    /// The site made it, and it printed this.
    Made(Prints),
    /// It breaks this first of the site's treaty, and the site is as it was.
    Refused(Broken),
}

/// Makes a call at its site where it keeps the site's treaty; else the site stays as it is, and so it does where there is no
/// memory. After the attempt nothing can fail.
///
/// # Errors
///
/// `Memory` when out of memory.
#[tactic(auto, unfolding(homeo_site::specs::Key::definitions, crate::specs::Key::definitions))]
pub fn try_call(alloc: Global, site: &mut Site, call: CallId) -> Result<Tried, Memory>
    requires { IsCallAt (plain_workload site.old.work) site.old.state.number call }
    ensures tried { IfOk result (IsTried (plain_workload site.old.work) site.old.state call) }
    ensures state { IfOk result (λ t. site.new.state ≡ after_try (plain_workload site.old.work) site.old.state call t) }
    ensures work { site.new.work ≡ site.old.work }
    ensures unchanged { OnErr result (site.new.state ≡ site.old.state) }
{
    let (room, mut copies) = site.room(alloc, call, 1)?;
    match site.attempt_in(call, room, &mut copies) {
        Outcome::Keeps(change) => {
            site.commit(change);
            match copies.into_vec().pop() {
                Some(prints) => Ok(Tried::Made(prints)),
                None => unreachable!(),
            }
        }
        Outcome::Breaks(broken) => Ok(Tried::Refused(broken)),
    }
}
