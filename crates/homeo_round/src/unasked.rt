//! The next call of a client at its own site, where nobody asks what it prints.

ghost use Rattle.std.specs.Prelude.{◌≡◌, IfOk, OnErr};
ghost use Rattle.homeo_syntax.specs.SourceView.{plain_workload};
ghost use Rattle.homeo_history.specs.Legal.{IsCallAt};
ghost use Rattle.homeo_round.specs.Tried.{IsTriedUnasked, after_unasked};

use homeo_meaning::CallId;
use homeo_plan::Broken;
use homeo_site::{Outcome, Site};
use homeo_syntax::Memory;
use std::alloc::Global;

/// Makes a call at its site as `try_call` does, but for what it prints, which stands in the site's segment alone. It gives what
/// fails first of the site's treaty, and `None` where the site made the call.
///
/// # Errors
///
/// `Memory` when out of memory.
#[tactic(auto, unfolding(homeo_site::specs::Key::definitions, crate::specs::Key::definitions))]
pub fn try_unasked(alloc: Global, site: &mut Site, call: CallId) -> Result<Option<Broken>, Memory>
    requires { IsCallAt (plain_workload site.old.work) site.old.state.number call }
    ensures tried { IfOk result (IsTriedUnasked (plain_workload site.old.work) site.old.state call) }
    ensures state { IfOk result (λ o. site.new.state ≡ after_unasked (plain_workload site.old.work) site.old.state call o) }
    ensures work { site.new.work ≡ site.old.work }
    ensures unchanged { OnErr result (site.new.state ≡ site.old.state) }
{
    let (room, mut copies) = site.room(alloc, call, 0)?;
    match site.attempt_in(call, room, &mut copies) {
        Outcome::Keeps(change) => {
            site.commit(change);
            Ok(None)
        }
        Outcome::Breaks(broken) => Ok(Some(broken)),
    }
}
