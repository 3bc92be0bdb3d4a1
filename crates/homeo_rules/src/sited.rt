//! All calls, with their arguments and sites.

ghost use Rattle.std.specs.Prelude.{◌≡◌, ◌++◌, map, IfOk, OnOk};
ghost use Rattle.homeo_ground.specs.Sited.{sited};
ghost use Rattle.homeo_rules.specs.inner.Sited.{sited_at, sited_of};

use homeo_ground::SitedCall;
use homeo_syntax::{Call, Client, Memory};
use std::alloc::Global;

/// Puts calls with their site behind those before.
#[tactic(auto, using(crate::proofs::Limiting::siting))]
fn push_calls<'a>(cs: &'a [Call], site: i64, calls: &mut Vec<SitedCall<'a>>) -> Result<(), Memory>
    ensures { OnOk result (map sited calls.new.items ≡ map sited calls.old.items ++ sited_at site cs.now) }
{
    for c in cs {
        calls.push(SitedCall {
            name: c.name,
            args: c.args.as_slice(),
            site,
        })?;
    }
    Ok(())
}

/// All calls, in the order of the text.
#[tactic(auto, using(crate::proofs::Limiting::siting))]
pub(crate) fn sited_calls(alloc: Global, cs: &[Client]) -> Result<Vec<SitedCall<'_>>, Memory>
    ensures { IfOk result (λ calls. map sited calls.items ≡ sited_of cs.now) }
{
    let mut calls = Vec::new(alloc);
    for c in cs {
        push_calls(c.calls.as_slice(), c.site.value, &mut calls)?;
    }
    Ok(calls)
}
