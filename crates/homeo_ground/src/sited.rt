//! Calls with their arguments and sites.

ghost use Rattle.std.specs.Prelude.{◌≡◌, ◌<◌, ◌^◌, length, map, IfOk, OnOk};
ghost use Rattle.homeo_syntax.specs.SourceView.{plain_call, plain_client};
ghost use Rattle.homeo_meaning.specs.Ground.{plain_ground, sited_call};
ghost use Rattle.homeo_ground.specs.Sited.{sited, values};
ghost use Rattle.homeo_ground.specs.inner.Grounds.{ground_by, IsSite};

use homeo_context::Declarations;
use homeo_meaning::GroundCall;
use homeo_syntax::{Call, Client, Ident, List, Memory, Number};
use std::alloc::Global;

/// A call's name, its arguments, and the site of its client.
#[derive(Clone, Copy)]
pub struct SitedCall<'a> {
    /// The name of the transaction, where the call has it.
    pub name: Ident,
    /// The arguments, in the order of the parameters.
    pub args: &'a [Number],
    /// The number of the site, from 0.
    pub site: i64,
}

impl<'a> SitedCall<'a> {
    /// A call of a client, at its site.
    pub fn of(client: &'a Client, call: &'a Call) -> SitedCall<'a>
        ensures { sited result ≡ sited_call (plain_client client.now) (plain_call call.now) }
    {
        SitedCall {
            name: call.name,
            args: call.args.as_slice(),
            site: client.site.value,
        }
    }
}

/// The values of numbers.
pub(crate) fn values(alloc: Global, numbers: &[Number]) -> Result<Vec<i64>, Memory>
    ensures { IfOk result (λ made. made.items ≡ values numbers.now) }
{
    Ok(numbers.iter().map(|number| number.value).collect(alloc)?)
}

/// Makes of a list the values of numbers, in the memory that it has where they fit.
pub(crate) fn put_values(list: &mut Vec<i64>, numbers: &[Number]) -> Result<(), Memory>
    ensures { OnOk result (list.new.items ≡ values numbers.now) }
{
    list.clear();
    for number in numbers {
        list.push(number.value)?;
    }
    Ok(())
}

/// The ground call of a call, with its transaction by its number.
pub(crate) fn ground_call(
    alloc: Global,
    call: SitedCall<'_>,
    numbering: &Declarations,
) -> Result<GroundCall, Memory>
    requires site { IsSite call.site }
    requires few { length numbering.now.transactions < 2 ^ 32 }
    ensures { IfOk result (λ c. plain_ground c ≡ ground_by numbering.now.transactions (sited call.entry)) }
{
    Ok(GroundCall {
        transaction: numbering.transaction(call.name.name) as u32,
        args: List::from_vec(values(alloc, call.args)?),
        site: call.site as u32,
    })
}
