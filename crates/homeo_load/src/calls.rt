//! The calls of a client.

ghost use Rattle.std.specs.Prelude.{◌≡◌, ◌<◌, map, IfOk, OnOk, [], ◌∷◌, ◌++◌, cond};
ghost use Rattle.homeo_syntax.specs.SourceView.{plain_call};
ghost use Rattle.homeo_load.specs.Additions.{additions};
ghost use Rattle.homeo_load.specs.Load.{ident, number, transaction_name, load_call, dealt};

use crate::additions::{Addition, next_addition};
use homeo_draws::Draws;
use homeo_syntax::{Call, Ident, List, Memory, Number};
use std::alloc::Global;

/// How many objects, transactions and clients a load has.
pub(crate) const COUNT: u32 = 8;

pub(crate) fn ident(name: u32) -> Ident
    ensures { result ≡ ident name }
{
    Ident { name, offset: 0 }
}

pub(crate) fn number(value: u32) -> Number
    ensures { result ≡ number value }
{
    Number {
        value: value as i64,
        offset: 0,
    }
}

/// The name of the transaction that adds to an object.
#[tactic(auto, unfolding(crate::specs::Key::definitions))]
pub(crate) fn transaction_name(object: u32) -> u32
    requires { object < 8 }
    ensures { result ≡ transaction_name object }
{
    if object == 0 { 8 } else { 9 + object }
}

#[tactic(auto, unfolding(crate::specs::Key::definitions, homeo_syntax::specs::Key::definitions))]
fn call(alloc: Global, object: u32, added: u32) -> Result<Call, Memory>
    requires { object < 8 }
    ensures { IfOk result (λ c. plain_call c ≡ load_call (record { object = object; number = added })) }
{
    let mut args = Vec::with_capacity(alloc, 1)?;
    args.push(number(added))?;
    Ok(Call {
        name: ident(transaction_name(object)),
        args: List::from_vec(args),
    })
}

/// Appends the call of an addition where it is taken.
fn push_if(list: &mut List<Call>, alloc: Global, taken: bool, a: Addition) -> Result<(), Memory>
    requires { a.object < 8 }
    ensures { OnOk result (map plain_call list.new.items
        ≡ map plain_call list.old.items ++ cond taken (load_call (record { object = a.object; number = a.number }) ∷ []) []) }
{
    if taken {
        list.push(call(alloc, a.object, a.number)?)?;
    }
    Ok(())
}

/// The calls of a client in a load of so many calls. Each client goes over all draws by itself.
#[tactic(auto, unfolding(crate::specs::Key::definitions))]
pub(crate) fn calls_of(
    alloc: Global,
    start: u64,
    calls: u32,
    client: u32,
) -> Result<List<Call>, Memory>
    ensures { IfOk result (λ l. map plain_call l.items ≡ map load_call (dealt client 0 (additions start calls))) }
{
    let mut draws = Draws { state: start };
    let mut list = List::new(alloc);
    list.reserve(u64::from(calls / COUNT) + 1)?;
    for k in 0..calls {
        let a = next_addition(&mut draws);
        push_if(&mut list, alloc, k % COUNT == client, a)?;
    }
    Ok(list)
}
