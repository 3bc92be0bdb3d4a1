//! The order in which a workload's schedule names its clients.

ghost use Rattle.std.specs.Prelude.{◌≡◌, map, IfOk};
ghost use Rattle.homeo_syntax.specs.SourceView.{plain_client, plain_workload};
ghost use Rattle.homeo_order.specs.Order.{client_names, order_of};

use homeo_context::Places;
use homeo_syntax::{Client, Ident, Memory, Workload};
use std::alloc::Global;

/// The names of the schedule. A workload without a schedule has none.
#[tactic(auto, unfolding(homeo_syntax::specs::Key::definitions))]
pub fn order(w: &Workload) -> &[Ident]
    ensures { result.now ≡ order_of (plain_workload w.now).schedule }
{
    match &w.schedule {
        Some(order) => order.as_slice(),
        None => &[],
    }
}

/// The places of the clients by their names.
///
/// # Errors
///
/// `Memory` when out of memory.
#[tactic(auto, unfolding(homeo_syntax::specs::Key::definitions, crate::specs::Key::definitions))]
pub fn client_places(alloc: Global, w: &Workload) -> Result<Places, Memory>
    ensures { IfOk result (λ p. p ≡ client_names (plain_workload w.now)) }
{
    let names = names_of(alloc, w.clients.as_slice())?;
    Places::of(alloc, names)
}

fn names_of(alloc: Global, clients: &[Client]) -> Result<Vec<u32>, Memory>
    ensures { IfOk result (λ names. names.items ≡ map (λ c. c.name.name) (map plain_client clients.now)) }
{
    let mut names = Vec::new(alloc);
    for client in clients {
        names.push(client.name.name)?;
    }
    Ok(names)
}
