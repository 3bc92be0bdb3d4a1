//! The workload of a load.

ghost use Rattle.std.specs.Prelude.{◌≡◌, ◌≤◌, ◌<◌, map, IfOk};
ghost use Rattle.homeo_syntax.specs.SourceView.{plain_client, plain_transaction, plain_workload};
ghost use Rattle.homeo_meaning.specs.Acceptance.{IsAccepted};
ghost use Rattle.homeo_load.specs.Additions.{additions};
ghost use Rattle.homeo_load.specs.Load.{load_object, load_transaction, load_client, load_workload, eight};

use crate::calls::{COUNT, calls_of, ident, number, transaction_name};
use crate::names::names;
use homeo_meaning::Accepted;
use homeo_syntax::{
    Client, Command, Expr, List, Memory, ObjectDecl, RangeDecl, Transaction, Workload,
};
use std::alloc::Global;

/// The number of the first client's name.
const FIRST_CLIENT: u32 = 17;

/// The number of the parameter's name.
const PARAMETER: u32 = 9;

/// How many sites a load has.
const SITES: u32 = 4;

#[tactic(auto, unfolding(crate::specs::Key::definitions))]
fn object(place: u32) -> ObjectDecl
    ensures { result ≡ load_object place }
{
    ObjectDecl {
        name: ident(place),
        lo: number(0),
        hi: number(1_000_000),
        start: number(0),
    }
}

/// The transaction that adds its argument to an object, and prints it.
#[tactic(auto, using(homeo_syntax::proofs::SourceViews::phrase_views, homeo_syntax::proofs::SourceViews::command_views), unfolding(crate::specs::Key::definitions, homeo_syntax::specs::Key::definitions))]
fn transaction(alloc: Global, object: u32) -> Result<Transaction, Memory>
    requires { object < 8 }
    ensures { IfOk result (λ t. plain_transaction t ≡ load_transaction object) }
{
    let mut params = List::new(alloc);
    params.push(RangeDecl {
        name: ident(PARAMETER),
        lo: number(1),
        hi: number(9),
    })?;
    let mut terms = List::new(alloc);
    terms.push(Expr::Read(ident(object)))?;
    terms.push(Expr::Name(ident(PARAMETER)))?;
    let mut body = List::new(alloc);
    body.push(Command::Write {
        object: ident(object),
        value: Expr::Sum(terms),
    })?;
    body.push(Command::Print {
        value: Expr::Name(ident(PARAMETER)),
    })?;
    Ok(Transaction {
        name: ident(transaction_name(object)),
        params,
        body,
    })
}

/// A client with its calls.
#[tactic(auto, unfolding(crate::specs::Key::definitions, homeo_syntax::specs::Key::definitions))]
fn client(alloc: Global, start: u64, calls: u32, place: u32) -> Result<Client, Memory>
    requires { place < 8 }
    ensures { IfOk result (λ c. plain_client c ≡ load_client (additions start calls) place) }
{
    let calls = calls_of(alloc, start, calls, place)?;
    Ok(Client {
        name: ident(FIRST_CLIENT + place),
        site: number(place % SITES),
        calls,
    })
}

fn objects(alloc: Global) -> Result<List<ObjectDecl>, Memory>
    ensures { IfOk result (λ l. l.items ≡ map load_object eight) }
{
    let mut list = List::new(alloc);
    for i in 0..COUNT {
        list.push(object(i))?;
    }
    Ok(list)
}

fn transactions(alloc: Global) -> Result<List<Transaction>, Memory>
    ensures { IfOk result (λ l. map plain_transaction l.items ≡ map load_transaction eight) }
{
    let mut list = List::new(alloc);
    for i in 0..COUNT {
        list.push(transaction(alloc, i)?)?;
    }
    Ok(list)
}

fn clients(alloc: Global, start: u64, calls: u32) -> Result<List<Client>, Memory>
    ensures { IfOk result (λ l. map plain_client l.items ≡ map (load_client (additions start calls)) eight) }
{
    let mut list = List::new(alloc);
    for i in 0..COUNT {
        list.push(client(alloc, start, calls, i)?)?;
    }
    Ok(list)
}

#[tactic(auto, unfolding(crate::specs::Key::definitions, homeo_syntax::specs::Key::definitions))]
fn load(alloc: Global, start: u64, calls: u32) -> Result<Workload, Memory>
    ensures { IfOk result (λ w. plain_workload w ≡ load_workload start calls) }
{
    let names = names(alloc)?;
    let objects = objects(alloc)?;
    let transactions = transactions(alloc)?;
    let clients = clients(alloc, start, calls)?;
    Ok(Workload {
        version: 1,
        names,
        sites: number(SITES),
        objects,
        relations: List::new(alloc),
        transactions,
        clients,
        schedule: None,
        end: 0,
        weights: List::new(alloc),
    })
}

/// The workload of a load (this project's rule): 8 objects at 4 sites, 8 clients, and so many calls, which the draws from the
/// number on choose. Each call adds a number from 1 to 9 to an object, and prints it. No rule is checked, since each load
/// meets the rules of a workload that is to be run.
///
/// # Errors
///
/// `Memory` where memory is wanting.
#[tactic(auto, using(crate::proofs::Accepted::load_accepted))]
pub fn accepted_load(alloc: Global, number: u64, calls: u32) -> Result<Accepted, Memory>
    requires { calls ≤ 20000 }
    ensures accepted { IfOk result (λ w. IsAccepted (plain_workload w)) }
    ensures made { IfOk result (λ w. plain_workload w ≡ load_workload number calls) }
{
    let workload = load(alloc, number, calls)?;
    Ok(Accepted::new(workload))
}
