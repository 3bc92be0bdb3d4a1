//! What the calls of a small workload come to.

ghost use Rattle.std.specs.Prelude.{◌≡◌};
ghost use Rattle.homeo_syntax.specs.SourceView.{plain_call, plain_client, plain_expr, plain_transaction, plain_workload};
ghost use Rattle.homeo_plan_tests.specs.inner.Example.{example, less, sale, cashier, transaction};

use crate::same::{same, same_items};
use homeo_context::Declarations;
use homeo_eval::{eval_call, initial, serial};
use homeo_meaning::{Accepted, CallId, GroundCall};
use homeo_syntax::{
    Call, Client, Command, Expr, Ident, List, Number, ObjectDecl, RangeDecl, Text, Transaction,
    Workload,
};
use std::alloc::Global;
use std::process::Abort;

const STOCK: Ident = Ident { name: 0, offset: 0 };

const SELL: Ident = Ident { name: 1, offset: 0 };

const AMOUNT: Ident = Ident { name: 2, offset: 0 };

const CASHIER: Ident = Ident { name: 3, offset: 0 };

fn stock_less_amount(rt: &impl Abort, alloc: Global) -> Expr
    ensures { plain_expr result ≡ less }
{
    let mut terms = List::new(alloc);
    terms.push(Expr::Read(STOCK)).expect(rt, "memory");
    let amount = Box::new(alloc, Expr::Name(AMOUNT)).expect(rt, "memory");
    terms.push(Expr::Neg(amount)).expect(rt, "memory");
    Expr::Sum(terms)
}

fn sale_of_1_to_3(rt: &impl Abort, alloc: Global) -> Transaction
    ensures { plain_transaction result ≡ transaction }
{
    let mut params = List::new(alloc);
    let amount = RangeDecl {
        name: AMOUNT,
        lo: Number {
            value: 1,
            offset: 0,
        },
        hi: Number {
            value: 3,
            offset: 0,
        },
    };
    params.push(amount).expect(rt, "memory");
    let mut body = List::new(alloc);
    let value = stock_less_amount(rt, alloc);
    let write = Command::Write {
        object: STOCK,
        value,
    };
    body.push(write).expect(rt, "memory");
    let print = Command::Print {
        value: Expr::Read(STOCK),
    };
    body.push(print).expect(rt, "memory");
    Transaction {
        name: SELL,
        params,
        body,
    }
}

fn sale_of_3(rt: &impl Abort, alloc: Global) -> Call
    ensures { plain_call result ≡ sale }
{
    let mut args = List::new(alloc);
    let amount = Number {
        value: 3,
        offset: 0,
    };
    args.push(amount).expect(rt, "memory");
    Call { name: SELL, args }
}

fn two_sales(rt: &impl Abort, alloc: Global) -> Client
    ensures { plain_client result ≡ cashier }
{
    let mut calls = List::new(alloc);
    calls.push(sale_of_3(rt, alloc)).expect(rt, "memory");
    calls.push(sale_of_3(rt, alloc)).expect(rt, "memory");
    Client {
        name: CASHIER,
        site: Number {
            value: 0,
            offset: 0,
        },
        calls,
    }
}

fn workload(rt: &impl Abort, alloc: Global) -> Workload
    ensures { plain_workload result ≡ example }
{
    let mut names = List::new(alloc);
    let stock = Text::of(alloc, "stock").expect(rt, "memory");
    names.push(stock).expect(rt, "memory");
    let sell = Text::of(alloc, "sell").expect(rt, "memory");
    names.push(sell).expect(rt, "memory");
    let amount = Text::of(alloc, "amount").expect(rt, "memory");
    names.push(amount).expect(rt, "memory");
    let cashier = Text::of(alloc, "cashier").expect(rt, "memory");
    names.push(cashier).expect(rt, "memory");
    let mut objects = List::new(alloc);
    let object = ObjectDecl {
        name: STOCK,
        lo: Number {
            value: 0,
            offset: 0,
        },
        hi: Number {
            value: 10,
            offset: 0,
        },
        start: Number {
            value: 5,
            offset: 0,
        },
    };
    objects.push(object).expect(rt, "memory");
    let mut transactions = List::new(alloc);
    let transaction = sale_of_1_to_3(rt, alloc);
    transactions.push(transaction).expect(rt, "memory");
    let mut clients = List::new(alloc);
    let client = two_sales(rt, alloc);
    clients.push(client).expect(rt, "memory");
    Workload {
        version: 1,
        names,
        sites: Number {
            value: 1,
            offset: 0,
        },
        objects,
        relations: List::new(alloc),
        transactions,
        clients,
        schedule: None,
        end: 0,
        weights: List::new(alloc),
    }
}

fn accepted(rt: &impl Abort, alloc: Global) -> Accepted
    ensures { plain_workload result ≡ example }
{
    let workload = workload(rt, alloc);
    Accepted::new(workload)
}

// The first sale leaves 2, and the second would leave -1, so it writes nothing.
#[test]
fn calls_are_run_one_after_another(rt: HostRuntime) {
    let alloc = rt.alloc();
    let w = accepted(&rt, alloc);
    let mut database = initial(alloc, &w).expect(&rt, "memory");
    let calls = [CallId { client: 0, seq: 1 }, CallId { client: 0, seq: 2 }];
    let logs = serial(alloc, &w, &calls, &mut database).expect(&rt, "memory");
    drop(w);
    match logs.as_slice() {
        [first, second] => {
            same_items(&rt, first.as_slice(), [2].as_slice());
            same_items(&rt, second.as_slice(), [2].as_slice());
        }
        _ => panic!(rt; "two logs"),
    }
    same_items(&rt, database.as_slice(), [2].as_slice());
}

// The first sale of 3 leaves 2 of 5, and prints that.
#[test]
fn a_call_is_run_by_itself(rt: HostRuntime) {
    let alloc = rt.alloc();
    let w = accepted(&rt, alloc);
    let declared = Declarations::of(alloc, &w).expect(&rt, "memory");
    let mut database = initial(alloc, &w).expect(&rt, "memory");
    let call = CallId { client: 0, seq: 1 };
    let prints = eval_call(alloc, &w, &declared, call, &mut database).expect(&rt, "memory");
    drop(declared);
    drop(w);
    same_items(&rt, prints.as_slice(), [2].as_slice());
    same_items(&rt, database.as_slice(), [2].as_slice());
}

#[test]
fn a_ground_call_is_copied(rt: HostRuntime) {
    let mut args = List::new(rt.alloc());
    args.push(3).expect(&rt, "memory");
    args.push(-1).expect(&rt, "memory");
    let call = GroundCall {
        transaction: 4,
        args,
        site: 2,
    };
    let copy = call.copy(rt.alloc()).expect(&rt, "memory");
    same(&rt, &(copy.transaction, copy.site), &(4, 2));
    same_items(&rt, copy.args.as_slice(), [3, -1].as_slice());
}
