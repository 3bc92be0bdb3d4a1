//! Calls that are measured, told by hand from the sizes of their L forms.

ghost use Rattle.std.specs.Prelude.{◌≡◌, ◌≤◌, [], ◌∷◌, pos, length};
ghost use Rattle.homeo_desugar.specs.SchemaFits.{SchemaFits};

use crate::same::same;
use homeo_desugar::form_call;
use homeo_size::{Layout, Measure, TOO_MANY_PRINTS, count_prints, is_too_large, measure};
use homeo_syntax::{
    Command, Compare, Cond, Expr, Ident, List, Number, ObjectDecl, RangeDecl, RelationDecl, Test,
    Transaction, Workload,
};
use std::alloc::Global;
use std::process::Abort;

/// A number that stands nowhere.
fn number(value: i64) -> Number
    ensures { result.value ≡ value }
{
    Number { value, offset: 0 }
}

const ARGUMENT: Ident = Ident { name: 0, offset: 0 };

const TEMP: Ident = Ident { name: 1, offset: 0 };

const OBJECT: Ident = Ident { name: 2, offset: 0 };

const RELATION: Ident = Ident { name: 3, offset: 0 };

const FIELD: Ident = Ident { name: 4, offset: 0 };

const ROW: Ident = Ident { name: 5, offset: 0 };

const COUNTED: Ident = Ident { name: 6, offset: 0 };

const SITES: u64 = 2;

/// A declaration within 0..9.
fn digit(name: Ident) -> RangeDecl {
    RangeDecl {
        name,
        lo: number(0),
        hi: number(9),
    }
}

fn object() -> ObjectDecl {
    ObjectDecl {
        name: OBJECT,
        lo: number(0),
        hi: number(9),
        start: number(0),
    }
}

/// A relation of so many slots with one field.
fn relation(rt: &impl Abort, alloc: Global, slots: u8) -> RelationDecl
    ensures slots { result.slots.value ≡ pos slots }
    ensures fields { length result.fields.items ≡ 1 }
{
    let mut fields = List::new(alloc);
    fields.push(digit(FIELD)).expect(rt, "memory");
    RelationDecl {
        name: RELATION,
        slots: number(slots as i64),
        fields,
    }
}

/// A workload of one object and this relation.
fn workload(rt: &impl Abort, alloc: Global, relation: RelationDecl) -> Workload
    ensures objects { length result.objects.items ≡ 1 }
    ensures relations { result.relations.items ≡ relation ∷ [] }
{
    let mut objects = List::new(alloc);
    objects.push(object()).expect(rt, "memory");
    let mut relations = List::new(alloc);
    relations.push(relation).expect(rt, "memory");
    Workload {
        version: 1,
        names: List::new(alloc),
        sites: number(SITES as i64),
        objects,
        relations,
        transactions: List::new(alloc),
        clients: List::new(alloc),
        schedule: None,
        end: 0,
        weights: List::new(alloc),
    }
}

fn sum(rt: &impl Abort, alloc: Global, a: Expr, b: Expr) -> Expr {
    let mut terms = List::new(alloc);
    terms.push(a).expect(rt, "memory");
    terms.push(b).expect(rt, "memory");
    Expr::Sum(terms)
}

fn always(alloc: Global) -> Cond {
    Cond {
        tests: List::new(alloc),
    }
}

fn less(rt: &impl Abort, alloc: Global, left: Expr, right: Expr) -> Cond {
    let test = Test::Compare {
        op: Compare::Less,
        left,
        right,
    };
    let mut tests = List::new(alloc);
    tests.push(test).expect(rt, "memory");
    Cond { tests }
}

fn assign(value: Expr) -> Command {
    Command::Assign {
        target: TEMP,
        value,
    }
}

fn choose(rt: &impl Abort, alloc: Global, test: Cond, yes: Command) -> Command {
    let yes = Box::new(alloc, yes).expect(rt, "memory");
    let no = Box::new(alloc, Command::Skip).expect(rt, "memory");
    Command::If { test, yes, no }
}

/// A body of one command.
fn alone(rt: &impl Abort, alloc: Global, command: Command) -> List<Command> {
    let mut body = List::new(alloc);
    body.push(command).expect(rt, "memory");
    body
}

fn foreach(rt: &impl Abort, alloc: Global, command: Command) -> Command {
    Command::Foreach {
        row: ROW,
        relation: RELATION,
        test: Box::new(alloc, always(alloc)).expect(rt, "memory"),
        body: alone(rt, alloc, command),
    }
}

fn transaction(rt: &impl Abort, alloc: Global, body: List<Command>) -> Transaction {
    let mut params = List::new(alloc);
    params.push(digit(ARGUMENT)).expect(rt, "memory");
    Transaction {
        name: ARGUMENT,
        params,
        body,
    }
}

/// What is measured of a call's L form where the argument is 9.
fn measured_form(rt: &impl Abort, alloc: Global, t: &Transaction, layout: &Layout) -> Measure
    requires { SchemaFits layout.now }
{
    let form = form_call(alloc, layout.declared(), t, &[9]).expect(rt, "memory");
    let measure = measure(alloc, &form, layout, SITES).expect(rt, "memory");
    drop(form);
    measure
}

/// What is measured of such commands where the argument is 9, if their form isn't too large to be made, and how many print
/// commands there are.
fn measured(
    rt: &impl Abort,
    alloc: Global,
    slots: u8,
    body: List<Command>,
) -> (Option<Measure>, u64)
    requires least { 1 ≤ slots }
    requires most { slots ≤ 64 }
{
    let relation = relation(rt, alloc, slots);
    let workload = workload(rt, alloc, relation);
    let layout = Layout::of(alloc, &workload).expect(rt, "memory");
    drop(workload);
    let t = transaction(rt, alloc, body);
    let prints = count_prints(&t, &layout);
    let large = is_too_large(alloc, &t, &[number(9)], &layout, SITES).expect(rt, "memory");
    let measure = if large {
        None
    } else {
        Some(measured_form(rt, alloc, &t, &layout))
    };
    drop(t);
    drop(layout);
    (measure, prints)
}

/// Doubles the temporary.
fn double(rt: &impl Abort, alloc: Global) -> Command {
    assign(sum(rt, alloc, Expr::Name(TEMP), Expr::Name(TEMP)))
}

/// Adds 1 to the object where it is below the argument.
fn raise(rt: &impl Abort, alloc: Global) -> Command {
    let test = less(rt, alloc, Expr::Read(OBJECT), Expr::Name(ARGUMENT));
    let value = sum(rt, alloc, Expr::Read(OBJECT), Expr::Literal(1));
    let write = Command::Write {
        object: OBJECT,
        value,
    };
    choose(rt, alloc, test, write)
}

/// Doubles a temporary twice, raises the object and prints it.
fn without_relations(rt: &impl Abort, alloc: Global) -> List<Command> {
    let print = Command::Print {
        value: Expr::Read(OBJECT),
    };
    let mut body = alone(rt, alloc, assign(Expr::Literal(1)));
    body.push(double(rt, alloc)).expect(rt, "memory");
    body.push(double(rt, alloc)).expect(rt, "memory");
    body.push(raise(rt, alloc)).expect(rt, "memory");
    body.push(print).expect(rt, "memory");
    body
}

/// Doubles a temporary twice, and writes an object where it is below the argument.
#[test]
fn a_call_without_relations(rt: HostRuntime) {
    let alloc = rt.alloc();
    let body = without_relations(&rt, alloc);
    let measure = Measure {
        size: 1 + 2 + 4 + 8 + (2 + 7 + 35 + 1) + (1 + 14),
        depth: 6,
        weight: 9 + 1,
        rows: 3,
    };
    same(&rt, &measured(&rt, alloc, 3, body), &(Some(measure), 1));
}

/// How many slots have a field below 5.
fn count(rt: &impl Abort, alloc: Global) -> Expr {
    let field = Expr::Row {
        row: COUNTED,
        field: FIELD,
    };
    let test = less(rt, alloc, field, Expr::Literal(5));
    Expr::Count {
        row: COUNTED,
        relation: RELATION,
        test: Box::new(alloc, test).expect(rt, "memory"),
    }
}

/// Prints, for each slot, how many slots have a field below 5.
#[test]
fn a_count_in_a_loop(rt: HostRuntime) {
    let alloc = rt.alloc();
    let value = count(&rt, alloc);
    let command = foreach(&rt, alloc, Command::Print { value });
    let body = alone(&rt, alloc, command);
    let printed = 1 + 2 + (2 + 13 + 4 + 1) + (2 + 13 + 6 + 1) + (2 + 13 + 8 + 1) + 8;
    let visit = 2 + 7 + (1 + printed) + 1;
    let measure = Measure {
        size: 1 + (1 + 3 * visit),
        depth: 4,
        weight: 9,
        rows: 9 * 9 * 9,
    };
    same(&rt, &measured(&rt, alloc, 3, body), &(Some(measure), 3));
}

/// Four loops within one another over 64 slots.
#[test]
fn far_too_many_nodes(rt: HostRuntime) {
    let alloc = rt.alloc();
    let mut command = Command::Print {
        value: Expr::Literal(1),
    };
    for _ in 0..4 {
        command = foreach(&rt, alloc, command);
    }
    let body = alone(&rt, alloc, command);
    let found = measured(&rt, alloc, 64, body);
    same(&rt, &found, &(None, TOO_MANY_PRINTS));
}
