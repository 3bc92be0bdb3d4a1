//! The tokens of declarations, clients and the whole workload.
#![tactic(auto, using(crate::proofs::DeclarationSteps::declaration_steps))]

ghost use Rattle.std.specs.Prelude.{◌≡◌, ◌++◌, map, IfOk, OnOk};
ghost use Rattle.std.specs.List.{flat_map};
ghost use Rattle.homeo_syntax.specs.SourceView.{plain_relation, plain_transaction, plain_call, plain_client, plain_schedule, plain_workload};
ghost use Rattle.homeo_syntax.specs.declared.token.Mark.TheVariants.{Comma, Semicolon};
ghost use Rattle.homeo_print_workload.specs.TokensOf.{name_of, number_of, separated, range_kinds, decl_kinds, object_kinds, relation_kinds, transaction_kinds, call_kinds, client_kinds, schedule_kinds, weights_kinds, head_kinds, workload_kinds};

use crate::commands::push_commands;
use crate::pieces::Pieces;
use homeo_syntax::{
    Call, Client, Ident, List, Mark, Memory, Number, ObjectDecl, RangeDecl, RelationDecl,
    Transaction, Workload,
};
use std::alloc::Global;

fn push_number(out: &mut Pieces, n: Number) -> Result<(), Memory>
    ensures pushed { OnOk result (out.new ≡ out.old ++ number_of n) }
{
    out.value(n.value)
}

/// Puts numbers behind the tokens, with a comma between each two.
fn push_numbers(out: &mut Pieces, ns: &[Number]) -> Result<(), Memory>
    ensures pushed { OnOk result (out.new ≡ out.old ++ separated Comma (map number_of ns.now)) }
{
    match ns {
        [] => Ok(()),
        [first, more @ ..] => {
            push_number(out, *first)?;
            for n in more {
                out.mark(Mark::Comma)?;
                push_number(out, *n)?;
            }
            Ok(())
        }
    }
}

/// Puts `lo..hi` behind the tokens.
fn push_range(out: &mut Pieces, lo: Number, hi: Number) -> Result<(), Memory>
    ensures pushed { OnOk result (out.new ≡ out.old ++ range_kinds lo hi) }
{
    push_number(out, lo)?;
    out.mark(Mark::Dots)?;
    push_number(out, hi)
}

fn push_decl(out: &mut Pieces, d: &RangeDecl) -> Result<(), Memory>
    ensures pushed { OnOk result (out.new ≡ out.old ++ decl_kinds d.now) }
{
    out.name(d.name)?;
    out.mark(Mark::In)?;
    push_range(out, d.lo, d.hi)
}

/// Puts fields or parameters behind the tokens, with a comma between each two.
fn push_decls(out: &mut Pieces, ds: &[RangeDecl]) -> Result<(), Memory>
    ensures pushed { OnOk result (out.new ≡ out.old ++ separated Comma (map decl_kinds ds.now)) }
{
    match ds {
        [] => Ok(()),
        [first, more @ ..] => {
            push_decl(out, first)?;
            for d in more {
                out.mark(Mark::Comma)?;
                push_decl(out, d)?;
            }
            Ok(())
        }
    }
}

fn push_object(out: &mut Pieces, d: &ObjectDecl) -> Result<(), Memory>
    ensures pushed { OnOk result (out.new ≡ out.old ++ object_kinds d.now) }
{
    out.mark(Mark::Object)?;
    out.name(d.name)?;
    out.mark(Mark::In)?;
    push_range(out, d.lo, d.hi)?;
    out.mark(Mark::Equal)?;
    push_number(out, d.start)
}

fn push_objects(out: &mut Pieces, ds: &[ObjectDecl]) -> Result<(), Memory>
    ensures pushed { OnOk result (out.new ≡ out.old ++ flat_map object_kinds ds.now) }
{
    for d in ds {
        push_object(out, d)?;
    }
    Ok(())
}

fn push_relation(out: &mut Pieces, r: &RelationDecl) -> Result<(), Memory>
    ensures pushed { OnOk result (out.new ≡ out.old ++ relation_kinds (plain_relation r.now)) }
{
    out.mark(Mark::Relation)?;
    out.name(r.name)?;
    out.mark(Mark::OpenBracket)?;
    push_number(out, r.slots)?;
    out.mark(Mark::CloseBracket)?;
    out.mark(Mark::Open)?;
    push_decls(out, r.fields.as_slice())?;
    out.mark(Mark::Close)
}

fn push_relations(out: &mut Pieces, rs: &[RelationDecl]) -> Result<(), Memory>
    ensures pushed { OnOk result (out.new
        ≡ out.old ++ flat_map relation_kinds (map plain_relation rs.now)) }
{
    for r in rs {
        push_relation(out, r)?;
    }
    Ok(())
}

fn push_transaction(out: &mut Pieces, t: &Transaction) -> Result<(), Memory>
    ensures pushed { OnOk result (out.new ≡ out.old ++ transaction_kinds (plain_transaction t.now)) }
{
    out.mark(Mark::Transaction)?;
    out.name(t.name)?;
    out.mark(Mark::Open)?;
    push_decls(out, t.params.as_slice())?;
    out.mark(Mark::Close)?;
    out.mark(Mark::OpenBrace)?;
    push_commands(out, t.body.as_slice())?;
    out.mark(Mark::CloseBrace)
}

fn push_transactions(out: &mut Pieces, ts: &[Transaction]) -> Result<(), Memory>
    ensures pushed { OnOk result (out.new
        ≡ out.old ++ flat_map transaction_kinds (map plain_transaction ts.now)) }
{
    for t in ts {
        push_transaction(out, t)?;
    }
    Ok(())
}

fn push_call(out: &mut Pieces, c: &Call) -> Result<(), Memory>
    ensures pushed { OnOk result (out.new ≡ out.old ++ call_kinds (plain_call c.now)) }
{
    out.name(c.name)?;
    out.mark(Mark::Open)?;
    push_numbers(out, c.args.as_slice())?;
    out.mark(Mark::Close)
}

/// Puts calls behind the tokens, with a semicolon between each two.
fn push_calls(out: &mut Pieces, cs: &[Call]) -> Result<(), Memory>
    ensures pushed { OnOk result (out.new
        ≡ out.old ++ separated Semicolon (map call_kinds (map plain_call cs.now))) }
{
    match cs {
        [] => Ok(()),
        [first, more @ ..] => {
            push_call(out, first)?;
            for c in more {
                out.mark(Mark::Semicolon)?;
                push_call(out, c)?;
            }
            Ok(())
        }
    }
}

fn push_client(out: &mut Pieces, c: &Client) -> Result<(), Memory>
    ensures pushed { OnOk result (out.new ≡ out.old ++ client_kinds (plain_client c.now)) }
{
    out.mark(Mark::Client)?;
    out.name(c.name)?;
    out.mark(Mark::At)?;
    push_number(out, c.site)?;
    out.mark(Mark::OpenBrace)?;
    push_calls(out, c.calls.as_slice())?;
    out.mark(Mark::CloseBrace)
}

fn push_clients(out: &mut Pieces, cs: &[Client]) -> Result<(), Memory>
    ensures pushed { OnOk result (out.new
        ≡ out.old ++ flat_map client_kinds (map plain_client cs.now)) }
{
    for c in cs {
        push_client(out, c)?;
    }
    Ok(())
}

fn push_names(out: &mut Pieces, xs: &[Ident]) -> Result<(), Memory>
    ensures pushed { OnOk result (out.new ≡ out.old ++ flat_map name_of xs.now) }
{
    for x in xs {
        out.name(*x)?;
    }
    Ok(())
}

/// Puts the schedule behind the tokens, and nothing where there is none.
fn push_schedule(out: &mut Pieces, schedule: &Option<List<Ident>>) -> Result<(), Memory>
    ensures pushed { OnOk result (out.new
        ≡ out.old ++ schedule_kinds (plain_schedule schedule.now)) }
{
    match schedule {
        Some(xs) => {
            out.mark(Mark::Schedule)?;
            push_names(out, xs.as_slice())
        }
        None => Ok(()),
    }
}

/// Puts the weights behind the tokens, where there are some.
fn push_weights(out: &mut Pieces, weights: &[Number]) -> Result<(), Memory>
    ensures pushed { OnOk result (out.new ≡ out.old ++ weights_kinds weights.now) }
{
    if weights.is_empty() {
        return Ok(());
    }
    out.mark(Mark::Weights)?;
    push_numbers(out, weights)?;
    Ok(())
}

/// Puts the version, the number of sites and their weights behind the tokens.
fn push_head(out: &mut Pieces, version: u8, sites: Number, weights: &[Number]) -> Result<(), Memory>
    ensures pushed { OnOk result (out.new ≡ out.old ++ head_kinds version sites weights.now) }
{
    out.mark(Mark::Workload)?;
    out.value(version as i64)?;
    out.mark(Mark::Sites)?;
    push_number(out, sites)?;
    push_weights(out, weights)
}

/// The tokens of a workload, in order.
pub(crate) fn pieces_of(alloc: Global, w: &Workload) -> Result<Pieces, Memory>
    ensures tokens { IfOk result (λ pieces. pieces ≡ workload_kinds (plain_workload w.now)) }
{
    let mut out = Pieces::new(alloc);
    push_head(&mut out, w.version, w.sites, w.weights.as_slice())?;
    push_objects(&mut out, w.objects.as_slice())?;
    push_relations(&mut out, w.relations.as_slice())?;
    push_transactions(&mut out, w.transactions.as_slice())?;
    push_clients(&mut out, w.clients.as_slice())?;
    push_schedule(&mut out, &w.schedule)?;
    out.mark(Mark::End)?;
    Ok(out)
}
