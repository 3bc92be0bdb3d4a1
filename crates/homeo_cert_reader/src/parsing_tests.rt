//! Tests, read from their nodes.

ghost use Rattle.std.specs.Prelude.{map, option_map, IfOk};
ghost use Rattle.homeo_syntax.specs.Low.{Comparison};
ghost use Rattle.homeo_syntax.specs.LowView.{plain_ltest};
ghost use Rattle.homeo_certificate.specs.Parse.{Gives, then, seen, many, parse_expr, parse_test};

use crate::cursor::Nodes;
use crate::parsing_expressions::expression;
use crate::room::list_with_room;
use homeo_certificate::Node;
use homeo_syntax::{Compare, LCond, LTest, List, Memory};
use std::alloc::Global;

/// A test whose nodes nest at most so deep.
#[cycle(tests)]
#[tactic(auto, using(homeo_syntax::proofs::LowViews::low_phrase_views))]
fn test(alloc: Global, nodes: &mut Nodes, levels: u32) -> Result<Option<LTest>, Memory>
    ensures { IfOk result (λ o. Gives (parse_test levels nodes.old) (option_map plain_ltest o) nodes.new) }
{
    if levels == 0 {
        return Ok(None);
    }
    let Some(node) = nodes.next() else {
        return Ok(None);
    };
    match node {
        Node::True => Ok(Some(LTest::True)),
        Node::Not(count) => match tests(alloc, nodes, count, levels - 1)? {
            Some(tests) => Ok(Some(LTest::Not(LCond { tests }))),
            None => Ok(None),
        },
        Node::Comparison(op) => comparison(alloc, nodes, op, levels - 1),
        _ => Ok(None),
    }
}

/// So many of them, one after another.
#[cycle(tests)]
pub(crate) fn tests(
    alloc: Global,
    nodes: &mut Nodes,
    count: u64,
    levels: u32,
) -> Result<Option<List<LTest>>, Memory>
    ensures { IfOk result (λ o. Gives (many (parse_test levels) count nodes.old) (option_map (λ l. map plain_ltest l.items) o) nodes.new) }
{
    let mut tests = list_with_room(alloc, count)?;
    for _ in 0..count {
        match test(alloc, nodes, levels)? {
            Some(t) => tests.push(t)?,
            None => return Ok(None),
        }
    }
    Ok(Some(tests))
}

/// A comparison's two expressions.
#[tactic(auto, using(homeo_syntax::proofs::LowViews::low_phrase_views))]
fn comparison(
    alloc: Global,
    nodes: &mut Nodes,
    op: Compare,
    levels: u32,
) -> Result<Option<LTest>, Memory>
    ensures { IfOk result (λ o. Gives
        (then (parse_expr levels nodes.old) (λ a rest. seen (Comparison op a) (parse_expr levels rest)))
        (option_map plain_ltest o) nodes.new) }
{
    let Some(left) = expression(alloc, nodes, levels)? else {
        return Ok(None);
    };
    let Some(right) = expression(alloc, nodes, levels)? else {
        return Ok(None);
    };
    Ok(Some(LTest::Compare { op, left, right }))
}
