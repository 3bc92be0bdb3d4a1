//! Expressions, read from their nodes.

ghost use Rattle.std.specs.Prelude.{map, option_map, IfOk};
ghost use Rattle.homeo_syntax.specs.LowView.{plain_lexpr};
ghost use Rattle.homeo_certificate.specs.Parse.{Gives, many, parse_expr};

use crate::cursor::Nodes;
use crate::room::list_with_room;
use homeo_certificate::Node;
use homeo_syntax::{LExpr, List, Memory, SplitName};
use std::alloc::Global;

/// An expression whose nodes nest at most so deep.
#[cycle(expressions)]
#[tactic(auto, using(homeo_syntax::proofs::LowViews::low_phrase_views))]
pub(crate) fn expression(
    alloc: Global,
    nodes: &mut Nodes,
    levels: u32,
) -> Result<Option<LExpr>, Memory>
    ensures { IfOk result (λ o. Gives (parse_expr levels nodes.old) (option_map plain_lexpr o) nodes.new) }
{
    if levels == 0 {
        return Ok(None);
    }
    let Some(node) = nodes.next() else {
        return Ok(None);
    };
    match node {
        Node::Literal(n) => Ok(Some(LExpr::Literal(n))),
        Node::Temp(t) => Ok(Some(LExpr::Temp(t))),
        Node::Base(x) => Ok(Some(LExpr::Read(SplitName::Base(x)))),
        Node::Delta { object, site } => Ok(Some(LExpr::Read(SplitName::Delta { object, site }))),
        Node::Sum(count) => match expressions(alloc, nodes, count, levels - 1)? {
            Some(es) => Ok(Some(LExpr::Sum(es))),
            None => Ok(None),
        },
        Node::Product(count) => match expressions(alloc, nodes, count, levels - 1)? {
            Some(es) => Ok(Some(LExpr::Product(es))),
            None => Ok(None),
        },
        Node::Neg => match expression(alloc, nodes, levels - 1)? {
            Some(e) => Ok(Some(LExpr::Neg(Box::new(alloc, e)?))),
            None => Ok(None),
        },
        _ => Ok(None),
    }
}

/// So many of them, one after another.
#[cycle(expressions)]
fn expressions(
    alloc: Global,
    nodes: &mut Nodes,
    count: u64,
    levels: u32,
) -> Result<Option<List<LExpr>>, Memory>
    ensures { IfOk result (λ o. Gives (many (parse_expr levels) count nodes.old) (option_map (λ l. map plain_lexpr l.items) o) nodes.new) }
{
    let mut es = list_with_room(alloc, count)?;
    for _ in 0..count {
        match expression(alloc, nodes, levels)? {
            Some(e) => es.push(e)?,
            None => return Ok(None),
        }
    }
    Ok(Some(es))
}
