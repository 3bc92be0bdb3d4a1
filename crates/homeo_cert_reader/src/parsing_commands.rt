//! Commands, read from their nodes.

ghost use Rattle.std.specs.Prelude.{map, option_map, IfOk};
ghost use Rattle.homeo_syntax.specs.Low.{Assign, If};
ghost use Rattle.homeo_syntax.specs.LowView.{low_tests, plain_lcommand};
ghost use Rattle.homeo_certificate.specs.Parse.{Gives, IsWhole, then, seen, many, parse_expr, parse_test, parse_temp, parse_command};

use crate::cursor::Nodes;
use crate::parsing_expressions::expression;
use crate::parsing_tests::tests;
use crate::room::list_with_room;
use homeo_certificate::Node;
use homeo_syntax::{LCommand, LCond, List, Memory, SplitName, Temp};
use std::alloc::Global;

/// A command whose nodes nest at most so deep.
#[cycle(commands)]
#[tactic(auto, using(homeo_syntax::proofs::LowViews::low_command_views))]
pub(crate) fn command(
    alloc: Global,
    nodes: &mut Nodes,
    levels: u32,
) -> Result<Option<LCommand>, Memory>
    ensures { IfOk result (λ o. Gives (parse_command levels nodes.old) (option_map plain_lcommand o) nodes.new) }
{
    if levels == 0 {
        return Ok(None);
    }
    let Some(node) = nodes.next() else {
        return Ok(None);
    };
    match node {
        Node::Skip => Ok(Some(LCommand::Skip)),
        Node::Assign => assignment(alloc, nodes, levels - 1),
        Node::Write { object, site } => match expression(alloc, nodes, levels - 1)? {
            Some(value) => {
                let target = SplitName::Delta { object, site };
                Ok(Some(LCommand::Write { target, value }))
            }
            None => Ok(None),
        },
        Node::Print => match expression(alloc, nodes, levels - 1)? {
            Some(value) => Ok(Some(LCommand::Print { value })),
            None => Ok(None),
        },
        Node::Seq(count) => match commands(alloc, nodes, count, levels - 1)? {
            Some(commands) => Ok(Some(LCommand::Seq { commands })),
            None => Ok(None),
        },
        Node::If(count) => choice(alloc, nodes, count, levels - 1),
        _ => Ok(None),
    }
}

/// So many of them, one after another.
#[cycle(commands)]
fn commands(
    alloc: Global,
    nodes: &mut Nodes,
    count: u64,
    levels: u32,
) -> Result<Option<List<LCommand>>, Memory>
    ensures { IfOk result (λ o. Gives (many (parse_command levels) count nodes.old) (option_map (λ l. map plain_lcommand l.items) o) nodes.new) }
{
    let mut commands = list_with_room(alloc, count)?;
    for _ in 0..count {
        match command(alloc, nodes, levels)? {
            Some(c) => commands.push(c)?,
            None => return Ok(None),
        }
    }
    Ok(Some(commands))
}

/// So many tests, and the two commands between which they choose.
#[cycle(commands)]
#[tactic(auto, using(homeo_syntax::proofs::LowViews::low_command_views, homeo_syntax::proofs::LowViews::low_phrase_views))]
fn choice(
    alloc: Global,
    nodes: &mut Nodes,
    count: u64,
    levels: u32,
) -> Result<Option<LCommand>, Memory>
    ensures { IfOk result (λ o. Gives
        (then (many (parse_test levels) count nodes.old)
        (λ ts rest. then (parse_command levels rest) (λ c last. seen (If (low_tests ts) c) (parse_command levels last))))
        (option_map plain_lcommand o) nodes.new) }
{
    let Some(tests) = tests(alloc, nodes, count, levels)? else {
        return Ok(None);
    };
    let Some(yes) = boxed(alloc, nodes, levels)? else {
        return Ok(None);
    };
    let Some(no) = boxed(alloc, nodes, levels)? else {
        return Ok(None);
    };
    let test = LCond { tests };
    Ok(Some(LCommand::If { test, yes, no }))
}

#[cycle(commands)]
fn boxed(alloc: Global, nodes: &mut Nodes, levels: u32) -> Result<Option<Box<LCommand>>, Memory>
    ensures { IfOk result (λ o. Gives (parse_command levels nodes.old) (option_map (λ b. plain_lcommand b.value) o) nodes.new) }
{
    match command(alloc, nodes, levels)? {
        Some(c) => Ok(Some(Box::new(alloc, c)?)),
        None => Ok(None),
    }
}

/// A temporary, and the expression that it is set to.
#[tactic(auto, using(homeo_syntax::proofs::LowViews::low_command_views))]
fn assignment(alloc: Global, nodes: &mut Nodes, levels: u32) -> Result<Option<LCommand>, Memory>
    ensures { IfOk result (λ o. Gives
        (then (parse_temp levels nodes.old) (λ t rest. seen (Assign t) (parse_expr levels rest)))
        (option_map plain_lcommand o) nodes.new) }
{
    let Some(target) = temporary(nodes, levels) else {
        return Ok(None);
    };
    match expression(alloc, nodes, levels)? {
        Some(value) => Ok(Some(LCommand::Assign { target, value })),
        None => Ok(None),
    }
}

fn temporary(nodes: &mut Nodes, levels: u32) -> Option<Temp>
    ensures { Gives (parse_temp levels nodes.old) result nodes.new }
{
    if levels == 0 {
        return None;
    }
    let Some(node) = nodes.next() else {
        return None;
    };
    match node {
        Node::Temp(t) => Some(t),
        _ => None,
    }
}

/// The command that the nodes are, if they are one and nest at most 1,000 deep.
pub(crate) fn whole_command(alloc: Global, nodes: &[Node]) -> Result<Option<LCommand>, Memory>
    ensures { IfOk result (λ o. IsWhole nodes.now (option_map plain_lcommand o)) }
{
    let mut left = Nodes::new(nodes);
    let read = command(alloc, &mut left, 1000)?;
    match left.next() {
        Some(_) => Ok(None),
        None => Ok(read),
    }
}
