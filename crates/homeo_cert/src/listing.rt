//! The nodes of commands, in the order of their text.

ghost use Rattle.std.specs.Prelude.{◌≡◌, ◌∷◌, ◌++◌, map, OnOk, IfOk};
ghost use Rattle.homeo_syntax.specs.LowView.{low_exprs, low_tests, low_commands, plain_lexpr, plain_ltest, plain_lcond, plain_lcommand};
ghost use Rattle.homeo_certificate.specs.Nodes.{name_node, write_node, test_count, expr_nodes, exprs_nodes, test_nodes, cond_nodes, command_nodes, commands_nodes};
ghost use Rattle.homeo_certificate.specs.declared.nodes.Node.TheVariants.{If};

use homeo_certificate::Node;
use homeo_syntax::{LCommand, LCond, LExpr, LTest, Memory, SplitName};
use std::alloc::Global;

/// The nodes of a command.
pub(crate) fn nodes_of(alloc: Global, c: &LCommand) -> Result<Vec<Node>, Memory>
    ensures { IfOk result (λ ns. ns.items ≡ command_nodes (plain_lcommand c.now)) }
{
    let mut nodes = Vec::new(alloc);
    push_command(&mut nodes, c)?;
    Ok(nodes)
}

/// The node of a name that is read.
#[tactic(auto, unfolding(homeo_certificate::specs::Key::definitions))]
fn name_node(name: SplitName) -> Node
    ensures { result ≡ name_node name }
{
    match name {
        SplitName::Whole(object) | SplitName::Base(object) => Node::Base(object),
        SplitName::Delta { object, site } => Node::Delta { object, site },
    }
}

/// The node of a name that is written.
#[tactic(auto, unfolding(homeo_certificate::specs::Key::definitions))]
fn write_node(name: SplitName) -> Node
    ensures { result ≡ write_node name }
{
    match name {
        SplitName::Whole(object) | SplitName::Base(object) => Node::Write { object, site: 0 },
        SplitName::Delta { object, site } => Node::Write { object, site },
    }
}

#[cycle(expression_nodes)]
#[tactic(auto, using(homeo_syntax::proofs::Measures::low_expr_parts, crate::proofs::Listings::expr_listings))]
fn push_expr(nodes: &mut Vec<Node>, e: &LExpr) -> Result<(), Memory>
    ensures { OnOk result (nodes.new.items ≡ nodes.old.items ++ expr_nodes (plain_lexpr e.now)) }
{
    match e {
        LExpr::Literal(n) => Ok(nodes.push(Node::Literal(*n))?),
        LExpr::Temp(t) => Ok(nodes.push(Node::Temp(*t))?),
        LExpr::Read(x) => Ok(nodes.push(name_node(*x))?),
        LExpr::Sum(es) => {
            let es = es.as_slice();
            nodes.push(Node::Sum(es.len() as u64))?;
            push_exprs(nodes, es)
        }
        LExpr::Product(es) => {
            let es = es.as_slice();
            nodes.push(Node::Product(es.len() as u64))?;
            push_exprs(nodes, es)
        }
        LExpr::Neg(e) => {
            nodes.push(Node::Neg)?;
            push_expr(nodes, e)
        }
    }
}

#[cycle(expression_nodes)]
#[tactic(auto, using(homeo_syntax::proofs::Measures::low_expr_parts, crate::proofs::Listings::expr_listings))]
fn push_exprs(nodes: &mut Vec<Node>, es: &[LExpr]) -> Result<(), Memory>
    ensures { OnOk result (nodes.new.items ≡ nodes.old.items ++ exprs_nodes (low_exprs (map plain_lexpr es.now))) }
{
    for e in es {
        push_expr(nodes, e)?;
    }
    Ok(())
}

#[cycle(test_nodes)]
#[tactic(auto, using(homeo_syntax::proofs::Measures::low_test_parts, crate::proofs::Listings::test_listings))]
fn push_test(nodes: &mut Vec<Node>, t: &LTest) -> Result<(), Memory>
    ensures { OnOk result (nodes.new.items ≡ nodes.old.items ++ test_nodes (plain_ltest t.now)) }
{
    match t {
        LTest::True => Ok(nodes.push(Node::True)?),
        LTest::Not(c) => {
            let tests = c.tests.as_slice();
            nodes.push(Node::Not(tests.len() as u64))?;
            push_tests(nodes, tests)
        }
        LTest::Compare { op, left, right } => {
            nodes.push(Node::Comparison(*op))?;
            push_expr(nodes, left)?;
            push_expr(nodes, right)
        }
    }
}

#[cycle(test_nodes)]
#[tactic(auto, using(homeo_syntax::proofs::Measures::low_test_parts, crate::proofs::Listings::test_listings))]
fn push_tests(nodes: &mut Vec<Node>, ts: &[LTest]) -> Result<(), Memory>
    ensures { OnOk result (nodes.new.items ≡ nodes.old.items ++ cond_nodes (low_tests (map plain_ltest ts.now))) }
{
    for t in ts {
        push_test(nodes, t)?;
    }
    Ok(())
}

#[cycle(command_nodes)]
#[tactic(auto, using(homeo_syntax::proofs::Measures::low_command_parts, crate::proofs::Listings::command_listings))]
fn push_command(nodes: &mut Vec<Node>, c: &LCommand) -> Result<(), Memory>
    ensures { OnOk result (nodes.new.items ≡ nodes.old.items ++ command_nodes (plain_lcommand c.now)) }
{
    match c {
        LCommand::Skip => Ok(nodes.push(Node::Skip)?),
        LCommand::Assign { target, value } => {
            nodes.push(Node::Assign)?;
            nodes.push(Node::Temp(*target))?;
            push_expr(nodes, value)
        }
        LCommand::Write { target, value } => {
            nodes.push(write_node(*target))?;
            push_expr(nodes, value)
        }
        LCommand::Print { value } => {
            nodes.push(Node::Print)?;
            push_expr(nodes, value)
        }
        LCommand::Seq { commands } => {
            let commands = commands.as_slice();
            nodes.push(Node::Seq(commands.len() as u64))?;
            push_commands(nodes, commands)
        }
        LCommand::If { test, yes, no } => {
            push_if(nodes, test)?;
            push_command(nodes, yes)?;
            push_command(nodes, no)
        }
    }
}

/// The node of an `if`, and those of its condition.
#[tactic(auto, using(crate::proofs::Listings::test_listings))]
fn push_if(nodes: &mut Vec<Node>, test: &LCond) -> Result<(), Memory>
    ensures { OnOk result (nodes.new.items ≡ nodes.old.items ++ If (test_count (plain_lcond test.now)) ∷ cond_nodes (plain_lcond test.now)) }
{
    let tests = test.tests.as_slice();
    nodes.push(Node::If(tests.len() as u64))?;
    push_tests(nodes, tests)
}

#[cycle(command_nodes)]
#[tactic(auto, using(homeo_syntax::proofs::Measures::low_command_parts, crate::proofs::Listings::command_listings))]
fn push_commands(nodes: &mut Vec<Node>, cs: &[LCommand]) -> Result<(), Memory>
    ensures { OnOk result (nodes.new.items ≡ nodes.old.items ++ commands_nodes (low_commands (map plain_lcommand cs.now))) }
{
    for c in cs {
        push_command(nodes, c)?;
    }
    Ok(())
}
