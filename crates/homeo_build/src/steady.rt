//! Forms of whose conditions at most one test fails at once.

ghost use Rattle.std.specs.Prelude.{◌≡◌, map, IsTrue, IfSome};
ghost use Rattle.homeo_syntax.specs.Low.{Literal};
ghost use Rattle.homeo_syntax.specs.LowView.{low_commands, plain_lexpr, plain_ltest, plain_lcond, plain_lcommand};
ghost use Rattle.homeo_syntax.specs.declared.phrase.Compare.TheVariants.{LessEqual};
ghost use Rattle.homeo_follow.specs.Steady.{IsSteadyTest, IsSteadyCond, IsSteady, AreSteady};
ghost use Rattle.homeo_build.specs.inner.Bounding.{AreInOrder, AreBounds};

use homeo_syntax::{Compare, LCommand, LCond, LExpr, LTest};

/// Whether a form is seen to be so: each of its conditions has one test at most, or tests whether a value is within bounds.
#[cycle(commands)]
#[tactic(auto, using(homeo_syntax::proofs::Measures::low_command_parts, homeo_syntax::proofs::LowViews::low_command_views), unfolding(homeo_follow::specs::Key::definitions))]
pub(crate) fn is_steady(command: &LCommand) -> bool
    ensures { IsTrue result → IsSteady (plain_lcommand command.now) }
{
    match command {
        LCommand::Skip => true,
        LCommand::Assign { .. } => true,
        LCommand::Write { .. } => true,
        LCommand::Print { .. } => true,
        LCommand::Seq { commands } => are_steady(commands.as_slice()),
        LCommand::If { test, yes, no } => {
            is_steady_condition(test) && is_steady(yes) && is_steady(no)
        }
    }
}

#[cycle(commands)]
#[tactic(auto, using(homeo_syntax::proofs::Measures::low_command_parts))]
fn are_steady(commands: &[LCommand]) -> bool
    ensures { IsTrue result → AreSteady (low_commands (map plain_lcommand commands.now)) }
{
    for command in commands {
        if !is_steady(command) {
            return false;
        }
    }
    true
}

#[cycle(conditions)]
#[tactic(auto, using(homeo_syntax::proofs::Measures::low_test_parts, homeo_syntax::proofs::LowViews::low_phrase_views))]
fn is_steady_condition(c: &LCond) -> bool
    ensures { IsTrue result → IsSteadyCond (plain_lcond c.now) }
{
    let tests = c.tests.as_slice();
    match tests.len() {
        0 => true,
        1 => is_steady_test(&tests[0]),
        2 => are_bounds(&tests[0], &tests[1]),
        _ => false,
    }
}

#[cycle(conditions)]
#[tactic(auto, using(homeo_syntax::proofs::Measures::low_test_parts, homeo_syntax::proofs::LowViews::low_phrase_views), unfolding(homeo_follow::specs::Key::definitions))]
fn is_steady_test(t: &LTest) -> bool
    ensures { IsTrue result → IsSteadyTest (plain_ltest t.now) }
{
    match t {
        LTest::True => true,
        LTest::Not(c) => is_steady_condition(c),
        LTest::Compare { .. } => true,
    }
}

/// Whether two tests are of whether a value is within bounds, of which the lower one is at most the upper one.
#[tactic(auto, using(homeo_syntax::proofs::LowViews::low_phrase_views))]
fn are_bounds(above: &LTest, below: &LTest) -> bool
    ensures { IsTrue result → AreBounds (plain_ltest above.now) (plain_ltest below.now) }
{
    match above {
        LTest::Compare {
            op,
            left,
            right: value,
        } => match below {
            LTest::Compare {
                op: other,
                left: same,
                right,
            } => {
                is_at_most(*op)
                    && is_at_most(*other)
                    && are_in_order(left, right)
                    && is_same(value, same)
            }
            _ => false,
        },
        _ => false,
    }
}

fn is_at_most(op: Compare) -> bool
    ensures { IsTrue result → op ≡ LessEqual }
{
    match op {
        Compare::LessEqual => true,
        Compare::Less | Compare::Equal => false,
    }
}

/// Whether both are numbers, and the first is at most the second.
fn are_in_order(low: &LExpr, high: &LExpr) -> bool
    ensures { IsTrue result → AreInOrder (plain_lexpr low.now) (plain_lexpr high.now) }
{
    let Some(low) = number(low) else {
        return false;
    };
    let Some(high) = number(high) else {
        return false;
    };
    low <= high
}

/// The number that an expression is, if it is one.
#[tactic(auto, using(homeo_syntax::proofs::LowViews::low_phrase_views))]
fn number(e: &LExpr) -> Option<i64>
    ensures { IfSome result (λ n. plain_lexpr e.now ≡ Literal n) }
{
    match e {
        LExpr::Literal(n) => Some(*n),
        _ => None,
    }
}

/// Whether two expressions are the same.
#[cycle(expressions)]
#[tactic(auto, using(homeo_syntax::proofs::Measures::low_expr_parts, homeo_syntax::proofs::LowViews::low_phrase_views))]
fn is_same(e: &LExpr, other: &LExpr) -> bool
    ensures { IsTrue result → plain_lexpr e.now ≡ plain_lexpr other.now }
{
    match e {
        LExpr::Literal(n) => match other {
            LExpr::Literal(m) => n == m,
            _ => false,
        },
        LExpr::Temp(t) => match other {
            LExpr::Temp(u) => t == u,
            _ => false,
        },
        LExpr::Read(x) => match other {
            LExpr::Read(y) => x == y,
            _ => false,
        },
        LExpr::Sum(es) => match other {
            LExpr::Sum(others) => are_same(es.as_slice(), others.as_slice()),
            _ => false,
        },
        LExpr::Product(es) => match other {
            LExpr::Product(others) => are_same(es.as_slice(), others.as_slice()),
            _ => false,
        },
        LExpr::Neg(e) => match other {
            LExpr::Neg(other) => is_same(e, other),
            _ => false,
        },
    }
}

#[cycle(expressions)]
#[tactic(auto, using(homeo_syntax::proofs::Measures::low_expr_parts))]
fn are_same(es: &[LExpr], others: &[LExpr]) -> bool
    ensures { IsTrue result → map plain_lexpr es.now ≡ map plain_lexpr others.now }
{
    if es.len() != others.len() {
        return false;
    }
    for i in 0..es.len() {
        if !is_same(&es[i], &others[i]) {
            return false;
        }
    }
    true
}
