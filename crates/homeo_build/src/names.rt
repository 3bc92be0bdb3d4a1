//! The objects that L forms name.

ghost use Rattle.std.specs.Prelude.{◌≡◌, ◌++◌, [], ◌∷◌, map, IfOk, OnOk};
ghost use Rattle.homeo_syntax.specs.LowView.{low_exprs, low_tests, low_commands, plain_lexpr, plain_ltest, plain_lcond, plain_lcommand};
ghost use Rattle.homeo_follow.specs.Follow.{object_of};
ghost use Rattle.homeo_follow.specs.Named.{named, named_in_expr, named_in_exprs, named_in_test, named_in_cond, named_in_all};

use homeo_syntax::{LCommand, LCond, LExpr, LTest, Memory, SplitName};
use std::alloc::Global;

/// Of each form the objects that it names, in the order of its text, each as often as it is named.
pub(crate) fn names_of(alloc: Global, forms: &[LCommand]) -> Result<Vec<Vec<u32>>, Memory>
    ensures { IfOk result (λ v. map (λ ns. ns.items) v.items ≡ map named (map plain_lcommand forms.now)) }
{
    let mut all = Vec::new(alloc);
    for form in forms {
        all.push(form_names(alloc, form)?)?;
    }
    Ok(all)
}

/// The objects that a form names.
fn form_names(alloc: Global, form: &LCommand) -> Result<Vec<u32>, Memory>
    ensures { IfOk result (λ ns. ns.items ≡ named (plain_lcommand form.now)) }
{
    let mut names = Vec::new(alloc);
    push_named(form, &mut names)?;
    Ok(names)
}

/// Puts the objects that a command names behind the others.
#[cycle(commands)]
#[tactic(auto, using(homeo_syntax::proofs::Measures::low_command_parts, homeo_syntax::proofs::LowViews::low_command_views, crate::proofs::NamedObjects::command_steps))]
fn push_named(command: &LCommand, names: &mut Vec<u32>) -> Result<(), Memory>
    ensures { OnOk result (names.new.items ≡ names.old.items ++ named (plain_lcommand command.now)) }
{
    match command {
        LCommand::Skip => Ok(()),
        LCommand::Assign { value, .. } => push_in_expr(value, names),
        LCommand::Print { value } => push_in_expr(value, names),
        LCommand::Write { target, value } => {
            push_object(*target, names)?;
            push_in_expr(value, names)
        }
        LCommand::Seq { commands } => push_in_all(commands.as_slice(), names),
        LCommand::If { test, yes, no } => {
            push_in_cond(test, names)?;
            push_named(yes, names)?;
            push_named(no, names)
        }
    }
}

#[cycle(commands)]
#[tactic(auto, using(homeo_syntax::proofs::Measures::low_command_parts, homeo_syntax::proofs::LowViews::low_command_views, crate::proofs::NamedObjects::command_steps))]
fn push_in_all(commands: &[LCommand], names: &mut Vec<u32>) -> Result<(), Memory>
    ensures { OnOk result (names.new.items ≡ names.old.items ++ named_in_all (low_commands (map plain_lcommand commands.now))) }
{
    for command in commands {
        push_named(command, names)?;
    }
    Ok(())
}

#[cycle(conditions)]
#[tactic(auto, using(homeo_syntax::proofs::Measures::low_test_parts, homeo_syntax::proofs::LowViews::low_phrase_views, crate::proofs::NamedObjects::condition_steps))]
fn push_in_cond(c: &LCond, names: &mut Vec<u32>) -> Result<(), Memory>
    ensures { OnOk result (names.new.items ≡ names.old.items ++ named_in_cond (plain_lcond c.now)) }
{
    push_in_tests(c.tests.as_slice(), names)
}

#[cycle(conditions)]
#[tactic(auto, using(homeo_syntax::proofs::Measures::low_test_parts, homeo_syntax::proofs::LowViews::low_phrase_views, crate::proofs::NamedObjects::condition_steps))]
fn push_in_tests(tests: &[LTest], names: &mut Vec<u32>) -> Result<(), Memory>
    ensures { OnOk result (names.new.items ≡ names.old.items ++ named_in_cond (low_tests (map plain_ltest tests.now))) }
{
    for test in tests {
        push_in_test(test, names)?;
    }
    Ok(())
}

#[cycle(conditions)]
#[tactic(auto, using(homeo_syntax::proofs::Measures::low_test_parts, homeo_syntax::proofs::LowViews::low_phrase_views, crate::proofs::NamedObjects::condition_steps))]
fn push_in_test(test: &LTest, names: &mut Vec<u32>) -> Result<(), Memory>
    ensures { OnOk result (names.new.items ≡ names.old.items ++ named_in_test (plain_ltest test.now)) }
{
    match test {
        LTest::True => Ok(()),
        LTest::Not(c) => push_in_cond(c, names),
        LTest::Compare { left, right, .. } => {
            push_in_expr(left, names)?;
            push_in_expr(right, names)
        }
    }
}

#[cycle(expressions)]
#[tactic(auto, using(homeo_syntax::proofs::Measures::low_expr_parts, homeo_syntax::proofs::LowViews::low_phrase_views, crate::proofs::NamedObjects::expression_steps))]
fn push_in_expr(e: &LExpr, names: &mut Vec<u32>) -> Result<(), Memory>
    ensures { OnOk result (names.new.items ≡ names.old.items ++ named_in_expr (plain_lexpr e.now)) }
{
    match e {
        LExpr::Literal(_) => Ok(()),
        LExpr::Temp(_) => Ok(()),
        LExpr::Read(x) => push_object(*x, names),
        LExpr::Sum(es) => push_in_exprs(es.as_slice(), names),
        LExpr::Product(es) => push_in_exprs(es.as_slice(), names),
        LExpr::Neg(e) => push_in_expr(e, names),
    }
}

#[cycle(expressions)]
#[tactic(auto, using(homeo_syntax::proofs::Measures::low_expr_parts, homeo_syntax::proofs::LowViews::low_phrase_views, crate::proofs::NamedObjects::expression_steps))]
fn push_in_exprs(es: &[LExpr], names: &mut Vec<u32>) -> Result<(), Memory>
    ensures { OnOk result (names.new.items ≡ names.old.items ++ named_in_exprs (low_exprs (map plain_lexpr es.now))) }
{
    for e in es {
        push_in_expr(e, names)?;
    }
    Ok(())
}

/// Puts the object of a name behind the others.
fn push_object(name: SplitName, names: &mut Vec<u32>) -> Result<(), Memory>
    ensures { OnOk result (names.new.items ≡ names.old.items ++ object_of name ∷ []) }
{
    names.push(object(name))?;
    Ok(())
}

/// The object of a name.
#[tactic(auto, unfolding(homeo_follow::specs::Key::definitions))]
fn object(name: SplitName) -> u32
    ensures { result ≡ object_of name }
{
    match name {
        SplitName::Whole(object) | SplitName::Base(object) => object,
        SplitName::Delta { object, site: _ } => object,
    }
}
