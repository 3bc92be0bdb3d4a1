//! How many nodes an L form has at least, told without visiting a slot: so a form that is far too large is known at once.

ghost use Rattle.std.specs.Prelude.{true, ◌≡◌, ◌+◌, ◌<◌, map, option_map, IfOk};
ghost use Rattle.homeo_syntax.specs.SourceView.{exprs, tests, commands, plain_expr, plain_test, plain_cond, plain_field, plain_command, plain_transaction};
ghost use Rattle.homeo_meaning.specs.LForm.{l_form};
ghost use Rattle.homeo_meaning.specs.LowSizes.{call_extent};
ghost use Rattle.homeo_size.specs.inner.Nodes.{few, index_nodes, visit_nodes, nodes, all_nodes, test_nodes, tests_nodes, slot_nodes, write_nodes, values_nodes, command_nodes, commands_nodes};
ghost use Rattle.homeo_context.specs.Slots.{plain_slot, slots_of, IsCounted};
ghost use Rattle.homeo_size.specs.inner.Tables.{context_of};

use crate::frame::Frame;
use crate::layout::Layout;
use homeo_context::{Slot, Slots, argument_values, bind};
use homeo_syntax::{Command, Cond, Expr, FieldValue, Memory, Number, Test, Transaction};
use std::alloc::Global;

/// One more node than a call may have size: none is counted beyond.
const TOO_MANY: u64 = 200_001;

#[tactic(auto, unfolding(crate::specs::inner::Key::definitions))]
fn few_together(a: u64, b: u64) -> u64
    ensures { result ≡ few (a + b) }
{
    TOO_MANY.min(a.saturating_add(b))
}

/// The nodes of an index into slots, and of the chain of tests that finds its slot.
#[tactic(auto, using(crate::proofs::Along::lengths, crate::proofs::NodeEquations::somewhere))]
fn index_nodes(index: Option<i64>, slots: Slots<'_>, nodes: u64) -> u64
    ensures { result ≡ index_nodes index (slots_of slots.entry) nodes }
{
    match index {
        Some(_) => 1,
        None => {
            if slots.count == 0 {
                1
            } else {
                few_together(slots.count as u64, nodes)
            }
        }
    }
}

/// The nodes of the visits of slots.
#[tactic(auto, using(crate::proofs::Along::lengths))]
fn visit_nodes(slots: Slots<'_>, nodes: u64) -> u64
    ensures { result ≡ visit_nodes (slots_of slots.entry) nodes }
{
    let one = few_together(1, nodes);
    let all = (slots.count as u64).saturating_mul(one);
    few_together(1, all)
}

#[tactic(auto, unfolding(crate::specs::inner::Key::definitions))]
fn slot_nodes(slot: Option<Slot<'_>>, nodes: u64) -> u64
    ensures { result ≡ slot_nodes (option_map plain_slot slot.entry) nodes }
{
    match slot {
        Some(_) => few_together(1, nodes),
        None => 1,
    }
}

/// The nodes of a write to a field of the slot that an index names.
#[tactic(auto, using(crate::proofs::Along::lengths, crate::proofs::NodeEquations::somewhere), unfolding(crate::specs::inner::Key::definitions))]
fn write_nodes(index: Option<i64>, slots: Slots<'_>, index_nodes: u64, nodes: u64) -> u64
    requires { IsCounted slots }
    ensures { result ≡ write_nodes index (slots_of slots.entry) index_nodes nodes }
{
    match index {
        Some(value) => slot_nodes(slots.at(value), nodes),
        None => {
            if slots.count == 0 {
                few_together(1, nodes)
            } else {
                few_together(slots.count as u64, few_together(index_nodes, nodes))
            }
        }
    }
}

impl Frame<'_> {
    #[cycle(phrase_nodes)]
    #[tactic(auto, using(homeo_syntax::proofs::SourceViews::phrase_views, crate::proofs::NodeEquations::phrases))]
    fn nodes(&self, e: &Expr) -> u64
        ensures { result ≡ nodes (context_of self.now) (plain_expr e.now) }
    {
        match e {
            Expr::Literal(_) | Expr::Name(_) | Expr::Read(_) | Expr::Row { .. } => 1,
            Expr::Sum(es) | Expr::Product(es) => few_together(1, self.all_nodes(es.as_slice())),
            Expr::Neg(inner) => few_together(1, self.nodes(inner)),
            Expr::Field {
                relation,
                index,
                ..
            } => index_nodes(
                self.literal(index),
                self.slots(relation.name),
                self.nodes(index),
            ),
            Expr::Count { relation, test, .. } | Expr::Total { relation, test, .. } => visit_nodes(
                self.slots(relation.name),
                self.tests_nodes(test.tests.as_slice()),
            ),
        }
    }

    #[cycle(phrase_nodes)]
    #[tactic(auto, using(crate::proofs::NodeEquations::lists, homeo_meaning::proofs::Steps::steps))]
    fn all_nodes(&self, es: &[Expr]) -> u64
        ensures { result ≡ all_nodes (context_of self.now) (exprs (map plain_expr es.now)) 0 }
    {
        let mut all = 0;
        for e in es {
            all = few_together(all, self.nodes(e));
        }
        all
    }

    #[cycle(phrase_nodes)]
    #[tactic(auto, using(homeo_syntax::proofs::SourceViews::phrase_views, crate::proofs::NodeEquations::phrases))]
    fn test_nodes(&self, t: &Test) -> u64
        ensures { result ≡ test_nodes (context_of self.now) (plain_test t.now) }
    {
        match t {
            Test::True => 1,
            Test::Not(c) => few_together(1, self.tests_nodes(c.tests.as_slice())),
            Test::Compare { op: _, left, right } => {
                few_together(self.nodes(left), self.nodes(right))
            }
        }
    }

    #[cycle(phrase_nodes)]
    #[tactic(auto, using(crate::proofs::NodeEquations::lists, homeo_meaning::proofs::Steps::steps))]
    fn tests_nodes(&self, ts: &[Test]) -> u64
        ensures { result ≡ tests_nodes (context_of self.now) (tests (map plain_test ts.now)) 0 }
    {
        let mut all = 0;
        for t in ts {
            all = few_together(all, self.test_nodes(t));
        }
        all
    }

    #[tactic(auto, using(homeo_syntax::proofs::SourceViews::phrase_views))]
    fn cond_nodes(&self, c: &Cond) -> u64
        ensures { result ≡ tests_nodes (context_of self.now) (plain_cond c.now) 0 }
    {
        self.tests_nodes(c.tests.as_slice())
    }

    #[tactic(auto, using(crate::proofs::Along::items, crate::proofs::Along::plain_value, crate::proofs::NodeEquations::lists))]
    fn values_nodes(&self, fields: &[FieldValue], first: u64) -> u64
        ensures { result ≡ values_nodes (context_of self.now) (map plain_field fields.now) first }
    {
        let mut all = first;
        for field in fields {
            all = few_together(all, self.nodes(&field.value));
        }
        all
    }

    #[cycle(command_nodes)]
    #[tactic(auto, using(homeo_syntax::proofs::SourceViews::command_views, crate::proofs::Along::lengths, crate::proofs::NodeEquations::steps))]
    fn command_nodes(&self, c: &Command) -> u64
        ensures { result ≡ command_nodes (context_of self.now) (plain_command c.now) }
    {
        match c {
            Command::Skip => 1,
            Command::Abort => 2,
            Command::Assign { value, .. }
            | Command::Write { value, .. }
            | Command::Print { value } => few_together(1, self.nodes(value)),
            Command::SetRow { value, .. } => few_together(1, self.nodes(value)),
            Command::If { test, yes, no } => {
                let branches = few_together(self.command_nodes(yes), self.command_nodes(no));
                few_together(self.cond_nodes(test), branches)
            }
            Command::Block { commands } => self.commands_nodes(commands.as_slice(), 1),
            Command::SetField {
                relation,
                index,
                value,
                ..
            } => write_nodes(
                self.literal(index),
                self.slots(relation.name),
                self.nodes(index),
                self.nodes(value),
            ),
            Command::Foreach {
                relation,
                test,
                body,
                ..
            } => {
                let body = self.commands_nodes(body.as_slice(), 0);
                let one = few_together(self.cond_nodes(test), body);
                visit_nodes(self.slots(relation.name), one)
            }
            Command::Insert {
                relation,
                fields,
                ..
            } => {
                let fields = fields.as_slice();
                let one = few_together(1, fields.len() as u64);
                let slots = self.slots(relation.name).count as u64;
                let fills = few_together(1, slots.saturating_mul(one));
                self.values_nodes(fields, fills)
            }
            Command::Delete { relation, test, .. } => {
                visit_nodes(self.slots(relation.name), self.cond_nodes(test))
            }
            Command::Update {
                relation,
                test,
                value,
                ..
            } => {
                let one = few_together(self.cond_nodes(test), self.nodes(value));
                visit_nodes(self.slots(relation.name), one)
            }
        }
    }

    /// How many nodes the L forms of commands have at least, with those before.
    #[cycle(command_nodes)]
    #[tactic(auto, using(crate::proofs::NodeEquations::lists, homeo_meaning::proofs::Steps::steps))]
    fn commands_nodes(&self, cs: &[Command], first: u64) -> u64
        ensures { result ≡ commands_nodes (context_of self.now) (commands (map plain_command cs.now)) first }
    {
        let mut all = first;
        for c in cs {
            all = few_together(all, self.command_nodes(c));
        }
        all
    }
}

/// Whether the L form of a call on so many sites is certainly larger than a call may be, which is 200,000: of a transaction of
/// the workload that is laid out, with the arguments in the order of its parameters. It is told from the text alone, and no
/// loop is followed.
///
/// # Errors
///
/// `Memory` where memory is wanting.
pub fn is_too_large(
    alloc: Global,
    t: &Transaction,
    args: &[Number],
    layout: &Layout,
    sites: u64,
) -> Result<bool, Memory>
    ensures { IfOk result (λ large. large ≡ true → 200000 < (call_extent sites (l_form layout.now
        (map (λ p. p.name.name) t.now.params.items) (map (λ a. a.value) args.now) (plain_transaction t.now).body)).size) }
{
    let values = argument_values(alloc, args)?;
    let arguments = bind(alloc, t.params.as_slice(), values.as_slice())?;
    let frame = Frame::of_call(layout, arguments.as_slice());
    Ok(frame.commands_nodes(t.body.as_slice(), 1) >= TOO_MANY)
}
