//! What stands fixed while nodes and prints are counted.

ghost use Rattle.std.specs.Prelude.{◌≡◌, map, option_map};
ghost use Rattle.homeo_syntax.specs.SourceView.{plain_expr};
ghost use Rattle.homeo_meaning.specs.Context.{context, slots};
ghost use Rattle.homeo_context.specs.Slots.{plain_slot, slots_of, IsCounted};
ghost use Rattle.homeo_lform.specs.SourceWrites.{absent_zero, given};
ghost use Rattle.homeo_size.specs.inner.Tables.{context_of};

use crate::layout::Layout;
use homeo_context::{Argument, Declarations, Slot, Slots, argument_of};
use homeo_syntax::Expr;

/// What names stand for: the declarations, and the arguments by their parameters' names. No row changes what is counted.
#[derive(Clone, Copy)]
pub(crate) struct Frame<'a> {
    pub(crate) declared: &'a Declarations,
    pub(crate) arguments: &'a [Argument],
}

/// The literal that stands for a field of a slot that isn't there.
#[tactic(auto, unfolding(crate::specs::inner::Key::definitions))]
fn missing(slot: Option<Slot<'_>>) -> Option<i64>
    ensures { result ≡ absent_zero (option_map plain_slot slot.entry) }
{
    match slot {
        Some(_) => None,
        None => Some(0),
    }
}

impl<'a> Frame<'a> {
    /// The frame of a call's body.
    pub(crate) fn of_call(layout: &'a Layout, arguments: &'a [Argument]) -> Frame<'a>
        ensures { context_of result ≡
            context layout.now (map (λ a. a.name) arguments.now) (map (λ a. a.value) arguments.now) }
    {
        Frame {
            declared: layout.declared(),
            arguments,
        }
    }

    /// The slots of the relation of a name.
    #[tactic(auto, unfolding(crate::specs::inner::Key::definitions, homeo_meaning::specs::Key::definitions))]
    pub(crate) fn slots(&self, relation: u32) -> Slots<'a>
        ensures slots { slots_of result ≡ slots (context_of self.now) relation }
        ensures counted { IsCounted result }
    {
        self.declared.relation(relation)
    }

    #[tactic(auto, unfolding(crate::specs::inner::Key::definitions, homeo_meaning::specs::Key::definitions))]
    fn argument(&self, name: u32) -> Option<i64>
        ensures { result ≡ (context_of self.now).arguments name }
    {
        argument_of(self.arguments, name)
    }

    /// The number that an expression is as a literal.
    #[tactic(auto, using(homeo_syntax::proofs::SourceViews::phrase_views, crate::proofs::NodeEquations::literals))]
    pub(crate) fn literal(&self, e: &Expr) -> Option<i64>
        ensures { result ≡ given (context_of self.now) (plain_expr e.now) }
    {
        match e {
            Expr::Literal(n) => Some(*n),
            Expr::Name(x) => self.argument(x.name),
            Expr::Field {
                relation,
                index,
                ..
            } => match self.literal(index) {
                Some(value) => missing(self.slots(relation.name).at(value)),
                None => None,
            },
            Expr::Read(_)
            | Expr::Sum(_)
            | Expr::Product(_)
            | Expr::Neg(_)
            | Expr::Row { .. }
            | Expr::Count { .. }
            | Expr::Total { .. } => None,
        }
    }
}
