//! How many print commands the L form of a call has.

ghost use Rattle.std.specs.Prelude.{◌≡◌, ℤ, ◌+◌, ◌*◌, List, map, min};
ghost use Rattle.homeo_syntax.specs.SourceView.{commands, plain_command, plain_transaction};
ghost use Rattle.homeo_meaning.specs.LForm.{l_form};
ghost use Rattle.homeo_meaning.specs.LowSizes.{prints_in};
ghost use Rattle.homeo_size.specs.inner.Prints.{print_cap, prints, all_prints};
ghost use Rattle.homeo_size.specs.inner.Tables.{context_of};

use crate::frame::Frame;
use crate::layout::Layout;
use homeo_syntax::{Command, Transaction};

/// One more print command than calls may have together: none is counted beyond.
pub const TOO_MANY_PRINTS: u64 = 1_000_001;

#[tactic(auto, unfolding(crate::specs::inner::Key::definitions))]
fn prints_together(a: u64, b: u64) -> u64
    ensures { result ≡ print_cap (a + b) }
{
    TOO_MANY_PRINTS.min(a.saturating_add(b))
}

#[tactic(auto, unfolding(crate::specs::inner::Key::definitions))]
fn prints_of_each(count: u64, prints: u64) -> u64
    ensures { result ≡ print_cap (count * prints) }
{
    TOO_MANY_PRINTS.min(count.saturating_mul(prints))
}

impl Frame<'_> {
    #[cycle(prints)]
    #[tactic(auto, using(homeo_syntax::proofs::SourceViews::command_views, crate::proofs::Along::lengths, crate::proofs::PrintEquations::steps))]
    fn prints(&self, c: &Command) -> u64
        ensures { result ≡ prints (context_of self.now) (plain_command c.now) }
    {
        match c {
            Command::Print { .. } => 1,
            Command::If { test: _, yes, no } => prints_together(self.prints(yes), self.prints(no)),
            Command::Block { commands } => self.all_prints(commands.as_slice()),
            Command::Foreach { relation, body, .. } => {
                let slots = self.slots(relation.name).count as u64;
                prints_of_each(slots, self.all_prints(body.as_slice()))
            }
            Command::Skip
            | Command::Assign { .. }
            | Command::Write { .. }
            | Command::SetField { .. }
            | Command::SetRow { .. }
            | Command::Insert { .. }
            | Command::Delete { .. }
            | Command::Update { .. }
            | Command::Abort => 0,
        }
    }

    #[cycle(prints)]
    #[tactic(auto, using(crate::proofs::PrintEquations::lists, homeo_meaning::proofs::Steps::steps))]
    fn all_prints(&self, cs: &[Command]) -> u64
        ensures { result ≡ all_prints (context_of self.now) (commands (map plain_command cs.now)) 0 }
    {
        let mut all = 0;
        for c in cs {
            all = prints_together(all, self.prints(c));
        }
        all
    }
}

/// How many print commands the L form of a call has, in both branches of each `if`: the same whatever the arguments.
/// It is told up to TOO_MANY_PRINTS.
pub fn count_prints(t: &Transaction, layout: &Layout) -> u64
    ensures { (args : List ℤ) → result ≡ min 1000001
        (prints_in (l_form layout.now (map (λ p. p.name.name) t.now.params.items) args (plain_transaction t.now).body)) }
{
    let frame = Frame::of_call(layout, &[]);
    frame.all_prints(t.body.as_slice())
}
