//! Whether a split database has the places that a command writes.

ghost use Rattle.std.specs.Prelude.{◌≡◌, map};
ghost use Rattle.homeo_syntax.specs.LowView.{low_commands, plain_lcommand};
ghost use Rattle.homeo_syntax.specs.declared.low.SplitName.TheVariants.{Delta};
ghost use Rattle.homeo_split.specs.Shape.{shape_of, has_place, has_places, has_places_all};

use crate::split::Split;
use homeo_syntax::{LCommand, SplitName};

impl Split {
    /// Whether each place that a command writes is there.
    #[cycle(places)]
    #[tactic(auto, using(homeo_syntax::proofs::LowViews::low_command_views, crate::proofs::CommandSteps::places))]
    pub fn has_places(&self, c: &LCommand) -> bool
        ensures { result ≡ has_places (shape_of self.now) (plain_lcommand c.now) }
    {
        match c {
            LCommand::Skip => true,
            LCommand::Assign { .. } => true,
            LCommand::Write { target, .. } => self.has_place(*target),
            LCommand::Print { .. } => true,
            LCommand::If { yes, no, .. } => self.has_places(yes) && self.has_places(no),
            LCommand::Seq { commands } => self.has_places_all(commands.as_slice()),
        }
    }

    #[cycle(places)]
    fn has_places_all(&self, cs: &[LCommand]) -> bool
        ensures { result ≡ has_places_all (shape_of self.now) (low_commands (map plain_lcommand cs.now)) }
    {
        for c in cs {
            if !self.has_places(c) {
                return false;
            }
        }
        true
    }

    #[tactic(auto, unfolding(crate::specs::Key::definitions))]
    fn has_place(&self, x: SplitName) -> bool
        ensures { result ≡ has_place (shape_of self.now) x }
    {
        match x {
            SplitName::Whole(object) => (object as usize) < self.base.as_slice().len(),
            SplitName::Base(object) => (object as usize) < self.base.as_slice().len(),
            SplitName::Delta { object, site } => self.has_delta(object as usize, site as usize),
        }
    }

    #[tactic(auto, unfolding(crate::specs::Key::definitions))]
    fn has_delta(&self, object: usize, site: usize) -> bool
        ensures { result ≡ has_place (shape_of self.now) (Delta object site) }
    {
        match self.deltas.as_slice().get(site) {
            Some(deltas) => object < deltas.as_slice().len(),
            None => false,
        }
    }
}
