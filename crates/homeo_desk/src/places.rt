//! Where calls stand in the history.

ghost use Rattle.std.specs.Prelude.{◌≡◌};
ghost use Rattle.homeo_desk.specs.Outputs.{plain_path};
ghost use Rattle.homeo_desk.specs.Places.{made_in, IsPlaced};
ghost use Rattle.homeo_desk.specs.inner.Keeping.{put};

use crate::output::Path;
use homeo_history::Path as Way;

/// How many calls the site has made alone in the last round in which it made one.
#[derive(Clone, Copy)]
pub(crate) struct Places {
    round: u64,
    made: u64,
}

impl Places {
    /// So many calls were made in this round.
    pub(crate) fn new(round: u64, made: u64) -> Places
        ensures round { result.round ≡ round }
        ensures made { result.made ≡ made }
    {
        Places { round, made }
    }

    /// How many calls the site has made alone in a round that isn't over.
    pub(crate) fn made_in(self, round: u64) -> u64
        ensures { result ≡ made_in self.round self.made round }
    {
        if self.round == round {
            return self.made;
        }
        0
    }

    /// Where the next call stands that was made in this round and in this way.
    pub(crate) fn next(&mut self, round: u64, way: Way) -> Path
        ensures path { plain_path result ≡ way }
        ensures placed { IsPlaced result (made_in self.old.round self.old.made round) }
        ensures put { self.new ≡ put result round self.old }
    {
        match way {
            Way::Cleanup(broken) => Path::Closing(broken),
            Way::Local => {
                let place = self.made_in(round);
                self.round = round;
                self.made = place.saturating_add(1);
                Path::Local { place }
            }
        }
    }
}
