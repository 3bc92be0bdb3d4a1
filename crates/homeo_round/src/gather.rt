//! The database of a round, gathered from its sites.

ghost use Rattle.std.specs.Prelude.{◌≡◌, ◌+◌, ◌<◌, ◌^◌, All, IfOk, FitsSigned};
ghost use Rattle.std.specs.Int.{w64};
ghost use Rattle.homeo_round.specs.PlusDeltas.{plus_deltas};

use homeo_meaning::Database;
use homeo_site::Site;
use homeo_syntax::{List, Memory};
use std::alloc::Global;
use std::marker::Model;

/// The base of a round with the deltas of the sites that have been added to it. It is what the calls of these sites in this
/// round leave (Roy et al., SIGMOD 2015).
#[derive(Drop)]
pub struct Gather {
    round: u64,
    base: Database,
    sum: Vec<i64>,
    added: u64,
}

impl Model for Gather {
    ghost use Rattle.std.specs.Prelude.{◌<◌, ◌^◌};
    ghost use Rattle.homeo_round.specs.GatherView.{GatherValue};

    ghost Value = { GatherValue };

    ghost view = { λ g. record { round = g.round; base = g.base.items; sum = g.sum.items; added = g.added } };

    ghost invariant = { λ g. g.round < 2 ^ 63 };
}

impl Gather {
    /// Begins with the base of a round, to which no site was added. The round's number is below 2^63.
    ///
    /// # Errors
    ///
    /// `Memory` when out of memory.
    pub fn begin(alloc: Global, round: u64, base: &Database) -> Result<Gather, Memory>
        requires round { round < 2 ^ 63 }
        ensures { IfOk result (λ g. g ≡ record { round = round; base = base.now.items; sum = base.now.items; added = 0 }) }
    {
        let copy = Vec::from_slice(alloc, base.as_slice())?;
        let sum = Vec::from_slice(alloc, base.as_slice())?;
        Ok(Gather {
            round,
            base: List::from_vec(copy),
            sum,
            added: 0,
        })
    }

    /// Adds the deltas of the next site. It takes no memory. Sites are added in the order of their numbers; each is in the
    /// round and on its base, and each sum fits i64.
    pub fn add(&mut self, site: &Site)
        requires number { site.now.state.number ≡ self.old.added }
        requires round { site.now.state.round ≡ self.old.round }
        requires base { site.now.state.base ≡ self.old.base }
        requires fits { All (FitsSigned w64) (plus_deltas self.old.sum site.now.state.deltas) }
        ensures sum { self.new.sum ≡ plus_deltas self.old.sum site.now.state.deltas }
        ensures added { self.new.added ≡ self.old.added + 1 }
        ensures round { self.new.round ≡ self.old.round }
        ensures base { self.new.base ≡ self.old.base }
    {
        add_deltas(self.sum.as_mut_slice(), site.deltas());
        self.added = u64::from(site.number()) + 1;
    }

    /// The base with the deltas of the sites that were added. It takes no memory.
    pub fn into_values(self) -> Database
        ensures { result.items ≡ self.sum }
    {
        let Gather {
            round: _,
            base: _,
            sum,
            added: _,
        } = self;
        List::from_vec(sum)
    }

    /// What was gathered, in its parts. It takes no memory.
    pub fn into_parts(self) -> Gathered
        ensures few { result.round < 2 ^ 63 }
        ensures round { result.round ≡ self.round }
        ensures base { result.base.items ≡ self.base }
        ensures sum { result.sum.items ≡ self.sum }
    {
        let Gather {
            round,
            base,
            sum,
            added: _,
        } = self;
        Gathered {
            round,
            base,
            sum: List::from_vec(sum),
        }
    }
}

/// A round and its base, and the base with the deltas of the sites that were added.
#[derive(Drop)]
pub struct Gathered {
    /// The number of the round, below 2^63.
    pub round: u64,
    /// The base of the round.
    pub base: Database,
    /// What the calls of the sites that were added leave of it.
    pub sum: Database,
}

/// Adds to each value the delta at its place, if there is one. It takes no memory; each sum fits i64.
#[tactic(auto, using(crate::proofs::Added::added))]
pub fn add_deltas(values: &mut [i64], deltas: &[i64])
    requires { All (FitsSigned w64) (plus_deltas values.old deltas.now) }
    ensures { values.new ≡ plus_deltas values.old deltas.now }
{
    let count = values.len().min(deltas.len());
    for i in 0..count {
        values[i] += deltas[i];
    }
}
