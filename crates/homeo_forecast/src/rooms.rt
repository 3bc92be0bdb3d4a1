//! The peaks of the sites in the clauses, and what the slacks leave above them.

ghost use Rattle.std.specs.Prelude.{◌≡◌, ◌<◌, ◌-ℤ◌, ◌+ℤ◌, ◌≤ℤ◌, ◌<ℤ◌, ◌++◌, slice_set, ◌∷◌, [], ℕ, ℤ, List, pos, length, true, false, slice_index_or, option_map, replicate, IfOk, FitsSigned};
ghost use Rattle.std.specs.Int.{w128};
ghost use Rattle.homeo_plan.specs.Config.{total};
ghost use Rattle.homeo_plan.specs.Template.{Clause as PlainClause};
ghost use Rattle.homeo_plan.specs.Treaty.{site_sum};
ghost use Rattle.homeo_forecast.specs.Peaks.{Spent, peaks, peak_bounds};
ghost use Rattle.homeo_forecast.specs.Visits.{Visit};
ghost use Rattle.homeo_forecast.specs.View.{plain_stop};
ghost use Rattle.homeo_forecast.specs.inner.Rooms.{HasRoom, IsOpen};
ghost use Rattle.homeo_forecast.specs.inner.Stops.{clause_stop};

use crate::outlook::Stop;
use homeo_syntax::Memory;
use std::alloc::Global;

/// What is kept of a clause: the slack, the peaks of the sites, and what the slack leaves above them.
#[derive(Drop)]
pub(crate) struct Room {
    pub(crate) slack: i128,
    pub(crate) peaks: Vec<i128>,
    pub(crate) room: i128,
}

/// How far a sum is above a peak.
fn rise(sum: i128, peak: i128) -> i128
    requires low { pos 0 ≤ℤ peak }
    requires high { peak ≤ℤ sum }
    ensures { result ≡ sum -ℤ peak }
{
    sum - peak
}

/// What is left of a room after a rise.
fn left(room: i128, rise: i128) -> i128
    requires room { pos 0 ≤ℤ room }
    requires rise { pos 0 ≤ℤ rise }
    ensures { result ≡ room -ℤ rise }
{
    room - rise
}

fn is_at_most(a: i128, b: i128) -> bool
    ensures yes { result ≡ true → a ≤ℤ b }
    ensures other { result ≡ false → b <ℤ a }
{
    a <= b
}

fn put(items: &mut Vec<i128>, place: usize, value: i128)
    requires { place < length items.old.items }
    ensures { items.new.items ≡ slice_set items.old.items place value }
{
    items[place] = value;
}

fn zeros(alloc: Global, count: usize) -> Result<Vec<i128>, Memory>
    ensures { IfOk result (λ z. z.items ≡ replicate count (pos 0)) }
{
    Ok(vec![in alloc; 0; count]?)
}

fn spent(clause: u32, peaks: homeo_syntax::List<i128>, slack: i128) -> Stop
    ensures { plain_stop result ≡ Spent clause peaks.items slack }
{
    Stop::Spent {
        clause,
        peaks,
        slack,
    }
}

impl Room {
    /// Whether the peak of a site can rise to a sum.
    pub(crate) fn has(&self, site: usize, sum: i128) -> bool
        requires { IsOpen site self.now }
        ensures fits { (k : ℕ) (vs : List Visit) (c : PlainClause) (v : Visit) → HasRoom k vs c self.now → v.site ≡ site → site < k →
            sum ≡ site_sum site c.terms v.deltas → result ≡ true → total (peaks k (vs ++ v ∷ []) c) ≤ℤ c.slack }
        ensures over { (k : ℕ) (vs : List Visit) (c : PlainClause) (v : Visit) → HasRoom k vs c self.now → v.site ≡ site → site < k →
            sum ≡ site_sum site c.terms v.deltas → result ≡ false → total (peaks k (vs ++ v ∷ []) c) ≤ℤ c.slack → ⊥ }
    {
        let peak = self.peaks[site];
        if is_at_most(sum, peak) {
            return true;
        }
        is_at_most(rise(sum, peak), self.room)
    }

    /// Raises the peak of a site to a sum where this is higher.
    pub(crate) fn raise(&mut self, site: usize, sum: i128)
        requires { IsOpen site self.old }
        ensures raised { (k : ℕ) (vs : List Visit) (c : PlainClause) (v : Visit) → HasRoom k vs c self.old → v.site ≡ site → site < k →
            sum ≡ site_sum site c.terms v.deltas → HasRoom k (vs ++ v ∷ []) c self.new }
        ensures again { (k : ℕ) (vs : List Visit) (c : PlainClause) (v : Visit) → HasRoom k (vs ++ v ∷ []) c self.old → v.site ≡ site → site < k →
            sum ≡ site_sum site c.terms v.deltas → HasRoom k (vs ++ v ∷ []) c self.new }
    {
        let peak = self.peaks[site];
        if is_at_most(sum, peak) {
            return;
        }
        self.room = left(self.room, rise(sum, peak));
        put(&mut self.peaks, site, sum);
    }

    /// Of a clause with this slack, where no site has made a call.
    pub(crate) fn new(alloc: Global, sites: u32, slack: i128) -> Result<Room, Memory>
        ensures { (c : PlainClause) → c.slack ≡ slack → IfOk result (HasRoom sites [] c) }
    {
        let peaks = zeros(alloc, sites as usize)?;
        Ok(Room {
            slack,
            peaks,
            room: slack,
        })
    }

    /// What stops a call after which a site has this sum in the clause of this number.
    pub(crate) fn stop(
        &self,
        alloc: Global,
        clause: u32,
        site: usize,
        sum: i128,
    ) -> Result<Option<Stop>, Memory>
        requires { IsOpen site self.now }
        ensures { (k : ℕ) (vs : List Visit) (c : PlainClause) (v : Visit) → HasRoom k vs c self.now → v.site ≡ site → site < k →
            sum ≡ site_sum site c.terms v.deltas → IfOk result (λ o. option_map plain_stop o ≡ clause_stop k (vs ++ v ∷ []) clause c) }
    {
        if self.has(site, sum) {
            return Ok(None);
        }
        let peaks = self.risen(alloc, site, sum)?;
        Ok(Some(spent(clause, peaks, self.slack)))
    }

    /// The peaks, with that of a site risen to a sum.
    fn risen(
        &self,
        alloc: Global,
        site: usize,
        sum: i128,
    ) -> Result<homeo_syntax::List<i128>, Memory>
        requires { site < length self.now.peaks.items }
        ensures { IfOk result (λ l. l.items ≡ slice_set self.now.peaks.items site sum) }
    {
        let mut peaks = Vec::from_slice(alloc, self.peaks.as_slice())?;
        put(&mut peaks, site, sum);
        Ok(homeo_syntax::List::from_vec(peaks))
    }

    /// The bounds that the peaks give: each site's own, and with it what is left of the slack for site 0.
    pub(crate) fn bounds(&self, alloc: Global) -> Result<homeo_syntax::List<i128>, Memory>
        requires site { 0 < length self.now.peaks.items }
        requires fits { FitsSigned w128 (self.now.room +ℤ slice_index_or self.now.peaks.items 0 (pos 0)) }
        ensures { (k : ℕ) (vs : List Visit) (c : PlainClause) → HasRoom k vs c self.now → IfOk result (λ l. l.items ≡ peak_bounds k vs c) }
    {
        let first = self.first_bound();
        let bounds = self.risen(alloc, 0, first)?;
        Ok(bounds)
    }

    /// The peak of site 0 with what the slack leaves.
    fn first_bound(&self) -> i128
        requires site { 0 < length self.now.peaks.items }
        requires fits { FitsSigned w128 (self.now.room +ℤ slice_index_or self.now.peaks.items 0 (pos 0)) }
        ensures { result ≡ self.now.room +ℤ slice_index_or self.now.peaks.items 0 (pos 0) }
    {
        self.room + self.peaks[0]
    }
}
