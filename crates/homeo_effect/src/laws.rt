//! What is true of all residuals at their own sites.

ghost use Rattle.std.specs.Prelude.{◌≡◌, ℕ, false, ℤ};
ghost use Rattle.homeo_syntax.specs.Low.{Command, Commands};
ghost use Rattle.homeo_meaning.specs.LowMeaning.{State, DeltaAt, exec_all};
ghost use Rattle.homeo_meaning.specs.Whole.{IsWhole};
ghost use Rattle.homeo_plan.specs.declared.forms.Delta.{Delta};
ghost use Rattle.homeo_plan.specs.Each.{Each};
ghost use Rattle.homeo_plan.specs.Joined.{Deltas, alone};
ghost use Rattle.homeo_plan.specs.Needs.{IsStraight};
ghost use Rattle.homeo_plan.specs.Split.{shift};
ghost use Rattle.homeo_plan.specs.Table.{table, walk};
ghost use Rattle.homeo_plan.specs.Template.{Clause};
ghost use Rattle.homeo_plan.specs.Treaty.{site_sum};
ghost use Rattle.homeo_effect.specs.Touched.{written, WritesOwn, is_among, is_touched};

/// A clause with no term on a delta that a residual writes has the same sum at the site after the run as before, and a
/// delta that it doesn't write stays.
pub fn untouched_clauses_stay()
    ensures sum { (b : ℕ → ℤ) (i : ℕ) (x : Deltas) (cs : Commands) (c : Clause) → IsStraight cs →
        is_touched (written cs) c ≡ false →
        site_sum i c.terms (λ n. (exec_all cs (alone b i x)).state (DeltaAt n i)) ≡ site_sum i c.terms x }
    ensures delta { (b : ℕ → ℤ) (i : ℕ) (x : Deltas) (cs : Commands) (d : Delta) → IsStraight cs →
        is_among (written cs) d ≡ false → d.site ≡ i →
        (exec_all cs (alone b i x)).state (DeltaAt d.object i) ≡ x d.object }
{}

/// The residuals of a transformed command's table, and of its walk, write deltas of its site alone.
pub fn residuals_write_own_deltas()
    ensures table { (k i : ℕ) (c : Command) → IsWhole c → Each (λ r. WritesOwn i r.residual) (table (shift k i c)) }
    ensures walk { (k i : ℕ) (c : Command) (s : State) → IsWhole c → WritesOwn i (walk (shift k i c) s).residual }
{}
