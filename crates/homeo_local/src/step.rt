//! A call at its site by itself.

ghost use Rattle.std.specs.Prelude.{◌≡◌, ◌==◌, ℕ, true, false, length, ◌-ℤ◌, FitsSigned, IfOk};
ghost use Rattle.std.specs.Int.{w64};
ghost use Rattle.std.specs.List.{list_any};
ghost use Rattle.std.specs.List.Sorted.{IsStrictlySortedBy};
ghost use Rattle.std.specs.Ordering.{nat_cmp};
ghost use Rattle.homeo_syntax.specs.LowView.{plain_lcommand};
ghost use Rattle.homeo_meaning.specs.LowMeaning.{BaseAt, exec, whole};
ghost use Rattle.homeo_meaning.specs.Serial.{values_of};
ghost use Rattle.homeo_split.specs.CanExec.{run_limit, can_exec};
ghost use Rattle.homeo_split.specs.Shape.{has_places};
ghost use Rattle.homeo_local.specs.OwnValues.{own_values, own_shape};

use crate::own::Own;
use crate::scratch::Scratch;
use homeo_meaning::Database;
use homeo_split::run;
use homeo_syntax::{LCommand, List, Memory, Prints};
use std::alloc::Global;

/// What a call does at its site by itself.
#[derive(Drop)]
pub struct LocalStep {
    /// The site's deltas after it, one for each object.
    pub deltas: Database,
    /// The objects that it wrote, by number: rising, each once.
    pub written: List<u32>,
    /// What it prints, in order.
    pub prints: Prints,
}

/// Runs a command over whole objects at a site: it reads an object as its base and the site's delta of it, and what it writes
/// becomes the delta that makes up the value.
///
/// There must be a delta for each object that it writes, each base with its delta must fit i64, and no number that the run meets may
/// be above 2 * 10^18 in size.
///
/// # Errors
///
/// `Memory` when out of memory.
pub fn local_step(
    alloc: Global,
    c: &LCommand,
    base: &[i64],
    deltas: &[i64],
) -> Result<LocalStep, Memory>
    requires places { has_places (own_shape (length deltas.now)) (plain_lcommand c.now) ≡ true }
    requires sums { (n : ℕ) → FitsSigned w64 (own_values base.now deltas.now n) }
    requires small { can_exec run_limit (plain_lcommand c.now) (whole (own_values base.now deltas.now)) ≡ true }
    ensures prints { IfOk result (λ s. s.prints.items ≡ (exec (plain_lcommand c.now) (whole (own_values base.now deltas.now))).prints) }
    ensures deltas { IfOk result (λ s. (n : ℕ) →
        let v = (exec (plain_lcommand c.now) (whole (own_values base.now deltas.now))).state (BaseAt n) in
        FitsSigned w64 (v -ℤ values_of base.now n) → values_of s.deltas.items n ≡ v -ℤ values_of base.now n) }
    ensures count { IfOk result (λ s. length s.deltas.items ≡ length deltas.now) }
    ensures written { IfOk result (λ s. (n : ℕ) → list_any (λ m. n == m) s.written.items ≡ false →
        values_of s.deltas.items n ≡ values_of deltas.now n) }
    ensures rising { IfOk result (λ s. IsStrictlySortedBy nat_cmp s.written.items) }
{
    let copy = List::from_vec(Vec::from_slice(alloc, deltas)?);
    local_step_in(alloc, c, base, copy, &mut Scratch::new(alloc))
}

/// The same on a list of deltas that it takes and that becomes the step's, where the lists of an earlier step are used again.
///
/// # Errors
///
/// `Memory` when out of memory.
pub fn local_step_in(
    alloc: Global,
    c: &LCommand,
    base: &[i64],
    deltas: Database,
    scratch: &mut Scratch,
) -> Result<LocalStep, Memory>
    requires places { has_places (own_shape (length deltas.items)) (plain_lcommand c.now) ≡ true }
    requires sums { (n : ℕ) → FitsSigned w64 (own_values base.now deltas.items n) }
    requires small { can_exec run_limit (plain_lcommand c.now) (whole (own_values base.now deltas.items)) ≡ true }
    ensures prints { IfOk result (λ s. s.prints.items ≡ (exec (plain_lcommand c.now) (whole (own_values base.now deltas.items))).prints) }
    ensures deltas { IfOk result (λ s. (n : ℕ) →
        let v = (exec (plain_lcommand c.now) (whole (own_values base.now deltas.items))).state (BaseAt n) in
        FitsSigned w64 (v -ℤ values_of base.now n) → values_of s.deltas.items n ≡ v -ℤ values_of base.now n) }
    ensures count { IfOk result (λ s. length s.deltas.items ≡ length deltas.items) }
    ensures written { IfOk result (λ s. (n : ℕ) → list_any (λ m. n == m) s.written.items ≡ false →
        values_of s.deltas.items n ≡ values_of deltas.items n) }
    ensures rising { IfOk result (λ s. IsStrictlySortedBy nat_cmp s.written.items) }
{
    let mut state = Own {
        base,
        deltas: deltas.into_vec(),
        temporaries: scratch.temporaries(alloc),
        written: Vec::new(alloc),
    };
    let mut prints = List::new(alloc);
    run(c, &mut state, &mut prints)?;
    scratch.take_back_temporaries(state.temporaries);
    let mut written = state.written;
    written.sort_unstable();
    written.dedup();
    Ok(LocalStep {
        deltas: List::from_vec(state.deltas),
        written: List::from_vec(written),
        prints,
    })
}
