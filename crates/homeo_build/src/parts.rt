//! What the L forms of a workload bring to the plans of its rounds.

ghost use Rattle.std.specs.Prelude.{◌≡◌, ℕ, IfOk, IfSome, IsTrue};
ghost use Rattle.std.specs.List.{list_all};
ghost use Rattle.std.specs.Ordering.{int_eq};
ghost use Rattle.homeo_syntax.specs.LowView.{plain_lcommand};
ghost use Rattle.homeo_syntax.specs.SourceView.{plain_workload};
ghost use Rattle.homeo_meaning.specs.Acceptance.{IsAccepted};
ghost use Rattle.homeo_meaning.specs.Bounds.{IsWithin};
ghost use Rattle.homeo_meaning.specs.Schema.{schema_of};
ghost use Rattle.homeo_meaning.specs.Serial.{values_of};
ghost use Rattle.homeo_meaning.specs.Small.{IsSmall};
ghost use Rattle.homeo_plan.specs.Each.{Each};
ghost use Rattle.homeo_plan.specs.Limit.{form_limit};
ghost use Rattle.homeo_follow.specs.Brought.{brought, plain_part};
ghost use Rattle.homeo_follow.specs.Named.{named};
ghost use Rattle.homeo_build.specs.Plan.{AreParts, IsObjectPlan};
ghost use Rattle.homeo_build.specs.inner.Followed.{IsSmallAlong};
ghost use Rattle.homeo_build.specs.inner.Rebased.{IsRebased, AreRebased};

use crate::compiled::Compiled;
use crate::steady::is_steady;
use homeo_follow::PlanPart;
use homeo_linear::Follower;
use homeo_meaning::Database;
use homeo_meaning::padded::item_or;
use homeo_outline::{ObjectPlan, is_rebased, rebased_part};
use homeo_syntax::{LCommand, List, Memory};
use std::alloc::Global;
use std::sync::Arc;

/// What the L forms bring at a base, and how that stands to what they brought to a plan of another.
#[derive(Drop)]
pub(crate) struct PartsAfter {
    /// What each brings, in the order of the forms.
    pub(crate) parts: List<Arc<PlanPart>>,
    /// It is known that each brings what it brought to that plan, rebased.
    pub(crate) are_rebased: bool,
}

/// What each L form brings at a base, in the order of the forms.
pub(crate) fn parts_at(
    alloc: Global,
    c: &Compiled,
    base: &Database,
) -> Result<List<Arc<PlanPart>>, Memory>
    requires accepted { IsAccepted (plain_workload c.now) }
    requires within { IsWithin (schema_of (plain_workload c.now)) base.now.items }
    ensures { IfOk result (λ ps. AreParts (plain_workload c.now) base.now.items ps.items) }
{
    let mut follower = Follower::new(alloc, base);
    let mut parts = List::new(alloc);
    for form in c.forms().forms.as_slice() {
        parts.push(part_at(alloc, form, &mut follower)?)?;
    }
    Ok(parts)
}

/// The same, where there is a plan at another base: the part of a form stays, shared with that plan, where no object that the form
/// names has another value, and is rebased by that.
pub(crate) fn parts_after(
    alloc: Global,
    c: &Compiled,
    last: &ObjectPlan,
    base: &Database,
) -> Result<PartsAfter, Memory>
    requires accepted { IsAccepted (plain_workload c.now) }
    requires within { IsWithin (schema_of (plain_workload c.now)) base.now.items }
    requires last { IsObjectPlan (plain_workload c.now) last.now.base.items last.now }
    ensures parts { IfOk result (λ made. AreParts (plain_workload c.now) base.now.items made.parts.items) }
    ensures rebased { IfOk result (λ made. IsTrue made.are_rebased →
        AreRebased last.now.base.items base.now.items last.now.parts.items made.parts.items) }
{
    let forms = c.forms();
    let names = forms.names.as_slice();
    let kept = last.parts.as_slice();
    let (from, to) = (last.base.as_slice(), base.as_slice());
    let mut follower = Follower::new(alloc, base);
    let mut parts = List::new(alloc);
    let mut are_rebased = true;
    for (i, form) in forms.forms.as_slice().iter().enumerate() {
        let stays = have_same_values(names[i].as_slice(), from, to);
        let made = part_after(alloc, form, &kept[i], stays, from, to, &mut follower)?;
        are_rebased = are_rebased && made.is_rebased;
        parts.push(made.part)?;
    }
    Ok(PartsAfter { parts, are_rebased })
}

/// What one L form brings at a base, and how that stands to what it brought to a plan of another.
#[derive(Drop)]
struct PartAfter {
    part: Arc<PlanPart>,
    /// It is known that it is what the form brought to that plan, rebased.
    is_rebased: bool,
}

/// What one L form brings at the follower's base: what is kept, where that stays, or that rebased, where its tests are seen to come out
/// as they did. Another form is followed, and compared.
fn part_after(
    alloc: Global,
    form: &LCommand,
    kept: &Arc<PlanPart>,
    stays: bool,
    from: &[i64],
    to: &[i64],
    follower: &mut Follower<'_>,
) -> Result<PartAfter, Memory>
    requires kept { plain_part kept.now.value ≡ brought (values_of from.now) (plain_lcommand form.now) }
    requires stays { IsTrue stays → Each (λ x. values_of from.now x ≡ values_of to.now x) (named (plain_lcommand form.now)) }
    requires follower { follower.old.base.now ≡ to.now }
    requires form { IsSmallAlong (values_of follower.old.base.now) (plain_lcommand form.now) }
    requires base { (x : ℕ) → IsSmall form_limit (values_of follower.old.base.now x) }
    ensures follower { follower.new.base.now ≡ follower.old.base.now }
    ensures part { IfOk result (λ made. plain_part made.part.value ≡ brought (values_of to.now) (plain_lcommand form.now)) }
    ensures rebased { IfOk result (λ made. IsTrue made.is_rebased →
        IsRebased from.now to.now (plain_part kept.now.value) (plain_part made.part.value)) }
{
    if stays {
        let part = Arc::try_clone(kept)?;
        return Ok(PartAfter {
            part,
            is_rebased: true,
        });
    }
    if let Some(part) = moved_part(alloc, form, kept, from, to)? {
        return Ok(PartAfter {
            part,
            is_rebased: true,
        });
    }
    let part = part_at(alloc, form, follower)?;
    let is_rebased = is_rebased(kept, &part, from, to);
    Ok(PartAfter { part, is_rebased })
}

/// What is kept of an L form, rebased, where its tests are seen to come out at this base as they did.
fn moved_part(
    alloc: Global,
    form: &LCommand,
    kept: &PlanPart,
    from: &[i64],
    to: &[i64],
) -> Result<Option<Arc<PlanPart>>, Memory>
    requires { plain_part kept.now ≡ brought (values_of from.now) (plain_lcommand form.now) }
    ensures part { IfOk result (λ found. IfSome found (λ made. plain_part made.value ≡ brought (values_of to.now) (plain_lcommand form.now))) }
    ensures rebased { IfOk result (λ found. IfSome found (λ made. IsRebased from.now to.now (plain_part kept.now) (plain_part made.value))) }
{
    if !is_steady(form) {
        return Ok(None);
    }
    let Some(part) = rebased_part(alloc, kept, from, to)? else {
        return Ok(None);
    };
    Ok(Some(Arc::new(alloc, part)?))
}

/// What one L form brings at the follower's base, to be shared.
fn part_at(
    alloc: Global,
    form: &LCommand,
    follower: &mut Follower<'_>,
) -> Result<Arc<PlanPart>, Memory>
    requires form { IsSmallAlong (values_of follower.old.base.now) (plain_lcommand form.now) }
    requires base { (x : ℕ) → IsSmall form_limit (values_of follower.old.base.now x) }
    ensures follower { follower.new.base.now ≡ follower.old.base.now }
    ensures part { IfOk result (λ p. plain_part p.value ≡ brought (values_of follower.old.base.now) (plain_lcommand form.now)) }
{
    let part = follower.part(alloc, form)?;
    Ok(Arc::new(alloc, part)?)
}

/// Whether two bases have one value for each of these objects.
fn have_same_values(names: &[u32], last: &[i64], base: &[i64]) -> bool
    ensures { result ≡ list_all (λ x. int_eq (values_of last.now x) (values_of base.now x)) names.now }
{
    names.iter().all(|x| item_or(last, *x as usize, 0) == item_or(base, *x as usize, 0))
}
