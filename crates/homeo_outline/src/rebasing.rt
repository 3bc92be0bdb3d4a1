//! What commands bring at one base, seen from another: the same terms, where the same branches are taken, and other constants.

ghost use Rattle.std.specs.Prelude.{◌≡◌, ◌==◌, ℕ, IsTrue, if◌then◌else◌, map, pos, ◌+ℤ◌, ◌*ℤ◌, neg_ℤ, IfOk, IfSome};
ghost use Rattle.std.specs.List.{list_all};
ghost use Rattle.std.specs.Ordering.{int_eq};
ghost use Rattle.homeo_meaning.specs.Serial.{values_of};
ghost use Rattle.homeo_plan.specs.Each.{Each};
ghost use Rattle.homeo_plan.specs.Holding.{AtomHolds};
ghost use Rattle.homeo_plan.specs.PlanView.{plain_linear, plain_atom};
ghost use Rattle.homeo_follow.specs.Brought.{plain_part};
ghost use Rattle.homeo_follow.specs.Follow.{own_state};
ghost use Rattle.homeo_follow.specs.Rebased.{gained, rebased_form, rebased_clause, rebased, gains};
ghost use Rattle.homeo_outline.specs.Numbers.{has, clauses_on};
ghost use Rattle.homeo_outline.specs.ObjectPlan.{clauses_with};
ghost use Rattle.homeo_outline.specs.inner.Holding.{IsRebasedAtom, AreRebasedAtoms};
ghost use Rattle.homeo_outline.specs.inner.Moved.{slack_at, moved_slack};

use crate::outline::Outline;
use homeo_follow::PlanPart;
use homeo_meaning::padded::{item_or, put};
use homeo_plan::{Atom, AtomSet, Delta, FreezeSet, Linear, Term};
use homeo_syntax::{List, Memory};
use std::alloc::Global;

/// What an object gained from one base to another.
#[tactic(auto, unfolding(homeo_follow::specs::Key::definitions))]
fn gain(object: usize, from: &[i64], to: &[i64]) -> i128
    ensures { result ≡ gains (values_of from.now) (values_of to.now) object }
{
    i128::from(item_or(to, object, 0)) - i128::from(item_or(from, object, 0))
}

/// A term's factor times what its object gained; none where it is out of the range of i128.
fn gained_by(term: &Term, from: &[i64], to: &[i64]) -> Option<i128>
    ensures { IfSome result (λ n. n ≡ term.now.factor *ℤ gains (values_of from.now) (values_of to.now) term.now.delta.object) }
{
    let gain = gain(term.delta.object as usize, from, to);
    if gain == 0 {
        // as most do
        return Some(0);
    }
    term.factor.checked_mul(gain)
}

/// The sum of factor times what its object gained; none where it is out of the range of i128 on the way.
fn gained(terms: &[Term], from: &[i64], to: &[i64]) -> Option<i128>
    ensures { IfSome result (λ sum. sum ≡ gained (gains (values_of from.now) (values_of to.now)) terms.now) }
{
    let mut sum: i128 = 0;
    for term in terms {
        sum = sum.checked_add(gained_by(term, from, to)?)?;
    }
    Some(sum)
}

/// A form's constant with what its terms gained; none where it is out of the range of i128 on the way.
fn constant_after(form: &Linear, from: &[i64], to: &[i64]) -> Option<i128>
    ensures { IfSome result (λ n. n ≡ (rebased_form (gains (values_of from.now) (values_of to.now)) (plain_linear form.now)).constant) }
{
    let gained = gained(form.terms.as_slice(), from, to)?;
    form.constant.checked_add(gained)
}

/// Whether a form's constant is another's with what its terms gained.
fn has_gained(old: &Linear, new: &Linear, from: &[i64], to: &[i64]) -> bool
    ensures { IsTrue result → new.now.constant ≡
        (rebased_form (gains (values_of from.now) (values_of to.now)) (plain_linear old.now)).constant }
{
    constant_after(old, from, to) == Some(new.constant)
}

/// Whether two forms have the same terms and mix the same.
fn have_same_deltas(old: &Linear, new: &Linear) -> bool
    ensures terms { IsTrue result → new.now.terms.items ≡ old.now.terms.items }
    ensures mixed { IsTrue result → new.now.mixed.items ≡ old.now.mixed.items }
{
    new.terms.as_slice() == old.terms.as_slice() && new.mixed.as_slice() == old.mixed.as_slice()
}

/// Whether a form is another, rebased.
fn is_rebased_form(old: &Linear, new: &Linear, from: &[i64], to: &[i64]) -> bool
    ensures { IsTrue result → plain_linear new.now ≡ rebased_form (gains (values_of from.now) (values_of to.now)) (plain_linear old.now) }
{
    have_same_deltas(old, new) && has_gained(old, new, from, to)
}

/// Whether atoms are others, rebased.
fn are_rebased_atoms(old: &[Atom], new: &[Atom], from: &[i64], to: &[i64]) -> bool
    ensures { IsTrue result → map plain_atom new.now ≡
        map (λ a. rebased_form (gains (values_of from.now) (values_of to.now)) (plain_atom a)) old.now }
{
    if old.len() != new.len() {
        return false;
    }
    for i in 0..new.len() {
        if !is_rebased_form(&old[i].form, &new[i].form, from, to) {
            return false;
        }
    }
    true
}

/// Whether what a command brings at one base is what it brings at another, rebased: it asks the same terms there and needs the same,
/// and its constants go by what the objects gained. Where a gain is out of the range of i128 the answer is no. It takes no memory.
pub fn is_rebased(old: &PlanPart, new: &PlanPart, from: &[i64], to: &[i64]) -> bool
    ensures { IsTrue result → plain_part new.now ≡ rebased (gains (values_of from.now) (values_of to.now)) (plain_part old.now) }
{
    new.needs.deltas.as_slice() == old.needs.deltas.as_slice()
        && are_rebased_atoms(
            old.atoms.atoms.as_slice(),
            new.atoms.atoms.as_slice(),
            from,
            to,
        )
}

/// Whether none of these deltas is of an object that gained anything.
fn gain_nothing(deltas: &[Delta], from: &[i64], to: &[i64]) -> bool
    ensures { result ≡ list_all (λ d. int_eq (gains (values_of from.now) (values_of to.now) d.object) (pos 0)) deltas.now }
{
    deltas
        .iter()
        .all(|delta| gain(delta.object as usize, from, to) == 0)
}

/// An atom at another base, if it holds there; none where a number is out of the range of i128 on the way.
fn rebased_atom(
    alloc: Global,
    atom: &Atom,
    from: &[i64],
    to: &[i64],
) -> Result<Option<Atom>, Memory>
    ensures { IfOk result (λ found. IfSome found (IsRebasedAtom (gains (values_of from.now) (values_of to.now)) (plain_atom atom.now))) }
{
    let Some(constant) = constant_after(&atom.form, from, to) else {
        return Ok(None);
    };
    if constant > 0 || !gain_nothing(atom.form.mixed.as_slice(), from, to) {
        return Ok(None);
    }
    let mut form = atom.form.copy(alloc)?;
    form.constant = constant;
    Ok(Some(Atom { form }))
}

/// Atoms at another base, if all hold there; none where a number is out of the range of i128 on the way.
fn rebased_atoms(
    alloc: Global,
    atoms: &[Atom],
    from: &[i64],
    to: &[i64],
) -> Result<Option<Vec<Atom>>, Memory>
    ensures { IfOk result (λ found. IfSome found (λ made.
        AreRebasedAtoms (gains (values_of from.now) (values_of to.now)) (map plain_atom atoms.now) (map plain_atom made.items))) }
{
    let mut made = Vec::with_capacity(alloc, atoms.len())?;
    for atom in atoms {
        let Some(atom) = rebased_atom(alloc, atom, from, to)? else {
            return Ok(None);
        };
        made.push(atom)?;
    }
    Ok(Some(made))
}

/// What a command brings at one base, rebased to another, if all that it asks holds of what the objects gained; none where a number is
/// out of the range of i128 on the way. It takes time and memory linear in the part.
///
/// # Errors
///
/// `Memory` when out of memory.
pub fn rebased_part(
    alloc: Global,
    part: &PlanPart,
    from: &[i64],
    to: &[i64],
) -> Result<Option<PlanPart>, Memory>
    ensures part { IfOk result (λ found. IfSome found (λ made.
        plain_part made ≡ rebased (gains (values_of from.now) (values_of to.now)) (plain_part part.now))) }
    ensures holds { IfOk result (λ found. IfSome found (λ made.
        Each (AtomHolds (own_state (gains (values_of from.now) (values_of to.now)))) (plain_part part.now).atoms)) }
{
    let atoms = part.atoms.atoms.as_slice();
    let Some(atoms) = rebased_atoms(alloc, atoms, from, to)? else {
        return Ok(None);
    };
    let needs = Vec::from_slice(alloc, part.needs.deltas.as_slice())?;
    Ok(Some(PlanPart {
        atoms: AtomSet {
            atoms: List::from_vec(atoms),
        },
        needs: FreezeSet {
            deltas: List::from_vec(needs),
        },
    }))
}

/// The slack of a clause with these terms at another base; none where it is out of the range of i128 on the way.
fn slack_after(terms: &[Term], slack: i128, from: &[i64], to: &[i64]) -> Option<i128>
    ensures { IfSome result (λ s. s ≡ slack +ℤ neg_ℤ (gained (gains (values_of from.now) (values_of to.now)) terms.now)) }
{
    let gained = gained(terms, from, to)?;
    slack.checked_sub(gained)
}

/// Moves the slack of the clause of this number to another base; not where that is out of the range of i128 on the way, which is told.
fn move_slack(
    outline: &Outline,
    number: usize,
    slacks: &[i128],
    from: &[i64],
    to: &[i64],
    made: &mut Vec<i128>,
) -> Result<bool, Memory>
    ensures { IfOk result (λ moved. IsTrue moved → (n : ℕ) → slack_at made.new.items n ≡
        if number == n then moved_slack (gains (values_of from.now) (values_of to.now)) outline.now.terms slacks.now n
        else slack_at made.old.items n) }
{
    let terms = outline.terms();
    if number >= terms.len() {
        return Ok(false);
    }
    let slack = item_or(slacks, number, 0);
    let Some(moved) = slack_after(terms[number].as_slice(), slack, from, to) else {
        return Ok(false);
    };
    put(made, number, moved, 0)?;
    Ok(true)
}

/// Moves the slacks of the clauses that name an object; not those from the first on that is out of the range of i128 on the way,
/// which is told.
fn move_slacks(
    outline: &Outline,
    object: usize,
    slacks: &[i128],
    from: &[i64],
    to: &[i64],
    made: &mut Vec<i128>,
) -> Result<bool, Memory>
    ensures { IfOk result (λ moved. IsTrue moved → (n : ℕ) → slack_at made.new.items n ≡
        if has n (clauses_on object outline.now.terms) then moved_slack (gains (values_of from.now) (values_of to.now)) outline.now.terms slacks.now n
        else slack_at made.old.items n) }
{
    for number in outline.clauses_at(object) {
        if !move_slack(outline, *number as usize, slacks, from, to, made)? {
            return Ok(false);
        }
    }
    Ok(true)
}

/// The slacks, at another base, of the clauses of an outline that has these slacks, where what it is of is rebased: each has its slack
/// less what its terms gained. `None` where a number is out of the range of i128 on the way. The clauses that name no object with
/// another value aren't looked at.
///
/// # Errors
///
/// `Memory` when out of memory.
pub fn rebased_slacks(
    alloc: Global,
    outline: &Outline,
    slacks: &[i128],
    from: &[i64],
    to: &[i64],
) -> Result<Option<List<i128>>, Memory>
    ensures { IfOk result (λ made. IfSome made (λ ss. clauses_with outline.now.terms ss.items ≡
        map (rebased_clause (gains (values_of from.now) (values_of to.now))) (clauses_with outline.now.terms slacks.now))) }
{
    let mut made = Vec::from_slice(alloc, slacks)?;
    for object in 0..from.len().max(to.len()) {
        if gain(object, from, to) != 0
            && !move_slacks(outline, object, slacks, from, to, &mut made)?
        {
            return Ok(None);
        }
    }
    Ok(Some(List::from_vec(made)))
}
