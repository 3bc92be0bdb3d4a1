//! Numbers of clauses and freezes that are at what commands write.

ghost use Rattle.std.specs.Prelude.{◌≡◌, ◌<◌, ◌≤◌, ◌^◌, ◌||◌, ◌++◌, ◌∷◌, [], ℕ, false, All, length, map, option_to_list, slice_index_or, IfOk, OnOk};
ghost use Rattle.std.specs.Ordering.{nat_cmp};
ghost use Rattle.std.specs.List.Sorted.{IsStrictlySortedBy};
ghost use Rattle.homeo_syntax.specs.LowView.{low_commands, plain_lcommand};
ghost use Rattle.homeo_outline.specs.Numbers.{has};
ghost use Rattle.homeo_effect.specs.Touched.{with_delta, written};
ghost use Rattle.homeo_effect.specs.inner.Uses.{objects_of, is_clause_on, freezes_at, is_freeze_on, marked_from};

use homeo_outline::Outline;
use homeo_plan::Delta;
use homeo_syntax::{LCommand, Memory, SplitName};
use std::alloc::Global;

/// The delta that a command writes.
#[tactic(auto, using(homeo_syntax::proofs::LowViews::low_command_views, crate::proofs::Equations::writes))]
fn written_delta(c: &LCommand) -> Option<Delta>
    ensures { written (low_commands (plain_lcommand c.now ∷ [])) ≡ option_to_list result }
{
    match c {
        LCommand::Write { target, value: _ } => delta_named(*target),
        LCommand::Skip => None,
        LCommand::Assign { .. } => None,
        LCommand::Print { .. } => None,
        LCommand::Seq { .. } => None,
        LCommand::If { .. } => None,
    }
}

/// The delta that a name stands for.
#[tactic(auto, unfolding(crate::specs::Key::definitions, homeo_plan::specs::Key::definitions))]
fn delta_named(name: SplitName) -> Option<Delta>
    ensures { with_delta name [] ≡ option_to_list result }
{
    match name {
        SplitName::Delta { object, site } => Some(Delta { object, site }),
        SplitName::Whole(_) => None,
        SplitName::Base(_) => None,
    }
}

/// Appends the object of which a command writes a delta.
fn append_object(objects: &mut Vec<u32>, c: &LCommand) -> Result<(), Memory>
    ensures { OnOk result (objects.new.items ≡ objects.old.items ++ objects_of (written (low_commands (plain_lcommand c.now ∷ [])))) }
{
    match written_delta(c) {
        Some(delta) => {
            objects.push(delta.object)?;
            Ok(())
        }
        None => Ok(()),
    }
}

/// The objects of which commands write a delta: rising, each once.
fn written_objects(alloc: Global, cs: &[LCommand]) -> Result<Vec<u32>, Memory>
    ensures { IfOk result (λ v. (x : ℕ) → has x v.items ≡ has x (objects_of (written (low_commands (map plain_lcommand cs.now))))) }
{
    let mut objects = Vec::new(alloc);
    for c in cs {
        append_object(&mut objects, c)?;
    }
    objects.sort_unstable();
    objects.dedup();
    Ok(objects)
}

/// The numbers, from 0, of the clauses that name an object of which commands write a delta: rising, each once. An object that is
/// written often is looked up once.
pub(crate) fn written_clauses(
    alloc: Global,
    outline: &Outline,
    cs: &[LCommand],
) -> Result<Vec<u32>, Memory>
    ensures rising { IfOk result (λ v. IsStrictlySortedBy nat_cmp v.items) }
    ensures all { IfOk result (λ v. (n : ℕ) → has n v.items ≡
        is_clause_on outline.now.terms n (objects_of (written (low_commands (map plain_lcommand cs.now))))) }
{
    let objects = written_objects(alloc, cs)?;
    let mut numbers = Vec::new(alloc);
    for object in objects.as_slice() {
        numbers.extend_from_slice(outline.clauses_on(*object))?;
    }
    rising(alloc, numbers)
}

/// The numbers of the freezes, at a site, of the objects of which commands write a delta: rising, each once. They go on after those
/// of all clauses.
pub(crate) fn written_freezes(
    alloc: Global,
    outline: &Outline,
    site: u32,
    cs: &[LCommand],
) -> Result<Vec<u32>, Memory>
    ensures rising { IfOk result (λ v. IsStrictlySortedBy nat_cmp v.items) }
    ensures all { IfOk result (λ v. (n : ℕ) → has n v.items ≡
        is_freeze_on outline.now site n (objects_of (written (low_commands (map plain_lcommand cs.now))))) }
{
    let objects = written_objects(alloc, cs)?;
    let mut numbers = Vec::new(alloc);
    for object in objects.as_slice() {
        append_freezes(&mut numbers, outline, site, *object)?;
    }
    rising(alloc, numbers)
}

/// Appends the numbers of the freezes of an object at a site.
fn append_freezes(
    numbers: &mut Vec<u32>,
    outline: &Outline,
    site: u32,
    object: u32,
) -> Result<(), Memory>
    ensures { OnOk result ((n : ℕ) → has n numbers.new.items ≡ (has n numbers.old.items || has n (freezes_at object site outline.now))) }
{
    let first = outline.terms().len();
    for number in outline.freezes_on(object) {
        if outline.freezes()[*number as usize - first].site == site {
            numbers.push(*number)?;
        }
    }
    Ok(())
}

/// Numbers in rising order, each once. Many are marked and read off, as a sort would merge the lists of all objects; where they are
/// few, or far fewer than their marks would be, they are sorted.
fn rising(alloc: Global, numbers: Vec<u32>) -> Result<Vec<u32>, Memory>
    ensures rising { IfOk result (λ v. IsStrictlySortedBy nat_cmp v.items) }
    ensures all { IfOk result (λ v. (n : ℕ) → has n v.items ≡ has n numbers.items) }
{
    let count = mark_count(numbers.as_slice());
    if numbers.len() < 16 + count / 16 {
        sorted(numbers)
    } else {
        let marks = marks(alloc, count, numbers.as_slice())?;
        Ok(marked(numbers, marks.as_slice()))
    }
}

fn sorted(mut numbers: Vec<u32>) -> Result<Vec<u32>, Memory>
    ensures rising { IfOk result (λ v. IsStrictlySortedBy nat_cmp v.items) }
    ensures all { IfOk result (λ v. (n : ℕ) → has n v.items ≡ has n numbers.items) }
{
    // (a stable sort merges the rising runs that stand there)
    numbers.sort()?;
    numbers.dedup();
    Ok(numbers)
}

/// How many marks there must be for each number to have one: 1 more than the largest.
fn mark_count(numbers: &[u32]) -> usize
    ensures above { All (λ n. n < result) numbers.now }
    ensures small { result ≤ 2 ^ 32 }
{
    let mut count = 0usize;
    for number in numbers {
        count = count.max(*number as usize + 1);
    }
    count
}

/// So many marks, of which those of the numbers are set.
fn marks(alloc: Global, count: usize, numbers: &[u32]) -> Result<Vec<bool>, Memory>
    requires { All (λ n. n < count) numbers.now }
    ensures count { IfOk result (λ marks. length marks.items ≡ count) }
    ensures set { IfOk result (λ marks. (n : ℕ) → slice_index_or marks.items n false ≡ has n numbers.now) }
{
    let mut marks = vec![in alloc; false; count]?;
    for number in numbers {
        marks[*number as usize] = true;
    }
    Ok(marks)
}

/// The numbers whose marks are set, written over numbers that are no fewer.
fn marked(mut numbers: Vec<u32>, marks: &[bool]) -> Vec<u32>
    requires small { length marks.now ≤ 2 ^ 32 }
    requires room { length (marked_from 0 marks.now) ≤ length numbers.items }
    ensures { result.items ≡ marked_from 0 marks.now }
{
    let mut place = 0;
    for (number, mark) in marks.iter().enumerate() {
        if *mark {
            numbers[place] = number as u32;
            place += 1;
        }
    }
    numbers.truncate(place);
    numbers
}
