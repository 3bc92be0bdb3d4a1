//! The text of treaties.
#![tactic(auto, using(crate::proofs::TreatySteps::treaty_steps))]

ghost use Rattle.std.specs.Prelude.{◌≡◌, ◌<◌, ◌++◌, length, OnOk};
ghost use Rattle.homeo_syntax.specs.SourceView.{plain_workload};
ghost use Rattle.homeo_follow.specs.Expanded.{expanded_terms};
ghost use Rattle.homeo_outline.specs.ObjectPlan.{template_in, config_in};
ghost use Rattle.homeo_print.specs.Names.{numbers_text, object_names};
ghost use Rattle.homeo_print.specs.Plans.{HasBounds};
ghost use Rattle.homeo_print.specs.Treaties.{delta_text, terms_text, clause_text, clauses_text, freeze_text, freezes_text, template_text};
ghost use Rattle.homeo_print.specs.inner.Clauses.{slack_in, clause_in, bounds_in};

use crate::append::{push_byte, push_bytes, push_heading, push_integer, push_number, push_wide};
use crate::even::EvenSplits;
use crate::formulas::push_split_name;
use crate::objects::ObjectNames;
use crate::terms::SpreadTerms;
use homeo_meaning::padded::item_or;
use homeo_outline::ObjectPlan;
use homeo_plan::{Delta, Term};
use homeo_syntax::{Memory, SplitName, Workload};
use std::alloc::Global;

/// What comes again and again in the lines of clauses.
#[derive(Drop)]
struct KeptTexts {
    splits: EvenSplits,
    spread: SpreadTerms,
}

impl KeptTexts {
    fn new(alloc: Global) -> Result<KeptTexts, Memory> {
        Ok(KeptTexts {
            splits: EvenSplits::new(alloc)?,
            spread: SpreadTerms::new(alloc)?,
        })
    }
}

pub(crate) fn push_delta(
    out: &mut Vec<u8>,
    w: &Workload,
    objects: &ObjectNames,
    delta: Delta,
) -> Result<(), Memory>
    requires named { objects.now ≡ object_names (plain_workload w.now) }
    ensures { OnOk result (out.new.items ≡ out.old.items ++ delta_text (plain_workload w.now) delta) }
{
    let Delta { object, site } = delta;
    push_split_name(out, w, objects, SplitName::Delta { object, site })
}

/// Appends bounds, each behind a space.
#[tactic(auto, unfolding(crate::specs::Key::definitions))]
pub(crate) fn push_bounds(out: &mut Vec<u8>, bounds: &[i128]) -> Result<(), Memory>
    ensures { OnOk result (out.new.items ≡ out.old.items ++ numbers_text bounds.now) }
{
    for bound in bounds {
        push_byte(out, b' ')?;
        push_wide(out, *bound)?;
    }
    Ok(())
}

/// The slack of the clause of a number.
#[tactic(auto, unfolding(crate::specs::Key::definitions))]
fn slack_in(plan: &ObjectPlan, clause: usize) -> i128
    ensures { result ≡ slack_in plan.now clause }
{
    item_or(plan.slacks.as_slice(), clause, 0)
}

/// Appends the bounds of the clause of a number, each behind a space.
fn push_bounds_in(
    out: &mut Vec<u8>,
    splits: &mut EvenSplits,
    plan: &ObjectPlan,
    clause: usize,
) -> Result<(), Memory>
    requires bounds { HasBounds plan.now }
    requires clause { clause < length plan.now.outline.value.terms }
    ensures { OnOk result (out.new.items ≡ out.old.items ++ numbers_text (bounds_in plan.now clause)) }
{
    match &plan.bounds {
        None => splits.push(out, slack_in(plan, clause), plan.outline.sites()),
        Some(config) => push_bounds(out, config.bounds.as_slice()[clause].as_slice()),
    }
}

/// Appends terms over whole objects, as they stand for the deltas at so many sites.
fn push_terms(
    out: &mut Vec<u8>,
    spread: &mut SpreadTerms,
    w: &Workload,
    objects: &ObjectNames,
    terms: &[Term],
    sites: u32,
) -> Result<(), Memory>
    requires named { objects.now ≡ object_names (plain_workload w.now) }
    ensures { OnOk result (out.new.items
        ≡ out.old.items ++ terms_text (plain_workload w.now) (expanded_terms sites terms.now)) }
{
    for term in terms {
        spread.push(out, w, objects, *term, sites)?;
    }
    Ok(())
}

/// Appends the terms of the clause of a number.
fn push_terms_in(
    out: &mut Vec<u8>,
    spread: &mut SpreadTerms,
    w: &Workload,
    objects: &ObjectNames,
    plan: &ObjectPlan,
    clause: usize,
) -> Result<(), Memory>
    requires named { objects.now ≡ object_names (plain_workload w.now) }
    requires clause { clause < length plan.now.outline.value.terms }
    ensures { OnOk result (out.new.items
        ≡ out.old.items ++ terms_text (plain_workload w.now) (clause_in plan.now clause).terms) }
{
    let terms = plan.outline.terms()[clause].as_slice();
    push_terms(out, spread, w, objects, terms, plan.outline.sites())
}

/// Appends the line of the clause of a number, with its bounds.
fn push_clause(
    out: &mut Vec<u8>,
    texts: &mut KeptTexts,
    w: &Workload,
    objects: &ObjectNames,
    plan: &ObjectPlan,
    clause: usize,
) -> Result<(), Memory>
    requires named { objects.now ≡ object_names (plain_workload w.now) }
    requires bounds { HasBounds plan.now }
    requires clause { clause < length plan.now.outline.value.terms }
    ensures { OnOk result (out.new.items ≡ out.old.items
        ++ clause_text (plain_workload w.now) clause (clause_in plan.now clause) (bounds_in plan.now clause)) }
{
    push_number(out, clause as u64)?;
    push_bytes(out, b" slack ")?;
    push_wide(out, slack_in(plan, clause))?;
    push_bytes(out, b" bounds")?;
    push_bounds_in(out, &mut texts.splits, plan, clause)?;
    push_bytes(out, b" form")?;
    push_terms_in(out, &mut texts.spread, w, objects, plan, clause)?;
    push_byte(out, b'\n')
}

/// Appends the clauses of a plan, numbered from 0, each with its bounds.
fn push_clauses(
    out: &mut Vec<u8>,
    w: &Workload,
    objects: &ObjectNames,
    plan: &ObjectPlan,
) -> Result<(), Memory>
    requires named { objects.now ≡ object_names (plain_workload w.now) }
    requires bounds { HasBounds plan.now }
    ensures { OnOk result (out.new.items ≡ out.old.items
        ++ clauses_text (plain_workload w.now) (template_in plan.now).clauses (config_in plan.now)) }
{
    let mut texts = KeptTexts::new(*out.allocator())?;
    for clause in 0..plan.outline.terms().len() {
        push_clause(out, &mut texts, w, objects, plan, clause)?;
    }
    Ok(())
}

/// Appends the line of a freeze.
fn push_freeze(
    out: &mut Vec<u8>,
    w: &Workload,
    objects: &ObjectNames,
    number: u128,
    delta: Delta,
) -> Result<(), Memory>
    requires named { objects.now ≡ object_names (plain_workload w.now) }
    ensures { OnOk result (out.new.items ≡ out.old.items ++ freeze_text (plain_workload w.now) number delta) }
{
    push_integer(out, number)?;
    push_bytes(out, b" ")?;
    push_delta(out, w, objects, delta)?;
    push_bytes(out, b"\n")
}

/// Appends freezes, numbered from `first` on.
pub(crate) fn push_freezes(
    out: &mut Vec<u8>,
    w: &Workload,
    objects: &ObjectNames,
    first: usize,
    freezes: &[Delta],
) -> Result<(), Memory>
    requires named { objects.now ≡ object_names (plain_workload w.now) }
    ensures { OnOk result (out.new.items ≡ out.old.items ++ freezes_text (plain_workload w.now) first freezes.now) }
{
    for (place, delta) in freezes.iter().enumerate() {
        push_freeze(out, w, objects, first as u128 + place as u128, *delta)?;
    }
    Ok(())
}

/// Appends the treaties of a plan: a line with how many clauses there are and a line for each, with its number, its slack, the bound
/// of each site and its terms, over the deltas of the sites, and then a line with how many freezes there are and a line for each, with
/// its number and its delta. The names are those of the workload's objects. Beside the text it takes memory for the
/// bounds of two clauses and for 64 terms, at all sites.
///
/// Each slack must be one that can be split, and bounds that are given must be as many as the clauses.
///
/// # Errors
///
/// `Memory` when out of memory, and then some of the bytes may be appended.
pub fn print_plan(
    out: &mut Vec<u8>,
    w: &Workload,
    objects: &ObjectNames,
    plan: &ObjectPlan,
) -> Result<(), Memory>
    requires named { objects.now ≡ object_names (plain_workload w.now) }
    requires bounds { HasBounds plan.now }
    ensures text { OnOk result (out.new.items ≡ out.old.items
        ++ template_text (plain_workload w.now) (template_in plan.now) (config_in plan.now)) }
{
    let clauses = plan.outline.terms().len();
    let freezes = plan.outline.freezes();
    push_heading(out, b"clauses ", clauses as u64)?;
    push_clauses(out, w, objects, plan)?;
    push_heading(out, b"freezes ", freezes.len() as u64)?;
    push_freezes(out, w, objects, clauses, freezes)
}
