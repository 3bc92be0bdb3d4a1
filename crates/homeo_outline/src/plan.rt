//! The plan of a round over whole objects.

ghost use Rattle.std.specs.Prelude.{◌≡◌, ◌+◌, ◌<◌, ◌^◌, ◌++◌, length, map, IfOk, OnOk};
ghost use Rattle.homeo_plan.specs.PlanView.{plain_clause, plain_template};
ghost use Rattle.homeo_plan.specs.declared.templates.Clause.{Clause};
ghost use Rattle.homeo_outline.specs.ObjectPlan.{template_with};

use crate::leaders::Leaders;
use crate::outline::Outline;
use homeo_follow::PlanPart;
use homeo_meaning::Database;
use homeo_meaning::padded::item_or;
use homeo_plan::{Clause, Config, Template, Term};
use homeo_syntax::{List, Memory};
use std::alloc::Global;
use std::sync::Arc;

/// What the sites of a round share (Roy et al., SIGMOD 2015; that it is over whole objects is this project's rule). In its clauses
/// a term stands for those of its object's deltas at all sites, by the one factor, whichever site it names.
#[derive(Drop)]
pub struct ObjectPlan {
    /// The database that the round begins with.
    pub base: Database,
    /// What the workload's L forms bring, one part for each form, in the order in which they are first called.
    pub parts: List<Arc<PlanPart>>,
    /// The template but for its slacks: the terms of the clauses are over whole objects, and the freezes deltas of sites.
    pub outline: Arc<Outline>,
    /// The slacks of the clauses, one for each.
    pub slacks: List<i128>,
    /// Of each object the clauses that are looked at in place of all that name it.
    pub leaders: Arc<Leaders>,
    /// The bounds of the clauses, where their slacks aren't split evenly.
    pub bounds: Option<Config>,
}

/// A template over whole objects as its outline and the slacks of its clauses. It copies no terms.
///
/// The clauses and freezes together must be fewer than 2^32.
///
/// # Errors
///
/// `Memory` when out of memory.
pub fn outlined(alloc: Global, t: Template) -> Result<(Outline, List<i128>), Memory>
    requires few { length t.clauses.items + length t.freezes.items < 2 ^ 32 }
    ensures sites { IfOk result (λ made. made.0.sites ≡ t.sites) }
    ensures template { IfOk result (λ made. template_with made.0 made.1.items ≡ plain_template t) }
{
    let count = t.clauses.as_slice().len();
    let mut terms = Vec::with_capacity(alloc, count)?;
    let mut slacks = Vec::with_capacity(alloc, count)?;
    move_parts(t.clauses, &mut terms, &mut slacks)?;
    let outline = Outline::new(alloc, t.sites, List::from_vec(terms), t.freezes)?;
    Ok((outline, List::from_vec(slacks)))
}

/// Puts the terms of clauses behind others, and their slacks.
fn move_parts(
    clauses: List<Clause>,
    terms: &mut Vec<List<Term>>,
    slacks: &mut Vec<i128>,
) -> Result<(), Memory>
    ensures terms { OnOk result (terms.new.items ≡ terms.old.items ++ map (λ (c : Clause). c.terms) clauses.items) }
    ensures slacks { OnOk result (slacks.new.items ≡ slacks.old.items ++ map (λ (c : Clause). c.slack) clauses.items) }
{
    for clause in clauses.into_vec() {
        terms.push(clause.terms)?;
        slacks.push(clause.slack)?;
    }
    Ok(())
}

/// The template over whole objects that has an outline and slacks, one for each clause. It takes time and memory linear in the template.
///
/// # Errors
///
/// `Memory` when out of memory.
pub fn whole_template(alloc: Global, outline: &Outline, slacks: &[i128]) -> Result<Template, Memory>
    ensures sites { IfOk result (λ t. t.sites ≡ outline.now.sites) }
    ensures template { IfOk result (λ t. plain_template t ≡ template_with outline.now slacks.now) }
{
    let terms = outline.terms();
    let mut clauses = Vec::with_capacity(alloc, terms.len())?;
    for number in 0..terms.len() {
        clauses.push(clause_with(alloc, terms[number].as_slice(), item_or(slacks, number, 0))?)?;
    }
    let freezes = Vec::from_slice(alloc, outline.freezes())?;
    Ok(Template {
        sites: outline.sites(),
        clauses: List::from_vec(clauses),
        freezes: List::from_vec(freezes),
    })
}

/// A clause with these terms and this slack.
fn clause_with(alloc: Global, terms: &[Term], slack: i128) -> Result<Clause, Memory>
    ensures { IfOk result (λ c. plain_clause c ≡ record { terms = terms.now; slack = slack }) }
{
    let terms = Vec::from_slice(alloc, terms)?;
    Ok(Clause {
        terms: List::from_vec(terms),
        slack,
    })
}
