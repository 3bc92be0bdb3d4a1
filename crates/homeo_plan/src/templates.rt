//! Templates and configurations.

ghost use Rattle.std.specs.Prelude.{◌≡◌, map, ℤ, IfOk};
ghost use Rattle.homeo_syntax.specs.Listed.{Listed};
ghost use Rattle.homeo_plan.specs.PlanView.{plain_clause, plain_template, plain_config};

use crate::forms::{Delta, Term};
use homeo_syntax::{List, Memory};
use std::alloc::Global;

/// Deltas that stay 0 through a round, each once, by object and then by site.
#[derive(Drop)]
pub struct FreezeSet {
    pub deltas: List<Delta>,
}

/// A clause: the sum of factor times delta is at most the slack.
#[derive(Drop)]
pub struct Clause {
    pub terms: List<Term>,
    pub slack: i128,
}

/// What all treaties of a round ask of the deltas (Roy et al., SIGMOD 2015; the order is this project's rule).
#[derive(Drop)]
pub struct Template {
    /// How many sites there are.
    pub sites: u32,
    /// In the order of the calls and of their tests, each once.
    pub clauses: List<Clause>,
    /// Deltas that stay 0, each once, by object and then by site.
    pub freezes: List<Delta>,
}

/// The bounds of a template's clauses (Roy et al., SIGMOD 2015).
#[derive(Drop)]
pub struct Config {
    /// Of each clause a bound for each site.
    pub bounds: List<List<i128>>,
}

impl FreezeSet {
    /// Makes an equal value.
    ///
    /// # Errors
    ///
    /// `Memory` when out of memory.
    pub fn copy(&self, alloc: Global) -> Result<FreezeSet, Memory>
        ensures { IfOk result (λ c. c.deltas.items ≡ self.now.deltas.items) }
    {
        let deltas = Vec::from_slice(alloc, self.deltas.as_slice())?;
        Ok(FreezeSet {
            deltas: List::from_vec(deltas),
        })
    }
}

impl Clause {
    /// Makes an equal value.
    ///
    /// # Errors
    ///
    /// `Memory` when out of memory.
    pub fn copy(&self, alloc: Global) -> Result<Clause, Memory>
        ensures { IfOk result (λ c. plain_clause c ≡ plain_clause self.now) }
    {
        let terms = Vec::from_slice(alloc, self.terms.as_slice())?;
        Ok(Clause {
            terms: List::from_vec(terms),
            slack: self.slack,
        })
    }
}

impl Template {
    /// Makes an equal value.
    ///
    /// # Errors
    ///
    /// `Memory` when out of memory.
    pub fn copy(&self, alloc: Global) -> Result<Template, Memory>
        ensures sites { IfOk result (λ c. c.sites ≡ self.now.sites) }
        ensures value { IfOk result (λ c. plain_template c ≡ plain_template self.now) }
    {
        let clauses = copy_clauses(alloc, self.clauses.as_slice())?;
        let freezes = Vec::from_slice(alloc, self.freezes.as_slice())?;
        Ok(Template {
            sites: self.sites,
            clauses,
            freezes: List::from_vec(freezes),
        })
    }
}

fn copy_clauses(alloc: Global, clauses: &[Clause]) -> Result<List<Clause>, Memory>
    ensures { IfOk result (λ c. map plain_clause c.items ≡ map plain_clause clauses.now) }
{
    let mut copy = List::new(alloc);
    for clause in clauses {
        copy.push(clause.copy(alloc)?)?;
    }
    Ok(copy)
}

impl Config {
    /// Makes an equal value.
    ///
    /// # Errors
    ///
    /// `Memory` when out of memory.
    pub fn copy(&self, alloc: Global) -> Result<Config, Memory>
        ensures { IfOk result (λ c. plain_config c ≡ plain_config self.now) }
    {
        let bounds = copy_lists(alloc, self.bounds.as_slice())?;
        Ok(Config { bounds })
    }
}

fn copy_lists(alloc: Global, lists: &[List<i128>]) -> Result<List<List<i128>>, Memory>
    ensures { IfOk result (λ c. map (λ (b : Listed ℤ). b.items) c.items ≡ map (λ (b : Listed ℤ). b.items) lists.now) }
{
    let mut copy = List::new(alloc);
    for list in lists {
        copy.push(copy_numbers(alloc, list.as_slice())?)?;
    }
    Ok(copy)
}

fn copy_numbers(alloc: Global, numbers: &[i128]) -> Result<List<i128>, Memory>
    ensures { IfOk result (λ c. c.items ≡ numbers.now) }
{
    let copy = Vec::from_slice(alloc, numbers)?;
    Ok(List::from_vec(copy))
}
