//! The text of a template with a configuration, over the deltas of the sites.
#![tactic(auto, using(crate::proofs::TemplateSteps::template_steps))]

ghost use Rattle.std.specs.Prelude.{◌≡◌, ◌++◌, map, length, OnOk};
ghost use Rattle.homeo_syntax.specs.SourceView.{plain_workload};
ghost use Rattle.homeo_plan.specs.PlanView.{plain_clause, plain_template, plain_config};
ghost use Rattle.homeo_print.specs.Names.{object_names};
ghost use Rattle.homeo_print.specs.Treaties.{terms_text, clause_text, clauses_text, template_text};

use crate::append::{push_byte, push_bytes, push_heading, push_number, push_wide};
use crate::objects::ObjectNames;
use crate::treaties::{push_bounds, push_delta, push_freezes};
use homeo_plan::{Clause, Config, Template, Term};
use homeo_syntax::{Memory, Workload};

/// Appends terms, each behind a space.
#[tactic(auto, unfolding(crate::specs::Key::definitions))]
fn push_terms(
    out: &mut Vec<u8>,
    w: &Workload,
    objects: &ObjectNames,
    terms: &[Term],
) -> Result<(), Memory>
    requires named { objects.now ≡ object_names (plain_workload w.now) }
    ensures { OnOk result (out.new.items ≡ out.old.items ++ terms_text (plain_workload w.now) terms.now) }
{
    for term in terms {
        push_byte(out, b' ')?;
        push_wide(out, term.factor)?;
        push_byte(out, b'*')?;
        push_delta(out, w, objects, term.delta)?;
    }
    Ok(())
}

/// Appends the line of a clause with its bounds.
fn push_clause(
    out: &mut Vec<u8>,
    w: &Workload,
    objects: &ObjectNames,
    number: u64,
    clause: &Clause,
    bounds: &[i128],
) -> Result<(), Memory>
    requires named { objects.now ≡ object_names (plain_workload w.now) }
    ensures { OnOk result (out.new.items
        ≡ out.old.items ++ clause_text (plain_workload w.now) number (plain_clause clause.now) bounds.now) }
{
    push_number(out, number)?;
    push_bytes(out, b" slack ")?;
    push_wide(out, clause.slack)?;
    push_bytes(out, b" bounds")?;
    push_bounds(out, bounds)?;
    push_bytes(out, b" form")?;
    push_terms(out, w, objects, clause.terms.as_slice())?;
    push_byte(out, b'\n')
}

/// Appends clauses, numbered from 0, each with its bounds.
fn push_clauses(
    out: &mut Vec<u8>,
    w: &Workload,
    objects: &ObjectNames,
    clauses: &[Clause],
    config: &Config,
) -> Result<(), Memory>
    requires named { objects.now ≡ object_names (plain_workload w.now) }
    requires bounds { length config.now.bounds.items ≡ length clauses.now }
    ensures { OnOk result (out.new.items ≡ out.old.items
        ++ clauses_text (plain_workload w.now) (map plain_clause clauses.now) (plain_config config.now)) }
{
    let bounds = config.bounds.as_slice();
    for (number, clause) in clauses.iter().enumerate() {
        let own = bounds[number].as_slice();
        push_clause(out, w, objects, number as u64, clause, own)?;
    }
    Ok(())
}

/// Appends the treaties of a template with a configuration, as `print_plan` appends those of a plan over whole objects: so the treaties
/// of a round whose configuration the caller gave can be printed.
///
/// There must be a list of bounds for each clause.
///
/// # Errors
///
/// `Memory` when out of memory, and then some of the bytes may be appended.
pub fn print_template(
    out: &mut Vec<u8>,
    w: &Workload,
    objects: &ObjectNames,
    t: &Template,
    c: &Config,
) -> Result<(), Memory>
    requires named { objects.now ≡ object_names (plain_workload w.now) }
    requires bounds { length (plain_config c.now) ≡ length (plain_template t.now).clauses }
    ensures text { OnOk result (out.new.items ≡ out.old.items
        ++ template_text (plain_workload w.now) (plain_template t.now) (plain_config c.now)) }
{
    let clauses = t.clauses.as_slice();
    let freezes = t.freezes.as_slice();
    push_heading(out, b"clauses ", clauses.len() as u64)?;
    push_clauses(out, w, objects, clauses, c)?;
    push_heading(out, b"freezes ", freezes.len() as u64)?;
    push_freezes(out, w, objects, clauses.len(), freezes)
}
