//! What is made of a workload once for all its rounds.

ghost use Rattle.std.specs.Prelude.{◌≡◌, map, IfOk};
ghost use Rattle.homeo_syntax.specs.LowView.{plain_lcommand};
ghost use Rattle.homeo_syntax.specs.SourceView.{plain_workload};
ghost use Rattle.homeo_meaning.specs.Declarations.{declarations};
ghost use Rattle.homeo_meaning.specs.Findings.{AreFindings};
ghost use Rattle.homeo_meaning.specs.Forms.{AreForms};
ghost use Rattle.homeo_meaning.specs.Ground.{grounds};
ghost use Rattle.homeo_ground.specs.Grounding.{grounding};
ghost use Rattle.homeo_follow.specs.Named.{named};
ghost use Rattle.homeo_build.specs.Written.{AreWritten};

use crate::compiled::Compiled;
use crate::forms::{Forms, forms_of};
use crate::written::written_objects;
use homeo_context::Declarations;
use homeo_ground::Grounding;
use homeo_meaning::{Accepted, Findings};
use homeo_syntax::Memory;
use std::alloc::Global;

/// The ground calls of an accepted workload, and the L form of each transaction with arguments: those that acceptance made, where
/// it did. It is made once: no base has a part in it. What the delta transforms of the forms add, terms for each site at each read, is not made here.
///
/// # Errors
///
/// `Memory` when out of memory.
pub fn compile(alloc: Global, mut w: Accepted) -> Result<Compiled, Memory>
    ensures { IfOk result (λ c. plain_workload c ≡ plain_workload w) }
{
    let Parts {
        declared,
        calls,
        forms,
        written,
    } = compile_parts(alloc, &mut w)?;
    Ok(Compiled::new(w, declared, calls, forms, written))
}

/// What is made of a workload: the places of its names, its ground calls, their L forms, and for each site which objects these
/// write there.
struct Parts {
    declared: Declarations,
    calls: Grounding,
    forms: Forms,
    written: Vec<Vec<bool>>,
}

/// The ground calls of a workload, and their L forms.
struct Calls {
    calls: Grounding,
    forms: Forms,
}

/// As acceptance found them.
fn calls_found(
    alloc: Global,
    w: &Accepted,
    declared: &Declarations,
    findings: Findings,
) -> Result<Calls, Memory>
    requires declared { declared.now ≡ declarations (plain_workload w.now) }
    requires findings { AreFindings (plain_workload w.now) findings }
    ensures table { IfOk result (λ c. c.calls ≡ grounding (plain_workload w.now)) }
    ensures calls { IfOk result (λ c. c.calls.calls ≡ grounds (plain_workload w.now)) }
    ensures forms { IfOk result (λ c. AreForms (plain_workload w.now) (map plain_lcommand c.forms.forms.items) c.forms.places.items) }
    ensures names { IfOk result (λ c. map (λ ns. ns.items) c.forms.names.items ≡ map named (map plain_lcommand c.forms.forms.items)) }
{
    let Findings {
        calls,
        forms,
        places,
    } = findings;
    let calls = Grounding::with_places(alloc, w, declared, calls)?;
    let forms = Forms::found(alloc, forms, places)?;
    Ok(Calls { calls, forms })
}

/// As they are found and made of the workload alone.
fn calls_made(alloc: Global, w: &Accepted, declared: &Declarations) -> Result<Calls, Memory>
    requires declared { declared.now ≡ declarations (plain_workload w.now) }
    ensures table { IfOk result (λ c. c.calls ≡ grounding (plain_workload w.now)) }
    ensures calls { IfOk result (λ c. c.calls.calls ≡ grounds (plain_workload w.now)) }
    ensures forms { IfOk result (λ c. AreForms (plain_workload w.now) (map plain_lcommand c.forms.forms.items) c.forms.places.items) }
    ensures names { IfOk result (λ c. map (λ ns. ns.items) c.forms.names.items ≡ map named (map plain_lcommand c.forms.forms.items)) }
{
    let calls = Grounding::of(alloc, w, declared)?;
    let grounds = calls.calls();
    let forms = forms_of(alloc, w, declared, grounds)?;
    Ok(Calls { calls, forms })
}

/// The ground calls of a workload and their L forms, as acceptance found them, where it did.
fn calls_of(alloc: Global, w: &mut Accepted, declared: &Declarations) -> Result<Calls, Memory>
    requires declared { declared.now ≡ declarations (plain_workload w.old) }
    ensures same { w.new ≡ w.old }
    ensures table { IfOk result (λ c. c.calls ≡ grounding (plain_workload w.old)) }
    ensures calls { IfOk result (λ c. c.calls.calls ≡ grounds (plain_workload w.old)) }
    ensures forms { IfOk result (λ c. AreForms (plain_workload w.old) (map plain_lcommand c.forms.forms.items) c.forms.places.items) }
    ensures names { IfOk result (λ c. map (λ ns. ns.items) c.forms.names.items ≡ map named (map plain_lcommand c.forms.forms.items)) }
{
    match w.take_findings() {
        Some(findings) => calls_found(alloc, w, declared, findings),
        None => calls_made(alloc, w, declared),
    }
}

/// Makes what is fixed for all rounds of a workload.
fn compile_parts(alloc: Global, w: &mut Accepted) -> Result<Parts, Memory>
    ensures same { w.new ≡ w.old }
    ensures declared { IfOk result (λ p. p.declared ≡ declarations (plain_workload w.old)) }
    ensures calls { IfOk result (λ p. p.calls ≡ grounding (plain_workload w.old)) }
    ensures forms { IfOk result (λ p. AreForms (plain_workload w.old) (map plain_lcommand p.forms.forms.items) p.forms.places.items) }
    ensures names { IfOk result (λ p. map (λ ns. ns.items) p.forms.names.items ≡ map named (map plain_lcommand p.forms.forms.items)) }
    ensures written { IfOk result (λ p. AreWritten (plain_workload w.old) (map (λ row. row.items) p.written.items)) }
{
    let declared = Declarations::of(alloc, w)?;
    let Calls { calls, forms } = calls_of(alloc, w, &declared)?;
    let grounds = calls.calls();
    let written = written_objects(alloc, w, grounds, &forms)?;
    Ok(Parts {
        declared,
        calls,
        forms,
        written,
    })
}
