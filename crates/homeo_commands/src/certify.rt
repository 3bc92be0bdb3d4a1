//! The certificate of a workload's first round.

ghost use Rattle.std.specs.Prelude.{◌≡◌, ◌++◌, codes, IfOk, IsErrOf};
ghost use Rattle.homeo_syntax.specs.declared.workload.Refusal.{Refusal};
ghost use Rattle.homeo_syntax.specs.SourceView.{plain_workload};
ghost use Rattle.homeo_meaning.specs.Initial.{initial};
ghost use Rattle.homeo_plan.specs.PlanView.{plain_config};
ghost use Rattle.homeo_plan.specs.Planned.{policy};
ghost use Rattle.homeo_build.specs.Plan.{IsPlanOf};
ghost use Rattle.homeo_commands.specs.Certified.{IsCertificateLine, IsUncertified};

use crate::stop::Stop;
use homeo_build::Compiled;
use homeo_build::compile::compile;
use homeo_build::treaties::treaties;
use homeo_cert::{CertError, certificate};
use homeo_eval::initial;
use homeo_meaning::Accepted;
use homeo_plan::RoundPlan;
use homeo_syntax::{Memory, Refusal};
use std::alloc::Global;

/// What is told where a certificate is too long.
const LONG_CERTIFICATE: Refusal = Refusal {
    code: 17,
    offset: 16_777_216,
};

/// The certificate of the round that begins at the initial database, and a newline.
pub(crate) fn certify(alloc: Global, w: Accepted) -> Result<Vec<u8>, Stop>
    ensures made { IfOk result (λ bytes. IsCertificateLine (plain_workload w) bytes.items) }
    ensures refused { (r : Refusal) → IsErrOf result (Stop.Refused r) → IsUncertified (plain_workload w) r }
    ensures no_other { (IsErrOf result Stop.Usage → ⊥) × (IsErrOf result Stop.ReadFault → ⊥) }
{
    let compiled = compile(alloc, w)?;
    first_certificate(alloc, &compiled)
}

/// The same of a compiled workload.
fn first_certificate(alloc: Global, c: &Compiled) -> Result<Vec<u8>, Stop>
    ensures made { IfOk result (λ bytes. IsCertificateLine (plain_workload c.now) bytes.items) }
    ensures refused { (r : Refusal) → IsErrOf result (Stop.Refused r) → IsUncertified (plain_workload c.now) r }
    ensures no_other { (IsErrOf result Stop.Usage → ⊥) × (IsErrOf result Stop.ReadFault → ⊥) }
{
    let plan = first_plan(alloc, c)?;
    certificate_line(alloc, c, &plan)
}

/// The plan of the round that begins at the initial database.
fn first_plan(alloc: Global, c: &Compiled) -> Result<RoundPlan, Memory>
    ensures config { IfOk result (λ p. plain_config p.config ≡ policy (plain_workload c.now) (initial (plain_workload c.now))) }
    ensures plan { IfOk result (IsPlanOf (plain_workload c.now) (initial (plain_workload c.now))) }
{
    let base = initial(alloc, c.workload())?;
    treaties(alloc, c, &base, None)
}

/// The certificate of the plan of that round, and a newline.
fn certificate_line(alloc: Global, c: &Compiled, plan: &RoundPlan) -> Result<Vec<u8>, Stop>
    requires plan { IsPlanOf (plain_workload c.now) (initial (plain_workload c.now)) plan.now }
    requires config { plain_config plan.now.config ≡ policy (plain_workload c.now) (initial (plain_workload c.now)) }
    ensures made { IfOk result (λ bytes. IsCertificateLine (plain_workload c.now) bytes.items) }
    ensures refused { (r : Refusal) → IsErrOf result (Stop.Refused r) → IsUncertified (plain_workload c.now) r }
    ensures no_other { (IsErrOf result Stop.Usage → ⊥) × (IsErrOf result Stop.ReadFault → ⊥) }
{
    match certificate(alloc, c, plan) {
        Ok(text) => Ok(ended(text)?),
        Err(CertError::TooLong { .. }) => Err(Stop::Refused(LONG_CERTIFICATE)),
        Err(CertError::Memory) => Err(Stop::Memory),
    }
}

/// A line of this text.
fn ended(mut text: Vec<u8>) -> Result<Vec<u8>, Memory>
    ensures { IfOk result (λ line. line.items ≡ text.items ++ codes "\n") }
{
    text.push(b'\n')?;
    Ok(text)
}
