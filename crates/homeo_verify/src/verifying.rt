//! The verdict on bytes.

ghost use Rattle.std.specs.Prelude.{◌≡◌, ◌≤◌, ◌+◌, true, false, [], length, map, pos, int_le, IfOk, MatchOption};
ghost use Rattle.std.specs.List.{list_all};
ghost use Rattle.homeo_plan.specs.Config.{total};
ghost use Rattle.homeo_plan.specs.PlanView.{plain_clause};
ghost use Rattle.homeo_certificate.specs.Verdict.{IsVerdictOn, fits_slack, misfits, at_call, faults_from, first_of_all, verdict_of};
ghost use Rattle.homeo_certificate.specs.declared.verdict.Verdict.TheVariants as verdict;
ghost use Rattle.homeo_cert_reader.specs.CertificateView.{plain_certificate};

use crate::following::follow_call;
use crate::stop::Stop;
use crate::table::ClauseTable;
use homeo_cert_reader::{Certificate, parse, read_certificate};
use homeo_certificate::{Fault, Verdict};
use homeo_plan::Clause;
use homeo_syntax::Memory;
use std::alloc::Global;

/// The verdict on at most 16,777,216 bytes (this project's rule): the first fault of the certificate that they are, or `Valid`.
/// A certificate that is valid is sound: where all treaties hold, each site runs its calls alone as if it had the deltas of all
/// sites.
///
/// # Errors
///
/// `Memory` when out of memory.
pub fn verify(alloc: Global, bytes: &[u8]) -> Result<Verdict, Memory>
    requires { length bytes.now ≤ 16777216 }
    ensures { IfOk result (λ v. IsVerdictOn bytes.now v) }
{
    let Some(value) = parse(alloc, bytes)? else {
        return Ok(Verdict::Json);
    };
    let read = read_certificate(alloc, &value)?;
    drop(value);
    match read {
        Some(certificate) => judge(alloc, &certificate),
        None => Ok(Verdict::Shape),
    }
}

/// The verdict on a certificate in shape.
fn judge(alloc: Global, c: &Certificate) -> Result<Verdict, Memory>
    ensures { IfOk result (λ v. v ≡ verdict_of (plain_certificate c.now)) }
{
    match misfit(c.clauses.as_slice(), c.bounds.as_slice())? {
        Some(clause) => Ok(Verdict::Bounds { clause }),
        None => judge_calls(alloc, c),
    }
}

/// The number of the first clause whose bounds don't fit.
fn misfit(clauses: &[Clause], bounds: &[Vec<i64>]) -> Result<Option<u32>, Memory>
    ensures { IfOk result (λ o. MatchOption o
        (misfits 0 (map plain_clause clauses.now) (map (λ b. b.items) bounds.now) ≡ [])
        (λ n. first_of_all (misfits 0 (map plain_clause clauses.now) (map (λ b. b.items) bounds.now)) ≡ verdict.Bounds n)) }
{
    let mut clauses = clauses;
    let mut bounds = bounds;
    let mut number = 0;
    while let Some((clause, more_clauses)) = clauses.split_first() {
        let Some((row, more_bounds)) = bounds.split_first() else {
            return Ok(None);
        };
        if !fits(clause, row.as_slice()) {
            return Ok(Some(number));
        }
        number = next(number)?;
        clauses = more_clauses;
        bounds = more_bounds;
    }
    Ok(None)
}

/// The next number. No text has so many items that there is none.
fn next(number: u32) -> Result<u32, Memory>
    ensures { IfOk result (λ n. n ≡ number + 1) }
{
    if number < u32::MAX {
        Ok(number + 1)
    } else {
        Err(Memory)
    }
}

/// Whether no bound is negative, and they sum to the clause's slack.
fn fits(clause: &Clause, bounds: &[i64]) -> bool
    ensures { result ≡ fits_slack (plain_clause clause.now) bounds.now }
{
    match total(bounds) {
        Some(sum) => sum == clause.slack,
        None => false,
    }
}

/// The sum of bounds, if none is negative.
fn total(bounds: &[i64]) -> Option<i128>
    ensures { MatchOption result (list_all (int_le (pos 0)) bounds.now ≡ false) (λ n. (list_all (int_le (pos 0)) bounds.now ≡ true) × (n ≡ total bounds.now)) }
{
    let mut sum = 0;
    for bound in bounds {
        if *bound < 0 {
            return None;
        }
        sum += *bound as i128;
    }
    Some(sum)
}

/// The first fault of the calls, one after another.
fn judge_calls(alloc: Global, c: &Certificate) -> Result<Verdict, Memory>
    ensures { IfOk result (λ v. v ≡ first_of_all (faults_from 0 (plain_certificate c.now) (plain_certificate c.now).calls)) }
{
    let table = ClauseTable::of(alloc, c.clauses.as_slice())?;
    let mut number = 0;
    for call in &c.calls {
        match follow_call(alloc, c, &table, call) {
            Ok(()) => {}
            Err(Stop::Fault(fault)) => return Ok(of_call(number, fault)),
            Err(Stop::Memory) => return Err(Memory),
        }
        number = next(number)?;
    }
    Ok(Verdict::Valid)
}

/// The verdict of a fault of a call.
#[tactic(auto, unfolding(homeo_certificate::specs::Key::definitions))]
fn of_call(call: u32, fault: Fault) -> Verdict
    ensures { result ≡ at_call call fault }
{
    match fault {
        Fault::TooLarge => Verdict::Size { call },
        Fault::NotFrozen(delta) => Verdict::Freeze { call, delta },
        Fault::NoClause => Verdict::Clause { call },
        Fault::ForeignWrite => Verdict::Foreign { call },
    }
}
