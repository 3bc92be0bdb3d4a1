//! The limits on how many sites, transactions, clients and calls there are.

ghost use Rattle.std.specs.Prelude.{◌≡◌, slice_get};
ghost use Rattle.homeo_rules.specs.inner.Deciding.{keep_all};
ghost use Rattle.homeo_meaning.specs.NumberRules.{site_count_faults};
ghost use Rattle.homeo_rules.specs.inner.Limited.{transaction_passing, client_passing, call_passing};

use crate::deciding::{at_name, at_number};
use homeo_ground::SitedCall;
use homeo_meaning::{Fault, Phase};
use homeo_syntax::{Client, Number, Transaction};

const MOST_SITES: i64 = 16;

const MOST_TRANSACTIONS: usize = 256;

const MOST_CLIENTS: usize = 64;

const MOST_CALLS: usize = 20_000;

const MOST_GROUND_CALLS: usize = 1024;

/// From 1 to 16 sites.
#[tactic(auto, using(crate::proofs::Steps::keeping), unfolding(homeo_meaning::specs::Key::definitions))]
pub(crate) fn check_site_count(sites: Number, best: Option<Fault>) -> Option<Fault>
    ensures { result ≡ keep_all best (site_count_faults sites) }
{
    if sites.value < 1 || MOST_SITES < sites.value {
        at_number(best, Phase::Limits, sites)
    } else {
        best
    }
}

/// At most 256 transactions.
#[tactic(auto, using(crate::proofs::Steps::keeping), unfolding(homeo_meaning::specs::Key::definitions))]
pub(crate) fn check_transaction_count(ts: &[Transaction], best: Option<Fault>) -> Option<Fault>
    ensures { result ≡ keep_all best (transaction_passing (slice_get ts.now 256)) }
{
    match ts.get(MOST_TRANSACTIONS) {
        Some(t) => at_name(best, Phase::Limits, t.name),
        None => best,
    }
}

/// At most 64 clients.
#[tactic(auto, using(crate::proofs::Steps::keeping), unfolding(homeo_meaning::specs::Key::definitions))]
pub(crate) fn check_client_count(cs: &[Client], best: Option<Fault>) -> Option<Fault>
    ensures { result ≡ keep_all best (client_passing (slice_get cs.now 64)) }
{
    match cs.get(MOST_CLIENTS) {
        Some(c) => at_name(best, Phase::Limits, c.name),
        None => best,
    }
}

/// At most 20,000 calls.
#[tactic(auto, using(crate::proofs::Steps::keeping), unfolding(homeo_meaning::specs::Key::definitions))]
pub(crate) fn check_call_count(calls: &[SitedCall<'_>], best: Option<Fault>) -> Option<Fault>
    ensures { result ≡ keep_all best (call_passing (slice_get calls.now 20000)) }
{
    match calls.get(MOST_CALLS) {
        Some(c) => at_name(best, Phase::Limits, c.name),
        None => best,
    }
}

/// At most 1,024 distinct ground calls.
#[tactic(auto, using(crate::proofs::Steps::keeping), unfolding(homeo_meaning::specs::Key::definitions))]
pub(crate) fn check_ground_count(calls: &[SitedCall<'_>], best: Option<Fault>) -> Option<Fault>
    ensures { result ≡ keep_all best (call_passing (slice_get calls.now 1024)) }
{
    match calls.get(MOST_GROUND_CALLS) {
        Some(c) => at_name(best, Phase::Limits, c.name),
        None => best,
    }
}
