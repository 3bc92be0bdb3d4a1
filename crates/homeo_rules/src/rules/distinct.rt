//! Names that are to be distinct.

ghost use Rattle.std.specs.Prelude.{◌≡◌, ℕ, ◌==◌, ◌||◌, nat_eq, IfOk, OnOk};
ghost use Rattle.indexmap.specs.IndexSet.{contains};
ghost use Rattle.homeo_rules.specs.inner.Deciding.{keep_all};
ghost use Rattle.homeo_meaning.specs.NameRules.{when, fault};
ghost use Rattle.homeo_meaning.specs.declared.rules.Phase.TheVariants.{Duplicate};

use crate::deciding::at_name;
use homeo_meaning::{Fault, Phase};
use homeo_syntax::{Ident, Memory};
use indexmap::IndexSet;

/// With a fault where a name is among those before it, to which it is put.
#[tactic(auto, using(crate::proofs::Steps::keeping))]
pub(crate) fn check_new(
    names: &mut IndexSet<u32>,
    x: Ident,
    best: Option<Fault>,
) -> Result<Option<Fault>, Memory>
    ensures best { IfOk result (λ b. b ≡ keep_all best (when (contains nat_eq names.old x.name) (fault Duplicate x))) }
    ensures names { OnOk result ((n : ℕ) → contains nat_eq names.new n ≡ (contains nat_eq names.old n || (x.name == n))) }
{
    if names.insert(x.name)? {
        Ok(best)
    } else {
        Ok(at_name(best, Phase::Duplicate, x))
    }
}
