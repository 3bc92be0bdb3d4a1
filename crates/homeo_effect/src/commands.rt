//! Commands at a site, on a base that stays.

ghost use Rattle.std.specs.Prelude.{◌≡◌, All, map, IfOk};
ghost use Rattle.homeo_syntax.specs.LowView.{plain_lcommand};
ghost use Rattle.homeo_meaning.specs.Serial.{values_of};
ghost use Rattle.homeo_effect.specs.Localized.{local_command};
ghost use Rattle.homeo_effect.specs.inner.Alone.{CommandFits};

use crate::expressions::local_expr;
use homeo_syntax::{LCommand, List, Memory};
use std::alloc::Global;

#[tactic(auto, using(homeo_syntax::proofs::LowViews::low_command_views, crate::proofs::Equations::commands))]
fn local_command(alloc: Global, base: &[i64], site: u32, c: &LCommand) -> Result<LCommand, Memory>
    requires { CommandFits (values_of base.now) site (plain_lcommand c.now) }
    ensures { IfOk result (λ d. plain_lcommand d ≡ local_command (values_of base.now) site (plain_lcommand c.now)) }
{
    match c {
        LCommand::Assign { target, value } => {
            let value = local_expr(alloc, base, site, value)?;
            Ok(LCommand::Assign {
                target: *target,
                value,
            })
        }
        LCommand::Write { target, value } => {
            let value = local_expr(alloc, base, site, value)?;
            Ok(LCommand::Write {
                target: *target,
                value,
            })
        }
        LCommand::Print { value } => {
            let value = local_expr(alloc, base, site, value)?;
            Ok(LCommand::Print { value })
        }
        LCommand::Skip => c.copy(alloc),
        LCommand::Seq { .. } => c.copy(alloc),
        LCommand::If { .. } => c.copy(alloc),
    }
}

/// Commands with all that is fixed at the site put in.
pub(crate) fn local_commands(
    alloc: Global,
    base: &[i64],
    site: u32,
    cs: &[LCommand],
) -> Result<List<LCommand>, Memory>
    requires { All (λ c. CommandFits (values_of base.now) site (plain_lcommand c)) cs.now }
    ensures { IfOk result (λ ds. map plain_lcommand ds.items ≡
        map (local_command (values_of base.now) site) (map plain_lcommand cs.now)) }
{
    let mut local = List::new(alloc);
    for c in cs {
        local.push(local_command(alloc, base, site, c)?)?;
    }
    Ok(local)
}
