//! The delta transform of a command.

ghost use Rattle.std.specs.Prelude.{◌≡◌, ◌<◌, [], ◌∷◌, ◌++◌, map, IfOk, OnOk};
ghost use Rattle.homeo_syntax.specs.Low.{Read, Neg};
ghost use Rattle.homeo_syntax.specs.LowView.{plain_lexpr, plain_lcommand};
ghost use Rattle.homeo_meaning.specs.LowMeaning.{State, exec};
ghost use Rattle.homeo_meaning.specs.Whole.{IsWhole};
ghost use Rattle.homeo_plan.specs.Split.{fold_state, shift, shift_write, Follows};

use crate::reads::{shift_cond, shift_expr};
use homeo_syntax::{LCommand, LExpr, List, Memory, SplitName};
use std::alloc::Global;

/// The value under a name with its sign turned.
#[tactic(auto, using(homeo_syntax::proofs::LowViews::low_phrase_views))]
fn minus(alloc: Global, name: SplitName) -> Result<LExpr, Memory>
    ensures { IfOk result (λ e. plain_lexpr e ≡ Neg (Read name)) }
{
    Ok(LExpr::Neg(Box::new(alloc, LExpr::Read(name))?))
}

/// Appends the value under a name with its sign turned.
fn push_minus(terms: &mut Vec<LExpr>, alloc: Global, name: SplitName) -> Result<(), Memory>
    ensures { OnOk result (map plain_lexpr terms.new.items ≡ map plain_lexpr terms.old.items ++ Neg (Read name) ∷ []) }
{
    terms.push(minus(alloc, name)?)?;
    Ok(())
}

#[tactic(auto, using(crate::proofs::DeltaReads::writes))]
fn shift_write(
    alloc: Global,
    name: SplitName,
    value: LExpr,
    site: u32,
    sites: u32,
) -> Result<LCommand, Memory>
    ensures { IfOk result (λ d. plain_lcommand d ≡ shift_write sites site name (plain_lexpr value)) }
{
    match name {
        SplitName::Whole(object) => {
            let mut terms = Vec::with_capacity(alloc, sites as usize + 1)?;
            terms.push(value)?;
            push_minus(&mut terms, alloc, SplitName::Base(object))?;
            for other in 0..sites {
                if other != site {
                    let delta = SplitName::Delta {
                        object,
                        site: other,
                    };
                    push_minus(&mut terms, alloc, delta)?;
                }
            }
            Ok(LCommand::Write {
                target: SplitName::Delta { object, site },
                value: LExpr::Sum(List::from_vec(terms)),
            })
        }
        SplitName::Base(_) | SplitName::Delta { .. } => Ok(LCommand::Write {
            target: name,
            value,
        }),
    }
}

#[cycle(commands)]
#[tactic(auto, using(homeo_syntax::proofs::LowViews::low_command_views, crate::proofs::Shifts::commands))]
fn shift(alloc: Global, c: &LCommand, site: u32, sites: u32) -> Result<LCommand, Memory>
    ensures { IfOk result (λ d. plain_lcommand d ≡ shift sites site (plain_lcommand c.now)) }
{
    match c {
        LCommand::Skip => Ok(LCommand::Skip),
        LCommand::Assign { target, value } => {
            let value = shift_expr(alloc, value, sites)?;
            Ok(LCommand::Assign {
                target: *target,
                value,
            })
        }
        LCommand::Write { target, value } => {
            let value = shift_expr(alloc, value, sites)?;
            shift_write(alloc, *target, value, site, sites)
        }
        LCommand::Print { value } => {
            let value = shift_expr(alloc, value, sites)?;
            Ok(LCommand::Print { value })
        }
        LCommand::Seq { commands } => {
            let commands = shift_all(alloc, commands.as_slice(), site, sites)?;
            Ok(LCommand::Seq { commands })
        }
        LCommand::If { test, yes, no } => {
            let test = shift_cond(alloc, test, sites)?;
            let yes = shift_boxed(alloc, yes, site, sites)?;
            let no = shift_boxed(alloc, no, site, sites)?;
            Ok(LCommand::If { test, yes, no })
        }
    }
}

#[cycle(commands)]
fn shift_boxed(alloc: Global, c: &LCommand, site: u32, sites: u32) -> Result<Box<LCommand>, Memory>
    ensures { IfOk result (λ d. plain_lcommand d.value ≡ shift sites site (plain_lcommand c.now)) }
{
    let shifted = shift(alloc, c, site, sites)?;
    Ok(Box::new(alloc, shifted)?)
}

#[cycle(commands)]
fn shift_all(
    alloc: Global,
    cs: &[LCommand],
    site: u32,
    sites: u32,
) -> Result<List<LCommand>, Memory>
    ensures { IfOk result (λ ds. map plain_lcommand ds.items ≡ map (shift sites site) (map plain_lcommand cs.now)) }
{
    let mut shifted = Vec::with_capacity(alloc, cs.len())?;
    for c in cs {
        shifted.push(shift(alloc, c, site, sites)?)?;
    }
    Ok(List::from_vec(shifted))
}

/// The delta transform of a command for one of so many sites (Roy et al., SIGMOD 2015; how a delta encodes a write is this
/// project's rule): each object is read as its base plus its deltas at all sites, and written as its delta at this site,
/// which is the value less the base and the deltas at all other sites. Sites are numbered from 0.
///
/// The command must name whole objects only. Where an expression reads an object, the transformed one has a read for the
/// base and one for each site.
///
/// On a split database the transformed command does what the command does on the fold: it prints the same, its fold is what
/// the command leaves, and no base and no delta of another site changes.
///
/// # Errors
///
/// `Memory` when out of memory.
pub fn transform(alloc: Global, c: &LCommand, site: u32, sites: u32) -> Result<LCommand, Memory>
    requires whole { IsWhole (plain_lcommand c.now) }
    requires site { site < sites }
    ensures form { IfOk result (λ d. plain_lcommand d ≡ shift sites site (plain_lcommand c.now)) }
    ensures follows { IfOk result (λ d. (s : State) →
        Follows sites site (exec (plain_lcommand d) s) s (exec (plain_lcommand c.now) (fold_state sites s))) }
{
    shift(alloc, c, site, sites)
}
