//! What commands do.

ghost use Rattle.std.specs.Prelude.{◌≡◌, true, map, OnOk};
ghost use Rattle.homeo_syntax.specs.LowView.{low_commands, plain_lcommand};
ghost use Rattle.homeo_meaning.specs.LowMeaning.{after_prints, exec, exec_all};
ghost use Rattle.homeo_split.specs.CanExec.{run_limit, can_exec, can_exec_all};
ghost use Rattle.homeo_split.specs.States.{run_of};
ghost use Rattle.homeo_split.specs.Shape.{has_places, has_places_all};

use crate::phrases::{holds, value};
use crate::store::Store;
use homeo_syntax::{LCommand, Memory, Prints};

/// Runs a command: the state is left as the command leaves it, and its prints are added.
///
/// Each place that the command writes must be there, and no number that the run meets may be above 2 * 10^18 in size.
///
/// # Errors
///
/// `Memory` when out of memory. Then what was set and printed so far may stand.
// (most commands assign, write or print, so the choice among their kinds stands where they are run; the other kinds are apart)
#[cycle(runs)]
#[inline(always)]
#[tactic(auto, using(homeo_syntax::proofs::LowViews::low_command_views, crate::proofs::CommandSteps::runs))]
pub fn run<S: Store>(c: &LCommand, state: &mut S, prints: &mut Prints) -> Result<(), Memory>
    requires places { has_places (S.shape state.old) (plain_lcommand c.now) ≡ true }
    requires runs { can_exec run_limit (plain_lcommand c.now) (S.values state.old) ≡ true }
    ensures run { OnOk result (run_of (S.values state.new) prints.new.items ≡
        after_prints prints.old.items (exec (plain_lcommand c.now) (S.values state.old))) }
    ensures leads { OnOk result (S.leads_to state.old state.new) }
{
    match c {
        LCommand::Skip => Ok(()),
        LCommand::Assign { target, value: e } => {
            let v = value(e, state);
            state.assign(*target, v)
        }
        LCommand::Write { target, value: e } => {
            let v = value(e, state);
            state.write(*target, v)
        }
        LCommand::Print { value: e } => {
            let v = value(e, state);
            prints.push(v)
        }
        LCommand::If { test, yes, no } => {
            if holds(test, state) {
                run_branch(yes, state, prints)
            } else {
                run_branch(no, state, prints)
            }
        }
        LCommand::Seq { commands } => run_all(commands.as_slice(), state, prints),
    }
}

/// Runs the side of an `if` that its test chose, as `run` does.
///
/// # Errors
///
/// `Memory` when out of memory. Then what was set and printed so far may stand.
#[cycle(runs)]
#[inline(never)]
fn run_branch<S: Store>(c: &Box<LCommand>, state: &mut S, prints: &mut Prints) -> Result<(), Memory>
    requires places { has_places (S.shape state.old) (plain_lcommand c.now.value) ≡ true }
    requires runs { can_exec run_limit (plain_lcommand c.now.value) (S.values state.old) ≡ true }
    ensures run { OnOk result (run_of (S.values state.new) prints.new.items ≡
        after_prints prints.old.items (exec (plain_lcommand c.now.value) (S.values state.old))) }
    ensures leads { OnOk result (S.leads_to state.old state.new) }
{
    run(c, state, prints)
}

/// Runs commands one after another, as `run` does.
///
/// # Errors
///
/// `Memory` when out of memory. Then what was set and printed so far may stand.
#[cycle(runs)]
#[inline(never)]
#[tactic(auto, using(crate::proofs::CommandSteps::each, homeo_meaning::proofs::Steps::steps))]
fn run_all<S: Store>(cs: &[LCommand], state: &mut S, prints: &mut Prints) -> Result<(), Memory>
    requires places { has_places_all (S.shape state.old)
        (low_commands (map plain_lcommand cs.now)) ≡ true }
    requires runs { can_exec_all run_limit (low_commands (map plain_lcommand cs.now))
        (S.values state.old) ≡ true }
    ensures run { OnOk result (run_of (S.values state.new) prints.new.items ≡
        after_prints prints.old.items (exec_all (low_commands (map plain_lcommand cs.now))
        (S.values state.old))) }
    ensures leads { OnOk result (S.leads_to state.old state.new) }
{
    for c in cs {
        run(c, state, prints)?;
    }
    Ok(())
}
