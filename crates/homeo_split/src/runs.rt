//! A command over split names, run on a split database.

ghost use Rattle.std.specs.Prelude.{◌≡◌, true, map, IfOk, OnOk, OnErr};
ghost use Rattle.homeo_syntax.specs.LowView.{plain_lcommand};
ghost use Rattle.homeo_meaning.specs.LowMeaning.{exec};
ghost use Rattle.homeo_split.specs.CanExec.{run_limit, can_exec};
ghost use Rattle.homeo_split.specs.States.{state_of, AgreeOnNames};
ghost use Rattle.homeo_split.specs.Shape.{shape_of, has_places};

use crate::commands::run;
use crate::split::Split;
use crate::state::State;
use crate::temporaries::Temporaries;
use homeo_meaning::Database;
use homeo_syntax::{LCommand, List, Memory, Prints};
use std::alloc::Global;

fn copied(alloc: Global, items: &[i64]) -> Result<Vec<i64>, Memory>
    ensures { IfOk result (λ v. v.items ≡ items.now) }
{
    Ok(Vec::from_slice(alloc, items)?)
}

fn copied_all(alloc: Global, lists: &[Database]) -> Result<Vec<Vec<i64>>, Memory>
    ensures { IfOk result (λ vs. map (λ v. v.items) vs.items ≡ map (λ d. d.items) lists.now) }
{
    let mut copies = Vec::new(alloc);
    for list in lists {
        copies.push(copied(alloc, list.as_slice())?)?;
    }
    Ok(copies)
}

fn listed_all(alloc: Global, vectors: Vec<Vec<i64>>) -> Result<List<Database>, Memory>
    ensures { IfOk result (λ ds. map (λ d. d.items) ds.items ≡ map (λ v. v.items) vectors.items) }
{
    let mut lists = List::new(alloc);
    for vector in vectors {
        lists.push(List::from_vec(vector))?;
    }
    Ok(lists)
}

/// Runs a command over split names on a split database, from temporaries 0, and gives its prints in their order.
///
/// The database must have each place that the command writes (`Split::has_places` tells), and no number that the run
/// meets may be above 2 * 10^18 in size.
///
/// # Errors
///
/// `Memory` where memory is wanting: the database is then unchanged.
pub fn eval_l(alloc: Global, c: &LCommand, database: &mut Split) -> Result<Prints, Memory>
    requires places { has_places (shape_of database.old) (plain_lcommand c.now) ≡ true }
    requires small { can_exec run_limit (plain_lcommand c.now) (state_of database.old) ≡ true }
    ensures prints { IfOk result (λ p. p.items ≡
        (exec (plain_lcommand c.now) (state_of database.old)).prints) }
    ensures database { OnOk result (AgreeOnNames (state_of database.new)
        (exec (plain_lcommand c.now) (state_of database.old)).state) }
    ensures shape { shape_of database.new ≡ shape_of database.old }
    ensures unchanged { OnErr result (database.new ≡ database.old) }
{
    let mut state = State {
        base: copied(alloc, database.base.as_slice())?,
        deltas: copied_all(alloc, database.deltas.as_slice())?,
        temporaries: Temporaries::new(alloc),
    };
    let mut prints = List::new(alloc);
    run(c, &mut state, &mut prints)?;
    let deltas = listed_all(alloc, state.deltas)?;
    database.base = List::from_vec(state.base);
    database.deltas = deltas;
    Ok(prints)
}
