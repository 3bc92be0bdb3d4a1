//! The row of a table that holds.

ghost use Rattle.std.specs.Prelude.{◌≡◌, ◌<◌, true, map, length, slice_index_or};
ghost use Rattle.std.specs.List.{All};
ghost use Rattle.homeo_plan.specs.Joint.{HasOneRow};
ghost use Rattle.homeo_plan.specs.PlanView.{plain_row};
ghost use Rattle.homeo_plan.specs.Table.{last_row, row_at};
ghost use Rattle.homeo_split.specs.CanExec.{run_limit, cond_fits};
ghost use Rattle.homeo_split.specs.States.{state_of};

use homeo_plan::Row;
use homeo_split::{Split, holds};

/// The place, from 0, of the one row whose formula holds at a split database, where temporaries are 0. It takes no
/// memory.
///
/// Of the rows exactly one must hold there, as of each table of a command. And of each formula no number that is met up to
/// its first test that fails may be above 2 * 10^18 in size.
pub fn row_at(rows: &[Row], base: &Split) -> usize
    requires one { HasOneRow (state_of base.now) (map plain_row rows.now) }
    requires small { All (λ r. cond_fits run_limit (plain_row r).formula (state_of base.now) ≡ true) rows.now }
    ensures within { result < length rows.now }
    ensures holds { slice_index_or (map plain_row rows.now) result last_row ≡ row_at (map plain_row rows.now) (state_of base.now) }
{
    for (place, row) in rows.iter().enumerate() {
        if holds(&row.formula, base) {
            return place;
        }
    }
    unreachable!()
}
