//! Rows of symbolic tables, choices of joint tables, and residuals.

ghost use Rattle.std.specs.Prelude.{◌≡◌, map, IfOk};
ghost use Rattle.homeo_syntax.specs.LowView.{plain_lcommand};
ghost use Rattle.homeo_plan.specs.PlanView.{plain_row, plain_residual};

use homeo_syntax::{LCommand, LCond, List, Memory, Numbers};
use std::alloc::Global;

/// A row of a symbolic table (Roy et al., SIGMOD 2015): where the formula holds, the residual does what the whole command
/// does.
#[derive(Drop)]
pub struct Row {
    pub formula: LCond,
    /// Assignments, writes and prints, one after another.
    pub residual: List<LCommand>,
}

/// A choice of a joint table (Roy et al., SIGMOD 2015).
#[derive(Drop)]
pub struct JointRow {
    /// Of each table the number of a row, from 0.
    pub picks: Numbers,
}

/// The residual that a ground call has through a round, and the call's site, from 0.
#[derive(Drop)]
pub struct Residual {
    pub site: u32,
    pub commands: List<LCommand>,
}

impl Row {
    /// Makes an equal value.
    ///
    /// # Errors
    ///
    /// `Memory` when out of memory.
    pub fn copy(&self, alloc: Global) -> Result<Row, Memory>
        ensures { IfOk result (λ c. plain_row c ≡ plain_row self.now) }
    {
        let formula = self.formula.copy(alloc)?;
        let residual = copy_commands(alloc, self.residual.as_slice())?;
        Ok(Row { formula, residual })
    }
}

impl JointRow {
    /// Makes an equal value.
    ///
    /// # Errors
    ///
    /// `Memory` when out of memory.
    pub fn copy(&self, alloc: Global) -> Result<JointRow, Memory>
        ensures { IfOk result (λ c. c.picks.items ≡ self.now.picks.items) }
    {
        let picks = Vec::from_slice(alloc, self.picks.as_slice())?;
        Ok(JointRow {
            picks: List::from_vec(picks),
        })
    }
}

impl Residual {
    /// Makes an equal value.
    ///
    /// # Errors
    ///
    /// `Memory` when out of memory.
    pub fn copy(&self, alloc: Global) -> Result<Residual, Memory>
        ensures site { IfOk result (λ c. c.site ≡ self.now.site) }
        ensures commands { IfOk result (λ c. plain_residual c ≡ plain_residual self.now) }
    {
        let commands = copy_commands(alloc, self.commands.as_slice())?;
        Ok(Residual {
            site: self.site,
            commands,
        })
    }
}

fn copy_commands(alloc: Global, commands: &[LCommand]) -> Result<List<LCommand>, Memory>
    ensures { IfOk result (λ c. map plain_lcommand c.items ≡ map plain_lcommand commands.now) }
{
    let mut copy = List::new(alloc);
    for command in commands {
        copy.push(command.copy(alloc)?)?;
    }
    Ok(copy)
}
