//! How many rows a table has.

ghost use Rattle.std.specs.Prelude.{◌≡◌, ◌<◌, ◌^◌, map};
ghost use Rattle.homeo_syntax.specs.LowView.{low_commands, plain_lcommand};
ghost use Rattle.homeo_meaning.specs.LowSizes.{rows, rows_all};

use homeo_syntax::LCommand;

/// How many rows a command's symbolic table has, which may be 2^32 - 1 at most. It takes no memory, and time linear in the
/// command.
#[cycle(counting)]
#[tactic(auto, using(homeo_syntax::proofs::LowViews::low_command_views, crate::proofs::RowCounting::counts))]
pub fn row_count(c: &LCommand) -> u64
    requires { rows (plain_lcommand c.now) < 2 ^ 32 }
    ensures { result ≡ rows (plain_lcommand c.now) }
{
    match c {
        LCommand::Skip
        | LCommand::Assign { .. }
        | LCommand::Write { .. }
        | LCommand::Print { .. } => 1,
        LCommand::Seq { commands } => row_product(commands.as_slice()),
        LCommand::If { yes, no, .. } => row_count(yes) + row_count(no),
    }
}

#[cycle(counting)]
fn row_product(cs: &[LCommand]) -> u64
    requires { rows_all (low_commands (map plain_lcommand cs.now)) < 2 ^ 32 }
    ensures { result ≡ rows_all (low_commands (map plain_lcommand cs.now)) }
{
    let mut product = 1;
    for c in cs {
        product *= row_count(c);
    }
    product
}
