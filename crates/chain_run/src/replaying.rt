//! The replay of a chain's report.
ghost use Rattle.std.specs.Prelude.{◌≡◌, ◌<◌, ◌^◌, IfOk, length};
ghost use Rattle.cell_grid.specs.Known.{BringsNone};
ghost use Rattle.chain_text.specs.Chain.{IsChain};
ghost use Rattle.chain_text.specs.Values.{chain_value};
ghost use Rattle.chain_run.specs.Answers.{ReplaysLegs};
ghost use Rattle.report_text.specs.Report.{AreNamed};

use crate::reports::{LegReports, read_all};
use crate::starting::first_grid;
use cell_grid::{Behave, Grid};
use chain_text::Chain;
use feast_base::Name;
use report_text::JournalFault;
use std::alloc::Global;

/// The grid that the events of a chain's report leave: the acts of every leg are done, whether it has
/// events or not, and the events of its report made. The answer to bytes that can't be read is their first
/// fault, as for `audit_legs`. `NoMemory` if there is none for a leg.
pub fn replay_legs<B: Behave>(
    alloc: Global,
    chain: &Chain,
    names: &[Name],
    bytes: &[u8],
    behave: &mut B,
) -> Result<Grid, JournalFault>
    requires chain { IsChain names.now (chain_value chain.now) }
    requires brings { BringsNone (length names.now) (B.after behave.old) }
    requires short { length bytes.now < 2 ^ 63 }
    ensures replays { ReplaysLegs (chain_value chain.now) (B.after behave.old) bytes.now result }
    ensures named { IfOk result (λ g. AreNamed names.now g.atoms) }
{
    read_all(alloc, chain, bytes)?;
    let mut grid = first_grid(alloc, chain, names)?;
    let mut reports = LegReports::new(chain, bytes)?;
    while let Some(leg) = reports.next(alloc)? {
        leg.replay(&mut grid, behave);
    }
    Ok(grid)
}
