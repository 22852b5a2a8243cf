//! The audit of a chain's report.
ghost use Rattle.std.specs.Prelude.{◌≡◌, ◌<◌, ◌^◌, IfOk, length};
ghost use Rattle.cell_grid.specs.Known.{BringsNone};
ghost use Rattle.chain_text.specs.Chain.{IsChain};
ghost use Rattle.chain_text.specs.Values.{chain_value};
ghost use Rattle.chain_run.specs.Answers.{AuditsLegs};
ghost use Rattle.chain_run.specs.Judging.{judged_chain};
ghost use Rattle.chain_run.specs.Standings.{IsKnownStanding, StandsBehind, verdict};

use crate::judgement::ChainJudgement;
use crate::leg_read::LegRead;
use crate::reports::{LegReports, read_all};
use crate::standing::Standing;
use crate::starting::first_grid;
use cell_grid::Behave;
use chain_text::Chain;
use feast_base::{Name, NoMemory};
use report_text::JournalFault;
use std::alloc::Global;

/// The standing behind a leg: that before it, or if this was yes, the judgement on the leg. `NoMemory`
/// if there is none for the judgement.
fn stand_behind<B: Behave>(
    alloc: Global,
    leg: &LegRead<'_>,
    names: &[Name],
    standing: Standing,
    behave: &mut B,
) -> Result<Standing, NoMemory>
    requires known { IsKnownStanding names.now leg.now.chain (B.after behave.old) standing }
    ensures stands { IfOk result (StandsBehind (judged_chain leg.now.chain (B.after behave.old) names.now) leg.now standing) }
    ensures known { IfOk result (IsKnownStanding names.now leg.now.chain (B.after behave.old)) }
    ensures meaning { B.after behave.new ≡ B.after behave.old }
{
    match standing {
        Standing::Yes(grid) => leg.judge(alloc, names, grid, behave),
        Standing::No(leg, judgement) => Ok(Standing::No(leg, judgement)),
    }
}

/// What is said behind the last leg.
fn verdict(standing: &Standing) -> ChainJudgement
    ensures { result ≡ verdict standing.now }
{
    match standing {
        Standing::Yes(_) => ChainJudgement::Yes,
        Standing::No(leg, judgement) => ChainJudgement::No(*leg, *judgement),
    }
}

/// Judges the report of a chain, whoever made it. All of it is read first, the report of each leg by
/// itself, by the plan of its leg: the first fault in the order of the lines is the answer. Then `Yes`, or
/// the first leg whose report is not what `judge` calls yes; each leg begins with the grid that the events
/// of the one before it leave, with its acts done. The bytes are gone through twice, with the memory of one
/// leg. `NoMemory` if there is none for a leg.
pub fn audit_legs<B: Behave>(
    alloc: Global,
    chain: &Chain,
    names: &[Name],
    bytes: &[u8],
    behave: &mut B,
) -> Result<ChainJudgement, JournalFault>
    requires chain { IsChain names.now (chain_value chain.now) }
    requires brings { BringsNone (length names.now) (B.after behave.old) }
    requires short { length bytes.now < 2 ^ 63 }
    ensures { AuditsLegs (chain_value chain.now) (B.after behave.old) names.now bytes.now result }
{
    read_all(alloc, chain, bytes)?;
    let mut standing = Standing::Yes(first_grid(alloc, chain, names)?);
    let mut reports = LegReports::new(chain, bytes)?;
    while let Some(leg) = reports.next(alloc)? {
        standing = stand_behind(alloc, &leg, names, standing, behave)?;
    }
    Ok(verdict(&standing))
}
