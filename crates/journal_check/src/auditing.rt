//! The audit of a report.
ghost use Rattle.std.specs.Prelude.{◌≡◌, IfOk};
ghost use Rattle.event_journal.specs.Serial.{course};
ghost use Rattle.plane_grid.specs.PlaneGrids.{IsPlaneGrid};
ghost use Rattle.journal_check.specs.Entries.{IsPlanOf};
ghost use Rattle.journal_check.specs.Verdicts.{IsVerdict};

use crate::accounted::is_accounted;
use crate::excused::first_unexcused;
use crate::stamped::first_misstamped;
use crate::verdict::Verdict;
use cell_grid::{Behave, Grid};
use draw_stream::AttemptPlan;
use feast_base::NoMemory;
use report_text::ReadJournal;
use std::alloc::Global;
use tile_map::Map;

/// Judges the events and the abandoned attempts of a report, whoever wrote it, by calculation:
/// whether each attempt of the plan is accounted for, whether each event has the stamp that its
/// links give, and whether each abandoned attempt is excused. If all three hold, the events are
/// replayed from the start, by what acts on windows. Otherwise the answer is the first that does
/// not hold, with the position of its first event or abandoned attempt. The plan is one of the map,
/// and the start is a grid of its plane. For n entries the time is at most of the order n log n.
/// `NoMemory` if there is none for the events of each tile, the attempts of one, the clocks, or
/// the events of each edge.
pub fn audit<B: Behave>(
    alloc: Global,
    map: &Map,
    plan: &AttemptPlan,
    start: Grid,
    journal: &ReadJournal,
    behave: &mut B,
) -> Result<Verdict, NoMemory>
    requires plan { IsPlanOf map.now plan.now }
    requires start { IsPlaneGrid map.now start }
    ensures verdict { IfOk result (IsVerdict (course map.now plan.now (B.after behave.old) start)
        journal.now.records journal.now.abandoned) }
    ensures meaning { B.after behave.new ≡ B.after behave.old }
{
    map.laws();
    let records = journal.records();
    let abandoned = journal.abandoned();
    if !is_accounted(alloc, map, plan, records, abandoned)? {
        return Ok(Verdict::NotAccounted);
    }
    if let Some(k) = first_misstamped(alloc, map, records)? {
        return Ok(Verdict::NotStamped(k));
    }
    if let Some(k) = first_unexcused(alloc, map, records, abandoned)? {
        return Ok(Verdict::NotExcused(k));
    }
    let mut grid = start;
    grid.replay(records, behave);
    Ok(Verdict::Yes(grid))
}
