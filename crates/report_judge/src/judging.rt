//! The judgement on a report.
ghost use Rattle.std.specs.Prelude.{◌≡◌, ◌<◌, ◌≤◌, ◌^◌, ◌↔◌, IfOk, IsTrue, length};
ghost use Rattle.cell_grid.specs.Records.{replay};
ghost use Rattle.event_journal.specs.Serial.{course};
ghost use Rattle.report_text.specs.Report.{AreNamed, grid_text, report};
ghost use Rattle.plane_grid.specs.PlaneGrids.{IsPlaneGrid};
ghost use Rattle.journal_check.specs.Entries.{IsPlanOf};
ghost use Rattle.report_judge.specs.Judging.{Judges, JudgesOn, judgement_of, named_course};
ghost use Rattle.report_text.specs.EntryLines.{AreOnLines};

use crate::comparing::Comparison;
use crate::judgement::Judgement;
use crate::read_report::ReadReport;
use cell_grid::{Behave, Grid};
use feast_base::{Name, NoMemory};
use journal_check::{Verdict, audit};
use report_text::write_grid;
use std::alloc::Global;

/// Whether a part of a report is the text that shows a grid. What is printed is compared at once, and not
/// kept.
fn is_grid(part: &[u8], names: &[Name], grid: &Grid) -> bool
    requires { AreNamed names.now grid.now.atoms }
    ensures { IsTrue result ↔ (part.now ≡ grid_text names.now grid.now) }
{
    let mut comparison = Comparison::new(part);
    // A put that fails shows in the comparison.
    let _ = write_grid(grid, names, &mut comparison);
    comparison.is_whole()
}

/// Whether the bytes of a report are those of the report of its own events and abandoned attempts that
/// shows a grid. Only the part that shows the grid is printed again: the other lines can't be written
/// otherwise than they were read.
fn is_own(read: &ReadReport, names: &[Name], grid: &Grid) -> bool
    requires { AreNamed names.now grid.now.atoms }
    ensures { IsTrue result ↔ (read.now.bytes ≡ report names.now grid.now read.now.entries.records read.now.entries.abandoned) }
{
    is_grid(read.grid_part(), names, grid)
}

/// A judgement on a report, with the grid that the events make of the start if it is yes.
#[derive(Drop)]
pub enum Judged {
    /// The judgement is yes, and this is the grid.
    Yes(Grid),
    /// The judgement is this one, and not yes.
    No(Judgement),
}

impl Judged {
    /// The judgement alone.
    pub fn judgement(&self) -> Judgement
        ensures { result ≡ judgement_of self.now }
    {
        match self {
            Judged::Yes(_) => Judgement::Yes,
            Judged::No(judgement) => *judgement,
        }
    }
}

/// Judges a report as `judge` does, for a caller that goes on with the grid that the events leave, as the
/// next leg of a chain does: at yes the answer has that grid. Otherwise it has the judgement, which is
/// not yes. `NoMemory` if there is none for the audit.
pub fn judge_on<B: Behave>(
    alloc: Global,
    report: &ReadReport,
    names: &[Name],
    start: Grid,
    behave: &mut B,
) -> Result<Judged, NoMemory>
    requires plan { IsPlanOf report.now.map report.now.plan }
    requires start { IsPlaneGrid report.now.map start }
    requires named { AreNamed names.now (replay (B.after behave.old) start report.now.entries.records).atoms }
    ensures judges { IfOk result (JudgesOn (named_course (course report.now.map report.now.plan (B.after behave.old) start) names.now)
        report.now.bytes report.now.entries) }
    ensures lines { AreOnLines report.now.bytes report.now.entries }
    ensures meaning { B.after behave.new ≡ B.after behave.old }
{
    let journal = report.journal();
    match audit(alloc, report.map(), report.plan(), start, journal, behave)? {
        Verdict::NotAccounted => Ok(Judged::No(Judgement::NoAccounted)),
        Verdict::NotStamped(k) => Ok(Judged::No(Judgement::NoStamped(journal.event_line(k)))),
        Verdict::NotExcused(k) => Ok(Judged::No(Judgement::NoExcused(journal.abandoned_line(k)))),
        Verdict::Yes(grid) => {
            if is_own(report, names, &grid) {
                Ok(Judged::Yes(grid))
            } else {
                Ok(Judged::No(Judgement::NoAtoms))
            }
        }
    }
}

/// Judges a report: whether each attempt of its plan is accounted for, each event has its stamp and
/// each abandoned attempt is excused, and whether its bytes are the report of its own events and
/// abandoned attempts over the grid that the events make of the start. The answer is the first of
/// these that does not hold, with its line in the report. The plan is one of the map, the start is
/// a grid of its plane, and the types of the atoms that the events leave have names. `NoMemory` if
/// there is none for the audit.
pub fn judge<B: Behave>(
    alloc: Global,
    report: &ReadReport,
    names: &[Name],
    start: Grid,
    behave: &mut B,
) -> Result<Judgement, NoMemory>
    requires plan { IsPlanOf report.now.map report.now.plan }
    requires start { IsPlaneGrid report.now.map start }
    requires named { AreNamed names.now (replay (B.after behave.old) start report.now.entries.records).atoms }
    ensures judges { IfOk result (Judges (named_course (course report.now.map report.now.plan (B.after behave.old) start) names.now)
        report.now.bytes report.now.entries) }
    ensures lines { AreOnLines report.now.bytes report.now.entries }
{
    let judged = judge_on(alloc, report, names, start, behave)?;
    Ok(judged.judgement())
}
