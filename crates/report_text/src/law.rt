//! Laws on reports as texts, on what is read as a report, on reports that are read again, and on
//! reports that are cut short.
ghost use Rattle.report_text.specs.Again.{AreFormed, AreReadAgain, IsDrawablePlan};
ghost use Rattle.report_text.specs.Cuts.{AreCutShort, AreShortCutShort};
ghost use Rattle.report_text.specs.OneReport.{AreTypeNames, IsOneReport, IsReported};
ghost use Rattle.report_text.specs.Report.{AreNamed, of_logs};
ghost use Rattle.report_text.specs.ReportForm.{AreReports};
ghost use Rattle.report_text.specs.ShortForm.{AreShortReports};
ghost use Rattle.report_text.specs.ShortLaws.{AreInARow, IsTheShortOne, StandsForWhole};

use crate::fitting::is_reported;
use cell_grid::Grid;
use draw_stream::AttemptPlan;
use event_journal::Journal;
use feast_base::Name;
use tile_map::Map;

/// Which bytes are read as a report of a map and a plan, and as which entries: exactly those that
/// are a text of these entries. Nothing but the lines of sites is free in it: these have their
/// form, and are as many as the entries say. The events fit the map and the plan. So `read` answers
/// `Ok` exactly for such bytes, if there is memory. The call does nothing: its contract is the law.
pub fn reports(map: &Map, plan: &AttemptPlan)
    ensures { AreReports map.now plan.now }
{
    // The proof takes from the first reading what holds of every map; the plan is read so that it
    // is not unused.
    let _tiles = map.tiles();
    let _origin = plan.origin();
}

/// The report of any run of a plan, printed with these names of types and read with the map and the
/// plan, says the events and the abandoned attempts that the run left. The call does nothing: its
/// contract is the law.
pub fn reads_again(map: &Map, plan: &AttemptPlan, names: &[Name])
    requires names { AreFormed names.now }
    requires plan { IsDrawablePlan map.now plan.now }
    ensures { AreReadAgain names.now map.now plan.now }
{
    // Only the contract speaks of the arguments; they are read so that none is unused.
    let _tiles = map.tiles();
    let _origin = plan.origin();
    let _names = names.len();
}

/// If two reports with these names are equal as texts, they show the same atoms, so that grids of
/// one size are the same, and they have the same events and the same abandoned attempts. No two of
/// the names are the same. What `write_report` takes with these names makes such a report. The call
/// does nothing: its contract is the law.
pub fn one_report(grid: &Grid, journal: &Journal, names: &[Name])
    requires named { AreNamed names.now grid.now.atoms }
    requires names { AreTypeNames names.now }
    ensures one { IsOneReport names.now }
    ensures reported { IsReported names.now (of_logs grid.now journal.now) }
{
    is_reported(grid, journal, names);
}

/// If a text of lines is a report of a map and a plan, whole or short, then its first lines, unless
/// they are all of them, are none, and the fault is at the line after them: `read` answers `BadLine`
/// with it, for the lines of a whole report or for what `widened` makes of those of a short one. The
/// call does nothing: its contract is the law.
pub fn cuts(map: &Map, plan: &AttemptPlan)
    ensures whole { AreCutShort map.now plan.now.lists }
    ensures short { AreShortCutShort map.now plan.now.lists }
{
    // Only the contract speaks of the arguments; they are read so that none is unused.
    let _tiles = map.tiles();
    let _origin = plan.origin();
}

/// What holds of short reports of a map and a plan, with these names of types. That of what a run of the
/// plan left stands for the whole one, and no other bytes do. And which bytes are read as a short report,
/// and as which entries: exactly those that are their short text, where the plan says the site and the
/// seed of each event, and the site of each abandoned attempt. The call does nothing: its contract is
/// the law.
pub fn short_reports(map: &Map, plan: &AttemptPlan, names: &[Name])
    requires names { AreFormed names.now }
    requires plan { IsDrawablePlan map.now plan.now }
    ensures whole { StandsForWhole names.now map.now plan.now }
    ensures short { IsTheShortOne names.now map.now plan.now }
    ensures read { AreShortReports map.now plan.now }
{
    // Only the contract speaks of the arguments; they are read so that none is unused.
    let _tiles = map.tiles();
    let _origin = plan.origin();
    let _names = names.len();
}

/// The report of what a run of a plan left, whole or short, is told from whatever follows it by its
/// counts. The call does nothing: its contract is the law.
pub fn reports_in_a_row(map: &Map, plan: &AttemptPlan, names: &[Name])
    requires names { AreFormed names.now }
    requires plan { IsDrawablePlan map.now plan.now }
    ensures { AreInARow names.now map.now plan.now }
{
    // Only the contract speaks of the arguments; they are read so that none is unused.
    let _tiles = map.tiles();
    let _origin = plan.origin();
    let _names = names.len();
}
