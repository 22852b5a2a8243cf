//! Short reports and reports of counts that are put.
ghost use Rattle.std.specs.Prelude.{◌-◌, ◌^◌, ◌<◌};
ghost use Rattle.report_text.specs.Report.{AreNamed, of_logs};
ghost use Rattle.report_text.specs.Short.{counts_report, short_report_of};
ghost use Rattle.report_text.specs.Writing.{PutsAll, Writes};

use crate::abreast::Events;
use crate::detail::Detail;
use crate::page::{Page, put_last};
use crate::streamed::{put_counts, put_report};
use crate::write_fault::WriteFault;
use cell_grid::Grid;
use event_journal::Journal;
use feast_base::{Name, Sink, SinkFailed};
use std::alloc::Global;
use std::thread::Threads;

/// Puts the short report of a run, as `write_report` puts the whole one: of an event it tells the
/// stamp, the tile and the attempt, of an abandoned attempt all but its site.
pub fn write_short<R: Threads + Sync, K: Sink>(
    rt: &R,
    alloc: Global,
    grid: &Grid,
    journal: &Journal,
    names: &[Name],
    sink: &mut K,
) -> Result<(), WriteFault>
    requires named { AreNamed names.now grid.now.atoms }
    requires room { (K.state sink.old).faults < 2 ^ 64 - 1 }
    ensures { Writes (K.state sink.old) (K.state sink.new) (short_report_of names.now (of_logs grid.now journal.now)) result }
{
    let mut events = Events::new(rt, alloc, journal, Detail::Short)?;
    put_report(rt, sink, grid, journal, names, &mut events)?;
    Ok(())
}

/// Puts a report of counts: the atoms of a grid, a number of events, and one of abandoned attempts. Each
/// atom is empty or its type has a name. No memory is taken, and the pieces that are put have 4,096 bytes
/// each except the last, which has 1 to 4,096.
///
/// `SinkFailed` only if the sink failed in this call; it then has a first part of the text.
pub fn write_counts<K: Sink>(
    grid: &Grid,
    names: &[Name],
    events: u64,
    abandoned: u64,
    sink: &mut K,
) -> Result<(), SinkFailed>
    requires named { AreNamed names.now grid.now.atoms }
    requires room { (K.state sink.old).faults < 2 ^ 64 - 1 }
    ensures { PutsAll (K.state sink.old) (K.state sink.new) (counts_report names.now grid.now events abandoned) result }
{
    let mut page = Page::new();
    put_counts(sink, &mut page, grid, names, events, abandoned)?;
    put_last(sink, page)
}
