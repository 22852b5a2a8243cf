//! Reports and grids that are put.
ghost use Rattle.std.specs.Prelude.{◌≡◌, ◌-◌, ◌^◌, ◌<◌};
ghost use Rattle.report_text.specs.Report.{AreNamed, grid_text, of_logs, report_of};
ghost use Rattle.report_text.specs.Writing.{PutsAll, Writes};

use crate::abreast::Events;
use crate::detail::Detail;
use crate::page::{Page, put_last};
use crate::streamed::{put_grid, put_report};
use crate::write_fault::WriteFault;
use cell_grid::Grid;
use event_journal::Journal;
use feast_base::{Name, Sink, SinkFailed};
use std::alloc::Global;
use std::thread::Threads;

/// Puts the text that shows a grid, with which its report begins: the line `feast 1`, the number of
/// atoms that are not empty, and a line for each of them in row order. Each atom is empty or its type
/// has a name: type numbers count the names from 1. No memory is taken, and the pieces that are put
/// have 4,096 bytes each except the last, which has 1 to 4,096.
///
/// `SinkFailed` only if the sink failed in this call; it then has a first part of the text.
pub fn write_grid<K: Sink>(grid: &Grid, names: &[Name], sink: &mut K) -> Result<(), SinkFailed>
    requires named { AreNamed names.now grid.now.atoms }
    requires room { (K.state sink.old).faults < 2 ^ 64 - 1 }
    ensures { PutsAll (K.state sink.old) (K.state sink.new) (grid_text names.now grid.now) result }
{
    let mut page = Page::new();
    put_grid(sink, &mut page, b"feast 1\n", grid, names)?;
    put_last(sink, page)
}

/// Puts the report of a run: its grid's atoms and its journal. Each atom is empty or its type has a
/// name: type numbers count the names from 1. All memory is allocated before the first put (what a
/// thread's stack takes is the system's), and the pieces that are put have 4,096 bytes each except
/// the last, which has 1 to 4,096.
///
/// Up to 20,000 events, and on one processor any number, are printed in this thread alone. More are
/// printed side by side, by as many threads as there are processors, up to eight, as far as threads
/// start; their lines take 8 MiB, and each thread a walk through the journal.
///
/// `Sink` only if the sink failed in this call; it then has a first part of the report. `NoMemory`
/// if there was none for what the events are printed in; then nothing was put.
pub fn write_report<R: Threads + Sync, K: Sink>(
    rt: &R,
    alloc: Global,
    grid: &Grid,
    journal: &Journal,
    names: &[Name],
    sink: &mut K,
) -> Result<(), WriteFault>
    requires named { AreNamed names.now grid.now.atoms }
    requires room { (K.state sink.old).faults < 2 ^ 64 - 1 }
    ensures { Writes (K.state sink.old) (K.state sink.new) (report_of names.now (of_logs grid.now journal.now)) result }
{
    let mut events = Events::new(rt, alloc, journal, Detail::Whole)?;
    put_report(rt, sink, grid, journal, names, &mut events)?;
    Ok(())
}
