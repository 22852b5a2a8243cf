//! A report that goes to a sink line by line.
ghost use Rattle.std.specs.Prelude.{◌≡◌, ◌≤◌, ◌-◌, ◌^◌, ◌<◌, ◌++◌, ◌⊎◌, length, map};
ghost use Rattle.bit_field.specs.Atom.{empty_atom};
ghost use Rattle.text_lines.specs.Lines.{ended_line, text_of};
ghost use Rattle.event_journal.specs.Logs.{abandoned_in, records_in};
ghost use Rattle.report_text.specs.Details.{abandoned_text, logs_text_by, records_text, report_by};
ghost use Rattle.report_text.specs.JournalText.{count_fields};
ghost use Rattle.report_text.specs.Report.{AreNamed, atom_fields, atoms_text, of_logs, shown_from, shown_one};
ghost use Rattle.report_text.specs.Short.{counts_report};
ghost use Rattle.report_text.specs.Writing.{PutsAll, Streams, heading};

use crate::abreast::{Events, put_events};
use crate::detail::Detail;
use crate::line::{
    ATOM_END, LONGEST_ABANDONED, LONGEST_COUNT, LONGEST_SITE, write_atom_end, write_count,
    write_site,
};
use crate::page::{Page, put_bytes, put_last};
use crate::shown::{count, name_of};
use bit_field::Atom;
use cell_grid::Grid;
use event_journal::{Abandoned, Journal, TileLog};
use feast_base::{Name, Sink, SinkFailed};
use std::thread::Threads;

/// Puts the line of a count, after a word.
fn put_count<K: Sink>(
    sink: &mut K,
    page: &mut Page,
    word: &[u8],
    count: u64,
) -> Result<(), SinkFailed>
    requires { (K.state sink.old).faults < 2 ^ 64 - 1 }
    ensures { Streams (heading (K.state sink.old) page.old) (heading (K.state sink.new) page.new) (ended_line (count_fields word.now count)) result }
{
    let mut line = [0; LONGEST_COUNT];
    let start = write_count(count, &mut line);
    put_bytes(sink, page, word)?;
    put_bytes(sink, page, &line[start..])
}

/// Puts the line of an atom at a place in row order, if it is not empty.
fn put_atom<K: Sink>(
    sink: &mut K,
    page: &mut Page,
    names: &[Name],
    width: u32,
    place: usize,
    atom: Atom,
) -> Result<(), SinkFailed>
    requires room { (K.state sink.old).faults < 2 ^ 64 - 1 }
    requires width { 1 ≤ width }
    requires named { (atom ≡ empty_atom) ⊎ ((1 ≤ atom.kind) × (atom.kind ≤ length names.now)) }
    ensures { Streams (heading (K.state sink.old) page.old) (heading (K.state sink.new) page.new) (text_of (map (atom_fields names.now) (shown_one width place atom))) result }
{
    if atom.kind() == 0 {
        return Ok(());
    }
    let (mut site, mut end) = ([0; LONGEST_SITE], [0; ATOM_END]);
    let site_start = write_site(width, place, &mut site);
    let end_start = write_atom_end(atom.state(), &mut end);
    put_bytes(sink, page, &site[site_start..])?;
    put_bytes(sink, page, name_of(names, atom.kind()))?;
    put_bytes(sink, page, &end[end_start..])
}

/// Puts the lines of the atoms that are not empty.
fn put_atoms<K: Sink>(
    sink: &mut K,
    page: &mut Page,
    names: &[Name],
    width: u32,
    atoms: &[Atom],
) -> Result<(), SinkFailed>
    requires room { (K.state sink.old).faults < 2 ^ 64 - 1 }
    requires width { 1 ≤ width }
    requires named { AreNamed names.now atoms.now }
    ensures { Streams (heading (K.state sink.old) page.old) (heading (K.state sink.new) page.new) (text_of (map (atom_fields names.now) (shown_from width 0 atoms.now))) result }
{
    for (place, atom) in atoms.iter().enumerate() {
        put_atom(sink, page, names, width, place, *atom)?;
    }
    Ok(())
}

/// Puts the lines of abandoned attempts.
fn put_abandoned<K: Sink>(
    sink: &mut K,
    page: &mut Page,
    abandoned: &[Abandoned],
    detail: Detail,
) -> Result<(), SinkFailed>
    requires { (K.state sink.old).faults < 2 ^ 64 - 1 }
    ensures { Streams (heading (K.state sink.old) page.old) (heading (K.state sink.new) page.new) (abandoned_text detail abandoned.now) result }
{
    let mut line = [0; LONGEST_ABANDONED];
    for entry in abandoned {
        let start = detail.write_abandoned(entry, &mut line);
        put_bytes(sink, page, &line[start..])?;
    }
    Ok(())
}

/// Puts the lines of the abandoned attempts of logs.
fn put_logs<K: Sink>(
    sink: &mut K,
    page: &mut Page,
    logs: &[TileLog],
    detail: Detail,
) -> Result<(), SinkFailed>
    requires { (K.state sink.old).faults < 2 ^ 64 - 1 }
    ensures { Streams (heading (K.state sink.old) page.old) (heading (K.state sink.new) page.new) (abandoned_text detail (abandoned_in logs.now)) result }
{
    for log in logs {
        put_abandoned(sink, page, log.abandoned(), detail)?;
    }
    Ok(())
}

/// Puts a header, and the text of a grid's atoms.
pub(crate) fn put_grid<K: Sink>(
    sink: &mut K,
    page: &mut Page,
    header: &[u8],
    grid: &Grid,
    names: &[Name],
) -> Result<(), SinkFailed>
    requires room { (K.state sink.old).faults < 2 ^ 64 - 1 }
    requires named { AreNamed names.now grid.now.atoms }
    ensures { Streams (heading (K.state sink.old) page.old) (heading (K.state sink.new) page.new) (header.now ++ atoms_text names.now grid.now) result }
{
    put_bytes(sink, page, header)?;
    put_count(sink, page, b"atoms", count(grid))?;
    put_atoms(sink, page, names, grid.width(), grid.atoms())
}

/// Puts the number of a journal's events and their lines, and then the number of its abandoned
/// attempts and their lines.
fn put_journal<R: Threads + Sync, K: Sink>(
    rt: &R,
    sink: &mut K,
    page: &mut Page,
    journal: &Journal,
    events: &mut Events<'_>,
) -> Result<(), SinkFailed>
    requires room { (K.state sink.old).faults < 2 ^ 64 - 1 }
    requires all { events.old.text ≡ records_text events.old.detail (records_in journal.now) }
    ensures { Streams (heading (K.state sink.old) page.old) (heading (K.state sink.new) page.new) (logs_text_by events.old.detail journal.now) result }
{
    let detail = events.detail();
    put_count(sink, page, b"journal", journal.len())?;
    put_events(rt, sink, page, events)?;
    put_count(sink, page, b"abandoned", journal.abandoned_len())?;
    put_logs(sink, page, journal.logs(), detail)
}

/// Puts the report of a run. `events` are those of its journal, and say how much it tells.
pub(crate) fn put_report<R: Threads + Sync, K: Sink>(
    rt: &R,
    sink: &mut K,
    grid: &Grid,
    journal: &Journal,
    names: &[Name],
    events: &mut Events<'_>,
) -> Result<(), SinkFailed>
    requires room { (K.state sink.old).faults < 2 ^ 64 - 1 }
    requires named { AreNamed names.now grid.now.atoms }
    requires all { events.old.text ≡ records_text events.old.detail (records_in journal.now) }
    ensures { PutsAll (K.state sink.old) (K.state sink.new) (report_by events.old.detail names.now (of_logs grid.now journal.now)) result }
{
    let header = events.detail().header();
    let mut page = Page::new();
    put_grid(sink, &mut page, header, grid, names)?;
    put_journal(rt, sink, &mut page, journal, events)?;
    put_last(sink, page)
}

/// Puts the atoms of a grid, and the numbers of events and of abandoned attempts.
pub(crate) fn put_counts<K: Sink>(
    sink: &mut K,
    page: &mut Page,
    grid: &Grid,
    names: &[Name],
    events: u64,
    abandoned: u64,
) -> Result<(), SinkFailed>
    requires room { (K.state sink.old).faults < 2 ^ 64 - 1 }
    requires named { AreNamed names.now grid.now.atoms }
    ensures { Streams (heading (K.state sink.old) page.old) (heading (K.state sink.new) page.new) (counts_report names.now grid.now events abandoned) result }
{
    put_grid(sink, page, b"feast 3\n", grid, names)?;
    put_count(sink, page, b"journal", events)?;
    put_count(sink, page, b"abandoned", abandoned)
}
