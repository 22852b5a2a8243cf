//! Reading the journal of a report.
ghost use Rattle.std.specs.Prelude.{◌≡◌, ◌+◌, ◌<◌, ◌^◌, IfOk, List, None, length, replicate};
ghost use Rattle.draw_stream.specs.declared.attempt.Attempt.{Attempt};
ghost use Rattle.text_lines.specs.Fields.{Lacks};
ghost use Rattle.text_lines.specs.Lines.{ended_lines};
ghost use Rattle.tile_map.specs.Plane.{MapValue, tiles_of};
ghost use Rattle.report_text.specs.Reading.{read_lines};
ghost use Rattle.report_text.specs.Cursors.{AllServe, ReadsJournal, ReadsSaid, lasts_of, said_value};
ghost use Rattle.report_text.specs.Entries.{abandoned_line, event_line};
ghost use Rattle.report_text.specs.EntryLines.{AreOnLines};
ghost use Rattle.report_text.specs.GridPart.{IsGridPart};

use crate::cursors::LogCursor;
use crate::journal_fault::JournalFault;
use crate::left::after_lines;
use crate::reading::{Reading, Wants, is_over, take_fields};
use cell_grid::Record;
use draw_stream::AttemptPlan;
use event_journal::Abandoned;
use feast_base::NoMemory;
use std::alloc::Global;
use std::marker::Model;
use text_lines::next_ended;
use tile_map::Map;

/// What was read of a report: its events and its abandoned attempts, in the order of its text, and
/// how many sites it shows. Contracts see these.
pub struct ReadJournal {
    sites: u32,
    records: Vec<Record>,
    abandoned: Vec<Abandoned>,
}

// Written by hand, not derived: so a caller drops it by one call.
impl Drop for ReadJournal {
    fn drop(self) {
        let ReadJournal {
            sites,
            records,
            abandoned,
        } = self;
    }
}

impl Model for ReadJournal {
    ghost use Rattle.std.specs.Prelude.{◌+◌, ◌<◌, ◌^◌, length};
    ghost use Rattle.report_text.specs.Entries.{Entries, entries};

    ghost Value = { Entries };

    ghost view = { λ j. entries j.sites j.records.items j.abandoned.items };

    ghost invariant = { λ j. length j.records.items + length j.abandoned.items < 2 ^ 63 };
}

impl ReadJournal {
    /// The events.
    pub fn records(&self) -> &[Record]
        ensures { result.now ≡ self.now.records }
    {
        self.records.as_slice()
    }

    /// The abandoned attempts.
    pub fn abandoned(&self) -> &[Abandoned]
        ensures { result.now ≡ self.now.abandoned }
    {
        self.abandoned.as_slice()
    }

    /// The line of event `k`, from 0.
    pub fn event_line(&self, k: u64) -> u64
        requires { k < length self.now.records }
        ensures { result ≡ event_line self.now k }
    {
        u64::from(self.sites) + 4 + k
    }

    /// The line of abandoned attempt `k`, from 0.
    pub fn abandoned_line(&self, k: u64) -> u64
        requires { k < length self.now.abandoned }
        ensures { result ≡ abandoned_line self.now k }
    {
        u64::from(self.sites) + 5 + self.records.len() as u64 + k
    }

    /// The part of the bytes that it was read of that shows the grid: all before the count of events.
    pub fn grid_part<'a>(&self, bytes: &'a [u8]) -> &'a [u8]
        ensures { IsGridPart bytes.now self.now result.now }
    {
        let journal = after_lines(bytes, u64::from(self.sites) + 2);
        &bytes[..bytes.len() - journal.len()]
    }
}

/// A cursor for each tile of a plan.
fn cursors(alloc: Global, plan: &AttemptPlan, tiles: u32) -> Result<Vec<LogCursor>, NoMemory>
    requires { length plan.now.lists ≡ tiles }
    ensures many { IfOk result (λ v. length v.items ≡ tiles) }
    ensures fresh { IfOk result (λ v. lasts_of v.items ≡ replicate tiles None) }
    ensures serve { IfOk result (λ v. AllServe v.items plan.now.lists) }
{
    let mut cursors = Vec::new(alloc);
    for tile in 0..tiles {
        cursors.push(LogCursor {
            stream: plan.of_tile(alloc, tile)?,
            last: 0,
            line: 0,
        })?;
    }
    Ok(cursors)
}

/// What the lines that are read say; `BadLine` with the line after them, of number `n`, if a text
/// without an LF is left or more lines have to come.
fn finish(n: u64, left: &[u8], reading: Reading) -> Result<ReadJournal, JournalFault>
    requires lacks { Lacks left.now 10 }
    requires few { length reading.journal.items + length reading.gone.items < 2 ^ 63 }
    ensures { (m : MapValue) (lists : List (List Attempt)) →
        ReadsSaid (read_lines m lists n (said_value reading) (ended_lines left.now)) result }
{
    if left.is_empty() && is_over(reading.wants) {
        Ok(ReadJournal {
            sites: reading.sites,
            records: reading.journal,
            abandoned: reading.gone,
        })
    } else {
        Err(JournalFault::BadLine(n))
    }
}

/// Reads a report with these cursors, none of which has passed an attempt.
fn read_lines(
    alloc: Global,
    map: &Map,
    cursors: Vec<LogCursor>,
    bytes: &[u8],
) -> Result<ReadJournal, JournalFault>
    requires short { length bytes.now < 2 ^ 63 }
    requires cursors { length cursors.items ≡ tiles_of map.now }
    requires fresh { lasts_of cursors.items ≡ replicate (tiles_of map.now) None }
    ensures { (lists : List (List Attempt)) → AllServe cursors.items lists → ReadsJournal map.now lists bytes.now result }
{
    let mut reading = Reading {
        wants: Wants::Header,
        sites: 0,
        before: None,
        cursors,
        journal: Vec::new(alloc),
        gone: Vec::new(alloc),
    };
    let mut n = 1u64;
    let mut left = bytes;
    while let Some((text, rest)) = next_ended(left) {
        take_fields(map, n, &mut reading, text)?;
        n += 1;
        left = rest;
    }
    finish(n, left, reading)
}

/// Reads a whole report for a map and a plan, which has a list of attempts for each tile, and keeps
/// the events and the abandoned attempts, and how many sites are shown. Each of these entries
/// stands on the line that `event_line` or `abandoned_line` tells of it. A fault names the first
/// line that has one; on the line of a record `BadLine` comes first, then `OutOfOrder`, `NotOwned`
/// and `NotDrawn`. Of atoms and abandoned attempts only the form is tested. `NoMemory` if there is
/// none for the lists or for the attempts of the plan.
pub fn read(
    alloc: Global,
    bytes: &[u8],
    map: &Map,
    plan: &AttemptPlan,
) -> Result<ReadJournal, JournalFault>
    requires short { length bytes.now < 2 ^ 63 }
    requires plan { length plan.now.lists ≡ tiles_of map.now }
    ensures journal { ReadsJournal map.now plan.now.lists bytes.now result }
    ensures lines { IfOk result (AreOnLines bytes.now) }
{
    let cursors = cursors(alloc, plan, map.tiles())?;
    read_lines(alloc, map, cursors, bytes)
}
