//! What is left of the logs of a journal, and which first record comes first.
ghost use Rattle.std.specs.Prelude.{◌≡◌, ◌≤◌, ◌<◌, ◌+◌, ◌*◌, ◌==◌, [], IfOk, length, map, slice_index_or, slice_set};
ghost use Rattle.event_journal.specs.Keys.{AreKeys, AreOwn, IsKey, IsOwn, end_key, lists_behind, merged_behind};
ghost use Rattle.event_journal.specs.Logs.{is_before, records_of};
ghost use Rattle.event_journal.specs.Merged.{merged};
ghost use Rattle.event_journal.specs.Tournaments.{IsLeast};
ghost use Rattle.event_journal.specs.Walks.{TakesFirst};
ghost use Rattle.feast_base.specs.declared.limits.TheConstants.{MOST_TILES};

use crate::log::TileLog;
use crate::tournament::Tournament;
use cell_grid::Record;
use feast_base::{MOST_TILES, NoMemory};
use std::alloc::Global;
use std::marker::Model;

/// The key of a log that has no record left. It is greater than that of any other.
const CLOSED: u64 = (MOST_TILES as u64) << 32;

/// The records that are left of each log, log t of tile t, and a tournament of the logs' keys.
/// Contracts see the records.
#[derive(Drop)]
pub(crate) struct Merge<'a> {
    lefts: Vec<&'a [Record]>,
    keys: Tournament,
}

impl<'a> Model for Merge<'a> {
    ghost use Rattle.std.specs.Prelude.{List};
    ghost use Rattle.cell_grid.specs.declared.record.Record.{Record};
    ghost use Rattle.event_journal.specs.Keys.{AreKeys, AreOwn, lists_behind};

    ghost Value = { List (List Record) };

    ghost view = { λ m. lists_behind m.lefts.items };

    ghost invariant = { λ m. AreOwn (lists_behind m.lefts.items) × AreKeys (lists_behind m.lefts.items) m.keys };
}

impl<'a> Merge<'a> {
    /// All records of these logs. `NoMemory` if there is none for what it keeps.
    pub(crate) fn new(alloc: Global, logs: &'a [TileLog]) -> Result<Merge<'a>, NoMemory>
        requires { AreOwn (map records_of logs.now) }
        ensures { IfOk result (λ m. m ≡ map records_of logs.now) }
    {
        let lefts = records_of_all(alloc, logs)?;
        let keys = tournament(alloc, lefts.as_slice())?;
        Ok(Merge { lefts, keys })
    }

    /// How many logs there are.
    pub(crate) fn logs(&self) -> usize
        ensures { result ≡ length self.now }
    {
        self.lefts.len()
    }

    /// The records that are left of log `k`.
    pub(crate) fn left(&self, k: usize) -> &'a [Record]
        requires { k < length self.now }
        ensures { result.now ≡ slice_index_or self.now k [] }
    {
        self.lefts[k]
    }

    /// Sets the records that are left of log `k`.
    pub(crate) fn set_left(&mut self, k: usize, records: &'a [Record])
        requires inside { k < length self.old }
        requires own { IsOwn k records.now }
        ensures { self.new ≡ slice_set self.old k records.now }
    {
        set_left(self.lefts.as_mut_slice(), &mut self.keys, k, records);
    }

    /// Whether no record is left.
    pub(crate) fn is_over(&self) -> bool
        ensures { result ≡ (length (merged is_before self.now) == 0) }
    {
        match self.keys.least() {
            None => true,
            Some(least) => least == CLOSED,
        }
    }

    /// What holds of the records that are left of each log. The call does nothing: its contract is
    /// the law.
    pub(crate) fn laws(&self)
        ensures { AreOwn self.now }
    {
        // The proof takes what holds of the merge from this reading of it.
        let _ = &self.lefts;
    }

    /// Takes the first of the records that are left, in the order of the journal.
    pub(crate) fn take(&mut self) -> Option<Record>
        ensures { TakesFirst (merged is_before self.old) result (merged is_before self.new) }
    {
        take(self.lefts.as_mut_slice(), &mut self.keys)
    }
}

/// The records of each log.
fn records_of_all<'a>(alloc: Global, logs: &'a [TileLog]) -> Result<Vec<&'a [Record]>, NoMemory>
    ensures { IfOk result (λ v. lists_behind v.items ≡ map records_of logs.now) }
{
    let mut lefts = Vec::new(alloc);
    for log in logs {
        lefts.push(log.records())?;
    }
    Ok(lefts)
}

/// The key of log `k` with a record left: that record's stamp, and then the log's number.
fn open_key(k: usize, stamp: u32) -> u64
    requires { k < MOST_TILES }
    ensures value { result ≡ stamp * MOST_TILES + k }
    ensures open { result < end_key }
{
    u64::from(stamp) * MOST_TILES as u64 + k as u64
}

/// The key of log `k`, by which it is compared with others.
fn key(k: usize, left: &[Record]) -> u64
    requires { k < MOST_TILES }
    ensures { IsKey k left.now result }
{
    match left.first() {
        None => CLOSED,
        Some(first) => open_key(k, first.stamp),
    }
}

/// The tournament of the keys.
fn tournament(alloc: Global, lefts: &[&[Record]]) -> Result<Tournament, NoMemory>
    requires { length lefts.now ≤ MOST_TILES }
    ensures { IfOk result (λ t. AreKeys (lists_behind lefts.now) t) }
{
    let mut keys = Vec::new(alloc);
    for (k, left) in lefts.iter().enumerate() {
        keys.push(key(k, left))?;
    }
    Tournament::new(alloc, keys.as_slice())
}

/// Sets the records that are left of log `k`.
fn set_left<'a>(lefts: &mut [&'a [Record]], keys: &mut Tournament, k: usize, records: &'a [Record])
    requires inside { k < length lefts.old }
    requires mine { IsOwn k records.now }
    requires own { AreOwn (lists_behind lefts.old) }
    requires keys { AreKeys (lists_behind lefts.old) keys.old }
    ensures lists { lists_behind lefts.new ≡ slice_set (lists_behind lefts.old) k records.now }
    ensures own { AreOwn (lists_behind lefts.new) }
    ensures keys { AreKeys (lists_behind lefts.new) keys.new }
{
    keys.set(k, key(k, records));
    lefts[k] = records;
}

/// Takes the first of the records that are left.
fn take(lefts: &mut [&[Record]], keys: &mut Tournament) -> Option<Record>
    requires own { AreOwn (lists_behind lefts.old) }
    requires keys { AreKeys (lists_behind lefts.old) keys.old }
    ensures first { TakesFirst (merged_behind lefts.old) result (merged_behind lefts.new) }
    ensures own { AreOwn (lists_behind lefts.new) }
    ensures keys { AreKeys (lists_behind lefts.new) keys.new }
{
    match keys.least() {
        None => None,
        Some(least) => take_least(lefts, keys, least),
    }
}

/// Takes the first record of the log of the least key, if it has one.
fn take_least(lefts: &mut [&[Record]], keys: &mut Tournament, least: u64) -> Option<Record>
    requires own { AreOwn (lists_behind lefts.old) }
    requires keys { AreKeys (lists_behind lefts.old) keys.old }
    requires least { IsLeast least keys.old }
    ensures first { TakesFirst (merged_behind lefts.old) result (merged_behind lefts.new) }
    ensures own { AreOwn (lists_behind lefts.new) }
    ensures keys { AreKeys (lists_behind lefts.new) keys.new }
{
    if least == CLOSED {
        return None;
    }
    let k = (least % MOST_TILES as u64) as usize;
    match lefts[k].split_first() {
        None => None,
        Some((first, rest)) => {
            keys.set(k, key(k, rest));
            lefts[k] = rest;
            Some(*first)
        }
    }
}
