//! The journal of a run.
ghost use Rattle.std.specs.Prelude.{◌≡◌, ◌≤◌, ◌<◌, [], All, IfOk, length, slice_index_or};
ghost use Rattle.event_journal.specs.Logs.{AreLogs, IsJournal, IsLog, abandoned_in, log_of, records_in};
ghost use Rattle.event_journal.specs.Walks.{rest_of};
ghost use Rattle.feast_base.specs.declared.limits.TheConstants.{MOST_ATTEMPTS};

use crate::log::TileLog;
use crate::walk::Walk;
use feast_base::NoMemory;
use std::alloc::Global;
use std::marker::Model;

/// The events and the abandoned attempts of all tiles. Contracts see the tiles' logs; its records
/// are theirs in the order of the journal, and its abandoned attempts theirs in order of tile.
pub struct Journal {
    logs: Vec<TileLog>,
}

// Written by hand, not derived: so a caller drops it by one call.
impl Drop for Journal {
    fn drop(self) {
        let Journal { logs } = self;
    }
}

impl Model for Journal {
    ghost use Rattle.std.specs.Prelude.{List};
    ghost use Rattle.event_journal.specs.Logs.{AreLogs, LogValue};

    ghost Value = { List LogValue };

    ghost view = { λ j. j.logs.items };

    ghost invariant = { λ j. AreLogs j.logs.items };
}

impl Journal {
    /// The journal of these logs. Log t is of tile t; there are at most 64, with at most 1,000,000
    /// records and abandoned attempts together.
    pub fn of_logs(logs: Vec<TileLog>) -> Journal
        requires { AreLogs logs.items }
        ensures { result ≡ logs.items }
    {
        Journal { logs }
    }

    /// How many tiles there are.
    pub fn tiles(&self) -> u32
        ensures value { result ≡ length self.now }
        ensures valid { AreLogs self.now }
    {
        self.logs.len() as u32
    }

    /// The log of a tile.
    pub fn log(&self, tile: u32) -> &TileLog
        requires { tile < length self.now }
        ensures { result.now ≡ slice_index_or self.now tile (log_of tile [] []) }
    {
        &self.logs[tile as usize]
    }

    /// The logs of all tiles.
    pub fn logs(&self) -> &[TileLog]
        ensures { result.now ≡ self.now }
    {
        self.logs.as_slice()
    }

    /// How many records there are, at most 1,000,000.
    pub fn len(&self) -> u64
        ensures value { result ≡ length (records_in self.now) }
        ensures bound { result ≤ MOST_ATTEMPTS }
    {
        count_records(self.logs.as_slice())
    }

    /// How many attempts were given up, at most 1,000,000.
    pub fn abandoned_len(&self) -> u64
        ensures value { result ≡ length (abandoned_in self.now) }
        ensures bound { result ≤ MOST_ATTEMPTS }
    {
        count_abandoned(self.logs.as_slice())
    }

    /// A walk through the records, which gives them in the order of the journal. `NoMemory` if
    /// there is none for what the walk keeps.
    #[tactic(auto, unfolding(crate::specs::Logs::records_in))]
    pub fn walk(&self, alloc: Global) -> Result<Walk<'_>, NoMemory>
        ensures { IfOk result (λ w. rest_of w ≡ records_in self.now) }
    {
        all_laws(self.logs.as_slice());
        Walk::new(alloc, self.logs.as_slice())
    }

    /// What holds of every journal: its records are those of the logs, each once, by stamp and then
    /// tile, and no other list has this property; its abandoned attempts are by tile and then
    /// attempt. The call does nothing: its contract is the law.
    pub fn laws(&self)
        ensures { IsJournal self.now }
    {
        all_laws(self.logs.as_slice());
    }
}

/// What holds of each log.
fn all_laws(logs: &[TileLog])
    ensures { All IsLog logs.now }
{
    for log in logs {
        log.laws();
    }
}

/// How many records some logs have.
fn count_records(logs: &[TileLog]) -> u64
    requires { AreLogs logs.now }
    ensures value { result ≡ length (records_in logs.now) }
    ensures bound { result ≤ MOST_ATTEMPTS }
{
    let mut count = 0u64;
    for log in logs {
        count += log.records().len() as u64;
    }
    count
}

/// How many abandoned attempts some logs have.
fn count_abandoned(logs: &[TileLog]) -> u64
    requires { AreLogs logs.now }
    ensures value { result ≡ length (abandoned_in logs.now) }
    ensures bound { result ≤ MOST_ATTEMPTS }
{
    let mut count = 0u64;
    for log in logs {
        count += log.abandoned().len() as u64;
    }
    count
}
