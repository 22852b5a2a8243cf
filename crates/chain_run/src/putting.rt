//! The report of a leg that is put.
ghost use Rattle.std.specs.Prelude.{◌≡◌, ◌-◌, ◌+◌, ◌^◌, ◌<◌, ◌≤◌, IsOk, List, ℕ};
ghost use Rattle.chain_run.specs.Between.{IsLegLeft};
ghost use Rattle.chain_run.specs.Reports.{AreCountsOf, IsLegOf, counts_behind, counts_behind_by, is_printed, leg_text, leg_text_by, no_counts};
ghost use Rattle.chain_run.specs.Runs.{leg_of};
ghost use Rattle.chain_text.specs.Chain.{IsChain};
ghost use Rattle.chain_text.specs.Values.{chain_value};
ghost use Rattle.chain_text.specs.declared.chain.Journal.TheVariants.{Counts};
ghost use Rattle.report_text.specs.Writing.{PutsAll, Writes};

use crate::leg::LegOf;
use chain_text::Journal;
use feast_base::{Name, Sink, SinkFailed};
use report_text::{WriteFault, write_counts, write_report, write_short};
use serial_order::Outcome;
use std::alloc::Global;
use std::marker::Model;
use std::thread::Threads;

/// Whether counts are printed behind a leg, if they are behind each one whose number is a multiple of
/// this period, and behind the last.
fn is_printed(leg: LegOf<'_>, period: u32) -> bool
    requires chain { (names : List (List ℕ)) × IsChain names (chain_value leg.chain.now) }
    requires leg { IsLegOf (chain_value leg.chain.now) leg.number }
    requires period { 1 ≤ period }
    ensures { result ≡ is_printed (chain_value leg.entry.chain.now) period leg.entry.number }
{
    leg.number % period == 0 || leg.number == leg.chain.first + (leg.chain.legs - 1)
}

/// Writes the reports of a chain's legs, one after another, and keeps how many events and abandoned
/// attempts there were since the report before. Contracts see the names of the elements and these counts.
#[derive(Drop)]
pub struct LegWriter<'a> {
    names: &'a [Name],
    events: u64,
    abandoned: u64,
}

impl<'a> Model for LegWriter<'a> {
    ghost use Rattle.chain_run.specs.Reports.{WriterValue};

    ghost Value = { WriterValue };

    ghost view = { λ w. record { names = w.names.now; counts = record { events = w.events; abandoned = w.abandoned } } };
}

impl<'a> LegWriter<'a> {
    /// A writer before the first leg, for elements of these names.
    pub fn new(names: &'a [Name]) -> LegWriter<'a>
        ensures { result ≡ record { names = names.now; counts = no_counts } }
    {
        LegWriter {
            names,
            events: 0,
            abandoned: 0,
        }
    }

    /// Puts the report of a leg, as the chain says: a whole one, a short one, or counts if they are due,
    /// as `write_report` puts that of a run. The legs come one after another from the first on.
    ///
    /// `Sink` only if the sink failed in this call; it then has a first part of the leg's report.
    /// `NoMemory` if there was none for what the events are printed in; then nothing was put.
    pub fn put<R: Threads + Sync, K: Sink>(
        &mut self,
        rt: &R,
        alloc: Global,
        leg: LegOf<'_>,
        outcome: &Outcome,
        sink: &mut K,
    ) -> Result<(), WriteFault>
        requires leg { IsChain self.old.names (chain_value leg.chain.now) × IsLegOf (chain_value leg.chain.now) leg.number }
        requires left { IsLegLeft self.old.names (chain_value leg.chain.now) outcome.now }
        requires counts { AreCountsOf (leg.number - leg.chain.now.first) self.old.counts }
        requires room { (K.state sink.old).faults < 2 ^ 64 - 1 }
        ensures writes { Writes (K.state sink.old) (K.state sink.new) (leg_text (chain_value leg.entry.chain.now) self.old.names leg.entry.number self.old.counts (leg_of outcome.now)) result }
        ensures counts { IsOk result → self.new ≡ record { names = self.old.names; counts = counts_behind (chain_value leg.entry.chain.now) leg.entry.number self.old.counts (leg_of outcome.now) } }
        ensures few { IsOk result → AreCountsOf (leg.entry.number + 1 - leg.entry.chain.now.first) self.new.counts }
    {
        let Outcome { grid, journal } = outcome;
        match leg.chain.journal {
            Journal::Whole => write_report(rt, alloc, grid, journal, self.names, sink),
            Journal::Short => write_short(rt, alloc, grid, journal, self.names, sink),
            Journal::Counts { print } => Ok(self.put_counts(leg, print, outcome, sink)?),
        }
    }

    /// Counts a leg, and puts the counts if they are due behind it.
    fn put_counts<K: Sink>(
        &mut self,
        leg: LegOf<'_>,
        period: u32,
        outcome: &Outcome,
        sink: &mut K,
    ) -> Result<(), SinkFailed>
        requires leg { IsChain self.old.names (chain_value leg.chain.now) × IsLegOf (chain_value leg.chain.now) leg.number }
        requires left { IsLegLeft self.old.names (chain_value leg.chain.now) outcome.now }
        requires counts { AreCountsOf (leg.number - leg.chain.now.first) self.old.counts }
        requires period { 1 ≤ period }
        requires room { (K.state sink.old).faults < 2 ^ 64 - 1 }
        ensures puts { PutsAll (K.state sink.old) (K.state sink.new) (leg_text_by (Counts period) (chain_value leg.entry.chain.now) self.old.names leg.entry.number self.old.counts (leg_of outcome.now)) result }
        ensures counts { IsOk result → self.new ≡ record { names = self.old.names; counts = counts_behind_by (Counts period) (chain_value leg.entry.chain.now) leg.entry.number self.old.counts (leg_of outcome.now) } }
    {
        self.events += outcome.journal.len();
        self.abandoned += outcome.journal.abandoned_len();
        if is_printed(leg, period) {
            let (events, abandoned) = (self.events, self.abandoned);
            write_counts(&outcome.grid, self.names, events, abandoned, sink)?;
            self.events = 0;
            self.abandoned = 0;
        }
        Ok(())
    }
}
