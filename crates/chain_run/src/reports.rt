//! The reports of a chain's legs, taken one after another.
ghost use Rattle.std.specs.Prelude.{◌<◌, ◌^◌, length};
ghost use Rattle.chain_text.specs.Values.{chain_value};
ghost use Rattle.chain_run.specs.Answers.{CountsEvents};
ghost use Rattle.chain_run.specs.Reader.{Begins, IsSomeChain, Takes};

use crate::leg::LegOf;
use crate::leg_read::LegRead;
use chain_text::{Chain, Journal};
use report_text::{FirstReport, JournalFault, first_report};
use std::alloc::Global;
use std::marker::Model;

/// What is left of the reports of a chain's legs. Contracts see the chain, the bytes that are left, how
/// many lines of the file come before them, and how many legs are left.
#[derive(Drop)]
pub(crate) struct LegReports<'a> {
    chain: &'a Chain,
    bytes: &'a [u8],
    before: u64,
    left: u32,
}

impl<'a> Model for LegReports<'a> {
    ghost use Rattle.chain_text.specs.Values.{chain_value};
    ghost use Rattle.chain_run.specs.Reader.{IsReader, ReaderValue};

    ghost Value = { ReaderValue };

    ghost view = { λ r. record { chain = chain_value r.chain.now; bytes = r.bytes.now; before = r.before; left = r.left } };

    ghost invariant = { λ r. IsReader (record { chain = chain_value r.chain.now; bytes = r.bytes.now; before = r.before; left = r.left }) };
}

impl<'a> LegReports<'a> {
    /// The reports of all legs of a chain. Counts can't be read: their fault is `BadLine` with line 1.
    pub(crate) fn new(chain: &'a Chain, bytes: &'a [u8]) -> Result<LegReports<'a>, JournalFault>
        requires chain { IsSomeChain (chain_value chain.now) }
        requires short { length bytes.now < 2 ^ 63 }
        ensures { Begins (chain_value chain.now) bytes.now result }
    {
        match chain.journal {
            Journal::Counts { .. } => Err(JournalFault::BadLine(1)),
            Journal::Whole | Journal::Short => Ok(LegReports {
                chain,
                bytes,
                before: 0,
                left: chain.legs,
            }),
        }
    }

    /// The report of the next leg, if one is left. Behind the last of them nothing may be left: the
    /// first line there is a fault. `NoMemory` if there is none for the leg.
    pub(crate) fn next(&mut self, alloc: Global) -> Result<Option<LegRead<'a>>, JournalFault>
        ensures { Takes self.old self.new result }
    {
        if self.left == 0 {
            if self.bytes.is_empty() {
                return Ok(None);
            }
            return Err(JournalFault::BadLine(self.before + 1));
        }
        let FirstReport {
            report,
            lines,
            later,
        } = first_report(self.bytes);
        let leg = LegOf {
            chain: self.chain,
            number: self.chain.first + (self.chain.legs - self.left),
        };
        let read = LegRead::read(alloc, leg, self.before, report)?;
        self.before += lines;
        self.bytes = later;
        self.left -= 1;
        Ok(Some(read))
    }
}

/// Reads the reports of all legs and keeps nothing of them, so that a fault in any of them is known before
/// a leg is judged or made: how many events they have. `NoMemory` if there is none for a leg.
pub(crate) fn read_all(alloc: Global, chain: &Chain, bytes: &[u8]) -> Result<u64, JournalFault>
    requires chain { IsSomeChain (chain_value chain.now) }
    requires short { length bytes.now < 2 ^ 63 }
    ensures { CountsEvents (chain_value chain.now) bytes.now result }
{
    let mut events = 0;
    let mut reports = LegReports::new(chain, bytes)?;
    while let Some(leg) = reports.next(alloc)? {
        events += leg.events();
    }
    Ok(events)
}
