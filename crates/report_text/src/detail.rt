//! What a report tells of its events and of its abandoned attempts.
ghost use Rattle.std.specs.Prelude.{◌≡◌, ◌≤◌, drop};
ghost use Rattle.text_lines.specs.Lines.{ended_line};
ghost use Rattle.report_text.specs.Details.{abandoned_fields_by, header_by, record_fields_by};

use crate::line::{
    LONGEST_ABANDONED, LONGEST_RECORD, write_abandoned, write_record, write_short_abandoned,
    write_short_record,
};
use cell_grid::Record;
use event_journal::Abandoned;

/// How much a report tells of each event and of each abandoned attempt.
#[derive(Clone, Copy)]
pub(crate) enum Detail {
    /// All of it.
    Whole,
    /// What the plan of the run does not say: no site, and no seed.
    Short,
}

impl Detail {
    /// The first line of a report, with its LF.
    pub(crate) fn header(self) -> &'static [u8]
        ensures { result.now ≡ header_by self }
    {
        match self {
            Detail::Whole => b"feast 1\n",
            Detail::Short => b"feast 2\n",
        }
    }

    /// Writes the line of an event, and returns where it starts.
    #[inline]
    pub(crate) fn write_record(self, entry: &Record, line: &mut [u8; LONGEST_RECORD]) -> usize
        ensures within { result ≤ 82 }
        ensures written { drop result line.new ≡ ended_line (record_fields_by self entry.now) }
    {
        match self {
            Detail::Whole => write_record(entry, line),
            Detail::Short => write_short_record(entry, line),
        }
    }

    /// Writes the line of an abandoned attempt, and returns where it starts.
    #[inline]
    pub(crate) fn write_abandoned(
        self,
        entry: &Abandoned,
        line: &mut [u8; LONGEST_ABANDONED],
    ) -> usize
        ensures within { result ≤ 97 }
        ensures written { drop result line.new ≡ ended_line (abandoned_fields_by self entry.now) }
    {
        match self {
            Detail::Whole => write_abandoned(entry, line),
            Detail::Short => write_short_abandoned(entry, line),
        }
    }
}
