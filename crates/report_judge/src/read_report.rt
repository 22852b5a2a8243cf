//! A report as it was read.
ghost use Rattle.std.specs.Prelude.{◌≡◌};
ghost use Rattle.report_judge.specs.Judging.{read_value};
ghost use Rattle.report_text.specs.Again.{SaysThese};
ghost use Rattle.report_text.specs.EntryLines.{AreOnLines};
ghost use Rattle.report_text.specs.GridPart.{IsBeforeJournal};

use draw_stream::AttemptPlan;
use report_text::ReadJournal;
use std::marker::Model;
use tile_map::Map;

/// A report with the map and the plan that it was read by: its bytes, and the journal that `read`
/// made of them. Contracts see these.
#[derive(Drop)]
pub struct ReadReport<'a> {
    map: &'a Map,
    plan: &'a AttemptPlan,
    bytes: &'a [u8],
    journal: &'a ReadJournal,
}

impl<'a> Model for ReadReport<'a> {
    ghost use Rattle.report_judge.specs.Judging.{ReadValue, read_value};
    ghost use Rattle.report_text.specs.Again.{SaysThese};

    ghost Value = { ReadValue };

    ghost view = { λ r. read_value r.map.now r.plan.now r.bytes.now r.journal.now };

    ghost invariant = { λ r. SaysThese r.map.now r.plan.now.lists r.bytes.now r.journal.now };
}

impl<'a> ReadReport<'a> {
    /// The report of these bytes, of which `read` made this journal by the map and the plan.
    pub fn new(
        map: &'a Map,
        plan: &'a AttemptPlan,
        bytes: &'a [u8],
        journal: &'a ReadJournal,
    ) -> ReadReport<'a>
        requires { SaysThese map.now plan.now.lists bytes.now journal.now }
        ensures { result ≡ read_value map.now plan.now bytes.now journal.now }
    {
        ReadReport {
            map,
            plan,
            bytes,
            journal,
        }
    }

    /// The map that it was read by.
    pub fn map(&self) -> &Map
        ensures { result.now ≡ self.now.map }
    {
        self.map
    }

    /// The plan that it was read by.
    pub fn plan(&self) -> &AttemptPlan
        ensures { result.now ≡ self.now.plan }
    {
        self.plan
    }

    /// Its bytes.
    pub fn bytes(&self) -> &[u8]
        ensures { result.now ≡ self.now.bytes }
    {
        self.bytes
    }

    /// The journal that `read` made of them. The text of each of its entries stands on the line that
    /// is told of the entry.
    pub fn journal(&self) -> &ReadJournal
        ensures value { result.now ≡ self.now.entries }
        ensures lines { AreOnLines self.now.bytes self.now.entries }
    {
        self.map.laws();
        self.journal
    }

    /// The part of its bytes that shows its grid. Behind it comes the text of the journal.
    pub fn grid_part(&self) -> &[u8]
        ensures { IsBeforeJournal self.now.bytes self.now.entries result.now }
    {
        self.map.laws();
        self.journal.grid_part(self.bytes)
    }
}
