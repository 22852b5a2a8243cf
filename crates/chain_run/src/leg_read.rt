//! The report of a leg as it was read.
ghost use Rattle.std.specs.Prelude.{◌≡◌, ◌≤◌, ◌<◌, ◌^◌, IfOk, List, length, take, ℕ};
ghost use Rattle.cell_grid.specs.Grid.{GridValue};
ghost use Rattle.chain_text.specs.Values.{chain_value};
ghost use Rattle.tile_map.specs.Plane.{tiles_of};
ghost use Rattle.chain_run.specs.Between.{IsBetween};
ghost use Rattle.chain_run.specs.Chains.{making};
ghost use Rattle.chain_run.specs.Judging.{judged_chain};
ghost use Rattle.chain_run.specs.Reader.{IsKnownBetween, IsSomeChain, ReadsLeg, grid_by, text_bytes};
ghost use Rattle.chain_run.specs.Reading.{whole_text};
ghost use Rattle.chain_run.specs.Standings.{IsKnownStanding, IsStanding};
ghost use Rattle.report_text.specs.Report.{AreNamed};

use crate::leg::LegOf;
use crate::lines::{fault_in_file, judgement_in_file};
use crate::standing::Standing;
use cell_grid::{Behave, Grid};
use chain_text::Journal;
use draw_stream::AttemptPlan;
use event_film::rewind;
use feast_base::{Name, NoMemory};
use report_judge::{Judged, ReadReport, judge_on};
use report_text::{JournalFault, ReadJournal, read, widened};
use std::alloc::Global;
use std::marker::Model;

/// The whole report that the bytes of a leg's report stand for.
#[derive(Drop)]
pub(crate) enum WholeText<'a> {
    /// The bytes themselves.
    Own(&'a [u8]),
    /// A text that was made of them.
    Made(Vec<u8>),
}

impl WholeText<'_> {
    /// Its bytes.
    fn as_bytes(&self) -> &[u8]
        ensures { result.now ≡ text_bytes self.now }
    {
        match self {
            WholeText::Own(bytes) => bytes,
            WholeText::Made(text) => text.as_slice(),
        }
    }
}

/// The whole report that the bytes of a leg's report stand for, by the plan of the leg. `NoMemory` if
/// there is none for it.
fn whole_of<'a>(
    alloc: Global,
    leg: LegOf<'_>,
    plan: &AttemptPlan,
    bytes: &'a [u8],
) -> Result<WholeText<'a>, NoMemory>
    requires plan { length plan.now.lists ≡ tiles_of (chain_value leg.chain.now).plane }
    requires short { length bytes.now < 2 ^ 63 }
    ensures text { IfOk result (λ t. text_bytes t ≡ (let c = chain_value leg.entry.chain.now in whole_text c.journal c.plane plan.now.lists bytes.now)) }
    ensures short { IfOk result (λ t. length (text_bytes t) < 2 ^ 63) }
{
    match leg.chain.journal {
        Journal::Short => Ok(WholeText::Made(widened(alloc, bytes, &leg.chain.map, plan)?)),
        Journal::Whole | Journal::Counts { .. } => Ok(WholeText::Own(bytes)),
    }
}

/// The report of a leg as it was read. Contracts see the leg, how many lines of the file come before the
/// report, the whole report that its bytes stand for, the plan of the leg, and the entries.
#[derive(Drop)]
pub(crate) struct LegRead<'a> {
    leg: LegOf<'a>,
    before: u64,
    text: WholeText<'a>,
    plan: AttemptPlan,
    journal: ReadJournal,
}

impl<'a> Model for LegRead<'a> {
    ghost use Rattle.chain_text.specs.Values.{chain_value};
    ghost use Rattle.chain_run.specs.Reader.{IsReadLeg, LegValue, text_bytes};

    ghost Value = { LegValue };

    ghost view = { λ l. record { chain = chain_value l.leg.chain.now; number = l.leg.number; before = l.before; whole = text_bytes l.text; plan = l.plan; entries = l.journal } };

    ghost invariant = { λ l. IsReadLeg (record { chain = chain_value l.leg.chain.now; number = l.leg.number; before = l.before; whole = text_bytes l.text; plan = l.plan; entries = l.journal }) };
}

impl<'a> LegRead<'a> {
    /// Reads the bytes of a leg's report, before which so many lines of the file come. `NoMemory` if
    /// there is none for it.
    pub(crate) fn read(
        alloc: Global,
        leg: LegOf<'a>,
        before: u64,
        bytes: &'a [u8],
    ) -> Result<LegRead<'a>, JournalFault>
        requires chain { IsSomeChain (chain_value leg.chain.now) }
        requires short { length bytes.now < 2 ^ 63 }
        requires low { before < 2 ^ 62 }
        ensures { ReadsLeg (chain_value leg.entry.chain.now) leg.entry.number before bytes.now result }
    {
        let plan = leg.plan(alloc)?;
        let text = whole_of(alloc, leg, &plan, bytes)?;
        match read(alloc, text.as_bytes(), &leg.chain.map, &plan) {
            Ok(journal) => Ok(LegRead {
                leg,
                before,
                text,
                plan,
                journal,
            }),
            Err(fault) => Err(fault_in_file(before, fault)),
        }
    }

    /// Does the acts before the leg on a grid, and then its events.
    pub(crate) fn replay<B: Behave>(&self, grid: &mut Grid, behave: &mut B)
        requires between { (names : List (List ℕ)) × IsKnownBetween names self.now.chain (B.after behave.old) grid.old }
        ensures grid { grid.new ≡ grid_by (making self.now.chain (B.after behave.old)) self.now.number grid.old self.now.entries.records }
        ensures between { (names : List (List ℕ)) → IsKnownBetween names self.now.chain (B.after behave.old) grid.old → IsBetween names self.now.chain grid.new }
        ensures meaning { B.after behave.new ≡ B.after behave.old }
    {
        self.leg.act(grid);
        grid.replay(self.journal.records(), behave);
    }

    /// The grid after the acts before the leg and the first `count` of its events: all of them are
    /// made, and then the others undone, the last one first. `NoMemory` if there is none for that.
    pub(crate) fn rewind<B: Behave>(
        &self,
        alloc: Global,
        grid: Grid,
        count: u64,
        behave: &mut B,
    ) -> Result<Grid, NoMemory>
        requires between { (names : List (List ℕ)) × IsKnownBetween names self.now.chain (B.after behave.old) grid }
        requires count { count ≤ length self.now.entries.records }
        ensures grid { IfOk result (λ g. g ≡ grid_by (making self.now.chain (B.after behave.old)) self.now.number grid (take count self.now.entries.records)) }
        ensures named { IfOk result (λ g. (names : List (List ℕ)) → IsKnownBetween names self.now.chain (B.after behave.old) grid → AreNamed names g.atoms) }
    {
        let mut start = grid;
        self.leg.act(&mut start);
        rewind(alloc, start, self.journal.records(), count as usize, behave)
    }

    /// Judges it, if the leg before it left this grid: yes with the grid that the leg leaves, or what is
    /// said of the leg. `NoMemory` if there is none for the judgement.
    pub(crate) fn judge<B: Behave>(
        &self,
        alloc: Global,
        names: &[Name],
        grid: Grid,
        behave: &mut B,
    ) -> Result<Standing, NoMemory>
        requires between { IsKnownBetween names.now self.now.chain (B.after behave.old) grid }
        ensures judged { IfOk result (IsStanding (judged_chain self.now.chain (B.after behave.old) names.now) self.now grid) }
        ensures standing { IfOk result (IsKnownStanding names.now self.now.chain (B.after behave.old)) }
        ensures meaning { B.after behave.new ≡ B.after behave.old }
    {
        let mut start = grid;
        self.leg.act(&mut start);
        self.judge_from(alloc, names, start, behave)
    }

    /// Judges it, if the acts before the leg have left this grid.
    fn judge_from<B: Behave>(
        &self,
        alloc: Global,
        names: &[Name],
        start: Grid,
        behave: &mut B,
    ) -> Result<Standing, NoMemory>
        requires between { IsKnownBetween names.now self.now.chain (B.after behave.old) start }
        ensures judged { IfOk result (λ s. (g : GridValue) → start ≡ (making self.now.chain (B.after behave.old)).acts self.now.number g → IsStanding (judged_chain self.now.chain (B.after behave.old) names.now) self.now g s) }
        ensures standing { IfOk result (IsKnownStanding names.now self.now.chain (B.after behave.old)) }
        ensures meaning { B.after behave.new ≡ B.after behave.old }
    {
        let map = &self.leg.chain.map;
        let report = ReadReport::new(map, &self.plan, self.text.as_bytes(), &self.journal);
        match judge_on(alloc, &report, names, start, behave)? {
            Judged::Yes(grid) => Ok(Standing::Yes(grid)),
            Judged::No(judgement) => Ok(Standing::No(
                self.leg.number,
                judgement_in_file(self.before, judgement),
            )),
        }
    }

    /// How many events it has.
    pub(crate) fn events(&self) -> u64
        ensures count { result ≡ length self.now.entries.records }
        ensures few { result < 2 ^ 32 }
    {
        self.journal.records().len() as u64
    }
}
