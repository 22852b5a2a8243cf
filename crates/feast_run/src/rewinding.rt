//! The stages of a rewind.
ghost use Rattle.std.specs.Prelude.{◌≡◌, ◌<◌, ◌≤◌, All, Err, IfOk, length, take};
ghost use Rattle.feast_run.specs.Answer.{atoms_after, rewind_of, rewinds, rewinds_setting};
ghost use Rattle.feast_run.specs.Faults.{IsHalt};
ghost use Rattle.call_form.specs.Forms.{rewind, texts};
ghost use Rattle.feast_run.specs.Outputs.{IsWritable, output_text};
ghost use Rattle.feast_run.specs.Replies.{TellsForm};
ghost use Rattle.feast_run.specs.Stages.{records_refused};
ghost use Rattle.feast_run.specs.Tellings.{Moves, Tells};
ghost use Rattle.feast_run.specs.Values.{IsReady, IsReadySetting, ready_value, setting_value};
ghost use Rattle.world_runs.specs.Worlds.{IsLiveEvent};
ghost use Rattle.world_text.specs.Values.{world_value};
ghost use Rattle.call_form.specs.declared.form.TheConstants.{MOST_FILES};

use crate::chains::rewind_chain;
use crate::grids::grid_rewound;
use crate::halt::Halt;
use crate::journals::{journal_refusal, load_journal};
use crate::loading::whole_file;
use crate::output::{Output, ShownGrid};
use crate::settings::{Setting, make_ready};
use crate::worlds::Ready;
use feast_base::Shelf;
use report_text::ReadJournal;
use std::alloc::Global;

/// The code of a report that has too few events.
const TOO_FEW: u8 = 84;

/// The halt at a report with too few events, by how many it has.
pub fn too_few<'a>(word: &'a str, count: u64) -> Halt<'a>
    ensures { IsHalt (records_refused word.now count) result }
{
    journal_refusal(word, whole_file(TOO_FEW, count))
}

/// The halt at a journal that has fewer events than are to remain.
fn few<'a>(word: &'a str, left: u32, ready: &Ready, journal: &ReadJournal) -> Halt<'a>
    requires { length journal.now.records < left }
    ensures { Tells output_text (rewinds word.now left (ready_value ready.now) journal.now) (Err result) }
{
    too_few(word, journal.records().len() as u64)
}

/// The grid of a rewind to no more events than the journal has.
fn rewind_kept<'a>(
    alloc: Global,
    word: &'a str,
    left: u32,
    ready: Ready,
    journal: &ReadJournal,
) -> Result<Output, Halt<'a>>
    requires ready { IsReady ready }
    requires live { All (IsLiveEvent (world_value ready.world).plane) journal.now.records }
    requires enough { left ≤ length journal.now.records }
    ensures tells { Tells output_text (rewinds word.now left (ready_value ready) journal.now) result }
    ensures writable { IfOk result IsWritable }
{
    let grid = grid_rewound(alloc, &ready, journal.records(), left as usize)?;
    Ok(Output::Grid(ShownGrid {
        grid,
        elements: ready.into_elements(),
    }))
}

/// The stages of a rewind once its journal is read.
fn rewind_loaded<'a>(
    alloc: Global,
    word: &'a str,
    left: u32,
    ready: Ready,
    journal: &ReadJournal,
) -> Result<Output, Halt<'a>>
    requires ready { IsReady ready }
    requires live { All (IsLiveEvent (world_value ready.world).plane) journal.now.records }
    ensures tells { Tells output_text (rewinds word.now left (ready_value ready) journal.now) result }
    ensures writable { IfOk result IsWritable }
{
    if journal.records().len() < left as usize {
        Err(few(word, left, &ready, journal))
    } else {
        rewind_kept(alloc, word, left, ready, journal)
    }
}

/// The stages of a rewind from its report on.
fn rewind_rest<'a, F: Shelf>(
    alloc: Global,
    shelf: &mut F,
    word: &'a str,
    left: u32,
    ready: Ready,
) -> Result<Output, Halt<'a>>
    requires { IsReady ready }
    ensures files { (F.state shelf.new).files ≡ (F.state shelf.old).files }
    ensures moves { Moves (F.state shelf.old) (F.state shelf.new) result }
    ensures tells { Tells output_text (rewind_of (F.state shelf.old).files word.now left (ready_value ready)) result }
    ensures writable { IfOk result IsWritable }
{
    let journal = load_journal(alloc, shelf, word, &ready.world)?;
    rewind_loaded(alloc, word, left, ready, &journal)
}

/// The stages of a rewind from its report on, of a world or of a chain.
fn rewind_setting<'a, F: Shelf>(
    alloc: Global,
    shelf: &mut F,
    word: &'a str,
    left: u32,
    setting: Setting,
) -> Result<Output, Halt<'a>>
    requires { IsReadySetting setting }
    ensures files { (F.state shelf.new).files ≡ (F.state shelf.old).files }
    ensures moves { Moves (F.state shelf.old) (F.state shelf.new) result }
    ensures tells { Tells output_text (rewinds_setting (F.state shelf.old).files word.now left (setting_value setting)) result }
    ensures writable { IfOk result IsWritable }
{
    match setting {
        Setting::World(ready) => rewind_rest(alloc, shelf, word, left, ready),
        Setting::Chain(ready) => rewind_chain(alloc, shelf, word, left, ready),
    }
}

/// The stages of a rewind, up to its grid.
pub fn rewind_stages<'a, F: Shelf>(
    alloc: Global,
    shelf: &mut F,
    world: &'a str,
    report: &'a str,
    left: u32,
    words: &'a [String],
) -> Result<Output, Halt<'a>>
    requires { length words.now ≤ MOST_FILES }
    ensures files { (F.state shelf.new).files ≡ (F.state shelf.old).files }
    ensures moves { Moves (F.state shelf.old) (F.state shelf.new) result }
    ensures tells { TellsForm (F.state shelf.old) (rewind world.now report.now left (texts words.now)) result }
    ensures writable { IfOk result IsWritable }
{
    let setting = make_ready(alloc, shelf, world, words)?;
    rewind_setting(alloc, shelf, report, left, setting)
}
