//! The stages of a replay.
ghost use Rattle.std.specs.Prelude.{◌≡◌, ◌≤◌, All, IfOk, length};
ghost use Rattle.feast_run.specs.Answer.{atoms_after, replay_of, replays_setting};
ghost use Rattle.call_form.specs.Forms.{replay, texts};
ghost use Rattle.feast_run.specs.Outputs.{IsWritable, output_text};
ghost use Rattle.feast_run.specs.Replies.{TellsForm};
ghost use Rattle.feast_run.specs.Tellings.{Moves, Tells};
ghost use Rattle.feast_run.specs.Values.{IsReady, IsReadySetting, ready_value, setting_value};
ghost use Rattle.world_runs.specs.Worlds.{IsLiveEvent};
ghost use Rattle.world_text.specs.Values.{world_value};
ghost use Rattle.call_form.specs.declared.form.TheConstants.{MOST_FILES};

use crate::chains::replay_chain;
use crate::grids::grid_after;
use crate::halt::Halt;
use crate::journals::load_journal;
use crate::output::{Output, ShownGrid};
use crate::settings::{Setting, make_ready};
use crate::worlds::Ready;
use feast_base::Shelf;
use std::alloc::Global;

/// The stages of a replay from its journal on.
fn replay_rest<'a, F: Shelf>(
    alloc: Global,
    shelf: &mut F,
    word: &'a str,
    ready: Ready,
) -> Result<Output, Halt<'a>>
    requires { IsReady ready }
    ensures files { (F.state shelf.new).files ≡ (F.state shelf.old).files }
    ensures moves { Moves (F.state shelf.old) (F.state shelf.new) result }
    ensures tells { Tells output_text (replay_of (F.state shelf.old).files word.now (ready_value ready)) result }
    ensures writable { IfOk result IsWritable }
{
    let journal = load_journal(alloc, shelf, word, &ready.world)?;
    let grid = grid_after(alloc, &ready, journal.records())?;
    Ok(Output::Grid(ShownGrid {
        grid,
        elements: ready.into_elements(),
    }))
}

/// The stages of a replay from its report on, of a world or of a chain.
fn replay_setting<'a, F: Shelf>(
    alloc: Global,
    shelf: &mut F,
    word: &'a str,
    setting: Setting,
) -> Result<Output, Halt<'a>>
    requires { IsReadySetting setting }
    ensures files { (F.state shelf.new).files ≡ (F.state shelf.old).files }
    ensures moves { Moves (F.state shelf.old) (F.state shelf.new) result }
    ensures tells { Tells output_text (replays_setting (F.state shelf.old).files word.now (setting_value setting)) result }
    ensures writable { IfOk result IsWritable }
{
    match setting {
        Setting::World(ready) => replay_rest(alloc, shelf, word, ready),
        Setting::Chain(ready) => replay_chain(alloc, shelf, word, ready),
    }
}

/// The stages of a replay, up to its grid.
pub fn replay_stages<'a, F: Shelf>(
    alloc: Global,
    shelf: &mut F,
    world: &'a str,
    journal: &'a str,
    words: &'a [String],
) -> Result<Output, Halt<'a>>
    requires { length words.now ≤ MOST_FILES }
    ensures files { (F.state shelf.new).files ≡ (F.state shelf.old).files }
    ensures moves { Moves (F.state shelf.old) (F.state shelf.new) result }
    ensures tells { TellsForm (F.state shelf.old) (replay world.now journal.now (texts words.now)) result }
    ensures writable { IfOk result IsWritable }
{
    let setting = make_ready(alloc, shelf, world, words)?;
    replay_setting(alloc, shelf, journal, setting)
}
