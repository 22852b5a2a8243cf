//! The stages of a run.
ghost use Rattle.std.specs.Prelude.{◌≡◌, ◌≢◌, ◌≤◌, [], IfOk, length};
ghost use Rattle.event_journal.specs.Logs.{abandoned_in, records_in};
ghost use Rattle.feast_run.specs.Answer.{form_answer, lone_logs, run_report, runs, runs_setting};
ghost use Rattle.call_form.specs.Forms.{run, runpack, texts};
ghost use Rattle.feast_run.specs.Outputs.{CanBeDone, IsWritable, output_text};
ghost use Rattle.feast_run.specs.Owing.{Reports};
ghost use Rattle.feast_run.specs.Replies.{RunsForm, RunsSetting, TellsJob};
ghost use Rattle.feast_run.specs.Tellings.{Moves, Tells};
ghost use Rattle.feast_run.specs.Threaded.{IsThreadedOf};
ghost use Rattle.feast_run.specs.Values.{IsReady, IsReadySetting, ready_value, setting_value};
ghost use Rattle.world_runs.specs.OneTile.{events_of};
ghost use Rattle.tile_map.specs.Plane.{tiles_of};
ghost use Rattle.world_text.specs.Values.{world_value};
ghost use Rattle.call_form.specs.declared.form.TheConstants.{MOST_FILES};

use crate::acting::{actors, tiles_in};
use crate::grids::grid_after;
use crate::halt::Halt;
use crate::output::{FinishedRun, Job, LegsToRun, Output};
use crate::settings::{Setting, make_packed, make_ready};
use crate::worlds::Ready;
use event_journal::Journal;
use feast_base::{Gate, NoMemory, Shelf};
use serial_order::Outcome;
use std::alloc::Global;
use std::thread::Threads;
use world_runs::{journal, threaded};

/// The journal of a world of one tile.
fn journal_of<G: Gate>(alloc: Global, ready: &Ready, gate: &G) -> Result<Journal, NoMemory>
    requires ready { IsReady ready.now }
    requires alone { tiles_of (world_value ready.now.world).plane ≡ 1 }
    ensures logs { IfOk result (λ j. j ≡ lone_logs (ready_value ready.now)) }
    ensures records { IfOk result (λ j. records_in j ≡ events_of (world_value ready.now.world).plane ready.now.world.plan) }
    ensures abandoned { IfOk result (λ j. abandoned_in j ≡ []) }
{
    journal(alloc, &ready.world.map, &ready.world.plan, gate)
}

/// What a run of one tile leaves. No other tile shares a site with it, so its events are made on one
/// grid, with no copies of sites.
fn ran_alone<G: Gate>(alloc: Global, ready: Ready, gate: &G) -> Result<Output, NoMemory>
    requires ready { IsReady ready }
    requires alone { tiles_of (world_value ready.world).plane ≡ 1 }
    ensures text { IfOk result (λ o. output_text o ≡ run_report (ready_value ready)) }
    ensures reports { IfOk result (λ o. Reports (ready_value ready) (output_text o)) }
    ensures writable { IfOk result IsWritable }
{
    let journal = journal_of(alloc, &ready, gate)?;
    let grid = grid_after(alloc, &ready, journal.log(0).records())?;
    Ok(Output::Report(FinishedRun {
        grid,
        journal,
        ready,
    }))
}

/// The result of a run with a worker for each tile.
fn outcome<R: Threads + Sync, G: Gate>(
    rt: &R,
    alloc: Global,
    ready: &Ready,
    gate: &G,
) -> Result<Outcome, NoMemory>
    requires { IsReady ready.now }
    ensures { IfOk result (IsThreadedOf (ready_value ready.now)) }
{
    let actors = actors(alloc, &ready.elements, tiles_in(&ready.world))?;
    threaded(rt, alloc, &ready.world, actors, gate)
}

/// What a run of several tiles leaves.
fn ran_together<R: Threads + Sync, G: Gate>(
    rt: &R,
    alloc: Global,
    ready: Ready,
    gate: &G,
) -> Result<Output, NoMemory>
    requires ready { IsReady ready }
    requires several { tiles_of (world_value ready.world).plane ≢ 1 }
    ensures reports { IfOk result (λ o. Reports (ready_value ready) (output_text o)) }
    ensures writable { IfOk result IsWritable }
{
    let outcome = outcome(rt, alloc, &ready, gate)?;
    let Outcome { grid, journal } = outcome;
    Ok(Output::Report(FinishedRun {
        grid,
        journal,
        ready,
    }))
}

/// What a run leaves.
fn ran<R: Threads + Sync, G: Gate>(
    rt: &R,
    alloc: Global,
    ready: Ready,
    gate: &G,
) -> Result<Output, NoMemory>
    requires { IsReady ready }
    ensures reports { IfOk result (λ o. Reports (ready_value ready) (output_text o)) }
    ensures writable { IfOk result IsWritable }
{
    if tiles_in(&ready.world) == 1 {
        ran_alone(alloc, ready, gate)
    } else {
        ran_together(rt, alloc, ready, gate)
    }
}

/// The stage of a run itself.
pub fn run_rest<'a, R: Threads + Sync, G: Gate>(
    rt: &R,
    alloc: Global,
    ready: Ready,
    gate: &G,
) -> Result<Output, Halt<'a>>
    requires { IsReady ready }
    ensures tells { Tells output_text (runs (ready_value ready)) result }
    ensures writable { IfOk result IsWritable }
{
    Ok(ran(rt, alloc, ready, gate)?)
}

/// What is run of a setting: a world at once, and the legs of a chain when they are written.
fn run_setting<'a, R: Threads + Sync, G: Gate>(
    rt: &R,
    alloc: Global,
    setting: Setting,
    gate: &G,
) -> Result<Job, Halt<'a>>
    requires { IsReadySetting setting }
    ensures tells { TellsJob (runs_setting (setting_value setting)) result }
    ensures legs { IfOk result (RunsSetting (setting_value setting)) }
    ensures can { IfOk result CanBeDone }
{
    match setting {
        Setting::World(ready) => Ok(Job::Write(run_rest(rt, alloc, ready, gate)?)),
        Setting::Chain(ready) => Ok(Job::Legs(LegsToRun {
            ready,
            stepped: false,
        })),
    }
}

/// The stages of a run, up to its report, or to the legs of a chain.
pub fn run_stages<'a, R: Threads + Sync, F: Shelf, G: Gate>(
    rt: &R,
    alloc: Global,
    shelf: &mut F,
    world: &'a str,
    words: &'a [String],
    gate: &G,
) -> Result<Job, Halt<'a>>
    requires { length words.now ≤ MOST_FILES }
    ensures files { (F.state shelf.new).files ≡ (F.state shelf.old).files }
    ensures moves { Moves (F.state shelf.old) (F.state shelf.new) result }
    ensures tells { TellsJob (form_answer (F.state shelf.old).files (run world.now (texts words.now))) result }
    ensures legs { IfOk result (RunsForm (F.state shelf.old).files (run world.now (texts words.now))) }
    ensures can { IfOk result CanBeDone }
{
    let setting = make_ready(alloc, shelf, world, words)?;
    run_setting(rt, alloc, setting, gate)
}

/// The stages of a run with the elements of a code file, up to its report, or to the legs of a chain.
pub fn runpack_stages<'a, R: Threads + Sync, F: Shelf, G: Gate>(
    rt: &R,
    alloc: Global,
    shelf: &mut F,
    world: &'a str,
    code: &'a str,
    gate: &G,
) -> Result<Job, Halt<'a>>
    ensures files { (F.state shelf.new).files ≡ (F.state shelf.old).files }
    ensures moves { Moves (F.state shelf.old) (F.state shelf.new) result }
    ensures tells { TellsJob (form_answer (F.state shelf.old).files (runpack world.now code.now)) result }
    ensures legs { IfOk result (RunsForm (F.state shelf.old).files (runpack world.now code.now)) }
    ensures can { IfOk result CanBeDone }
{
    let setting = make_packed(alloc, shelf, world, code)?;
    run_setting(rt, alloc, setting, gate)
}
