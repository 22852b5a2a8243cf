//! The stages of a stepped run.
ghost use Rattle.std.specs.Prelude.{◌≡◌, ◌≤◌, IfOk, length};
ghost use Rattle.feast_run.specs.Answer.{form_answer, steps, steps_setting};
ghost use Rattle.call_form.specs.Forms.{step, steppack, texts};
ghost use Rattle.feast_run.specs.Outputs.{CanBeDone, IsWritable, output_text};
ghost use Rattle.feast_run.specs.Replies.{RunsForm, RunsSetting, TellsJob};
ghost use Rattle.feast_run.specs.Stepped.{IsOutcomeOf, IsSteppedRun, stepped_report};
ghost use Rattle.feast_run.specs.Tellings.{Moves, Tells};
ghost use Rattle.feast_run.specs.Values.{IsReady, IsReadySetting, ready_value, setting_value};
ghost use Rattle.call_form.specs.declared.form.TheConstants.{MOST_FILES};

use crate::acting::{actors, tiles_in};
use crate::halt::Halt;
use crate::output::{FinishedRun, Job, LegsToRun, Output};
use crate::settings::{Setting, make_packed, make_ready};
use crate::worlds::Ready;
use feast_base::{NoMemory, Shelf};
use serial_order::Outcome;
use std::alloc::Global;
use world_runs::{listed_order, stepped};

/// The result of a stepped run.
fn outcome(alloc: Global, ready: &Ready) -> Result<Outcome, NoMemory>
    requires { IsReady ready.now }
    ensures { IfOk result (IsOutcomeOf (ready_value ready.now)) }
{
    listed_order();
    let actors = actors(alloc, &ready.elements, tiles_in(&ready.world))?;
    stepped(alloc, &ready.world, actors)
}

/// What a stepped run leaves.
fn ran_stepped(alloc: Global, ready: Ready) -> Result<Output, NoMemory>
    requires { IsReady ready }
    ensures run { IfOk result (λ _. IsSteppedRun (ready_value ready)) }
    ensures text { IfOk result (λ o. output_text o ≡ stepped_report (ready_value ready)) }
    ensures writable { IfOk result IsWritable }
{
    let outcome = outcome(alloc, &ready)?;
    let Outcome { grid, journal } = outcome;
    Ok(Output::Report(FinishedRun {
        grid,
        journal,
        ready,
    }))
}

/// The stage of a stepped run itself.
fn step_rest<'a>(alloc: Global, ready: Ready) -> Result<Output, Halt<'a>>
    requires { IsReady ready }
    ensures tells { Tells output_text (steps (ready_value ready)) result }
    ensures writable { IfOk result IsWritable }
{
    Ok(ran_stepped(alloc, ready)?)
}

/// What is stepped of a setting: a world at once, and the legs of a chain when they are written.
fn step_setting<'a>(alloc: Global, setting: Setting) -> Result<Job, Halt<'a>>
    requires { IsReadySetting setting }
    ensures tells { TellsJob (steps_setting (setting_value setting)) result }
    ensures legs { IfOk result (RunsSetting (setting_value setting)) }
    ensures can { IfOk result CanBeDone }
{
    match setting {
        Setting::World(ready) => Ok(Job::Write(step_rest(alloc, ready)?)),
        Setting::Chain(ready) => Ok(Job::Legs(LegsToRun {
            ready,
            stepped: true,
        })),
    }
}

/// The stages of a stepped run, up to its report, or to the legs of a chain.
pub fn step_stages<'a, F: Shelf>(
    alloc: Global,
    shelf: &mut F,
    world: &'a str,
    words: &'a [String],
) -> Result<Job, Halt<'a>>
    requires { length words.now ≤ MOST_FILES }
    ensures files { (F.state shelf.new).files ≡ (F.state shelf.old).files }
    ensures moves { Moves (F.state shelf.old) (F.state shelf.new) result }
    ensures tells { TellsJob (form_answer (F.state shelf.old).files (step world.now (texts words.now))) result }
    ensures legs { IfOk result (RunsForm (F.state shelf.old).files (step world.now (texts words.now))) }
    ensures can { IfOk result CanBeDone }
{
    let setting = make_ready(alloc, shelf, world, words)?;
    step_setting(alloc, setting)
}

/// The stages of a stepped run with the elements of a code file, up to its report, or to the legs of a chain.
pub fn steppack_stages<'a, F: Shelf>(
    alloc: Global,
    shelf: &mut F,
    world: &'a str,
    code: &'a str,
) -> Result<Job, Halt<'a>>
    ensures files { (F.state shelf.new).files ≡ (F.state shelf.old).files }
    ensures moves { Moves (F.state shelf.old) (F.state shelf.new) result }
    ensures tells { TellsJob (form_answer (F.state shelf.old).files (steppack world.now code.now)) result }
    ensures legs { IfOk result (RunsForm (F.state shelf.old).files (steppack world.now code.now)) }
    ensures can { IfOk result CanBeDone }
{
    let setting = make_packed(alloc, shelf, world, code)?;
    step_setting(alloc, setting)
}
