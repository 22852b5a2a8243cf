//! The stages of the forms, up to what is written.
ghost use Rattle.std.specs.Prelude.{◌≡◌, ◌≤◌, IfOk, length};
ghost use Rattle.element_set.specs.Sets.{check_text, code_text, set_value};
ghost use Rattle.feast_run.specs.Answer.{form_answer, shows};
ghost use Rattle.call_form.specs.Forms.{IsFew, check, code, form_value, texts};
ghost use Rattle.feast_run.specs.Outputs.{CanBeDone, IsWritable, output_text};
ghost use Rattle.feast_run.specs.Replies.{IsWrittenAs, RunsForm, TellsForm, TellsJob};
ghost use Rattle.feast_run.specs.Tellings.{Moves, Tells};
ghost use Rattle.call_form.specs.declared.form.TheConstants.{MOST_FILES};

use crate::auditing::audit_stages;
use crate::element_files::load_set;
use crate::generating::gen_stages;
use crate::halt::Halt;
use crate::output::{Job, Output};
use crate::packing::pack_stages;
use crate::replaying::replay_stages;
use crate::rewinding::rewind_stages;
use crate::running::{run_stages, runpack_stages};
use crate::stepping::{step_stages, steppack_stages};
use call_form::Form;
use element_set::ElementSet;
use feast_base::{Gate, Shelf};
use std::alloc::Global;
use std::thread::Threads;

/// The text of a check of a set.
fn check_output<'a>(alloc: Global, set: &ElementSet) -> Result<Output, Halt<'a>>
    ensures tells { Tells output_text (shows check_text (set_value set.now)) result }
    ensures writable { IfOk result IsWritable }
{
    let mut text = Vec::new(alloc);
    set.print_check(&mut text)?;
    Ok(Output::Text(text))
}

/// The stages of a check, up to its text.
fn check_stages<'a, F: Shelf>(
    alloc: Global,
    shelf: &mut F,
    words: &'a [String],
) -> Result<Output, Halt<'a>>
    requires { length words.now ≤ MOST_FILES }
    ensures files { (F.state shelf.new).files ≡ (F.state shelf.old).files }
    ensures moves { Moves (F.state shelf.old) (F.state shelf.new) result }
    ensures tells { TellsForm (F.state shelf.old) (check (texts words.now)) result }
    ensures writable { IfOk result IsWritable }
{
    let set = load_set(alloc, shelf, words)?;
    check_output(alloc, &set)
}

/// The text of the codes of a set.
fn code_output<'a>(alloc: Global, set: &ElementSet) -> Result<Output, Halt<'a>>
    ensures tells { Tells output_text (shows code_text (set_value set.now)) result }
    ensures writable { IfOk result IsWritable }
{
    let mut text = Vec::new(alloc);
    set.print_code(&mut text)?;
    Ok(Output::Text(text))
}

/// The stages of the codes of elements, up to their text.
fn code_stages<'a, F: Shelf>(
    alloc: Global,
    shelf: &mut F,
    words: &'a [String],
) -> Result<Output, Halt<'a>>
    requires { length words.now ≤ MOST_FILES }
    ensures files { (F.state shelf.new).files ≡ (F.state shelf.old).files }
    ensures moves { Moves (F.state shelf.old) (F.state shelf.new) result }
    ensures tells { TellsForm (F.state shelf.old) (code (texts words.now)) result }
    ensures writable { IfOk result IsWritable }
{
    let set = load_set(alloc, shelf, words)?;
    code_output(alloc, &set)
}

/// An output that is to be written, as a job.
fn write<'a>(output: Result<Output, Halt<'a>>) -> Result<Job, Halt<'a>>
    requires { IfOk output IsWritable }
    ensures same { IsWrittenAs output.entry result }
    ensures can { IfOk result CanBeDone }
{
    match output {
        Ok(output) => Ok(Job::Write(output)),
        Err(halt) => Err(halt),
    }
}

/// The stages of a form, up to what is left to do: a text, a grid or a report to be written, or the legs
/// of a chain to be run.
pub fn form_stages<'a, R: Threads + Sync, F: Shelf, G: Gate>(
    rt: &R,
    alloc: Global,
    shelf: &mut F,
    form: Form<'a>,
    gate: &G,
) -> Result<Job, Halt<'a>>
    requires { IsFew form }
    ensures files { (F.state shelf.new).files ≡ (F.state shelf.old).files }
    ensures moves { Moves (F.state shelf.old) (F.state shelf.new) result }
    ensures tells { TellsJob (form_answer (F.state shelf.old).files (form_value form.entry)) result }
    ensures legs { IfOk result (RunsForm (F.state shelf.old).files (form_value form.entry)) }
    ensures can { IfOk result CanBeDone }
{
    match form {
        Form::Check(words) => write(check_stages(alloc, shelf, words)),
        Form::Code(words) => write(code_stages(alloc, shelf, words)),
        Form::Pack(words) => write(pack_stages(alloc, shelf, words)),
        Form::Run(world, words) => run_stages(rt, alloc, shelf, world, words, gate),
        Form::Step(world, words) => step_stages(alloc, shelf, world, words),
        Form::Replay(world, journal, words) => write(replay_stages(
            alloc, shelf, world, journal, words,
        )),
        Form::Gen(number) => write(gen_stages(alloc, number)),
        Form::Audit(world, report, words) => write(audit_stages(
            alloc, shelf, world, report, words,
        )),
        Form::Rewind(world, report, left, words) => write(rewind_stages(
            alloc, shelf, world, report, left, words,
        )),
        Form::StepPack(world, code) => steppack_stages(alloc, shelf, world, code),
        Form::RunPack(world, code) => runpack_stages(rt, alloc, shelf, world, code, gate),
    }
}
