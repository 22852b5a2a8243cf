//! The stages of an audit.
ghost use Rattle.std.specs.Prelude.{◌≡◌, ◌<◌, ◌≤◌, ◌^◌, IfOk, length};
ghost use Rattle.feast_run.specs.Answer.{audits_setting};
ghost use Rattle.feast_run.specs.Audited.{Audits, audit_of, audit_with};
ghost use Rattle.call_form.specs.Forms.{audit, texts};
ghost use Rattle.feast_run.specs.Outputs.{IsWritable, output_text};
ghost use Rattle.feast_run.specs.Replies.{TellsForm};
ghost use Rattle.feast_run.specs.Tellings.{Moves, Tells};
ghost use Rattle.feast_run.specs.Values.{IsReady, IsReadySetting, ready_value, setting_value};
ghost use Rattle.call_form.specs.declared.form.TheConstants.{MOST_FILES};
ghost use Rattle.report_text.specs.Again.{SaysThese};
ghost use Rattle.world_text.specs.Values.{world_value};

use crate::chains::audit_chain;
use crate::halt::Halt;
use crate::journals::read_loaded;
use crate::loading::{JOURNAL_LIMIT, load_file};
use crate::output::Output;
use crate::settings::{Setting, make_ready};
use crate::worlds::Ready;
use feast_base::{NoMemory, Shelf};
use report_judge::{ReadReport, judge, judgement_line};
use report_text::ReadJournal;
use std::alloc::Global;
use world_runs::start;

/// The line of the judgement on a report of a world, of whose bytes this journal was read.
fn audit_line(
    alloc: Global,
    ready: &Ready,
    bytes: &[u8],
    journal: &ReadJournal,
) -> Result<Vec<u8>, NoMemory>
    requires ready { IsReady ready.now }
    requires read { SaysThese (world_value ready.now.world).plane ready.now.world.plan.lists bytes.now journal.now }
    ensures { IfOk result (λ v. Audits (ready_value ready.now) bytes.now journal.now v.items) }
{
    let grid = start(alloc, &ready.world)?;
    let mut actor = ready.elements.actor(alloc)?;
    let names = ready.elements.names();
    let report = ReadReport::new(&ready.world.map, &ready.world.plan, bytes, journal);
    let judgement = judge(alloc, &report, names, grid, &mut actor)?;
    judgement_line(alloc, judgement)
}

/// The stages of an audit once the bytes of its report are loaded.
fn audit_loaded<'a>(
    alloc: Global,
    word: &'a str,
    bytes: &[u8],
    ready: &Ready,
) -> Result<Output, Halt<'a>>
    requires ready { IsReady ready.now }
    requires short { length bytes.now < 2 ^ 63 }
    ensures tells { Tells output_text (audit_with word.now (ready_value ready.now) bytes.now) result }
    ensures writable { IfOk result IsWritable }
{
    let journal = read_loaded(alloc, word, bytes, &ready.world)?;
    let text = audit_line(alloc, ready, bytes, &journal)?;
    Ok(Output::Text(text))
}

/// The stages of an audit from its report on.
fn audit_rest<'a, F: Shelf>(
    alloc: Global,
    shelf: &mut F,
    word: &'a str,
    ready: Ready,
) -> Result<Output, Halt<'a>>
    requires { IsReady ready }
    ensures files { (F.state shelf.new).files ≡ (F.state shelf.old).files }
    ensures moves { Moves (F.state shelf.old) (F.state shelf.new) result }
    ensures tells { Tells output_text (audit_of (F.state shelf.old).files word.now (ready_value ready)) result }
    ensures writable { IfOk result IsWritable }
{
    let bytes = load_file(alloc, shelf, word, JOURNAL_LIMIT)?;
    audit_loaded(alloc, word, bytes.as_slice(), &ready)
}

/// The stages of an audit from its report on, of a world or of a chain.
fn audit_setting<'a, F: Shelf>(
    alloc: Global,
    shelf: &mut F,
    word: &'a str,
    setting: Setting,
) -> Result<Output, Halt<'a>>
    requires { IsReadySetting setting }
    ensures files { (F.state shelf.new).files ≡ (F.state shelf.old).files }
    ensures moves { Moves (F.state shelf.old) (F.state shelf.new) result }
    ensures tells { Tells output_text (audits_setting (F.state shelf.old).files word.now (setting_value setting)) result }
    ensures writable { IfOk result IsWritable }
{
    match setting {
        Setting::World(ready) => audit_rest(alloc, shelf, word, ready),
        Setting::Chain(ready) => audit_chain(alloc, shelf, word, ready),
    }
}

/// The stages of an audit, up to its line.
pub fn audit_stages<'a, F: Shelf>(
    alloc: Global,
    shelf: &mut F,
    world: &'a str,
    report: &'a str,
    words: &'a [String],
) -> Result<Output, Halt<'a>>
    requires { length words.now ≤ MOST_FILES }
    ensures files { (F.state shelf.new).files ≡ (F.state shelf.old).files }
    ensures moves { Moves (F.state shelf.old) (F.state shelf.new) result }
    ensures tells { TellsForm (F.state shelf.old) (audit world.now report.now (texts words.now)) result }
    ensures writable { IfOk result IsWritable }
{
    let setting = make_ready(alloc, shelf, world, words)?;
    audit_setting(alloc, shelf, report, setting)
}
