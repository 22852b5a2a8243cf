//! The stage of a journal.
ghost use Rattle.std.specs.Prelude.{◌≡◌, ◌<◌, ◌^◌, length};
ghost use Rattle.report_text.specs.Reading.{fault_of};
ghost use Rattle.report_text.specs.Cursors.{ReadsJournal};
ghost use Rattle.report_text.specs.Entries.{Entries};
ghost use Rattle.feast_run.specs.Faults.{IsJournalHalt, IsHalt};
ghost use Rattle.feast_run.specs.Halting.{refusal_of};
ghost use Rattle.feast_run.specs.Stages.{journal_in, journal_of};
ghost use Rattle.feast_run.specs.Tellings.{Moves, Tells};
ghost use Rattle.feast_run.specs.declared.halt.Input.TheVariants as input;
ghost use Rattle.element_set.specs.Sets.{Coded};
ghost use Rattle.world_runs.specs.Worlds.{IsWorld};
ghost use Rattle.world_text.specs.Values.{world_value};

use crate::halt::{Halt, Input, Refused};
use crate::loading::{JOURNAL_LIMIT, at_line, load_file};
use feast_base::{Refusal, Shelf};
use report_text::{JournalFault, ReadJournal, read};
use std::alloc::Global;
use world_text::World;

/// The halt at a refusal of a journal whose file has this word.
pub fn journal_refusal<'a>(word: &'a str, refusal: Refusal) -> Halt<'a>
    requires { Coded refusal.code }
    ensures { IsHalt (refusal_of input.Journal word.now refusal) result }
{
    Halt::Refused(Refused {
        input: Input::Journal,
        word,
        refusal,
    })
}

/// The halt at a fault of a journal.
pub fn journal_halt<'a>(word: &'a str, fault: JournalFault) -> Halt<'a>
    ensures { IsJournalHalt word.now (fault_of fault) result }
{
    match fault {
        JournalFault::BadLine(line) => journal_refusal(word, at_line(80, line, 0)),
        JournalFault::OutOfOrder(line, previous) => journal_refusal(
            word,
            at_line(81, line, previous),
        ),
        JournalFault::NotOwned(line) => journal_refusal(word, at_line(82, line, 0)),
        JournalFault::NotDrawn(line) => journal_refusal(word, at_line(83, line, 0)),
        JournalFault::NoMemory => Halt::NoMemory,
    }
}

/// Reads the journal of a world in the text of a report.
fn read_journal(alloc: Global, bytes: &[u8], world: &World) -> Result<ReadJournal, JournalFault>
    requires world { IsWorld (world_value world.now) }
    requires short { length bytes.now < 2 ^ 63 }
    ensures { ReadsJournal (world_value world.now).plane world.now.plan.lists bytes.now result }
{
    read(alloc, bytes, &world.map, &world.plan)
}

/// Reads the journal of a world in the bytes of a report, whose file has this word.
pub fn read_loaded<'a>(
    alloc: Global,
    word: &'a str,
    bytes: &[u8],
    world: &World,
) -> Result<ReadJournal, Halt<'a>>
    requires world { IsWorld (world_value world.now) }
    requires short { length bytes.now < 2 ^ 63 }
    ensures { Tells (λ (j : Entries). j) (journal_in word.now (world_value world.now) bytes.now) result }
{
    match read_journal(alloc, bytes, world) {
        Ok(journal) => Ok(journal),
        Err(fault) => Err(journal_halt(word, fault)),
    }
}

/// Loads and reads the journal of a world.
pub fn load_journal<'a, F: Shelf>(
    alloc: Global,
    shelf: &mut F,
    word: &'a str,
    world: &World,
) -> Result<ReadJournal, Halt<'a>>
    requires { IsWorld (world_value world.now) }
    ensures files { (F.state shelf.new).files ≡ (F.state shelf.old).files }
    ensures moves { Moves (F.state shelf.old) (F.state shelf.new) result }
    ensures tells { Tells (λ (j : Entries). j) (journal_of (F.state shelf.old).files word.now (world_value world.now)) result }
{
    let bytes = load_file(alloc, shelf, word, JOURNAL_LIMIT)?;
    read_loaded(alloc, word, bytes.as_slice(), world)
}
