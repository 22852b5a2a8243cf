//! The top call.
ghost use Rattle.std.specs.Prelude.{◌≡◌, ◌<◌, ◌^◌, ◌-◌};
ghost use Rattle.feast_run.specs.Changes.{change};
ghost use Rattle.feast_run.specs.Ending.{Ends};
ghost use Rattle.call_form.specs.Forms.{form_of_words};
ghost use Rattle.feast_run.specs.Naming.{Names};
ghost use Rattle.feast_run.specs.Outputs.{CanBeDone, IsWritable, output_text};
ghost use Rattle.feast_run.specs.Promises.{Complete, Exactly, Headline, Noted, UsageExactly};
ghost use Rattle.feast_run.specs.Replies.{PutJob, status_after};
ghost use Rattle.feast_run.specs.Values.{elements_value};
ghost use Rattle.report_text.specs.Report.{AreNamed, grid_text};
ghost use Rattle.report_text.specs.Writing.{Writes};

use crate::Status;
use crate::legs::put_legs;
use crate::output::{Job, Output, ShownGrid};
use crate::reply::{Reply, reply_to_words};
use feast_base::{Gate, NoMemory, Shelf, Sink, SinkFailed};
use report_text::{WriteFault, write_grid, write_report};
use std::alloc::Global;
use std::thread::Threads;

/// Puts a text in one piece, unless it is empty.
fn put_text<K: Sink>(sink: &mut K, text: &[u8]) -> Result<(), WriteFault>
    requires { (K.state sink.old).faults < 2 ^ 64 - 1 }
    ensures { Writes (K.state sink.old) (K.state sink.new) text.now result }
{
    if text.is_empty() {
        return Ok(());
    }
    match sink.put(text) {
        Ok(()) => Ok(()),
        Err(SinkFailed) => Err(WriteFault::Sink),
    }
}

/// Puts the atoms of a grid in pieces.
fn put_grid<K: Sink>(sink: &mut K, shown: &ShownGrid) -> Result<(), WriteFault>
    requires room { (K.state sink.old).faults < 2 ^ 64 - 1 }
    requires named { AreNamed (elements_value shown.now.elements).names shown.now.grid.atoms }
    ensures { Writes (K.state sink.old) (K.state sink.new) (grid_text (elements_value shown.now.elements).names shown.now.grid) result }
{
    match write_grid(&shown.grid, shown.elements.names(), sink) {
        Ok(()) => Ok(()),
        Err(SinkFailed) => Err(WriteFault::Sink),
    }
}

/// Writes an output: a text in one piece, a grid or a report in pieces.
fn write<R: Threads + Sync, K: Sink>(
    rt: &R,
    alloc: Global,
    sink: &mut K,
    output: &Output,
) -> Result<(), WriteFault>
    requires room { (K.state sink.old).faults < 2 ^ 64 - 1 }
    requires writable { IsWritable output.now }
    ensures { Writes (K.state sink.old) (K.state sink.new) (output_text output.now) result }
{
    match output {
        Output::Text(text) => put_text(sink, text.as_slice()),
        Output::Grid(shown) => put_grid(sink, shown),
        Output::Report(finished) => {
            write_report(
                rt,
                alloc,
                &finished.grid,
                &finished.journal,
                finished.ready.elements.names(),
                sink,
            )
        }
    }
}

/// The status of a call that put what it had to with one, or could not.
fn status_after(right: Status, put: Result<(), WriteFault>) -> Status
    ensures { result ≡ status_after right put }
{
    match put {
        Ok(()) => right,
        Err(WriteFault::Sink) => Status::SinkFault,
        Err(WriteFault::NoMemory) => Status::NoMemory,
    }
}

/// Does the job of a reply, and answers its status if all was put.
fn put<R: Threads + Sync, K: Sink, G: Gate>(
    rt: &R,
    alloc: Global,
    sink: &mut K,
    reply: &Reply,
    gate: &G,
) -> Status
    requires room { (K.state sink.old).faults < 2 ^ 64 - 1 }
    requires can { CanBeDone reply.now.job }
    ensures { PutJob reply.now.status reply.now.job (change K.state sink.old sink.new) result }
{
    match &reply.job {
        Job::Write(output) => status_after(reply.status, write(rt, alloc, sink, output)),
        Job::Legs(legs) => status_after(reply.status, put_legs(rt, alloc, sink, legs, gate)),
    }
}

/// One call, from its words to its writing.
fn call<R: Threads + Sync, F: Shelf, K: Sink, G: Gate>(
    rt: &R,
    alloc: Global,
    words: &[String],
    shelf: &mut F,
    sink: &mut K,
    gate: &G,
) -> Status
    requires { (K.state sink.old).faults < 2 ^ 64 - 1 }
    ensures files { (F.state shelf.new).files ≡ (F.state shelf.old).files }
    ensures ends { Ends (form_of_words words.now) (change F.state shelf.old shelf.new) (change K.state sink.old sink.new) result }
{
    match reply_to_words(rt, alloc, shelf, words, gate) {
        Ok(reply) => put(rt, alloc, sink, &reply, gate),
        Err(NoMemory) => Status::NoMemory,
    }
}

/// Does what the words say, and answers how it ended.
///
/// The words are those after the program's name. FILE stands for 1 to 64 element files. WORLD is a world,
/// or a chain, which the first line that isn't skipped tells: `chain 1`. A chain is many runs on one plane,
/// its legs, with acts on the plane between them. The words have eleven forms:
///
/// - `check FILE..`: the layout of each class in the files is written.
/// - `code FILE..`: the compiled code of each element in the files is written.
/// - `pack FILE..`: the code file of the elements in the files is written.
/// - `run WORLD FILE..`: the world in WORLD, of any number of tiles, is run with the elements of
///   the files, with a worker for each tile, in a thread of its own as far as there are threads;
///   its report is written, in pieces of 4,096 bytes. The events stand in one serial order, that of
///   the journal, in whatever order the workers make their steps. A plane of one tile is run on the
///   flat grid, and its report is the same each time.
/// - `step WORLD FILE..`: the world in WORLD, of any number of tiles, is run on one thread in the
///   order that its lines give, and then one tile after another; its report is written as for a
///   run.
/// - `runpack WORLD CODE`, `steppack WORLD CODE`: the same as `run` and `step`, with the elements of
///   the code file CODE in place of those of element files; what acts are its codes.
/// - `replay WORLD JOURNAL FILE..`: the events of the report in JOURNAL are made again, one after
///   another, from the start of the world in WORLD, and the atoms that they leave are written.
/// - `gen N`: the world that the number N below 2^64 gives is run as `step` does, with elements of
///   the program's own, and a summary is written: how many events, abandoned attempts, and atoms of
///   each element. No file is loaded, and nothing is refused.
/// - `audit WORLD REPORT FILE..`: whether REPORT is a report of the world in WORLD, by calculation,
///   whoever made it: one line is written, `yes` or the first thing that does not hold, with its line.
/// - `rewind WORLD REPORT K FILE..`: all events of REPORT are made from the start of the world, all
///   but the first K are undone, the last of them first, and the atoms are then written. K is up to
///   1,000,000.
///
/// Of a chain, `run` and `step` run each leg so, from the grid that the one before it left, with its acts
/// done, and put its report before the next leg begins; `replay`, `audit` and `rewind` take the reports of
/// all legs, one after another, in REPORT.
///
/// The atoms that `replay` and `rewind` write are put in pieces of 4,096 bytes too, any other text in
/// one piece, or not at all if it is empty. Any refusal is reported in one line, put in place of the
/// text. If it is about a file, the line names a word of such a file:
///
/// - `Usage` if the words have no form.
/// - `Unreadable` if a file can't be loaded, or is longer than its limit (268,435,456 bytes for
///   WORLD, JOURNAL, REPORT and CODE, 1,048,576 for FILE).
/// - `ElementRefused` if the files are not a set of elements.
/// - `CodeRefused` if CODE is not a code file, two of its elements have one name, or one of its
///   codes is not valid.
/// - `WorldRefused` if WORLD is not a world, names a type that is not an element's, or has two
///   atoms on one site.
/// - `JournalRefused` if JOURNAL or REPORT does not have the form of a report of the world, or has
///   fewer than K events.
///
/// WORLD is loaded and read before the element files or CODE are loaded, and the element files are
/// all loaded before the first is read. Then the names of the world's atoms are looked up, and then
/// JOURNAL or REPORT is loaded and read. The answer is the first cause. `SinkFault` comes if a put
/// failed. `NoMemory` comes if memory runs out; then nothing is put, but of a chain that is run or stepped
/// the reports of the legs before are put whole.
///
/// The shelf appends to its failed names only a file word whose load failed. On `run` and `runpack`
/// each worker calls the gate before each attempt, with the tile's number and the attempt's, and if
/// its tile is far ahead of another it rests there. The other forms call no gate, and start no thread
/// but to print the events of a report that has more than 20,000 of them.
pub fn feast<R: Threads + Sync, F: Shelf, K: Sink, G: Gate>(
    rt: &R,
    alloc: Global,
    words: &[String],
    shelf: &mut F,
    sink: &mut K,
    gate: &G,
) -> Status
    requires { (K.state sink.old).faults < 2 ^ 64 - 1 }
    ensures files { (F.state shelf.new).files ≡ (F.state shelf.old).files }
    ensures ends { Ends (form_of_words words.now) (change F.state shelf.old shelf.new) (change K.state sink.old sink.new) result }
    ensures headline { Headline (form_of_words words.now) (F.state shelf.old) (change K.state sink.old sink.new) result }
    ensures usage { UsageExactly (form_of_words words.now) result }
    ensures exactly { Exactly (form_of_words words.now) (change F.state shelf.old shelf.new) (change K.state sink.old sink.new) result }
    ensures names { Names (form_of_words words.now) (change K.state sink.old sink.new) result }
    ensures noted { Noted (form_of_words words.now) (change F.state shelf.old shelf.new) result }
    ensures complete { Complete (form_of_words words.now) (change F.state shelf.old shelf.new) (change K.state sink.old sink.new) result }
{
    call(rt, alloc, words, shelf, sink, gate)
}
