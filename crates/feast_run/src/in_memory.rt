//! The top call over a shelf and a sink in memory.
ghost use Rattle.std.specs.Prelude.{◌<◌, ◌^◌, ◌-◌};
ghost use Rattle.call_form.specs.Forms.{form_of_words};
ghost use Rattle.feast_run.specs.Promises.{EndsInMemory, NothingFails, both_held};

use crate::{Status, feast};
use feast_base::{Gate, MemShelf, MemSink};
use std::alloc::Global;
use std::thread::Threads;

/// Does what the words say, as `feast` does, over files and a sink in memory, and ends as it does.
///
/// If no call of them is listed to fail, each file word has a file, and the sink has room for the
/// text, no load and no put fails; so the status is none of those that a failure gives.
pub fn feast_in_memory<R: Threads + Sync, G: Gate>(
    rt: &R,
    alloc: Global,
    words: &[String],
    shelf: &mut MemShelf,
    sink: &mut MemSink,
    gate: &G,
) -> Status
    requires { sink.old.faults < 2 ^ 64 - 1 }
    ensures ends { EndsInMemory (form_of_words words.now) (both_held shelf.old sink.old) (both_held shelf.new sink.new) result }
    ensures nothing_fails { NothingFails (form_of_words words.now) (both_held shelf.old sink.old) (both_held shelf.new sink.new) result }
{
    feast(rt, alloc, words, shelf, sink, gate)
}
