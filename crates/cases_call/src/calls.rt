//! Calls over files in memory.

ghost use Rattle.std.specs.Prelude.{◌≡◌, ◌^◌, ◌-◌, ◌<◌};

use feast_base::{Gate, MemShelf, MemSink, Shelf, Source};
use feast_run::{Status, feast};
use std::alloc::Global;
use std::test::Fail;
use std::thread::Threads;

/// The words of a text, separated by spaces.
pub fn words(alloc: Global, text: &str) -> Result<Vec<String>, Fail> {
    let mut words = Vec::new(alloc);
    for word in text.split(' ') {
        words.push(String::from_str(alloc, word)?)?;
    }
    Ok(words)
}

/// A shelf with these files, given as names and texts, whose loads with these numbers fail.
pub fn shelf(alloc: Global, files: &[(&str, &str)], fails: Vec<u64>) -> Result<MemShelf, Fail> {
    let mut sources = Vec::new(alloc);
    for (name, text) in files {
        sources.push(Source::new(alloc, *name, Vec::from_slice(alloc, text.as_bytes())?)?)?;
    }
    Ok(MemShelf::new(alloc, sources, fails))
}

/// The answer of a call whose workers pass a gate.
pub fn gated<R: Threads + Sync, F: Shelf, G: Gate>(
    rt: &R,
    alloc: Global,
    text: &str,
    shelf: &mut F,
    sink: &mut MemSink,
    gate: &G,
) -> Result<Status, Fail>
    requires { sink.old.faults < 2 ^ 64 - 1 }
{
    let words = words(alloc, text)?;
    Ok(feast(rt, alloc, words.as_slice(), shelf, sink, gate))
}
