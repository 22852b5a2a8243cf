//! A part of a journal's events, printed into memory of its own.
ghost use Rattle.std.specs.Prelude.{◌≡◌, ◌+◌, ◌-◌, ◌^◌, ◌<◌, ◌≤◌, ◌++◌, length, vec_capacity, vec_len};
ghost use Rattle.report_text.specs.Details.{rest_text};
ghost use Rattle.report_text.specs.Writing.{Streams, heading};

use crate::detail::Detail;
use crate::line::LONGEST_RECORD;
use crate::page::{Page, put_bytes};
use event_journal::{Journal, Walk};
use feast_base::{NoMemory, Sink, SinkFailed};
use std::alloc::Global;
use std::marker::Model;

/// How many idle words keep what two processors change apart: two lines of their caches.
const IDLE: usize = 16;

/// Events whose lines are not put yet: the first of them are printed, and the walk has the others.
/// Contracts see the text of all their lines.
///
/// Several parts are printed at a time, and each line changes its part and what the part's walk keeps.
/// So idle words lie before each part and behind what its walk keeps: otherwise the processors would
/// take the same lines of memory from each other all the time.
#[derive(Drop)]
pub(crate) struct Part<'a> {
    idle_before: [u64; IDLE],
    printed: Vec<u8>,
    walk: Walk<'a>,
    /// How much is told of each event.
    detail: Detail,
    idle_behind: Vec<u64>,
}

impl<'a> Model for Part<'a> {
    ghost use Rattle.std.specs.Prelude.{ℕ, ◌++◌, List};
    ghost use Rattle.report_text.specs.Details.{rest_text};

    ghost Value = { List ℕ };

    ghost view = { λ p. p.printed.items ++ rest_text p.detail p.walk };
}

impl<'a> Part<'a> {
    /// A part of a journal, with room for so many printed bytes. `NoMemory` if there is none for it.
    pub(crate) fn new(
        alloc: Global,
        journal: &'a Journal,
        bytes: usize,
    ) -> Result<Part<'a>, NoMemory> {
        Ok(Part {
            idle_before: [0; IDLE],
            printed: Vec::with_capacity(alloc, bytes)?,
            walk: journal.walk(alloc)?,
            detail: Detail::Whole,
            idle_behind: Vec::with_capacity(alloc, IDLE)?,
        })
    }

    /// Takes over the events that come first in a walk, at most `most` of each tile, and drops its
    /// own. So much is told of each.
    pub(crate) fn fill(&mut self, walk: &mut Walk<'a>, most: usize, detail: Detail)
        ensures { rest_text detail walk.old ≡ self.new ++ rest_text detail walk.new }
    {
        self.printed.clear();
        self.detail = detail;
        walk.split_front(&mut self.walk, most);
    }

    /// Prints its events, as far as there is room.
    pub(crate) fn print(&mut self)
        ensures { self.new ≡ self.old }
    {
        print_lines(&mut self.printed, &mut self.walk, self.detail);
    }

    /// Puts the lines of its events.
    pub(crate) fn put<K: Sink>(&mut self, sink: &mut K, page: &mut Page) -> Result<(), SinkFailed>
        requires { (K.state sink.old).faults < 2 ^ 64 - 1 }
        ensures { Streams (heading (K.state sink.old) page.old) (heading (K.state sink.new) page.new) self.old result }
    {
        put_bytes(sink, page, self.printed.as_slice())?;
        put_walk(sink, page, &mut self.walk, self.detail)
    }
}

/// Appends bytes for which there is room.
#[inline(always)]
fn append(out: &mut Vec<u8>, bytes: &[u8])
    requires { vec_len out.old + length bytes.now ≤ vec_capacity out.old }
    ensures { out.new.items ≡ out.old.items ++ bytes.now }
{
    let _ = out.extend_from_slice(bytes);
}

/// Appends the lines of the events that a walk has left, until none is left or there may be no room
/// for one more.
fn print_lines(out: &mut Vec<u8>, walk: &mut Walk<'_>, detail: Detail)
    ensures { out.new.items ++ rest_text detail walk.new ≡ out.old.items ++ rest_text detail walk.old }
{
    let mut line = [0; LONGEST_RECORD];
    while out.capacity() - out.len() >= LONGEST_RECORD {
        let Some(entry) = walk.next() else {
            return;
        };
        let start = detail.write_record(&entry, &mut line);
        append(out, &line[start..]);
    }
}

/// Puts the lines of the events that a walk has left.
pub(crate) fn put_walk<K: Sink>(
    sink: &mut K,
    page: &mut Page,
    walk: &mut Walk<'_>,
    detail: Detail,
) -> Result<(), SinkFailed>
    requires { (K.state sink.old).faults < 2 ^ 64 - 1 }
    ensures { Streams (heading (K.state sink.old) page.old) (heading (K.state sink.new) page.new) (rest_text detail walk.old) result }
{
    let mut line = [0; LONGEST_RECORD];
    while let Some(entry) = walk.next() {
        let start = detail.write_record(&entry, &mut line);
        put_bytes(sink, page, &line[start..])?;
    }
    Ok(())
}
