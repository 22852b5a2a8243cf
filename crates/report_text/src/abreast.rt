//! The events of a journal, printed side by side and put in order.
ghost use Rattle.std.specs.Prelude.{◌≡◌, ◌-◌, ◌^◌, ◌<◌, ◌++◌, IfOk};
ghost use Rattle.event_journal.specs.Logs.{records_in};
ghost use Rattle.event_journal.specs.Merged.{concat};
ghost use Rattle.report_text.specs.Details.{events_value, rest_text};
ghost use Rattle.report_text.specs.Writing.{Streams, StreamsFirst, heading};

use crate::detail::Detail;
use crate::page::Page;
use crate::part::{Part, put_walk};
use event_journal::{Journal, Walk};
use feast_base::{NoMemory, Sink, SinkFailed};
use std::alloc::Global;
use std::marker::Model;
use std::thread::{Threads, available_parallelism, for_each_mut};

/// How many events one thread alone prints: fewer would be printed before others have started.
const FEW: u64 = 20_000;

/// How many parts are printed side by side at most.
const PARTS: usize = 8;

/// How many bytes all parts together have room for.
const ROOM: usize = 1 << 23;

/// How many bytes a part has for each of its events. Most lines are shorter; what is longer than the
/// room is put from the part's walk.
const BYTES_AN_EVENT: usize = 48;

/// The events of a journal that are not put yet, and what they are printed in: in rounds, in each of
/// which as many parts are printed side by side as there are processors, and then put in order.
/// Contracts see what is told of them, and the text of their lines.
pub(crate) struct Events<'a> {
    walk: Walk<'a>,
    /// How much is told of each event.
    detail: Detail,
    /// The parts of a round. There are none if one thread prints all events.
    parts: Vec<Part<'a>>,
    /// How many events of each tile a part has at most.
    most: usize,
    /// How many rounds there are at most.
    rounds: u64,
}

// Written by hand, not derived: so a caller drops it by one call.
impl<'a> Drop for Events<'a> {
    fn drop(self) {
        let Events {
            walk,
            detail: _,
            parts,
            most: _,
            rounds: _,
        } = self;
    }
}

impl<'a> Model for Events<'a> {
    ghost use Rattle.event_journal.specs.Walks.{rest_of};
    ghost use Rattle.report_text.specs.Details.{EventsValue, events_value};

    ghost Value = { EventsValue };

    ghost view = { λ e. events_value e.detail (rest_of e.walk) };
}

/// How many parts of a journal are printed side by side.
fn part_count<R: Threads>(rt: &R, journal: &Journal) -> usize {
    if journal.len() <= FEW {
        return 0;
    }
    match available_parallelism(rt) {
        Ok(processors) if processors.get() > 1 => processors.get().min(PARTS),
        _ => 0,
    }
}

/// How many tiles of a journal have events.
fn busy_tiles(journal: &Journal) -> usize {
    journal
        .logs()
        .iter()
        .filter(|log| !log.records().is_empty())
        .count()
}

/// So many parts of a journal, each with room for so many bytes. `NoMemory` if there is none for
/// them.
fn make_parts<'a>(
    alloc: Global,
    journal: &'a Journal,
    count: usize,
    bytes: usize,
) -> Result<Vec<Part<'a>>, NoMemory> {
    let mut parts = Vec::new(alloc);
    for _ in 0..count {
        parts.push(Part::new(alloc, journal, bytes)?)?;
    }
    Ok(parts)
}

impl<'a> Events<'a> {
    /// All events of a journal, of each of which so much is told. `NoMemory` if there is none for what
    /// they are printed in.
    pub(crate) fn new<R: Threads>(
        rt: &R,
        alloc: Global,
        journal: &'a Journal,
        detail: Detail,
    ) -> Result<Events<'a>, NoMemory>
        ensures { IfOk result (λ e. e ≡ events_value detail (records_in journal.now)) }
    {
        let count = part_count(rt, journal);
        let bytes = ROOM / count.max(1);
        let most = (bytes / BYTES_AN_EVENT / busy_tiles(journal).max(1)).max(1);
        Ok(Events {
            walk: journal.walk(alloc)?,
            detail,
            parts: make_parts(alloc, journal, count, bytes)?,
            most,
            rounds: if count == 0 {
                0
            } else {
                journal.len() / most as u64 + 1
            },
        })
    }

    /// How much is told of each event.
    pub(crate) fn detail(&self) -> Detail
        ensures { result ≡ self.now.detail }
    {
        self.detail
    }

    /// Prints and puts one round, if an event is left.
    fn put_round<R: Threads + Sync, K: Sink>(
        &mut self,
        rt: &R,
        sink: &mut K,
        page: &mut Page,
    ) -> Result<(), SinkFailed>
        requires { (K.state sink.old).faults < 2 ^ 64 - 1 }
        ensures { StreamsFirst (heading (K.state sink.old) page.old) (heading (K.state sink.new) page.new) self.old.text self.new.text result }
    {
        if self.walk.is_over() {
            return Ok(());
        }
        let parts = self.parts.as_mut_slice();
        fill_all(parts, &mut self.walk, self.most, self.detail);
        print_all(rt, parts);
        put_all(sink, page, parts)
    }
}

/// Fills parts, one after another, with the events that come first in a walk.
fn fill_all<'a>(parts: &mut [Part<'a>], walk: &mut Walk<'a>, most: usize, detail: Detail)
    ensures { rest_text detail walk.old ≡ concat parts.new ++ rest_text detail walk.new }
{
    for k in 0..parts.len() {
        parts[k].fill(walk, most, detail);
    }
}

/// Prints parts side by side, each in a thread of its own as far as there are threads.
fn print_all<R: Threads + Sync>(rt: &R, parts: &mut [Part<'_>])
    ensures { parts.new ≡ parts.old }
{
    let threads = parts.len().max(1);
    for_each_mut(rt, parts, threads, &|_, part| part.print());
}

/// Puts the lines of parts, one after another.
fn put_all<K: Sink>(sink: &mut K, page: &mut Page, parts: &mut [Part<'_>]) -> Result<(), SinkFailed>
    requires { (K.state sink.old).faults < 2 ^ 64 - 1 }
    ensures { Streams (heading (K.state sink.old) page.old) (heading (K.state sink.new) page.new) (concat parts.old) result }
{
    for k in 0..parts.len() {
        parts[k].put(sink, page)?;
    }
    Ok(())
}

/// Puts the lines of events: in rounds, and then those that the rounds leave, if there are any.
pub(crate) fn put_events<R: Threads + Sync, K: Sink>(
    rt: &R,
    sink: &mut K,
    page: &mut Page,
    events: &mut Events<'_>,
) -> Result<(), SinkFailed>
    requires { (K.state sink.old).faults < 2 ^ 64 - 1 }
    ensures { Streams (heading (K.state sink.old) page.old) (heading (K.state sink.new) page.new) events.old.text result }
{
    for _ in 0..events.rounds {
        events.put_round(rt, sink, page)?;
    }
    put_walk(sink, page, &mut events.walk, events.detail)
}
