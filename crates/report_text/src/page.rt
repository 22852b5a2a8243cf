//! A page of a text that is on its way to a sink.
ghost use Rattle.std.specs.Prelude.{◌≡◌, ◌==◌, ℕ, ◌+◌, ◌-◌, ◌^◌, ◌<◌, ◌≤◌, ◌++◌, List, [], length, take};
ghost use Rattle.report_text.specs.Writing.{PutsAll, Streams, heading};
ghost use Rattle.report_text.specs.declared.page.TheConstants.{PIECE};

use feast_base::{Sink, SinkFailed};
use std::marker::Model;

/// How many bytes each piece that is put has, but for the last.
const PIECE: usize = 4096;

/// The bytes that come next to a sink, at most 4,096, seen as a list.
#[derive(Drop)]
pub(crate) struct Page {
    bytes: [u8; PIECE],
    used: usize,
}

impl Model for Page {
    ghost Value = { List ℕ };

    ghost view = { λ p. take p.used p.bytes };

    ghost invariant = { λ p. p.used ≤ PIECE };
}

impl Page {
    /// A page without a byte.
    pub(crate) fn new() -> Page
        ensures { result ≡ [] }
    {
        Page {
            bytes: [0; PIECE],
            used: 0,
        }
    }

    /// How many bytes more it has room for.
    #[inline(always)]
    fn room(&self) -> usize
        ensures { length self.now + result ≡ PIECE }
    {
        PIECE - self.used
    }

    /// Whether it has no byte.
    #[inline(always)]
    fn is_empty(&self) -> bool
        ensures { result ≡ (length self.now == 0) }
    {
        self.used == 0
    }

    /// Its bytes.
    fn as_slice(&self) -> &[u8]
        ensures value { result.now ≡ self.now }
        ensures most { length result.now ≤ PIECE }
    {
        &self.bytes[..self.used]
    }

    /// Appends bytes for which there is room.
    #[inline(always)]
    fn append(&mut self, bytes: &[u8])
        requires { length self.old + length bytes.now ≤ PIECE }
        ensures { self.new ≡ self.old ++ bytes.now }
    {
        let end = self.used + bytes.len();
        self.bytes[self.used..end].copy_from_slice(bytes);
        self.used = end;
    }

    /// Takes all its bytes out.
    fn clear(&mut self)
        ensures { self.new ≡ [] }
    {
        self.used = 0;
    }
}

/// Puts a page that is full and empties it.
fn put_full<K: Sink>(sink: &mut K, page: &mut Page) -> Result<(), SinkFailed>
    requires room { (K.state sink.old).faults < 2 ^ 64 - 1 }
    requires full { length page.old ≡ PIECE }
    ensures puts { PutsAll (K.state sink.old) (K.state sink.new) page.old result }
    ensures empty { page.new ≡ [] }
{
    let put = sink.put(page.as_slice());
    page.clear();
    put
}

/// Puts a page with the bytes that fill it, and empties it. If it has none of its own, these bytes
/// are put as they lie, and nothing is copied.
fn put_piece<K: Sink>(sink: &mut K, page: &mut Page, bytes: &[u8]) -> Result<(), SinkFailed>
    requires room { (K.state sink.old).faults < 2 ^ 64 - 1 }
    requires full { length page.old + length bytes.now ≡ PIECE }
    ensures puts { PutsAll (K.state sink.old) (K.state sink.new) (page.old ++ bytes.now) result }
    ensures empty { page.new ≡ [] }
{
    if page.is_empty() {
        return sink.put(bytes);
    }
    page.append(bytes);
    put_full(sink, page)
}

/// Puts the last page of a text, unless it is empty.
#[tactic(auto, using(crate::proofs::Putting::put_nothing))]
pub(crate) fn put_last<K: Sink>(sink: &mut K, page: Page) -> Result<(), SinkFailed>
    requires { (K.state sink.old).faults < 2 ^ 64 - 1 }
    ensures { PutsAll (K.state sink.old) (K.state sink.new) page result }
{
    let bytes = page.as_slice();
    if bytes.is_empty() {
        return Ok(());
    }
    sink.put(bytes)
}

/// Appends bytes to a text: to its page, which is put and emptied as soon as it is full. So each
/// piece that is put here has 4,096 bytes. No clause of a sink can say how a text was cut into puts,
/// so `put_piece` requires that size.
#[inline]
pub(crate) fn put_bytes<K: Sink>(
    sink: &mut K,
    page: &mut Page,
    bytes: &[u8],
) -> Result<(), SinkFailed>
    requires { (K.state sink.old).faults < 2 ^ 64 - 1 }
    ensures { Streams (heading (K.state sink.old) page.old) (heading (K.state sink.new) page.new) bytes.now result }
{
    let mut left = bytes;
    while left.len() >= page.room() {
        let (front, rest) = left.split_at(page.room());
        put_piece(sink, page, front)?;
        left = rest;
    }
    page.append(left);
    Ok(())
}
