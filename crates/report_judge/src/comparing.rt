//! A sink that compares what is put with bytes that are there.
ghost use Rattle.std.specs.Prelude.{◌≡◌, ◌≤◌, ◌<◌, ◌∷◌, ◌↔◌, [], IsTrue, drop, length, slice_index, take};
ghost use Rattle.report_judge.specs.Comparing.{BeginsOtherwise, compared, compared_state};

use feast_base::{Sink, SinkFailed};
use std::marker::Model;

/// How many of the first bytes of two texts are the same.
fn common_len(first: &[u8], second: &[u8]) -> usize
    ensures within { (result ≤ length first.now) × (result ≤ length second.now) }
    ensures same { take result first.now ≡ take result second.now }
    ensures other { result < length second.now → BeginsOtherwise (drop result first.now) (slice_index second.now result ∷ []) }
{
    for at in 0..second.len() {
        if at == first.len() || first[at] != second[at] {
            return at;
        }
    }
    second.len()
}

/// A sink that keeps nothing: a put fails if it differs from what comes next in bytes that are there, or
/// goes on behind them, and so do all puts after it. Contracts see these bytes, and what was put up to
/// the first byte that differs.
#[derive(Drop)]
pub(crate) struct Comparison<'a> {
    bytes: &'a [u8],
    /// How many of the bytes were put.
    same: usize,
    /// The first byte that differs, if one came.
    other: Option<u8>,
    faults: u64,
}

impl<'a> Model for Comparison<'a> {
    ghost use Rattle.report_judge.specs.Comparing.{Agrees, Compared, compared, put_of};

    ghost Value = { Compared };

    ghost view = { λ c. compared c.bytes.now (put_of c.bytes.now c.same c.other) c.faults };

    ghost invariant = { λ c. Agrees c.bytes.now c.same c.other c.faults };
}

impl<'a> Comparison<'a> {
    /// A comparison with these bytes, to which nothing was put.
    pub(crate) fn new(bytes: &'a [u8]) -> Comparison<'a>
        ensures { result ≡ compared bytes.now [] 0 }
    {
        Comparison {
            bytes,
            same: 0,
            other: None,
            faults: 0,
        }
    }

    /// Whether exactly the bytes were put.
    pub(crate) fn is_whole(&self) -> bool
        ensures whole { IsTrue result ↔ (self.now.put ≡ self.now.bytes) }
        ensures otherwise { 0 < self.now.faults → BeginsOtherwise self.now.bytes self.now.put }
    {
        match self.other {
            None => self.same == self.bytes.len(),
            Some(_) => false,
        }
    }
}

impl Sink for Comparison<'_> {
    ghost state = { compared_state };

    /// Compares the bytes with those that come next.
    fn put(&mut self, bytes: &[u8]) -> Result<(), SinkFailed> {
        if self.other.is_some() {
            self.faults += 1;
            return Err(SinkFailed);
        }
        let len = common_len(&self.bytes[self.same..], bytes);
        self.same += len;
        if len == bytes.len() {
            return Ok(());
        }
        self.other = Some(bytes[len]);
        self.faults += 1;
        Err(SinkFailed)
    }
}
