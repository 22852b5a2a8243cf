//! Standard output.
ghost use Rattle.std.specs.Prelude.{◌≡◌, ℕ, ◌+◌, ◌-◌, ◌^◌, ◌≤◌, ◌<◌, IsErr, IsOk, None, OnErr, length};
ghost use Rattle.std.specs.Io.{WritesAtMost};
ghost use Rattle.std.specs.Io.KnownBytes.{WriteAppends};
ghost use Rattle.feast_base.specs.Loading.{FailsNoSooner, MayFailFrom, Puts, WritesWhole};
ghost use Rattle.feast_base.specs.Outside.{hidden_sink};

use crate::{Sink, SinkFailed};
use std::io;
use std::io::{ErrorKind, Write};
use std::marker::Model;

/// Standard output. Its bytes are unknown to contracts; it is seen as the number of its faults.
#[derive(Drop)]
pub struct StdSink<'a, R: Print> {
    rt: &'a R,
    faults: u64,
}

impl<'a, R: Print> Model for StdSink<'a, R> {
    ghost use Rattle.std.specs.Prelude.{ℕ};

    ghost Value = { ℕ };

    ghost view = { λ s. s.faults };
}

impl<'a, R: Print> StdSink<'a, R> {
    /// The standard output that `rt` gives.
    pub fn new(rt: &'a R) -> StdSink<'a, R>
        ensures { result ≡ 0 }
    {
        StdSink { rt, faults: 0 }
    }
}

/// One write, tried again for as long as a signal interrupts it.
fn write_some<W: Write>(to: &mut W, bytes: &[u8]) -> io::Result<usize>
    ensures bound { WritesAtMost result bytes.now }
    ensures bytes { WriteAppends (W.contents to.old) (W.contents to.new) result bytes.now }
{
    for _ in 0..u64::MAX {
        match to.write(bytes) {
            Ok(count) => return Ok(count),
            Err(fault) => {
                if fault.kind() != ErrorKind::Interrupted {
                    return Err(fault);
                }
            }
        }
    }
    Err(ErrorKind::Interrupted.into())
}

/// Writes all the bytes, and flushes. A write that a signal interrupts is tried again, and one that
/// takes no byte is a fault.
///
/// `SinkFailed` if a write or the flush fails; the writer then has a first part of the bytes.
pub fn write_whole<W: Write>(to: &mut W, bytes: &[u8]) -> Result<(), SinkFailed>
    ensures { WritesWhole (W.contents to.old) (W.contents to.new) bytes.now result }
{
    let mut rest = bytes;
    while !rest.is_empty() {
        match write_some(to, rest) {
            Ok(0) => return Err(SinkFailed),
            Ok(count) => rest = &rest[count..],
            Err(_) => return Err(SinkFailed),
        }
    }
    match to.flush() {
        Ok(()) => Ok(()),
        Err(_) => Err(SinkFailed),
    }
}

impl<R: Print> Sink for StdSink<'_, R> {
    ghost state = { hidden_sink };

    /// Writes all the bytes, and flushes. After a fault the count of faults is one more.
    fn put(&mut self, bytes: &[u8]) -> Result<(), SinkFailed>
        requires some { 0 < length bytes.now }
        requires room { self.old < 2 ^ 64 - 1 }
        ensures puts { Puts (hidden_sink self.old) (hidden_sink self.new) bytes.now result }
        ensures cause { IsErr result → MayFailFrom (hidden_sink self.old) (length bytes.now) }
        ensures later { IsOk result → FailsNoSooner (hidden_sink self.old) (hidden_sink self.new) (length bytes.now) }
        ensures once { OnErr result (self.new ≡ self.old + 1) }
    {
        match write_whole(&mut io::writer(self.rt), bytes) {
            Ok(()) => Ok(()),
            Err(SinkFailed) => {
                self.faults += 1;
                Err(SinkFailed)
            }
        }
    }
}
