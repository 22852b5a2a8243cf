//! The sink in memory.
ghost use Rattle.std.specs.Prelude.{◌≡◌, ◌-◌, ◌^◌, ◌≤◌, ◌<◌, ◌↔◌, ◌++◌, IfOk, OnOk, OnErr, IsErr, IsOk, MatchOption, None, Some, length, map};
ghost use Rattle.feast_base.specs.Held.{PutFails, after_failed_put, after_put, kept_at, mem_sink_state, new_sink, stop_at};
ghost use Rattle.feast_base.specs.Loading.{FailsNoSooner, MayFailFrom, Puts};

use crate::{NoMemory, Sink, SinkFailed, Stop};
use std::alloc::Global;
use std::marker::Model;

/// Bytes in memory, whose room was reserved when it was made and some of whose puts fail.
#[derive(Drop)]
pub struct MemSink {
    bytes: Vec<u8>,
    stops: Vec<Stop>,
    calls: u64,
    faults: u64,
    room: usize,
}

impl Model for MemSink {
    ghost use Rattle.std.specs.Prelude.{◌≤◌, vec_len, vec_capacity};
    ghost use Rattle.feast_base.specs.Held.{SinkHeld};

    ghost Value = { SinkHeld };

    ghost view = { λ s. record { written = s.bytes.items; faults = s.faults; calls = s.calls; stops = s.stops.items; room = s.room } };

    ghost invariant = { λ s. (vec_len s.bytes ≤ s.room) × (s.room ≤ vec_capacity s.bytes) };
}

/// How many bytes are kept of the put with this number, if a stop names it.
fn kept_at(stops: &[Stop], call: u64) -> Option<u32>
    ensures { MatchOption result (kept_at call stops.now ≡ None) (λ keep. kept_at call stops.now ≡ Some keep) }
{
    for stop in stops {
        if stop.call == call {
            return Some(stop.keep);
        }
    }
    None
}

/// A stop at each of these calls, of whose pieces nothing is kept.
fn stops_at(alloc: Global, calls: &[u64]) -> Result<Vec<Stop>, NoMemory>
    ensures { IfOk result (λ stops. stops.items ≡ map stop_at calls.now) }
{
    let stop_at = |call: &u64| Stop {
        call: *call,
        keep: 0,
    };
    Ok(calls.iter().map(stop_at).collect(alloc)?)
}

impl MemSink {
    /// A sink with room for `room` bytes. Its puts of the numbers in `fail`, counted from 1, fail
    /// and append nothing. `NoMemory` if the room or the list can't be reserved.
    pub fn new(alloc: Global, fail: Vec<u64>, room: usize) -> Result<MemSink, NoMemory>
        ensures { IfOk result (λ s. s ≡ new_sink (map stop_at fail.items) room) }
    {
        MemSink::stopping(alloc, stops_at(alloc, fail.as_slice())?, room)
    }

    /// A sink with room for `room` bytes. Each put that a stop names fails, and appends as many of
    /// the first bytes of its piece as the stop keeps; if two stops name one put, the first counts.
    /// `NoMemory` if the room can't be reserved.
    pub fn stopping(alloc: Global, stops: Vec<Stop>, room: usize) -> Result<MemSink, NoMemory>
        ensures { IfOk result (λ s. s ≡ new_sink stops.items room) }
    {
        let bytes = Vec::with_capacity(alloc, room)?;
        Ok(MemSink {
            bytes,
            stops,
            calls: 0,
            faults: 0,
            room,
        })
    }

    /// The bytes that were put, one piece after another.
    pub fn written(&self) -> &[u8]
        ensures { result.now ≡ self.now.written }
    {
        self.bytes.as_slice()
    }

    /// How many puts there were. The count stays at 2^64 - 1 once it gets there.
    pub fn calls(&self) -> u64
        ensures { result ≡ self.now.calls }
    {
        self.calls
    }

    /// Appends bytes for which there is room.
    fn append(&mut self, bytes: &[u8])
        requires { length bytes.now ≤ self.old.room - length self.old.written }
        ensures { self.new ≡ record self.old { written = self.old.written ++ bytes.now } }
    {
        match self.bytes.extend_from_slice(bytes) {
            Ok(()) => {}
            Err(_) => unreachable!(),
        }
    }
}

impl Sink for MemSink {
    ghost state = { mem_sink_state };

    /// Appends all the bytes to what is written.
    ///
    /// `SinkFailed` comes exactly when a stop names this put or it is longer than the room that is
    /// left. Then the first bytes that the stop keeps are appended, or nothing if the room is too
    /// small.
    fn put(&mut self, bytes: &[u8]) -> Result<(), SinkFailed>
        requires some { 0 < length bytes.now }
        requires room { self.old.faults < 2 ^ 64 - 1 }
        ensures puts { Puts (mem_sink_state self.old) (mem_sink_state self.new) bytes.now result }
        ensures cause { IsErr result → MayFailFrom (mem_sink_state self.old) (length bytes.now) }
        ensures later { IsOk result → FailsNoSooner (mem_sink_state self.old) (mem_sink_state self.new) (length bytes.now) }
        ensures exactly { IsErr result ↔ PutFails self.old (length bytes.now) }
        ensures all { OnOk result (self.new ≡ after_put self.old bytes.now) }
        ensures front { OnErr result (self.new ≡ after_failed_put self.old bytes.now) }
    {
        self.calls = self.calls.saturating_add(1);
        if bytes.len() > self.room - self.bytes.len() {
            self.faults += 1;
            return Err(SinkFailed);
        }
        match kept_at(self.stops.as_slice(), self.calls) {
            Some(keep) => {
                self.append(&bytes[..bytes.len().min(keep as usize)]);
                self.faults += 1;
                Err(SinkFailed)
            }
            None => {
                self.append(bytes);
                Ok(())
            }
        }
    }
}
