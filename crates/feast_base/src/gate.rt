//! Gates, which workers pass, and where they rest while they wait for each other.
use std::rt::Clock;
use std::thread::{sleep, yield_now};
use std::time::Duration;

/// Where a worker rests that is ahead of others.
pub trait Rest {
    /// What the clock of this place shows: the time since some moment of the past. Without a clock it
    /// is always nothing.
    fn time(&self) -> Duration {
        Duration::ZERO
    }

    /// Lets other threads run: for at least this time, or, without a clock, once.
    fn rest(&self, _time: Duration) {
        yield_now();
    }
}

/// What each worker calls before each attempt.
pub trait Gate: Rest + Sync {
    /// Returns when the worker of `tile` may begin the attempt with that number, counted from 0.
    fn reach(&self, tile: u32, attempt: u64);
}

/// A gate that lets every worker pass at once. It has no clock.
#[derive(Clone, Copy, Debug)]
pub struct OpenGate;

impl Gate for OpenGate {
    fn reach(&self, _tile: u32, _attempt: u64) {}
}

impl Rest for OpenGate {}

/// A gate that lets every worker pass at once, and has a clock by which workers rest.
#[derive(Clone, Copy)]
pub struct ClockGate<'a, R> {
    /// The clock.
    pub clock: &'a R,
}

impl<R: Clock + Sync> Gate for ClockGate<'_, R> {
    fn reach(&self, _tile: u32, _attempt: u64) {}
}

impl<R: Clock> Rest for ClockGate<'_, R> {
    fn time(&self) -> Duration {
        self.clock.monotonic().unwrap_or(Duration::ZERO)
    }

    fn rest(&self, time: Duration) {
        sleep(self.clock, time);
    }
}
