//! Sinks, to which bytes are put.
ghost use Rattle.std.specs.Prelude.{◌^◌, ◌-◌, ◌<◌, IsErr, IsOk, length};
ghost use Rattle.feast_base.specs.Outside.{SinkState};
ghost use Rattle.feast_base.specs.Loading.{FailsNoSooner, MayFailFrom, Puts};

use thiserror::Error;

/// A put failed.
#[derive(Clone, Copy, Debug, PartialEq, Eq, Error)]
#[error("the sink failed")]
pub struct SinkFailed;

/// A place that bytes are put to.
///
/// Contracts see three things, as its `state`. `written` are all bytes that were put, if it reveals
/// them. `faults` is how many faults there were; it never falls. `may_fail` says of a number of
/// bytes whether putting that many more, in one piece or in several, may fail.
pub trait Sink {
    ghost state: { Self → SinkState };

    /// Appends all the bytes to what is written.
    ///
    /// After `SinkFailed` some of the first bytes were appended, and the number of faults rose.
    fn put(&mut self, bytes: &[u8]) -> Result<(), SinkFailed>
        requires some { 0 < length bytes.now }
        requires room { (state self.old).faults < 2 ^ 64 - 1 }
        ensures puts { Puts (state self.old) (state self.new) bytes.now result }
        ensures cause { IsErr result → MayFailFrom (state self.old) (length bytes.now) }
        ensures later { IsOk result → FailsNoSooner (state self.old) (state self.new) (length bytes.now) };
}
