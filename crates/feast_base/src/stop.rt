//! Stops of the sink in memory.

/// A put that is to fail in mid-piece.
#[derive(Clone, Copy)]
pub struct Stop {
    /// The number of the put, counted from 1.
    pub call: u64,
    /// How many of the first bytes of its piece are still appended; all of them if it has fewer.
    pub keep: u32,
}
