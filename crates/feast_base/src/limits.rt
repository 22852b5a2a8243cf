//! Limits that several crates share: of a run, of an event, of a function.

/// The most tiles that a plane has, those that are off included.
pub const MOST_TILES: usize = 64;

/// The most sites that a tile owns.
pub const MOST_SITES: u64 = 4_096;

/// The most attempts that a run makes, over all tiles.
pub const MOST_ATTEMPTS: usize = 1_000_000;

/// The greatest stamp of an event.
pub const LAST_STAMP: u64 = 4_294_967_295;

/// The most turns of loops and calls of functions that an event makes, together.
pub const MOST_TURNS: u32 = 1_000;

/// The most functions that wait for the one that runs, each for the one that it called.
pub const MOST_CALLS: usize = 16;

/// The most parameters that a function has.
pub const MOST_PARAMS: usize = 8;
