//! An attempt.

/// One attempt of a tile: its site, and the seed of the event there.
#[derive(Clone, Copy, Debug, PartialEq, Eq)]
pub struct Attempt {
    /// The centre, as a position in row order of the rectangle that the tile owns.
    pub centre: u32,
    /// The seed of the event.
    pub seed: u64,
}
