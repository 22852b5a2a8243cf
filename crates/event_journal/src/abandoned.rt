//! The attempts that were given up.

/// An attempt that was given up because an edge that it needs was held.
#[derive(Clone, Copy, PartialEq, Eq)]
pub struct Abandoned {
    /// The tile that made the attempt.
    pub tile: u32,
    /// The number of the tile's attempt, from 0.
    pub attempt: u64,
    /// The column of the centre.
    pub x: u32,
    /// The row of the centre.
    pub y: u32,
    /// The edge that was held.
    pub edge: u32,
    /// The tile at the edge's other end, which held it.
    pub holder: u32,
    /// The number of the holder's attempt for which it held the edge.
    pub holder_attempt: u64,
}
