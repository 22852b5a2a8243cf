//! Records of events.
ghost use Rattle.std.specs.Prelude.{◌≡◌, ◌↔◌, IsTrue};
ghost use Rattle.cell_grid.specs.Records.{Precedes};

/// An event that took place.
#[derive(Clone, Copy, Debug, PartialEq, Eq)]
pub struct Record {
    /// The clock stamp, from 1.
    pub stamp: u32,
    /// The tile that did it.
    pub tile: u32,
    /// The number of the tile's attempt, from 0.
    pub attempt: u64,
    /// The column of the centre.
    pub x: u32,
    /// The row of the centre.
    pub y: u32,
    /// The event's seed.
    pub seed: u64,
}

impl Record {
    /// Whether this record comes before another in a journal: by stamp, then by tile.
    pub fn precedes(&self, other: &Record) -> bool
        ensures { IsTrue result ↔ Precedes self.now other.now }
    {
        self.stamp < other.stamp || (self.stamp == other.stamp && self.tile < other.tile)
    }
}
