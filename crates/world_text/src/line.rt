//! What a line of a world says.

/// A line of a world. Its numbers are of any size that its form allows.
#[derive(Drop)]
pub enum Line<'a> {
    /// `feast 1`, or `feast 2`.
    Header {
        /// Whether the version is the second.
        second: bool,
    },
    /// How many tiles a row and a column of the plane have.
    Tiles {
        /// How many in a row.
        tx: u128,
        /// How many in a column.
        ty: u128,
    },
    /// How many columns and rows a tile has.
    Size {
        /// How many columns.
        w: u128,
        /// How many rows.
        h: u128,
    },
    /// A tile that is off.
    Off {
        /// Its number.
        tile: u128,
    },
    /// The seed of the attempts.
    Seed {
        /// The seed.
        seed: u128,
    },
    /// How many attempts each tile draws.
    Attempts {
        /// How many.
        count: u128,
    },
    /// An attempt of a tile.
    Try {
        /// The tile's number.
        tile: u128,
        /// The column of its site.
        x: u128,
        /// The row of its site.
        y: u128,
        /// The seed of its event.
        seed: u64,
    },
    /// An atom at a site.
    Atom {
        /// The column.
        x: u128,
        /// The row.
        y: u128,
        /// The name of its type.
        name: &'a [u8],
        /// Its state, below 2^72.
        state: u128,
    },
    /// The seed of the order of a stepped run.
    OrderSeed {
        /// The seed.
        seed: u128,
    },
    /// Tiles of the order of a stepped run.
    Order {
        /// The tiles' numbers.
        list: Vec<u128>,
    },
}
