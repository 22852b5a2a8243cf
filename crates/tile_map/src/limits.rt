//! How large a plane may be, and what follows for its tiles and edges.

use feast_base::{MOST_SITES, MOST_TILES};
use window_sites::MOST_COLUMNS;

/// The most tiles in a row, and the most in a column.
pub const MOST_ACROSS: u32 = 8;

/// The fewest columns, and the fewest rows, of a tile.
pub const LEAST_SIDE: u32 = 8;

/// The most columns, and the most rows, of a tile.
pub const MOST_SIDE: u32 = 64;

/// The most columns, and the most rows, that a tile reaches: its own and four beyond each border.
pub const MOST_REACH: u32 = 72;

/// The most edges of a plane.
pub const MOST_EDGES: u32 = 210;

/// The most sites that the two ends of an edge share.
pub const MOST_SHARED: u32 = 576;

/// The most edges of a tile, so also the most that an event needs.
pub const MOST_NEEDS: usize = 8;

// What follows for the limits that crates below have, and for those of a tile.
const _: () = prove!(MOST_TILES as u32 == MOST_ACROSS * MOST_ACROSS);

const _: () = prove!(MOST_SITES as u32 == MOST_SIDE * MOST_SIDE);

const _: () = prove!(MOST_COLUMNS as u32 == MOST_ACROSS * MOST_SIDE);

const _: () = prove!(MOST_REACH == MOST_SIDE + 8);

const _: () = prove!(MOST_SHARED == 8 * MOST_REACH);
