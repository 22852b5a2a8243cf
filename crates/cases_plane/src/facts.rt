//! What a map tells of its plane.
ghost use Rattle.std.specs.Prelude.{◌<◌, IsTrue, length};
ghost use Rattle.tile_map.specs.Edges.{pairs_of};

use edge_lock::EdgeSizes;
use tile_map::{Map, Needs};

/// A question to a map, with its answer.
pub enum Fact {
    /// How many tiles there are, and how many edges.
    Counts(u32, u32),
    /// A tile, and whether it is on.
    On(u32, bool),
    /// A tile, with the first column that it reaches, and one more than the last.
    Columns(u32, (u32, u32)),
    /// The same of rows.
    Rows(u32, (u32, u32)),
    /// A tile, a column and a row, and whether the tile holds the site.
    Holds(u32, u32, u32, bool),
    /// A column and a row, and whether the site is live.
    Live(u32, u32, bool),
    /// A column and a row, with the tile that owns the site.
    Owner(u32, u32, u32),
    /// A tile and the number of a site, with the site.
    Centre(u32, u32, (u32, u32)),
    /// An edge with its ends, its number of shared sites and its number of registers.
    Edge(u32, (u32, u32), u32, u32),
    /// How many sites each pair of neighbours among nine tiles shares, or 0 if it has no edge.
    Shared(&'static [u32; 20]),
    /// An edge, a column and a row, with the site's register.
    Register(u32, u32, u32, Option<u32>),
    /// A tile, a column and a row, with the edges that an event needs.
    Needs(u32, u32, u32, &'static [u32]),
}

impl Fact {
    /// Whether a map answers so. A question that it can't be asked has no answer.
    pub fn is_told_by(&self, map: &Map) -> bool {
        match *self {
            Fact::Counts(tiles, edges) => map.tiles() == tiles && map.edges() == edges,
            Fact::On(tile, is_on) => map.is_on(tile) == is_on,
            Fact::Columns(tile, columns) => tile < map.tiles() && map.columns(tile) == columns,
            Fact::Rows(tile, rows) => tile < map.tiles() && map.rows(tile) == rows,
            Fact::Holds(tile, x, y, holds) => map.holds(tile, x, y) == holds,
            Fact::Live(x, y, is_live) => map.is_live(x, y) == is_live,
            Fact::Owner(x, y, owner) => is_owner(map, x, y, owner),
            Fact::Centre(tile, centre, site) => is_centre(map, tile, centre, site),
            Fact::Edge(edge, ends, sites, registers) => {
                is_edge(map, edge, ends, sites) && map.registers(edge) == registers
            }
            Fact::Shared(shared) => share(map, shared),
            Fact::Register(edge, x, y, register) => is_register(map, edge, x, y, register),
            Fact::Needs(tile, x, y, edges) => is_needed(map, tile, x, y, edges),
        }
    }
}

/// Whether a tile owns a site.
fn is_owner(map: &Map, x: u32, y: u32, owner: u32) -> bool {
    x < map.width() && y < map.height() && map.owner(x, y) == owner
}

/// Whether a site of a tile has this number.
fn is_centre(map: &Map, tile: u32, centre: u32, site: (u32, u32)) -> bool {
    tile < map.tiles() && centre < map.tile_sites() && map.site_of(tile, centre) == site
}

/// Whether an edge has these ends, and shares this many sites.
fn is_edge(map: &Map, edge: u32, ends: (u32, u32), sites: u32) -> bool
    ensures { IsTrue result → edge < length (pairs_of map.now) }
{
    edge < map.edges() && map.ends(edge) == ends && map.sites(edge) == sites
}

/// Whether a site has this register in an edge.
fn is_register(map: &Map, edge: u32, x: u32, y: u32, register: Option<u32>) -> bool {
    edge < map.edges() && map.register(edge, x, y) == register
}

/// Whether an event of a tile at a site needs these edges.
fn is_needed(map: &Map, tile: u32, x: u32, y: u32, edges: &[u32]) -> bool {
    tile < map.tiles() && x < map.width() && y < map.height() && are(&map.needs(tile, x, y), edges)
}

/// Whether the needed edges are these.
fn are(needs: &Needs, edges: &[u32]) -> bool {
    if needs.len() != edges.len() {
        return false;
    }
    for (i, edge) in edges.iter().enumerate() {
        if needs.edge(i) != *edge {
            return false;
        }
    }
    true
}

/// The pairs of neighbours among 3 by 3 tiles.
const PAIRS: [(u32, u32); 20] = [
    (0, 1),
    (0, 3),
    (0, 4),
    (1, 2),
    (1, 3),
    (1, 4),
    (1, 5),
    (2, 4),
    (2, 5),
    (3, 4),
    (3, 6),
    (3, 7),
    (4, 5),
    (4, 6),
    (4, 7),
    (4, 8),
    (5, 7),
    (5, 8),
    (6, 7),
    (7, 8),
];

/// Whether the edges of a plane of 3 by 3 tiles share this many sites each.
fn share(map: &Map, shared: &[u32; 20]) -> bool {
    let mut edge = 0u32;
    for (ends, sites) in PAIRS.iter().zip(shared) {
        if *sites > 0 {
            if !is_edge(map, edge, *ends, *sites) {
                return false;
            }
            edge = edge.saturating_add(1);
        }
    }
    edge == map.edges()
}
