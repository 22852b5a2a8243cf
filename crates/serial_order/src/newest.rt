//! The settled cell of a site: the newest of its tile's and those of the tile's edges. Only edges
//! that an event at the site would need are asked, and none where no other tile holds the site.
ghost use Rattle.std.specs.Prelude.{◌≡◌, ◌<◌, IsTrue, length, Some};
ghost use Rattle.bit_field.specs.Atom.{LeavesGap};
ghost use Rattle.tile_map.specs.Plane.{site, is_held};
ghost use Rattle.tile_map.specs.Edges.{pairs_of};
ghost use Rattle.border_cache.specs.Cells.{cell_of, newer, newest};
ghost use Rattle.border_cache.specs.Copies.{held_cell};
ghost use Rattle.serial_order.specs.Outcomes.{IsUnshared};
ghost use Rattle.serial_order.specs.Words.{AreEdgeWords, as_cell, cell_on, cells_on, settled_on};

use crate::unshared::Unshared;
use crate::words::EdgeWords;
use bit_field::Atom;
use border_cache::Cache;
use tile_map::Map;

/// The newer of a stamp with its atom and the cell that two words represent; the first if both have
/// one stamp.
fn newer_of(own: (u32, Atom), low: u64, high: u64) -> (u32, Atom)
    requires { LeavesGap high }
    ensures { as_cell result ≡ newer (as_cell own) (Some (cell_of low high)) }
{
    let stamp = (high >> 32) as u32;
    if own.0 < stamp {
        (stamp, Atom::from_words(low, (high % (1u64 << 32)) as u32))
    } else {
        own
    }
}

/// The newer of a cell and the one that an edge has of a site, if the edge shares it.
fn newer_on_edge<E: EdgeWords>(
    map: &Map,
    edge: u32,
    own: (u32, Atom),
    x: u32,
    y: u32,
    words: &mut E,
) -> (u32, Atom)
    requires known { edge < length (pairs_of map.now) }
    requires words { AreEdgeWords map.now (E.words words.old) }
    ensures cell { as_cell result ≡ newer (as_cell own) (cell_on map.now (E.words words.old).histories edge (site x y)) }
    ensures same { E.words words.new ≡ E.words words.old }
{
    match map.register(edge, x, y) {
        None => own,
        Some(register) => {
            // The number of shared sites is so small that their registers have numbers of 32 bits.
            let _sites = map.shared(edge);
            let low = words.word(edge, register);
            let high = words.word(edge, register + 1);
            newer_of(own, low, high)
        }
    }
}

/// The newest of a cell and those that a tile's edges have of a site. An edge that an event there
/// would not need does not share the site.
fn newest_of<E: EdgeWords>(
    map: &Map,
    tile: u32,
    own: (u32, Atom),
    x: u32,
    y: u32,
    words: &mut E,
) -> (u32, Atom)
    requires held { IsTrue (is_held map.now tile (site x y)) }
    requires words { AreEdgeWords map.now (E.words words.old) }
    ensures cell { as_cell result ≡ newest (as_cell own) (cells_on map.now (E.words words.old).histories tile (site x y)) }
    ensures same { E.words words.new ≡ E.words words.old }
{
    let needs = map.needs(tile, x, y);
    let mut best = own;
    for i in 0..needs.len() {
        best = newer_on_edge(map, needs.edge(i), best, x, y, words);
    }
    best
}

/// The settled atom of a site that a tile holds, once the tiles are over: that of the newest of the
/// tile's own cell and those that its edges have of the site. At equal stamps its own cell stays;
/// among edges the one with the smaller number counts. A site that no other tile holds has no cell
/// on an edge.
pub(crate) fn settled_in<E: EdgeWords>(
    map: &Map,
    unshared: &Unshared,
    cache: &Cache,
    x: u32,
    y: u32,
    words: &mut E,
) -> Atom
    requires map { cache.now.map ≡ map.now }
    requires tile { cache.now.tile ≡ unshared.now.tile }
    requires unshared { IsUnshared map.now unshared.now }
    requires held { IsTrue (is_held map.now unshared.now.tile (site x y)) }
    requires words { AreEdgeWords map.now (E.words words.old) }
    ensures atom { result ≡ (settled_on map.now (E.words words.old).histories unshared.now.tile (held_cell cache.now) (site x y)).atom }
    ensures same { E.words words.new ≡ E.words words.old }
{
    map.laws();
    let own = cache.cell(x, y);
    if unshared.has(x, y) {
        own.1
    } else {
        newest_of(map, unshared.tile, own, x, y, words).1
    }
}
