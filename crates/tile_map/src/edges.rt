//! The list of the edges, and the edges and the interior of each tile.

ghost use Rattle.std.specs.Prelude.{◌≡◌, ℕ, ◌^◌, ◌<◌, ◌≤◌, ◌++◌, IfOk, OnOk, map, length};
ghost use Rattle.std.specs.List.{range_with_len};
ghost use Rattle.tile_map.specs.Plane.{tiles_of, is_on};
ghost use Rattle.tile_map.specs.Edges.{is_in_pair, edges_among};
ghost use Rattle.tile_map.specs.Neighbours.{near_above, near_pairs};
ghost use Rattle.tile_map.specs.Tables.{areas_of};
ghost use Rattle.tile_map.specs.declared.limits.TheConstants.{MOST_NEEDS};

use crate::needs::Needs;
use crate::plane::Plane;
use crate::span::TileAreas;
use feast_base::NoMemory;
use std::alloc::Global;

/// The edges of a plane.
#[tactic(auto, using(crate::proofs::Growing::pairs_more))]
pub(crate) fn pairs(alloc: Global, plane: &Plane) -> Result<Vec<(u32, u32)>, NoMemory>
    ensures { IfOk result (λ v. v.items ≡ near_pairs (is_on plane.now) plane.now.tx (tiles_of plane.now)) }
{
    let tiles = plane.tiles();
    let mut pairs = Vec::new(alloc);
    for lower in 0..tiles {
        push_pairs(&mut pairs, plane, lower)?;
    }
    Ok(pairs)
}

/// Appends the edges of a lower tile.
fn push_pairs(pairs: &mut Vec<(u32, u32)>, plane: &Plane, lower: u32) -> Result<(), NoMemory>
    ensures { OnOk result (pairs.new.items ≡ pairs.old.items ++ near_above plane.now lower) }
{
    let tiles = plane.tiles();
    for higher in 0..tiles {
        if plane.are_neighbours(lower, higher) {
            pairs.push((lower, higher))?;
        }
    }
    Ok(())
}

/// For each tile its edges, of which there are at most 8.
#[tactic(auto, using(crate::proofs::Growing::lists_more))]
pub(crate) fn by_tile(
    alloc: Global,
    ends: &[(u32, u32)],
    tiles: u32,
) -> Result<Vec<Needs>, NoMemory>
    requires small { length ends.now < 2 ^ 32 }
    requires few { (t : ℕ) → t < tiles → length (edges_among ends.now tiles t) ≤ MOST_NEEDS }
    ensures { IfOk result (λ v. v.items ≡ map (edges_among ends.now tiles) (range_with_len 0 tiles)) }
{
    let mut lists = Vec::new(alloc);
    for tile in 0..tiles {
        lists.push(edges_of(ends, tiles, tile))?;
    }
    Ok(lists)
}

/// The edges of a tile, of which there are at most 8.
fn edges_of(ends: &[(u32, u32)], tiles: u32, tile: u32) -> Needs
    requires small { length ends.now < 2 ^ 32 }
    requires few { length (edges_among ends.now tiles tile) ≤ MOST_NEEDS }
    ensures { result ≡ edges_among ends.now tiles tile }
{
    let mut edges = Needs::new();
    for (edge, pair) in ends.iter().enumerate() {
        if has_end(pair, tile) {
            edges.push(edge as u32);
        }
    }
    edges
}

/// For each tile its areas.
#[tactic(auto, using(crate::proofs::Growing::areas_more))]
pub(crate) fn tile_areas(alloc: Global, plane: &Plane) -> Result<Vec<TileAreas>, NoMemory>
    ensures { IfOk result (λ v. v.items ≡ map (areas_of plane.now) (range_with_len 0 (tiles_of plane.now))) }
{
    let tiles = plane.tiles();
    let mut areas = Vec::new(alloc);
    for tile in 0..tiles {
        areas.push(plane.areas(tile))?;
    }
    Ok(areas)
}

/// Whether the tile is one of the pair.
fn has_end(pair: &(u32, u32), tile: u32) -> bool
    ensures { result ≡ is_in_pair tile pair.now }
{
    pair.0 == tile || pair.1 == tile
}
