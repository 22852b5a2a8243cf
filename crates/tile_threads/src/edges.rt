//! The edges of a plane, with the passes of its tiles.
ghost use Rattle.std.specs.Prelude.{◌≡◌, ◌<◌, ◌+◌, [], IfOk, OnOk, length, replicate, vec_len};
ghost use Rattle.tile_map.specs.Edges.{pairs_of};
ghost use Rattle.tile_threads.specs.Passes.{AreEdgesMade, one_pass_more};

use crate::tile_passes::TilePasses;
use edge_lock::{Edge, Pass};
use feast_base::NoMemory;
use std::alloc::Global;
use tile_map::Map;

/// One more pass for a tile.
fn give_pass(passes: &mut Vec<TilePasses>, tile: u32, pass: Pass) -> Result<(), NoMemory>
    requires { tile < vec_len passes.old }
    ensures { OnOk result (passes.new.items ≡ one_pass_more passes.old.items tile pass) }
{
    passes[tile as usize].push(pass)
}

/// An empty list of passes for each tile.
fn no_passes(alloc: Global, tiles: u32) -> Result<Vec<TilePasses>, NoMemory>
    ensures { IfOk result (λ v. v.items ≡ replicate tiles []) }
{
    let mut passes = Vec::new(alloc);
    for _tile in 0..tiles {
        passes.push(TilePasses::new(alloc))?;
    }
    Ok(passes)
}

/// Makes the next edge, and gives each of its tiles a pass.
fn make_edge(
    alloc: Global,
    map: &Map,
    edge: u32,
    edges: &mut Vec<Edge>,
    passes: &mut Vec<TilePasses>,
) -> Result<(), NoMemory>
    requires known { edge < length (pairs_of map.now) }
    requires made { AreEdgesMade map.now edge edges.old.items passes.old.items }
    ensures { OnOk result (AreEdgesMade map.now (edge + 1) edges.new.items passes.new.items) }
{
    let (lower, higher) = map.ends(edge);
    let (made, low, high) = Edge::new(alloc, edge, map.shared(edge))?;
    edges.push(made)?;
    give_pass(passes, lower, low)?;
    give_pass(passes, higher, high)?;
    Ok(())
}

/// All edges of the map's plane, and for each tile the passes of its edges, in their order.
pub(crate) fn make_edges(alloc: Global, map: &Map) -> Result<(Vec<Edge>, Vec<TilePasses>), NoMemory>
    ensures { IfOk result (λ r. AreEdgesMade map.now (length (pairs_of map.now)) r.0.items r.1.items) }
{
    let mut edges = Vec::new(alloc);
    let mut passes = no_passes(alloc, map.tiles())?;
    for edge in 0..map.edges() {
        make_edge(alloc, map, edge, &mut edges, &mut passes)?;
    }
    Ok((edges, passes))
}
