//! The edges of a plane, closed.
ghost use Rattle.std.specs.Prelude.{◌≡◌, ◌<◌, ◌+◌, ℕ, IfOk, length, vec_len};
ghost use Rattle.edge_lock.specs.EndLists.{EndLists};
ghost use Rattle.tile_threads.specs.Passes.{AreClosed, AreLeft, IsClosedEdge, SharedEdges, TakesFirst, WhereAllLeft, WhereNext, edge_of, passes_of, shared_edges};

use crate::tile_passes::TilePasses;
use edge_lock::{Closed, Edge, Pass};
use feast_base::NoMemory;
use serial_order::ClosedEdges;
use std::alloc::Global;
use tile_map::Map;

/// Takes the first pass of a tile.
fn take_pass(passes: &mut Vec<TilePasses>, tile: u32) -> Pass
    requires tile { tile < vec_len passes.old }
    requires some { 0 < length (passes_of passes.old.items tile) }
    ensures { TakesFirst passes.old.items passes.new.items tile result }
{
    passes[tile as usize].take_first()
}

/// Closes an edge with the first passes of its two tiles.
fn close_edge(map: &Map, edge: Edge, number: u32, passes: &mut Vec<TilePasses>) -> Closed
    requires left { (s : SharedEdges) × (n : ℕ) × (edge ≡ edge_of s.edges number) × AreLeft map.now s number (n + 1) passes.old.items }
    ensures closed { WhereNext map.now number edge passes.old.items (λ s n. IsClosedEdge map.now s.lists number result) }
    ensures left { WhereNext map.now number edge passes.old.items (λ s n. AreLeft map.now s (number + 1) n passes.new.items) }
{
    let (lower, higher) = map.ends(number);
    let low = take_pass(passes, lower);
    let high = take_pass(passes, higher);
    edge.close(low, high)
}

/// Closes all edges of the map's plane. Each tile has the passes of its edges, in their order, and
/// no longer has an edge.
pub(crate) fn close_edges(
    alloc: Global,
    map: &Map,
    edges: Vec<Edge>,
    mut passes: Vec<TilePasses>,
) -> Result<ClosedEdges, NoMemory>
    requires left { (lists : ℕ → ℕ → EndLists) × AreLeft map.now (shared_edges edges.items lists) 0 (vec_len edges) passes.items }
    ensures { IfOk result (λ c. WhereAllLeft map.now edges.items (vec_len edges) passes.items (λ lists. AreClosed map.now lists c)) }
{
    map.laws();
    let mut closed = Vec::with_capacity(alloc, edges.len())?;
    for edge in edges {
        let number = closed.len() as u32;
        closed.push(close_edge(map, edge, number, &mut passes))?;
    }
    Ok(ClosedEdges::new(closed))
}
