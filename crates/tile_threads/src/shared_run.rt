//! A whole run: all tiles of a plane over the edges that they share.
ghost use Rattle.std.specs.Prelude.{IfOk, length};
ghost use Rattle.serial_order.specs.Scene.{InSomeCourse};
ghost use Rattle.serial_order.specs.Fresh.{AreFresh, WhereFresh};
ghost use Rattle.tile_map.specs.Edges.{pairs_of};
ghost use Rattle.tile_threads.specs.Passes.{AreEdgesMade};
ghost use Rattle.tile_threads.specs.Whole.{HasRun, HaveReturned};

use crate::closing::close_edges;
use crate::edges::make_edges;
use crate::home::{come_home, send_out};
use crate::tile_passes::TilePasses;
use crate::worker::run_tiles;
use cell_grid::Behave;
use edge_lock::Edge;
use feast_base::{Gate, NoMemory};
use serial_order::ClosedEdges;
use std::alloc::Global;
use std::thread::Threads;
use tile_core::Tile;
use tile_map::Map;

/// Runs all tiles over these edges, with their passes of them.
fn run_over<R: Threads + Sync, B: Behave + Send + Drop, G: Gate>(
    rt: &R,
    alloc: Global,
    map: &Map,
    edges: &[Edge],
    tiles: Vec<Tile<B>>,
    passes: Vec<TilePasses>,
    gate: &G,
) -> Result<(Vec<Tile<B>>, Vec<TilePasses>), NoMemory>
    requires made { AreEdgesMade map.now (length (pairs_of map.now)) edges.now passes.items }
    requires fresh { InSomeCourse map.now (λ c. AreFresh B.after c tiles.items) }
    ensures { IfOk result (λ r. WhereFresh B.after map.now tiles.items (λ c. HaveReturned c edges.now r.0.items r.1.items)) }
{
    let mut workers = send_out(alloc, edges, tiles, passes)?;
    run_tiles(rt, map, workers.as_mut_slice(), gate);
    let (tiles, passes) = come_home(alloc, map, workers)?;
    Ok((tiles, passes))
}

/// Runs all tiles of a plane side by side, each with a worker of its own, over edges that their
/// threads share, until each is finished or worn out; gives back what a worn tile still has, and
/// closes the edges. Answers the tiles and the closed edges, which are then settled.
///
/// There is one fresh tile for each tile of the map, in order, all for one start grid and with one
/// meaning. In whatever order the threads make their steps, each tile has then played its attempts
/// on its ends of the edges, and all that the ends of an edge did is one history: what settling
/// requires.
///
/// `NoMemory` if there is none for the edges or the lists of workers; the tiles are dropped then.
pub fn run_shared<R: Threads + Sync, B: Behave + Send + Drop, G: Gate>(
    rt: &R,
    alloc: Global,
    map: &Map,
    tiles: Vec<Tile<B>>,
    gate: &G,
) -> Result<(Vec<Tile<B>>, ClosedEdges), NoMemory>
    requires { InSomeCourse map.now (λ c. AreFresh B.after c tiles.items) }
    ensures { IfOk result (λ r. WhereFresh B.after map.now tiles.items (λ c. HasRun c r.0.items r.1)) }
{
    map.laws();
    let (edges, passes) = make_edges(alloc, map)?;
    let (tiles, passes) = run_over(rt, alloc, map, edges.as_slice(), tiles, passes, gate)?;
    let closed = close_edges(alloc, map, edges, passes)?;
    Ok((tiles, closed))
}
