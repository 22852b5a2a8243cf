//! Workers sent out with their ends of shared edges, and taken apart when they are home.
ghost use Rattle.std.specs.Prelude.{◌≡◌, All, IfOk, length};
ghost use Rattle.edge_lock.specs.SharedEnds.{IsPassOf, shared_end};
ghost use Rattle.tile_core.specs.Turns.{AgreeOnEdges};
ghost use Rattle.tile_threads.specs.Passes.{let_go};
ghost use Rattle.tile_threads.specs.Whole.{CameHome, HaveComeHome, IsDone, tiles_in, workers_of};

use crate::tile_passes::TilePasses;
use crate::worker::Worker;
use cell_grid::Behave;
use edge_lock::{Board, Edge, SharedEnd};
use feast_base::NoMemory;
use std::alloc::Global;
use tile_core::{Phase, Tile};
use tile_map::Map;

/// A worker for each tile, with the tile's passes.
pub(crate) fn send_out<'a, B: Behave + Drop>(
    alloc: Global,
    edges: &'a [Edge],
    tiles: Vec<Tile<B>>,
    passes: Vec<TilePasses>,
) -> Result<Vec<Worker<B, SharedEnd<'a>>>, NoMemory>
    requires count { length tiles.items ≡ length passes.items }
    requires passes { All (All (IsPassOf edges.now)) passes.items }
    ensures { IfOk result (λ v. v.items ≡ workers_of tiles.items passes.items) }
{
    let mut workers = Vec::new(alloc);
    let mut passes = passes.into_iter();
    for tile in tiles {
        let Some(own) = passes.next() else {
            unreachable!()
        };
        let number = tile.number();
        workers.push(Worker::new(tile, SharedEnd::new(edges, own.into_vec(), number)))?;
    }
    Ok(workers)
}

/// Gives back the edges that a tile which makes no further step still has: those of the last attempt
/// of a worn one.
fn give_rest<B: Behave, D: Board>(map: &Map, tile: &Tile<B>, end: &mut D)
    requires done { IsDone map.now tile.now.core (D.end end.old) }
    ensures lists { AgreeOnEdges map.now tile.now.core.number (D.end end.new).lists (λ e. let_go ((D.end end.old).lists e)) }
    ensures moved { D.moved end.old end.new }
{
    let Some((x, y)) = tile.in_hand() else {
        return;
    };
    let needs = map.needs(tile.number(), x, y);
    for i in 0..needs.len() {
        end.give_back(needs.edge(i));
    }
}

/// The passes of a worker that has stopped, and its tile.
fn take_apart<'a, B: Behave>(map: &Map, worker: Worker<B, SharedEnd<'a>>) -> (Tile<B>, TilePasses)
    requires { IsDone map.now worker.tile.core (shared_end worker.end) }
    ensures tile { result.0 ≡ worker.entry.tile }
    ensures home { CameHome map.now worker.entry.tile.core.number worker.entry.end.passes result.1 }
{
    let (tile, mut end) = worker.into_parts();
    give_rest(map, &tile, &mut end);
    (tile, TilePasses::of(end.into_passes()))
}

/// The tiles of workers that have stopped, and their passes. What a worn tile still had is given
/// back.
pub(crate) fn come_home<'a, B: Behave + Drop>(
    alloc: Global,
    map: &Map,
    workers: Vec<Worker<B, SharedEnd<'a>>>,
) -> Result<(Vec<Tile<B>>, Vec<TilePasses>), NoMemory>
    requires { All (λ w. IsDone map.now w.tile.core (shared_end w.end)) workers.items }
    ensures tiles { IfOk result (λ r. r.0.items ≡ tiles_in workers.entry.items) }
    ensures passes { IfOk result (λ r. HaveComeHome map.now workers.entry.items r.1.items) }
{
    let mut tiles = Vec::new(alloc);
    let mut passes = Vec::new(alloc);
    for worker in workers {
        let (tile, own) = take_apart(map, worker);
        tiles.push(tile)?;
        passes.push(own)?;
    }
    Ok((tiles, passes))
}
