//! Tiles that act in turn on the board of one thread, until all are finished.
ghost use Rattle.std.specs.Prelude.{◌≡◌, ◌<◌, ℕ, All, IfOk, IfSome, IsTrue, length};
ghost use Rattle.tile_map.specs.Plane.{tiles_of};
ghost use Rattle.draw_stream.specs.Plans.{attempts};
ghost use Rattle.plane_grid.specs.PlaneGrids.{IsGridOf};
ghost use Rattle.tile_core.specs.Underway.{CanAttempt};
ghost use Rattle.serial_order.specs.Boards.{HasStopped};
ghost use Rattle.serial_order.specs.Outcomes.{Settles, values_of};
ghost use Rattle.serial_order.specs.Words.{histories_on};
ghost use Rattle.cases_order.specs.Driven.{AreMade, IsDriven};
ghost use Rattle.event_journal.specs.Serial.{course};

use cell_grid::{Behave, Grid};
use draw_stream::AttemptPlan;
use edge_lock::PlainBoard;
use feast_base::NoMemory;
use serial_order::{Outcome, settle};
use std::alloc::Global;
use tile_core::{Phase, Tile};
use tile_map::Map;

/// How many steps are enough for a tile of a worked run.
const STEPS: u32 = 100;

/// The tiles of a map with the atoms of a start grid, each with its attempts of a plan.
pub fn tiles<B: Behave + Copy + Drop>(
    alloc: Global,
    map: &Map,
    start: &Grid,
    plan: &AttemptPlan,
    behave: B,
) -> Result<Vec<Tile<B>>, NoMemory>
    requires start { IsGridOf map.now start.now }
    requires lists { length plan.now.lists ≡ tiles_of map.now }
    requires can { (t : ℕ) → t < tiles_of map.now → CanAttempt map.now t (attempts plan.now t) }
    ensures count { IfOk result (λ v. length v.items ≡ tiles_of map.now) }
    ensures fresh { IfOk result (λ v. AreMade B.after (course map.now plan.now (B.after behave) start.now) v.items) }
{
    let mut tiles = Vec::new(alloc);
    for tile in 0..map.tiles() {
        let attempts = plan.of_tile(alloc, tile)?;
        let new = Tile::new(alloc, map, tile, start, attempts, behave)?;
        tiles.push(new)?;
    }
    Ok(tiles)
}

/// One step of a tile, whose end acts then.
fn step<B: Behave>(map: &Map, tiles: &mut [Tile<B>], board: &mut PlainBoard, tile: u32)
    requires tile { tile < tiles_of map.now }
    requires driven { IsDriven B.after map.now tiles.old board.old }
    ensures { IsDriven B.after map.now tiles.new board.new }
{
    board.turn_to(tile);
    tiles[tile as usize].advance(map, board);
}

/// One step of a tile; nothing if no tile has the number.
fn step_named<B: Behave>(map: &Map, tiles: &mut [Tile<B>], board: &mut PlainBoard, tile: u32)
    requires { IsDriven B.after map.now tiles.old board.old }
    ensures { IsDriven B.after map.now tiles.new board.new }
{
    if tile < map.tiles() {
        step(map, tiles, board, tile);
    }
}

/// One step of each tile that a list names, one after another.
fn in_order<B: Behave>(map: &Map, tiles: &mut [Tile<B>], board: &mut PlainBoard, order: &[u32])
    requires { IsDriven B.after map.now tiles.old board.old }
    ensures { IsDriven B.after map.now tiles.new board.new }
{
    for tile in order {
        step_named(map, tiles, board, *tile);
    }
}

/// Some steps of one tile.
fn rest<B: Behave>(map: &Map, tiles: &mut [Tile<B>], board: &mut PlainBoard, tile: u32)
    requires { IsDriven B.after map.now tiles.old board.old }
    ensures { IsDriven B.after map.now tiles.new board.new }
{
    for _n in 0..STEPS {
        step_named(map, tiles, board, tile);
    }
}

/// Steps of one tile after another, as many as a worked run needs at most.
fn finish<B: Behave>(map: &Map, tiles: &mut [Tile<B>], board: &mut PlainBoard)
    requires { IsDriven B.after map.now tiles.old board.old }
    ensures { IsDriven B.after map.now tiles.new board.new }
{
    for tile in 0..map.tiles() {
        rest(map, tiles, board, tile);
    }
}

/// One step of each tile that a list names, one after another, and then of one tile after another.
pub fn drive<B: Behave>(map: &Map, tiles: &mut [Tile<B>], board: &mut PlainBoard, order: &[u32])
    requires { IsDriven B.after map.now tiles.old board.old }
    ensures { IsDriven B.after map.now tiles.new board.new }
{
    in_order(map, tiles, board, order);
    finish(map, tiles, board);
}

/// Whether a tile is finished.
fn is_finished<B: Behave>(tile: &Tile<B>) -> bool
    ensures { IsTrue result → HasStopped tile.now.core }
{
    matches!(tile.phase(), Phase::Finished)
}

/// Whether all tiles are finished.
fn are_finished<B: Behave>(tiles: &[Tile<B>]) -> bool
    ensures { IsTrue result → All (λ t. HasStopped t.core) tiles.now }
{
    for tile in tiles {
        if !is_finished(tile) {
            return false;
        }
    }
    true
}

/// The result of a run whose tiles acted on one board, settled into a grid of the plane. None if a
/// tile is not finished.
pub fn settled<B: Behave + Drop>(
    alloc: Global,
    map: &Map,
    grid: Grid,
    tiles: Vec<Tile<B>>,
    board: &mut PlainBoard,
) -> Result<Option<Outcome>, NoMemory>
    requires grid { IsGridOf map.now grid }
    requires driven { IsDriven B.after map.now tiles.items board.old }
    ensures { IfOk result (λ o. IfSome o (Settles map.now (values_of tiles.items) (histories_on board.old))) }
{
    if !are_finished(tiles.as_slice()) {
        return Ok(None);
    }
    let outcome = settle(alloc, map, grid, tiles, board)?;
    Ok(Some(outcome))
}
