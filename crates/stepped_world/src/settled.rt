//! A stepped run with its outcome.
ghost use Rattle.std.specs.Prelude.{◌<◌, All, IfOk};
ghost use Rattle.std.specs.Iterator.{IsFinite, HoldsAlong};
ghost use Rattle.plane_grid.specs.PlaneGrids.{IsGridOf};
ghost use Rattle.tile_map.specs.Plane.{tiles_of};
ghost use Rattle.serial_order.specs.Scene.{InSomeCourse};
ghost use Rattle.stepped_world.specs.Running.{IsStart};
ghost use Rattle.stepped_world.specs.Ends.{DrainsTo, FromStart, IsOutcome};

use crate::run::run_steps;
use cell_grid::{Behave, Grid};
use edge_lock::PlainBoard;
use feast_base::NoMemory;
use serial_order::{Outcome, settle};
use std::alloc::Global;
use tile_core::Tile;
use tile_map::Map;

/// Runs all tiles of a plane on one board in this order, as `run_steps` does and under its
/// conditions, and settles what they leave into a grid of the plane: the grid and the journal of the
/// stepped machine.
///
/// `NoMemory` if there is none for the list of logs; grid and tiles are dropped then.
pub fn run_settled<B: Behave + Drop, O: Iterator<Item = u32>>(
    alloc: Global,
    map: &Map,
    grid: Grid,
    tiles: Vec<Tile<B>>,
    board: PlainBoard,
    order: O,
) -> Result<Outcome, NoMemory>
    requires grid { IsGridOf map.now grid }
    requires start { InSomeCourse map.now (λ c. IsStart B.after c tiles.items board) }
    requires can { O.can_next order }
    requires ends { IsFinite (O.remaining order) }
    requires names { HoldsAlong O.next_gives order (All (λ t. t < tiles_of map.now)) }
    ensures outcome { IfOk result (λ o. DrainsTo O.next_gives order (λ xs. FromStart B.after map.now tiles.items board (λ c. IsOutcome c xs o))) }
{
    let mut tiles = tiles;
    let mut board = board;
    run_steps(map, tiles.as_mut_slice(), &mut board, order);
    settle(alloc, map, grid, tiles, &mut board)
}
