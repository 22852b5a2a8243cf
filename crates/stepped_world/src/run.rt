//! The loops of the stepped run.
ghost use Rattle.std.specs.Prelude.{◌≡◌, ◌<◌, ℕ, All, IsTrue, false, slice_get, length};
ghost use Rattle.std.specs.Iterator.{IsFinite, HoldsAlong};
ghost use Rattle.tile_map.specs.Plane.{tiles_of};
ghost use Rattle.edge_lock.specs.PlainBoard.{sizes_of_board};
ghost use Rattle.serial_order.specs.Scene.{InSomeCourse};
ghost use Rattle.stepped_world.specs.Running.{IsStart, AreUnderway, Follows, HasFewerAhead, on_board, is_still, rest_of, rest_of_all, stands_still, step_of, steps_by};
ghost use Rattle.stepped_world.specs.Ends.{DrainsTo, FromStart, HasRun, IsAsStepped};

use cell_grid::Behave;
use edge_lock::PlainBoard;
use tile_core::{Phase, Tile};
use tile_map::Map;

/// Whether no step does anything in a phase.
fn is_still(phase: Phase) -> bool
    ensures { result ≡ is_still phase }
{
    matches!(phase, Phase::Finished | Phase::Worn)
}

/// Whether no step of a tile does anything any more.
fn stands_still<B: Behave>(tiles: &[Tile<B>], tile: u32) -> bool
    requires { tile < length tiles.now }
    ensures { result ≡ stands_still (slice_get tiles.now tile) }
{
    is_still(tiles[tile as usize].phase())
}

/// Lets a tile make one step.
fn step_one<B: Behave>(map: &Map, tiles: &mut [Tile<B>], board: &mut PlainBoard, tile: u32)
    requires tile { tile < tiles_of map.now }
    requires ready { InSomeCourse map.now (λ c. AreUnderway B.after c tiles.old board.old) }
    ensures follows { Follows B.after map.now (on_board tiles.old board.old) (on_board tiles.new board.new) (step_of tile) }
    ensures fewer { stands_still (slice_get tiles.old tile) ≡ false → HasFewerAhead tiles.old tiles.new tile }
{
    map.laws();
    board.turn_to(tile);
    tiles[tile as usize].advance(map, board);
}

/// Lets a tile make one step, unless it stands still: then a step would do nothing.
#[inline]
fn step_unless_still<B: Behave>(map: &Map, tiles: &mut [Tile<B>], board: &mut PlainBoard, tile: u32)
    requires tile { tile < tiles_of map.now }
    requires ready { InSomeCourse map.now (λ c. AreUnderway B.after c tiles.old board.old) }
    ensures follows { Follows B.after map.now (on_board tiles.old board.old) (on_board tiles.new board.new) (step_of tile) }
{
    if !stands_still(tiles, tile) {
        step_one(map, tiles, board, tile);
    }
}

/// Lets a tile step until it stands still.
fn finish_one<B: Behave>(map: &Map, tiles: &mut [Tile<B>], board: &mut PlainBoard, tile: u32)
    requires tile { tile < tiles_of map.now }
    requires ready { InSomeCourse map.now (λ c. AreUnderway B.after c tiles.old board.old) }
    ensures follows { Follows B.after map.now (on_board tiles.old board.old) (on_board tiles.new board.new) (rest_of tile) }
    ensures still { IsTrue (stands_still (slice_get tiles.new tile)) }
{
    while !stands_still(tiles, tile) {
        step_one(map, tiles, board, tile);
    }
}

/// Lets the tiles step in this order.
fn follow<B: Behave, O: Iterator<Item = u32>>(
    map: &Map,
    tiles: &mut [Tile<B>],
    board: &mut PlainBoard,
    order: O,
)
    requires can { O.can_next order }
    requires ends { IsFinite (O.remaining order) }
    requires names { HoldsAlong O.next_gives order (All (λ t. t < tiles_of map.now)) }
    requires ready { InSomeCourse map.now (λ c. AreUnderway B.after c tiles.old board.old) }
    ensures follows { DrainsTo O.next_gives order (λ xs. Follows B.after map.now (on_board tiles.old board.old) (on_board tiles.new board.new) (steps_by xs)) }
{
    for tile in order {
        step_unless_still(map, tiles, board, tile);
    }
}

/// Lets each tile step until it stands still, one after another.
fn finish_all<B: Behave>(map: &Map, tiles: &mut [Tile<B>], board: &mut PlainBoard)
    requires ready { InSomeCourse map.now (λ c. AreUnderway B.after c tiles.old board.old) }
    ensures follows { Follows B.after map.now (on_board tiles.old board.old) (on_board tiles.new board.new) rest_of_all }
    ensures still { (t : ℕ) → t < tiles_of map.now → IsTrue (stands_still (slice_get tiles.new t)) }
{
    for tile in 0..map.tiles() {
        finish_one(map, tiles, board, tile);
    }
}

/// Runs all tiles of a plane on one board: a step of each tile that the order names, one after
/// another, passing over finished tiles; then steps of tile 0 until it is finished, of tile 1, and
/// so on. It allocates no memory.
///
/// There is one fresh tile for each tile of the map, in order, all from one start grid and one plan
/// and with one meaning, and the board is fresh and of this map. The order is finite and names
/// tiles. Then all tiles are finished and nobody has an edge, and tiles, edges and entries are
/// those of the stepped machine; a grid of the newest cells is its grid.
pub fn run_steps<B: Behave, O: Iterator<Item = u32>>(
    map: &Map,
    tiles: &mut [Tile<B>],
    board: &mut PlainBoard,
    order: O,
)
    requires start { InSomeCourse map.now (λ c. IsStart B.after c tiles.old board.old) }
    requires can { O.can_next order }
    requires ends { IsFinite (O.remaining order) }
    requires names { HoldsAlong O.next_gives order (All (λ t. t < tiles_of map.now)) }
    ensures run { FromStart B.after map.now tiles.old board.old (λ c. HasRun B.after c tiles.new board.new) }
    ensures stepped { DrainsTo O.next_gives order (λ xs. FromStart B.after map.now tiles.old board.old (λ c. IsAsStepped c tiles.new board.new xs)) }
    ensures sizes { sizes_of_board board.new ≡ sizes_of_board board.old }
{
    map.laws();
    follow(map, tiles, board, order);
    finish_all(map, tiles, board);
}
