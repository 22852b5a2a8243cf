//! A tile that has the plane for itself.
ghost use Rattle.std.specs.Prelude.{◌≡◌, IfOk};
ghost use Rattle.cell_grid.specs.Tried.{after_turn, idle-turn};
ghost use Rattle.event_journal.specs.Logs.{log_of};
ghost use Rattle.tile_map.specs.Plane.{whole_plane};
ghost use Rattle.cases_tile.specs.Alone.{IsAlone, IsEmptyBoard};

use bit_field::Atom;
use cell_grid::{Behave, Grid};
use draw_stream::{Attempt, AttemptPlan, Script};
use edge_lock::PlainBoard;
use event_journal::TileLog;
use feast_base::NoMemory;
use std::alloc::Global;
use tile_core::{Phase, Tile};
use tile_map::Map;
use window_sites::Window;

/// Exchanges the centre and its eastern neighbour, unless the centre is empty.
#[derive(Clone, Copy, Drop)]
pub struct Turn;

impl Behave for Turn {
    ghost after = { λ s. after_turn };

    ghost idle = { λ s. idle-turn };

    fn act(&mut self, window: &mut Window, _seed: u64) {
        if window.get(0) != Atom::new(0, 0) {
            window.swap(0, 4);
        }
    }
}

/// A tile of a plane of one tile, with an atom at (3, 4) and attempts at (3, 4) and (0, 0).
pub fn lonely(alloc: Global, map: &Map, board: &PlainBoard) -> Result<Tile<Turn>, NoMemory>
    requires { IsEmptyBoard map.now board.now }
    ensures { IfOk result (λ t. IsAlone map.now t.core board.now) }
{
    let mut start = Grid::new(alloc, 8, 8)?;
    start.set(3, 4, Atom::new(1, 5));
    let first = Attempt {
        centre: 35,
        seed: 9,
    };
    let second = Attempt { centre: 0, seed: 8 };
    let list = vec![in alloc; first, second]?;
    let plan = AttemptPlan::scripted(vec![in alloc; Script::new(list)]?);
    let attempts = plan.of_tile(alloc, 0)?;
    let tile = Tile::new(alloc, map, 0, &start, attempts, Turn)?;
    Ok(tile)
}

/// One step of a tile that is alone.
pub fn advance(tile: &mut Tile<Turn>, map: &Map, board: &mut PlainBoard) -> Phase
    requires { IsAlone map.now tile.old.core board.old }
    ensures alone { IsAlone map.now tile.new.core board.new }
    ensures phase { result ≡ tile.new.core.phase }
{
    tile.advance(map, board)
}

/// The phases that follow nine steps of a tile that is alone.
pub fn phases(tile: &mut Tile<Turn>, map: &Map, board: &mut PlainBoard) -> [Phase; 9]
    requires { IsAlone map.now tile.old.core board.old }
    ensures { IsAlone map.now tile.new.core board.new }
{
    let mut phases = [Phase::Draw; 9];
    for n in 0..9 {
        phases[n] = advance(tile, map, board);
    }
    phases
}

/// The board of a plane of one tile.
pub fn empty_board(alloc: Global, map: &Map) -> Result<PlainBoard, NoMemory>
    requires { map.now ≡ whole_plane 1 1 8 8 }
    ensures { IfOk result (λ b. IsEmptyBoard map.now b) }
{
    let board = PlainBoard::new(alloc, map)?;
    Ok(board)
}

/// The next attempt of a tile that is alone, from its start to its end; nothing if none is left.
/// Answers the phase.
pub fn attempt(tile: &mut Tile<Turn>, map: &Map, board: &mut PlainBoard) -> Phase
    requires { IsAlone map.now tile.old.core board.old }
    ensures alone { IsAlone map.now tile.new.core board.new }
    ensures phase { result ≡ tile.new.core.phase }
{
    match tile.phase() {
        Phase::Draw => tile.attempt_whole(map, board),
        phase => phase,
    }
}

/// The log of a tile that is alone.
pub fn log(tile: Tile<Turn>, map: &Map, board: &PlainBoard) -> TileLog
    requires { IsAlone map.now tile.core board.now }
    ensures { result ≡ log_of tile.core.number tile.core.records tile.core.abandoned }
{
    tile.into_log()
}
