//! The steps of a tile that has the plane for itself, with the phases compared.
ghost use Rattle.cases_tile.specs.Alone.{IsAlone};

use crate::alone::{Turn, attempt, empty_board, log, lonely, phases};
use cell_grid::Record;
use edge_lock::PlainBoard;
use feast_base::NoMemory;
use std::process::Abort;
use tile_core::{Phase, Tile};
use tile_map::Map;

/// The phases that follow the steps of two attempts without an edge, and one step more.
const TWO_ATTEMPTS: [Phase; 9] = [
    Phase::Refresh,
    Phase::Behave,
    Phase::Write,
    Phase::Draw,
    Phase::Refresh,
    Phase::Behave,
    Phase::Write,
    Phase::Finished,
    Phase::Finished,
];

/// The event of the first attempt.
const FIRST: Record = Record {
    stamp: 1,
    tile: 0,
    attempt: 0,
    x: 3,
    y: 4,
    seed: 9,
};

/// The event of the second attempt.
const SECOND: Record = Record {
    stamp: 2,
    tile: 0,
    attempt: 1,
    x: 0,
    y: 0,
    seed: 8,
};

/// Whether a tile is tile 0, has drawn two attempts, has none in hand, and made each an event.
fn made_two_events(tile: &Tile<Turn>) -> bool {
    tile.number() == 0
        && tile.taken() == 2
        && tile.in_hand().is_none()
        && tile.records().len() == 2
        && tile.abandoned().len() == 0
}

/// That a tile comes by all phases of two attempts, and makes both events.
fn make_two_events(rt: &impl Abort, tile: &mut Tile<Turn>, map: &Map, board: &mut PlainBoard)
    requires { IsAlone map.now tile.old.core board.old }
{
    assert!(rt; tile.phase() == Phase::Draw);
    assert!(rt; phases(tile, map, board) == TWO_ATTEMPTS);
    assert!(rt; made_two_events(tile));
}

#[test]
fn a_tile_without_neighbours_takes_its_attempts_one_by_one(
    rt: HostRuntime,
) -> Result<(), NoMemory> {
    let map = Map::new(rt.alloc(), 1, 1, 8, 8)?;
    let mut board = empty_board(rt.alloc(), &map)?;
    let mut tile = lonely(rt.alloc(), &map, &board)?;
    make_two_events(&rt, &mut tile, &map, &mut board);
    drop(tile);
    Ok(())
}

#[test]
fn a_whole_attempt_ends_where_the_next_begins_and_the_log_has_both(
    rt: HostRuntime,
) -> Result<(), NoMemory> {
    let map = Map::new(rt.alloc(), 1, 1, 8, 8)?;
    let mut board = empty_board(rt.alloc(), &map)?;
    let mut tile = lonely(rt.alloc(), &map, &board)?;
    assert!(rt; attempt(&mut tile, &map, &mut board) == Phase::Draw);
    assert!(rt; attempt(&mut tile, &map, &mut board) == Phase::Finished);
    let log = log(tile, &map, &board);
    assert!(rt; log.records() == [FIRST, SECOND].as_slice());
    assert!(rt; log.abandoned().len() == 0);
    Ok(())
}
