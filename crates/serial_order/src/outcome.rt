//! Settling: what tiles that are over leave, as one grid and one journal.
ghost use Rattle.std.specs.Prelude.{◌≡◌, ◌<◌, ◌+◌, ◌*◌, All, IfOk};
ghost use Rattle.tile_map.specs.Plane.{owner_of, site};
ghost use Rattle.cell_grid.specs.Grid.{ArePlanesAlike};
ghost use Rattle.plane_grid.specs.PlaneGrids.{IsGridOf, IsPlaneGrid};
ghost use Rattle.serial_order.specs.Outcomes.{AreOver, AreTilesOf, ChangesSite, IsSettledBy, IsStretch, IsUnshared, Settles, values_of};
ghost use Rattle.serial_order.specs.Scene.{logs_of, registers_at};
ghost use Rattle.serial_order.specs.Settled.{IsSettled, IsSettledAt};
ghost use Rattle.serial_order.specs.Words.{AreEdgeWords};
ghost use Rattle.tile_core.specs.Underway.{IsMade};

use crate::newest::settled_in;
use crate::unshared::Unshared;
use crate::words::EdgeWords;
use cell_grid::{Behave, Grid};
use event_journal::{Journal, TileLog};
use feast_base::NoMemory;
use std::alloc::Global;
use tile_core::Tile;
use tile_map::Map;

/// The result of a run.
#[derive(Drop)]
pub struct Outcome {
    /// The atoms.
    pub grid: Grid,
    /// The events and the abandoned attempts of all tiles.
    pub journal: Journal,
}

/// Gives a site of a tile, if it is live, its settled atom: the newest of its owner's and those of
/// the owner's edges.
fn settle_site<B: Behave, E: EdgeWords>(
    map: &Map,
    tiles: &[Tile<B>],
    unshared: &Unshared,
    words: &mut E,
    grid: &mut Grid,
    x: u32,
    y: u32,
)
    requires x { x < grid.old.width }
    requires y { y < grid.old.height }
    requires unshared { IsUnshared map.now unshared.now }
    requires owner { owner_of map.now (site x y) ≡ unshared.now.tile }
    requires grid { IsPlaneGrid map.now grid.old }
    requires tiles { AreTilesOf map.now (values_of tiles.now) }
    requires words { AreEdgeWords map.now (E.words words.old) }
    ensures change { ChangesSite map.now (site x y) grid.old grid.new }
    ensures settled { IsSettledAt map.now (values_of tiles.now) (registers_at (E.words words.old).histories) (site x y) grid.new }
    ensures same { E.words words.new ≡ E.words words.old }
{
    map.laws();
    if !map.is_on(unshared.tile) {
        return;
    }
    let cache = tiles[unshared.tile as usize].cache();
    let atom = settled_in(map, unshared, cache, x, y, words);
    grid.set(x, y, atom);
}

/// Settles a stretch of a row that lies in one tile: `size` sites from column `left` on.
fn settle_stretch<B: Behave, E: EdgeWords>(
    map: &Map,
    tiles: &[Tile<B>],
    words: &mut E,
    grid: &mut Grid,
    left: u32,
    size: u32,
    y: u32,
)
    requires stretch { IsStretch map.now left size y }
    requires grid { IsSettledBy map.now tiles.now (E.words words.old) (y * grid.old.width + left) grid.old }
    requires tiles { AreTilesOf map.now (values_of tiles.now) }
    requires words { AreEdgeWords map.now (E.words words.old) }
    ensures grid { IsSettledBy map.now tiles.now (E.words words.old) (y * grid.old.width + (left + size)) grid.new }
    ensures plane { ArePlanesAlike grid.old grid.new }
    ensures same { E.words words.new ≡ E.words words.old }
{
    map.laws();
    let unshared = Unshared::of(map, map.owner(left, y));
    for x in left..left + size {
        settle_site(map, tiles, &unshared, words, grid, x, y);
    }
}

/// Settles the sites of a row of the plane.
fn settle_row<B: Behave, E: EdgeWords>(
    map: &Map,
    tiles: &[Tile<B>],
    words: &mut E,
    grid: &mut Grid,
    y: u32,
)
    requires y { y < grid.old.height }
    requires grid { IsSettledBy map.now tiles.now (E.words words.old) (y * grid.old.width) grid.old }
    requires tiles { AreTilesOf map.now (values_of tiles.now) }
    requires words { AreEdgeWords map.now (E.words words.old) }
    ensures grid { IsSettledBy map.now tiles.now (E.words words.old) (y * grid.old.width + grid.old.width) grid.new }
    ensures plane { ArePlanesAlike grid.old grid.new }
    ensures same { E.words words.new ≡ E.words words.old }
{
    let size = map.tile_width();
    let count = grid.width() / size;
    for part in 0..count {
        settle_stretch(map, tiles, words, grid, part * size, size, y);
    }
}

/// Gives each live site its settled atom.
fn settle_sites<B: Behave, E: EdgeWords>(
    map: &Map,
    tiles: &[Tile<B>],
    words: &mut E,
    grid: &mut Grid,
)
    requires grid { IsPlaneGrid map.now grid.old }
    requires tiles { AreTilesOf map.now (values_of tiles.now) }
    requires words { AreEdgeWords map.now (E.words words.old) }
    ensures grid { IsSettled map.now (values_of tiles.now) (registers_at (E.words words.old).histories) grid.new }
    ensures same { E.words words.new ≡ E.words words.old }
{
    map.laws();
    for y in 0..grid.height() {
        settle_row(map, tiles, words, grid, y);
    }
}

/// The logs of some tiles, in their order.
fn logs<B: Behave + Drop>(alloc: Global, tiles: Vec<Tile<B>>) -> Result<Vec<TileLog>, NoMemory>
    requires { All (λ t. IsMade t.core.cache.map t.core) tiles.items }
    ensures { IfOk result (λ v. v.items ≡ logs_of (values_of tiles.items)) }
{
    let mut logs = Vec::new(alloc);
    for tile in tiles {
        logs.push(tile.into_log())?;
    }
    Ok(logs)
}

/// Settles a run: the newest atom of each live site, and the logs of all tiles as one journal.
///
/// There is one tile for each of the map's, made with it, and each is finished or worn out; what
/// the tiles did on their edges are the histories that end with these words. Then no tile is worn
/// out, and all events stand in one serial order: the journal accounts for each attempt, its stamps
/// are those of Lamport's rule, each attempt that was given up is excused, and the grid is what the
/// journal's events make of the start, one after another on one grid. This holds for any start and
/// plan from which the tiles have played.
///
/// It writes into a grid of the map's plane, whose atoms it replaces: the one that the run started
/// with will do. `NoMemory` if there is none for the list of logs; grid and tiles are dropped then.
pub fn settle<B: Behave + Drop, E: EdgeWords>(
    alloc: Global,
    map: &Map,
    grid: Grid,
    tiles: Vec<Tile<B>>,
    words: &mut E,
) -> Result<Outcome, NoMemory>
    requires grid { IsGridOf map.now grid }
    requires made { All (λ t. IsMade map.now t.core) tiles.items }
    requires words { AreEdgeWords map.now (E.words words.old) }
    requires over { AreOver map.now (values_of tiles.items) (E.words words.old).histories }
    ensures settled { IfOk result (λ o. Settles map.now (values_of tiles.items) (E.words words.old).histories o) }
    ensures same { E.words words.new ≡ E.words words.old }
{
    let mut grid = grid;
    settle_sites(map, tiles.as_slice(), words, &mut grid);
    let logs = logs(alloc, tiles)?;
    Ok(Outcome {
        grid,
        journal: Journal::of_logs(logs),
    })
}
