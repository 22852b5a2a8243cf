//! The tiles of a plane before their first step.
ghost use Rattle.std.specs.Prelude.{◌≡◌, ◌<◌, ◌≤◌, IfOk, length};
ghost use Rattle.plane_grid.specs.PlaneGrids.{IsGridOf};
ghost use Rattle.draw_stream.specs.Plans.{attempts};
ghost use Rattle.tile_core.specs.Underway.{CanAttempt, IsFreshTile};
ghost use Rattle.tile_core.specs.Values.{atoms_of};
ghost use Rattle.tile_map.specs.Plane.{tiles_of};
ghost use Rattle.world_runs.specs.Fresh.{AllCanAttempt, AreMade};
ghost use Rattle.feast_base.specs.declared.limits.TheConstants.{MOST_TILES};

use cell_grid::{Behave, Grid};
use draw_stream::AttemptPlan;
use feast_base::NoMemory;
use std::alloc::Global;
use tile_core::Tile;
use tile_map::Map;

/// One tile with its attempts of a plan.
fn fresh_tile<B: Behave + Drop>(
    alloc: Global,
    map: &Map,
    start: &Grid,
    plan: &AttemptPlan,
    tile: u32,
    behave: B,
) -> Result<Tile<B>, NoMemory>
    requires start { IsGridOf map.now start.now }
    requires tile { tile < length plan.now.lists }
    requires can { CanAttempt map.now tile (attempts plan.now tile) }
    ensures fresh { IfOk result (λ t. IsFreshTile map.now tile (atoms_of start.now) (attempts plan.now tile) t.core) }
    ensures acts { IfOk result (λ t. t.behave ≡ behave) }
{
    let attempts = plan.of_tile(alloc, tile)?;
    Tile::new(alloc, map, tile, start, attempts, behave)
}

/// How many there are, given that there are no more than there can be tiles.
fn count<T>(items: &[T]) -> u32
    requires { length items.now ≤ MOST_TILES }
    ensures { result ≡ length items.now }
{
    items.len() as u32
}

/// All tiles of a map, in order, each with the atoms of the start grid, its attempts of the plan,
/// and one of the values that act: there is one for each tile. `NoMemory` if a tile can't be made.
pub fn fresh_tiles<B: Behave + Drop>(
    alloc: Global,
    map: &Map,
    start: &Grid,
    plan: &AttemptPlan,
    behaves: Vec<B>,
) -> Result<Vec<Tile<B>>, NoMemory>
    requires start { IsGridOf map.now start.now }
    requires lists { length plan.now.lists ≡ tiles_of map.now }
    requires can { AllCanAttempt map.now plan.now }
    requires one { length behaves.items ≡ tiles_of map.now }
    ensures { IfOk result (λ v. AreMade map.now start.now plan.now behaves.items v.items) }
{
    map.laws();
    let mut tiles = Vec::new(alloc);
    for behave in behaves {
        let tile = fresh_tile(alloc, map, start, plan, count(tiles.as_slice()), behave)?;
        tiles.push(tile)?;
    }
    Ok(tiles)
}
