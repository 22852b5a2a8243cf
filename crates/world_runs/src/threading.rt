//! Runs with a worker for each tile.
ghost use Rattle.std.specs.Prelude.{◌≡◌, ℕ, All, IfOk, length};
ghost use Rattle.event_journal.specs.Serial.{course};
ghost use Rattle.plane_grid.specs.PlaneGrids.{IsGridOf};
ghost use Rattle.serial_order.specs.Outcomes.{StandsInOneOrder};
ghost use Rattle.window_sites.specs.Window.{WindowValue};
ghost use Rattle.tile_map.specs.Plane.{tiles_of};
ghost use Rattle.world_runs.specs.Worlds.{CanRun, IsWorld};
ghost use Rattle.world_text.specs.Values.{world_value};
ghost use Rattle.world_runs.specs.Fresh.{OfTheMeaning};
ghost use Rattle.world_runs.specs.OneOrder.{IsThreadedRun};

use crate::plans::plan_fits;
use crate::starting::start;
use crate::tiles::fresh_tiles;
use cell_grid::{Behave, Grid};
use draw_stream::AttemptPlan;
use feast_base::{Gate, NoMemory};
use serial_order::{Outcome, settle};
use std::alloc::Global;
use std::thread::Threads;
use tile_map::Map;
use tile_threads::run_shared;
use world_text::World;

/// The run of a plan from a start grid, with a worker for each tile, side by side in threads,
/// settled: in whatever order they make their steps, all events stand in one serial order, that of
/// the journal. Each worker calls the gate before each attempt. There is one value that acts for
/// each tile, and all have one meaning. `NoMemory` if the tiles or the edges can't be made, or the
/// list of the tiles' logs.
pub fn threaded_from<R: Threads + Sync, B: Behave + Send + Drop, G: Gate>(
    rt: &R,
    alloc: Global,
    map: &Map,
    plan: &AttemptPlan,
    start: Grid,
    behaves: Vec<B>,
    gate: &G,
) -> Result<Outcome, NoMemory>
    requires plan { CanRun map.now plan.now }
    requires start { IsGridOf map.now start }
    requires one { length behaves.items ≡ tiles_of map.now }
    requires meaning { (meaning : WindowValue → ℕ → WindowValue) × All (λ b. B.after b ≡ meaning) behaves.items }
    ensures { IfOk result (λ o. OfTheMeaning B.after behaves.items (λ meaning. StandsInOneOrder (course map.now plan.now meaning start) o)) }
{
    map.laws();
    plan_fits(plan);
    let tiles = fresh_tiles(alloc, map, &start, plan, behaves)?;
    let (tiles, mut edges) = run_shared(rt, alloc, map, tiles, gate)?;
    settle(alloc, map, start, tiles, &mut edges)
}

/// The run of a world with a worker for each tile, as `threaded_from` makes it from the grid that
/// the world starts with. `NoMemory` if that grid can't be made, or what the run needs.
pub fn threaded<R: Threads + Sync, B: Behave + Send + Drop, G: Gate>(
    rt: &R,
    alloc: Global,
    world: &World,
    behaves: Vec<B>,
    gate: &G,
) -> Result<Outcome, NoMemory>
    requires world { IsWorld (world_value world.now) }
    requires one { length behaves.items ≡ tiles_of (world_value world.now).plane }
    requires meaning { (meaning : WindowValue → ℕ → WindowValue) × All (λ b. B.after b ≡ meaning) behaves.items }
    ensures { IfOk result (λ o. OfTheMeaning B.after behaves.items (IsThreadedRun (world_value world.now) o)) }
{
    let grid = start(alloc, world)?;
    threaded_from(rt, alloc, &world.map, &world.plan, grid, behaves, gate)
}
