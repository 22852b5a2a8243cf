//! Stepped runs.
ghost use Rattle.std.specs.Prelude.{◌≡◌, ◌<◌, ℕ, All, IfOk, length};
ghost use Rattle.event_journal.specs.Serial.{course};
ghost use Rattle.plane_grid.specs.PlaneGrids.{IsGridOf};
ghost use Rattle.stepped_world.specs.Ends.{IsOutcome};
ghost use Rattle.window_sites.specs.Window.{WindowValue};
ghost use Rattle.tile_map.specs.Plane.{tiles_of};
ghost use Rattle.world_runs.specs.Worlds.{CanRun, IsWorld};
ghost use Rattle.world_text.specs.Values.{world_value, order_value};
ghost use Rattle.world_runs.specs.Fresh.{OfTheMeaning};
ghost use Rattle.world_runs.specs.OneOrder.{IsSteppedRun};
ghost use Rattle.world_runs.specs.Orders.{IsOrder};

use crate::order::order_of;
use crate::plans::plan_fits;
use crate::starting::start;
use crate::tiles::fresh_tiles;
use crate::turns::Turns;
use cell_grid::{Behave, Grid};
use draw_stream::AttemptPlan;
use edge_lock::PlainBoard;
use feast_base::NoMemory;
use serial_order::Outcome;
use std::alloc::Global;
use stepped_world::run_settled;
use tile_map::Map;
use world_text::World;

/// The stepped run of a plan from a start grid, on one thread, settled: its grid and its journal are
/// those of the stepped machine, and all its events stand in one serial order, that of the journal.
/// The order names tiles of the map. There is one value that acts for each tile, and all have one
/// meaning. `NoMemory` if the tiles or the board can't be made, or the list of their logs.
pub fn stepped_from<B: Behave + Drop>(
    alloc: Global,
    map: &Map,
    plan: &AttemptPlan,
    start: Grid,
    behaves: Vec<B>,
    order: Turns<'_>,
) -> Result<Outcome, NoMemory>
    requires plan { CanRun map.now plan.now }
    requires start { IsGridOf map.now start }
    requires one { length behaves.items ≡ tiles_of map.now }
    requires meaning { (meaning : WindowValue → ℕ → WindowValue) × All (λ b. B.after b ≡ meaning) behaves.items }
    requires order { All (λ t. t < tiles_of map.now) order }
    ensures { IfOk result (λ o. OfTheMeaning B.after behaves.items (λ meaning. IsOutcome (course map.now plan.now meaning start) order.entry o)) }
{
    map.laws();
    plan_fits(plan);
    let tiles = fresh_tiles(alloc, map, &start, plan, behaves)?;
    let board = PlainBoard::new(alloc, map)?;
    run_settled(alloc, map, start, tiles, board, order)
}

/// The stepped run of a world in its order, as `stepped_from` makes it from the grid that the world
/// starts with. `NoMemory` if that grid can't be made, or what the run needs.
pub fn stepped<B: Behave + Drop>(
    alloc: Global,
    world: &World,
    behaves: Vec<B>,
) -> Result<Outcome, NoMemory>
    requires world { IsWorld (world_value world.now) }
    requires order { IsOrder (world_value world.now).plane (order_value world.now.order) }
    requires one { length behaves.items ≡ tiles_of (world_value world.now).plane }
    requires meaning { (meaning : WindowValue → ℕ → WindowValue) × All (λ b. B.after b ≡ meaning) behaves.items }
    ensures { IfOk result (λ o. OfTheMeaning B.after behaves.items (IsSteppedRun (world_value world.now) o)) }
{
    let map = &world.map;
    map.laws();
    let grid = start(alloc, world)?;
    let order = order_of(world);
    stepped_from(alloc, map, &world.plan, grid, behaves, order)
}
