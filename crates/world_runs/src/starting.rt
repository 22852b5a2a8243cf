//! The flat grid that a world starts with.
ghost use Rattle.std.specs.Prelude.{◌≡◌, IfOk};
ghost use Rattle.plane_grid.specs.PlaneGrids.{IsGridOf};
ghost use Rattle.world_runs.specs.Start.{start_grid};
ghost use Rattle.world_runs.specs.Worlds.{IsWorld};
ghost use Rattle.world_text.specs.Values.{world_value};

use cell_grid::Grid;
use feast_base::NoMemory;
use plane_grid::blank_grid;
use std::alloc::Global;
use world_text::World;

/// The flat grid that the run of a world starts with: its atoms, on the sites of the tiles that are
/// on. `NoMemory` if there is not enough memory for the sites.
pub fn start(alloc: Global, world: &World) -> Result<Grid, NoMemory>
    requires { IsWorld (world_value world.now) }
    ensures grid { IfOk result (λ g. g ≡ start_grid (world_value world.now).plane world.now.atoms.items) }
    ensures fits { IfOk result (λ g. IsGridOf (world_value world.now).plane g) }
{
    let mut grid = blank_grid(alloc, &world.map)?;
    for placed in world.atoms.as_slice() {
        grid.set(placed.x, placed.y, placed.atom);
    }
    Ok(grid)
}
