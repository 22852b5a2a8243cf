//! A grid of a plane without an atom.
ghost use Rattle.std.specs.Prelude.{◌≡◌, ◌<◌, ◌+◌, IfOk};
ghost use Rattle.tile_map.specs.Plane.{tiles_of};
ghost use Rattle.plane_grid.specs.BlankGrid.{IsShutTo, blank_grid};
ghost use Rattle.plane_grid.specs.PlaneGrids.{IsPlaneGrid};

use cell_grid::Grid;
use feast_base::NoMemory;
use std::alloc::Global;
use tile_map::Map;

/// Makes the rectangle of a tile not live, if the tile is off.
fn shut_off(map: &Map, tile: u32, grid: &mut Grid)
    requires tile { tile < tiles_of map.now }
    requires grid { IsShutTo map.now tile grid.old }
    ensures { IsShutTo map.now (tile + 1) grid.new }
{
    map.laws();
    if map.is_on(tile) {
        return;
    }
    let (left, top) = map.site_of(tile, 0);
    grid.shut(left, top, map.tile_width(), map.tile_height());
}

/// A grid of the map's plane with its live sites, all of them empty. `NoMemory` if there is no
/// memory for it.
pub fn blank_grid(alloc: Global, map: &Map) -> Result<Grid, NoMemory>
    ensures grid { IfOk result (λ g. g ≡ blank_grid map.now) }
    ensures fits { IfOk result (λ g. IsPlaneGrid map.now g) }
{
    let mut grid = Grid::new(alloc, map.width(), map.height())?;
    for tile in 0..map.tiles() {
        shut_off(map, tile, &mut grid);
    }
    Ok(grid)
}
