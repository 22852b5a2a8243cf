//! Worked runs.
ghost use Rattle.std.specs.Prelude.{◌≡◌, ◌≤◌, IfOk, length};
ghost use Rattle.tile_map.specs.Plane.{AreSizes, whole_plane};
ghost use Rattle.serial_order.specs.Fresh.{AreFresh};
ghost use Rattle.serial_order.specs.Scene.{InSomeCourse};
ghost use Rattle.plane_grid.specs.PlaneGrids.{IsPlaneGrid};

use crate::driving::{drive, settled, tiles};
use crate::plans::{Shape, Try, plan};
use bit_field::Atom;
use cell_grid::{Behave, Grid};
use edge_lock::PlainBoard;
use feast_base::NoMemory;
use plane_grid::blank_grid;
use serial_order::Outcome;
use std::alloc::Global;
use tile_core::Tile;
use tile_map::Map;

/// Gives a site of a grid an atom of type 1 and state 0, if the site is live.
fn put(map: &Map, grid: &mut Grid, x: u32, y: u32)
    requires { IsPlaneGrid map.now grid.old }
    ensures { IsPlaneGrid map.now grid.new }
{
    map.laws();
    if !map.is_live(x, y) {
        return;
    }
    grid.set(x, y, Atom::new(1, 0));
}

/// A grid of a map's plane with one atom, of type 1 and state 0, if the site is live.
pub fn start(alloc: Global, map: &Map, x: u32, y: u32) -> Result<Grid, NoMemory>
    ensures { IfOk result (λ g. IsPlaneGrid map.now g) }
{
    let mut grid = blank_grid(alloc, map)?;
    put(map, &mut grid, x, y);
    Ok(grid)
}

/// The tiles of a plane of this shape, with one atom at the site, if it is live, and the attempts in
/// their order.
pub fn fresh<B: Behave + Copy + Drop>(
    alloc: Global,
    map: &Map,
    shape: Shape,
    site: (u32, u32),
    tries: &[Try],
    behave: B,
) -> Result<Vec<Tile<B>>, NoMemory>
    requires sizes { AreSizes shape.tx shape.ty shape.w shape.h }
    requires map { map.now ≡ whole_plane shape.tx shape.ty shape.w shape.h }
    requires few { length tries.now ≤ 100 }
    ensures { IfOk result (λ v. InSomeCourse map.now (λ c. AreFresh B.after c v.items)) }
{
    let start = start(alloc, map, site.0, site.1)?;
    let plan = plan(alloc, shape, tries)?;
    let tiles = tiles(alloc, map, &start, &plan, behave)?;
    Ok(tiles)
}

/// A run of a plane without tiles that are off: one atom of type 1 and state 0 at the site, the
/// attempts in their order, steps of the tiles that `order` names, and then of one tile after
/// another. None if some tile is not finished by then.
pub fn run<B: Behave + Copy + Drop>(
    alloc: Global,
    shape: Shape,
    site: (u32, u32),
    tries: &[Try],
    order: &[u32],
    behave: B,
) -> Result<Option<Outcome>, NoMemory>
    requires sizes { AreSizes shape.tx shape.ty shape.w shape.h }
    requires few { length tries.now ≤ 100 }
{
    let map = Map::new(alloc, shape.tx, shape.ty, shape.w, shape.h)?;
    map.laws();
    let mut board = PlainBoard::new(alloc, &map)?;
    let mut tiles = fresh(alloc, &map, shape, site, tries, behave)?;
    drive(&map, tiles.as_mut_slice(), &mut board, order);
    let grid = start(alloc, &map, site.0, site.1)?;
    settled(alloc, &map, grid, tiles, &mut board)
}
