//! Worked runs.
ghost use Rattle.std.specs.Prelude.{◌≤◌, length};
ghost use Rattle.tile_map.specs.Plane.{AreSizes};

use crate::plans::{Shape, Try};
use crate::runs::{fresh, start};
use cell_grid::Behave;
use feast_base::{Gate, NoMemory};
use serial_order::{Outcome, settle};
use std::alloc::Global;
use std::thread::Threads;
use tile_map::Map;
use tile_threads::run_shared;

/// A run of a plane without tiles that are off, with a worker for each tile: one atom of type 1 and
/// state 0 at the site, and the attempts in their order. Each worker passes the gate.
pub fn run<R: Threads + Sync, B: Behave + Copy + Send + Drop, G: Gate>(
    rt: &R,
    alloc: Global,
    shape: Shape,
    site: (u32, u32),
    tries: &[Try],
    behave: B,
    gate: &G,
) -> Result<Outcome, NoMemory>
    requires sizes { AreSizes shape.tx shape.ty shape.w shape.h }
    requires few { length tries.now ≤ 100 }
{
    let map = Map::new(alloc, shape.tx, shape.ty, shape.w, shape.h)?;
    let fresh = fresh(alloc, &map, shape, site, tries, behave)?;
    let (played, mut edges) = run_shared(rt, alloc, &map, fresh, gate)?;
    let grid = start(alloc, &map, site.0, site.1)?;
    settle(alloc, &map, grid, played, &mut edges)
}
