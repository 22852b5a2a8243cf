//! Grids that are put.
ghost use Rattle.report_text.specs.Report.{AreNamed};
ghost use Rattle.std.specs.Prelude.{◌≤◌, IfOk, length};
ghost use Rattle.world_text.specs.Printed.{IsPrintable};
ghost use Rattle.world_text.specs.Values.{world_value};

use crate::worlds::{names, world};
use cell_grid::Grid;
use feast_base::{MemSink, Name, NoMemory};
use report_text::write_grid;
use std::alloc::Global;
use std::test::Fail;
use world_text::World;

/// Worlds with atoms, and how their grids are shown.
const SHOWN: [(&str, &str); 3] = [
    (
        "feast 1\ntiles 2 1\nsize 16 16\ntry 0 15 4 0000000000000000\ntry 1 16 4 0000000000000000\natom 17 4 Walker\n",
        "feast 1\natoms 1\n17 4 Walker 000000000000000000\n",
    ),
    (
        "feast 2\ntiles 2 1\nsize 16 16\noff 1\ntry 0 15 4 0000000000000000\natom 15 4 Walker\n",
        "feast 1\natoms 1\n15 4 Walker 000000000000000000\n",
    ),
    (
        "feast 1\ntiles 1 1\nsize 8 8\natom 4 3 Walker 00000000000000000a\natom 3 3 Stone\n",
        "feast 1\natoms 2\n3 3 Stone 000000000000000000\n4 3 Walker 00000000000000000a\n",
    ),
];

/// The grid of a world, with its atoms.
fn grid(alloc: Global, world: &World, names: &[Name]) -> Result<Grid, NoMemory>
    requires { IsPrintable names.now (world_value world.now) }
    ensures { IfOk result (λ g. AreNamed names.now g.atoms) }
{
    let mut grid = Grid::new(alloc, world.map.width(), world.map.height())?;
    for placed in world.atoms.as_slice() {
        let (x, y) = (placed.x, placed.y);
        if x < grid.width() && y < grid.height() && grid.is_live(x, y) {
            grid.set(x, y, placed.atom);
        }
    }
    Ok(grid)
}

/// Whether a grid is put as these bytes.
fn is_put_as(alloc: Global, grid: &Grid, names: &[Name], wanted: &str) -> Result<bool, NoMemory>
    requires { AreNamed names.now grid.now.atoms }
{
    let mut sink = MemSink::new(alloc, Vec::new(alloc), 1000)?;
    let put = write_grid(grid, names, &mut sink);
    Ok(put.is_ok() && sink.written() == wanted.as_bytes())
}

/// The same of the grid of a world at its start. The text has to be a world.
fn is_shown_as(alloc: Global, text: &str, names: &[Name], wanted: &str) -> Result<bool, NoMemory>
    requires { length names.now ≤ 65535 }
{
    let Some(world) = world(alloc, text.as_bytes(), names) else {
        return Ok(false);
    };
    let grid = grid(alloc, &world, names)?;
    is_put_as(alloc, &grid, names, wanted)
}

#[test]
fn a_grid_is_put_as_it_is_shown(rt: HostRuntime) -> Result<(), Fail> {
    let names = names(rt.alloc())?;
    for (text, wanted) in SHOWN {
        let is_shown = is_shown_as(rt.alloc(), text, names.as_slice(), wanted)?;
        assert!(rt; is_shown, "{text}");
    }
    Ok(())
}
