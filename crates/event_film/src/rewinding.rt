//! The grid that the first events of a journal leave, by undoing the others.
ghost use Rattle.std.specs.Prelude.{◌≡◌, ◌≤◌, All, IfOk, length, take};
ghost use Rattle.cell_grid.specs.Grid.{ArePlanesAlike, IsLive};
ghost use Rattle.cell_grid.specs.Records.{replay};
ghost use Rattle.cell_grid.specs.declared.record.Record.{Record};
ghost use Rattle.event_film.specs.Rewinding.{IsAt, reel};

use crate::film::Film;
use cell_grid::{Behave, Grid, Record};
use feast_base::NoMemory;
use std::alloc::Global;

/// Makes all events of a journal on a grid and keeps them on a film, which has room for them.
fn run<B: Behave>(film: &mut Film, grid: &mut Grid, records: &[Record], behave: &mut B)
    requires live { All (λ (r : Record). IsLive grid.old r.x r.y) records.now }
    requires fresh { IsAt (B.after behave.old) grid.old records.now 0 (reel film.old grid.old) }
    ensures at { IsAt (B.after behave.old) grid.old records.now (length records.now) (reel film.new grid.new) }
    ensures plane { ArePlanesAlike grid.old grid.new }
{
    for entry in records {
        film.apply(grid, entry, behave);
    }
}

/// The grid that the first `count` of some events, all at live sites, make of a start: all events
/// are made, and then all but the first `count` are undone, the last one first. `NoMemory` if there
/// is none for the film.
pub fn rewind<B: Behave>(
    alloc: Global,
    start: Grid,
    records: &[Record],
    count: usize,
    behave: &mut B,
) -> Result<Grid, NoMemory>
    requires live { All (λ (r : Record). IsLive start r.x r.y) records.now }
    requires count { count ≤ length records.now }
    ensures { IfOk result (λ g. g ≡ replay (B.after behave.old) start (take count records.now)) }
{
    let mut film = Film::new(alloc, records.len())?;
    let mut grid = start;
    run(&mut film, &mut grid, records, behave);
    for _taken in count..records.len() {
        film.undo(&mut grid);
    }
    Ok(grid)
}
