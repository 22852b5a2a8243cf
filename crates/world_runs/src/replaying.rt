//! The replay of records in a world.
ghost use Rattle.std.specs.Prelude.{◌≡◌, All, IfOk};
ghost use Rattle.cell_grid.specs.Records.{replay};
ghost use Rattle.world_runs.specs.Known.{KeepsKnown};
ghost use Rattle.world_runs.specs.Start.{start_of};
ghost use Rattle.world_runs.specs.Worlds.{IsLiveEvent, IsWorld};
ghost use Rattle.world_text.specs.Values.{world_value};

use crate::starting::start;
use cell_grid::{Behave, Grid, Record};
use feast_base::NoMemory;
use std::alloc::Global;
use world_text::World;

/// The grid that the events of some records leave, one after another, from the start of a world.
/// Each event is at a live site. If the atoms of the world are of the first n types and no event
/// brings an atom of another type into a window, the grid has none either. `NoMemory` if there is
/// not enough memory for the grid.
pub fn replay_world<B: Behave>(
    alloc: Global,
    world: &World,
    records: &[Record],
    behave: &mut B,
) -> Result<Grid, NoMemory>
    requires world { IsWorld (world_value world.now) }
    requires live { All (IsLiveEvent (world_value world.now).plane) records.now }
    ensures grid { IfOk result (λ g. g ≡ replay (B.after behave.old) (start_of (world_value world.now)) records.now) }
    ensures known { IfOk result (KeepsKnown world.now.atoms.items (B.after behave.old)) }
    ensures meaning { B.after behave.new ≡ B.after behave.old }
{
    let mut grid = start(alloc, world)?;
    grid.replay(records, behave);
    Ok(grid)
}
