//! The grids that events leave of a world.
ghost use Rattle.std.specs.Prelude.{◌≡◌, ◌≤◌, All, IfOk, length, take};
ghost use Rattle.feast_run.specs.Answer.{grid_after};
ghost use Rattle.feast_run.specs.Values.{IsReady, elements_value, ready_value};
ghost use Rattle.report_text.specs.Report.{AreNamed};
ghost use Rattle.world_runs.specs.Worlds.{IsLiveEvent};
ghost use Rattle.world_text.specs.Values.{world_value};

use crate::worlds::Ready;
use cell_grid::{Grid, Record};
use event_film::rewind;
use feast_base::NoMemory;
use std::alloc::Global;
use world_runs::{replay_world, start};

/// The grid that some events leave of a world, by what its elements do.
pub fn grid_after(alloc: Global, ready: &Ready, records: &[Record]) -> Result<Grid, NoMemory>
    requires ready { IsReady ready.now }
    requires live { All (IsLiveEvent (world_value ready.now.world).plane) records.now }
    ensures grid { IfOk result (λ g. g ≡ grid_after (ready_value ready.now) records.now) }
    ensures named { IfOk result (λ g. AreNamed (elements_value ready.now.elements).names g.atoms) }
{
    let mut actor = ready.elements.actor(alloc)?;
    replay_world(alloc, &ready.world, records, &mut actor)
}

/// The grid that the first `left` of some events leave of a world, by what its elements do: all of them
/// are made, and then the others are undone, the last one first.
pub fn grid_rewound(
    alloc: Global,
    ready: &Ready,
    records: &[Record],
    left: usize,
) -> Result<Grid, NoMemory>
    requires ready { IsReady ready.now }
    requires live { All (IsLiveEvent (world_value ready.now.world).plane) records.now }
    requires enough { left ≤ length records.now }
    ensures grid { IfOk result (λ g. g ≡ grid_after (ready_value ready.now) (take left records.now)) }
    ensures named { IfOk result (λ g. AreNamed (elements_value ready.now.elements).names g.atoms) }
{
    let first = start(alloc, &ready.world)?;
    let mut actor = ready.elements.actor(alloc)?;
    rewind(alloc, first, records, left, &mut actor)
}
