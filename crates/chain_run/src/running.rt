//! A leg with a worker for each tile.
ghost use Rattle.std.specs.Prelude.{◌≡◌, ◌≢◌, IfOk, List, ℕ};
ghost use Rattle.chain_run.specs.Between.{CanBegin, IsLegLeft};
ghost use Rattle.chain_run.specs.Chains.{making};
ghost use Rattle.chain_run.specs.Runs.{IsRunLeg};
ghost use Rattle.chain_text.specs.Values.{chain_value};
ghost use Rattle.tile_map.specs.Plane.{tiles_of};
ghost use Rattle.world_runs.specs.Fresh.{OfTheMeaning};

use crate::leg::LegOf;
use cell_grid::{Behave, Grid};
use feast_base::{Gate, NoMemory};
use serial_order::Outcome;
use std::alloc::Global;
use std::thread::Threads;
use world_runs::{journal, threaded_from};

/// A leg of a plane of one tile. No other tile shares a site with it, so its events are made on the flat
/// grid, with no copies of sites.
fn ran_alone<B: Behave + Drop, G: Gate>(
    alloc: Global,
    leg: LegOf<'_>,
    grid: Grid,
    behaves: Vec<B>,
    gate: &G,
) -> Result<Outcome, NoMemory>
    requires begins { (names : List (List ℕ)) × CanBegin B.after names (chain_value leg.chain.now) grid behaves.items }
    requires alone { tiles_of (chain_value leg.chain.now).plane ≡ 1 }
    ensures run { IfOk result (λ o. OfTheMeaning B.after behaves.items (λ meaning. IsRunLeg (making (chain_value leg.entry.chain.now) meaning) leg.entry.number grid o)) }
    ensures left { IfOk result (λ o. (names : List (List ℕ)) → CanBegin B.after names (chain_value leg.entry.chain.now) grid behaves.items → IsLegLeft names (chain_value leg.entry.chain.now) o) }
{
    let mut grid = grid;
    let mut behaves = behaves;
    leg.act(&mut grid);
    let plan = leg.plan(alloc)?;
    let journal = journal(alloc, &leg.chain.map, &plan, gate)?;
    // What holds of every journal is known once it is read.
    let _tiles = journal.tiles();
    grid.replay(journal.log(0).records(), &mut behaves[0]);
    Ok(Outcome { grid, journal })
}

/// A leg of a plane of several tiles.
fn ran_together<R: Threads + Sync, B: Behave + Send + Drop, G: Gate>(
    rt: &R,
    alloc: Global,
    leg: LegOf<'_>,
    grid: Grid,
    behaves: Vec<B>,
    gate: &G,
) -> Result<Outcome, NoMemory>
    requires begins { (names : List (List ℕ)) × CanBegin B.after names (chain_value leg.chain.now) grid behaves.items }
    requires several { tiles_of (chain_value leg.chain.now).plane ≢ 1 }
    ensures run { IfOk result (λ o. OfTheMeaning B.after behaves.items (λ meaning. IsRunLeg (making (chain_value leg.entry.chain.now) meaning) leg.entry.number grid o)) }
    ensures left { IfOk result (λ o. (names : List (List ℕ)) → CanBegin B.after names (chain_value leg.entry.chain.now) grid behaves.items → IsLegLeft names (chain_value leg.entry.chain.now) o) }
{
    let mut grid = grid;
    leg.act(&mut grid);
    let plan = leg.plan(alloc)?;
    let outcome = threaded_from(rt, alloc, &leg.chain.map, &plan, grid, behaves, gate)?;
    // What holds of every journal is known once it is read.
    let _tiles = outcome.journal.tiles();
    Ok(outcome)
}

/// Runs a leg from the grid that the one before it left: first its acts, and then its attempts with a
/// worker for each tile, side by side in threads, as a world's are; the gate is called before each
/// attempt, with the number of the tile and that of the attempt, which is counted from 0 in each leg. A
/// plane of one tile is run on the flat grid, and what is left is the same each time. The values that act
/// are one for each tile, and all have one meaning. `NoMemory` if there is none for the leg.
pub fn run_leg<R: Threads + Sync, B: Behave + Send + Drop, G: Gate>(
    rt: &R,
    alloc: Global,
    leg: LegOf<'_>,
    grid: Grid,
    behaves: Vec<B>,
    gate: &G,
) -> Result<Outcome, NoMemory>
    requires begins { (names : List (List ℕ)) × CanBegin B.after names (chain_value leg.chain.now) grid behaves.items }
    ensures run { IfOk result (λ o. OfTheMeaning B.after behaves.items (λ meaning. IsRunLeg (making (chain_value leg.entry.chain.now) meaning) leg.entry.number grid o)) }
    ensures left { IfOk result (λ o. (names : List (List ℕ)) → CanBegin B.after names (chain_value leg.entry.chain.now) grid behaves.items → IsLegLeft names (chain_value leg.entry.chain.now) o) }
{
    if leg.chain.map.tiles() == 1 {
        ran_alone(alloc, leg, grid, behaves, gate)
    } else {
        ran_together(rt, alloc, leg, grid, behaves, gate)
    }
}
