//! A stepped leg.
ghost use Rattle.std.specs.Prelude.{IfOk, List, ℕ};
ghost use Rattle.chain_run.specs.Between.{CanBegin, IsLegLeft};
ghost use Rattle.chain_run.specs.Runs.{IsStepLeg};
ghost use Rattle.chain_text.specs.Values.{chain_value};
ghost use Rattle.world_runs.specs.Fresh.{OfTheMeaning};

use crate::leg::LegOf;
use cell_grid::{Behave, Grid};
use feast_base::NoMemory;
use serial_order::Outcome;
use std::alloc::Global;
use world_runs::{drawn_turns, stepped_from};

/// Steps a leg on one thread from the grid that the one before it left: first its acts, and then its
/// attempts in the order that the leg's seed gives, and one tile after another. The values that act are one
/// for each tile, and all have one meaning. `NoMemory` if there is none for the leg.
pub fn step_leg<B: Behave + Drop>(
    alloc: Global,
    leg: LegOf<'_>,
    grid: Grid,
    behaves: Vec<B>,
) -> Result<Outcome, NoMemory>
    requires begins { (names : List (List ℕ)) × CanBegin B.after names (chain_value leg.chain.now) grid behaves.items }
    ensures run { IfOk result (λ o. OfTheMeaning B.after behaves.items (λ meaning. IsStepLeg (chain_value leg.entry.chain.now) meaning leg.entry.number grid o)) }
    ensures left { IfOk result (λ o. (names : List (List ℕ)) → CanBegin B.after names (chain_value leg.entry.chain.now) grid behaves.items → IsLegLeft names (chain_value leg.entry.chain.now) o) }
{
    let map = &leg.chain.map;
    let mut grid = grid;
    leg.act(&mut grid);
    let plan = leg.plan(alloc)?;
    let order = drawn_turns(leg.chain.order_seed(leg.number), &plan, map.tiles());
    let outcome = stepped_from(alloc, map, &plan, grid, behaves, order)?;
    // What holds of every journal is known once it is read.
    let _tiles = outcome.journal.tiles();
    Ok(outcome)
}
