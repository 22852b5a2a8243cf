//! A leg of a chain.
ghost use Rattle.std.specs.Prelude.{◌≡◌, ℕ, List, IfOk};
ghost use Rattle.chain_run.specs.Between.{IsBetween};
ghost use Rattle.chain_text.specs.Chain.{IsChain};
ghost use Rattle.chain_text.specs.Legs.{act_seed, leg_plan};
ghost use Rattle.chain_text.specs.Values.{chain_value};
ghost use Rattle.plane_acts.specs.Schedules.{acts};
ghost use Rattle.world_runs.specs.Worlds.{CanRun};

use cell_grid::Grid;
use chain_text::Chain;
use draw_stream::AttemptPlan;
use feast_base::NoMemory;
use std::alloc::Global;
use tile_map::Map;

/// A leg of a chain, by its number.
#[derive(Clone, Copy)]
pub struct LegOf<'a> {
    /// The chain.
    pub chain: &'a Chain,
    /// The number of the leg, from 1, whatever the number of the first one is.
    pub number: u32,
}

/// Which tiles of a map are off.
fn marks(alloc: Global, map: &Map) -> Result<Vec<bool>, NoMemory>
    ensures { IfOk result (λ v. v.items ≡ map.now.off) }
{
    let mut off = Vec::new(alloc);
    for tile in 0..map.tiles() {
        off.push(!map.is_on(tile))?;
    }
    Ok(off)
}

impl<'a> LegOf<'a> {
    /// The attempts of the leg, by its seed. `NoMemory` if there is none for the marks of the tiles.
    pub(crate) fn plan(self, alloc: Global) -> Result<AttemptPlan, NoMemory>
        requires chain { (names : List (List ℕ)) × IsChain names (chain_value self.chain.now) }
        ensures plan { IfOk result (λ p. p ≡ leg_plan (chain_value self.entry.chain.now) self.entry.number) }
        ensures runs { IfOk result (λ p. CanRun (chain_value self.entry.chain.now).plane p) }
    {
        let chain = self.chain;
        let off = marks(alloc, &chain.map)?;
        let sites = u64::from(chain.map.tile_sites());
        let seed = chain.leg_seed(self.number);
        let count = chain.leg_attempts(self.number);
        AttemptPlan::seeded(alloc, seed, count, off.as_slice(), sites)
    }

    /// Does the acts before the leg. All atoms that they leave are empty or have names, as those
    /// before do.
    pub(crate) fn act(self, grid: &mut Grid)
        requires between { (names : List (List ℕ)) × IsChain names (chain_value self.chain.now) × IsBetween names (chain_value self.chain.now) grid.old }
        ensures grid { let c = chain_value self.entry.chain.now in grid.new ≡ acts c.schedule self.entry.number (act_seed c self.entry.number) grid.old }
        ensures between { (names : List (List ℕ)) → IsChain names (chain_value self.entry.chain.now) → IsBetween names (chain_value self.entry.chain.now) grid.old → IsBetween names (chain_value self.entry.chain.now) grid.new }
    {
        let chain = self.chain;
        let seed = chain.act_seed(self.number);
        chain.schedule.act_before(self.number, seed, grid);
    }
}
