//! The grid before the first leg of a chain.
ghost use Rattle.std.specs.Prelude.{◌≡◌, IfOk};
ghost use Rattle.chain_run.specs.Chains.{first_grid};
ghost use Rattle.chain_run.specs.Between.{IsBetween};
ghost use Rattle.chain_text.specs.Chain.{IsChain};
ghost use Rattle.chain_text.specs.Values.{chain_value};

use cell_grid::Grid;
use chain_text::Chain;
use feast_base::{Name, NoMemory};
use plane_grid::blank_grid;
use std::alloc::Global;

/// The grid before the first leg of a chain and its acts: the chain's atoms. `NoMemory` if there is not
/// enough for the sites.
pub fn first_grid(alloc: Global, chain: &Chain, names: &[Name]) -> Result<Grid, NoMemory>
    requires chain { IsChain names.now (chain_value chain.now) }
    ensures grid { IfOk result (λ g. g ≡ first_grid (chain_value chain.now)) }
    ensures between { IfOk result (λ g. IsBetween names.now (chain_value chain.now) g) }
{
    // Only the contract speaks of the names; they are read so that they are not unused.
    let _names = names.len();
    let mut grid = blank_grid(alloc, &chain.map)?;
    for placed in chain.atoms.as_slice() {
        grid.set(placed.x, placed.y, placed.atom);
    }
    Ok(grid)
}
