//! The numbers of a chain's legs.
ghost use Rattle.std.specs.Prelude.{ℕ, ◌≡◌, ◌≤◌, ◌*◌, List, fold};
ghost use Rattle.chain_text.specs.Chain.{IsChain};
ghost use Rattle.draw_stream.specs.Plans.{tiles_on};
ghost use Rattle.feast_base.specs.declared.limits.TheConstants.{MOST_ATTEMPTS};
ghost use Rattle.chain_text.specs.Legs.{act_seed, count_after, count_by, leg_attempts, leg_seed, order_seed};
ghost use Rattle.chain_text.specs.Values.{chain_value};

use crate::chain::Chain;
use plane_acts::{Act, Once};

/// How many attempts each tile draws after an act, if it was this many before.
fn count_after(count: u64, act: &Act) -> u64
    ensures { result ≡ count_after count act.now }
{
    match act {
        Act::Attempts(count) => *count as u64,
        _ => count,
    }
}

/// How many attempts each tile draws in a leg after some acts, if it was this many before.
fn counts_after(count: u64, leg: u32, acts: &[Once]) -> u64
    ensures { result ≡ fold (count_by leg) count acts.now }
{
    let mut count = count;
    for once in acts {
        if once.leg == leg {
            count = count_after(count, &once.act);
        }
    }
    count
}

impl Chain {
    /// The seed of a leg, of its number from 1, whatever the number of the first one is. Each leg
    /// has as many seeds as there are tiles, those that are off included, and two more.
    pub fn leg_seed(&self, leg: u32) -> u64
        ensures { result ≡ leg_seed (chain_value self.now) leg }
    {
        let seeds = self.map.tiles() as u64 + 2;
        self.seed.wrapping_add(leg.saturating_sub(1) as u64 * seeds)
    }

    /// The seed of the order of a leg, if it is stepped.
    pub fn order_seed(&self, leg: u32) -> u64
        ensures { result ≡ order_seed (chain_value self.now) leg }
    {
        self.leg_seed(leg).wrapping_add(self.map.tiles() as u64)
    }

    /// The seed of the acts before a leg.
    pub fn act_seed(&self, leg: u32) -> u64
        ensures { result ≡ act_seed (chain_value self.now) leg }
    {
        self.leg_seed(leg).wrapping_add(self.map.tiles() as u64 + 1)
    }

    /// How many attempts each tile that is on draws in a leg: those of the last act of that leg
    /// that says so, or else the chain's. At most 1,000,000 over all tiles.
    pub fn leg_attempts(&self, leg: u32) -> u64
        ensures value { result ≡ leg_attempts (chain_value self.now) leg }
        ensures few { (names : List (List ℕ)) → IsChain names (chain_value self.now) → result * tiles_on (chain_value self.now).plane.off ≤ MOST_ATTEMPTS }
    {
        counts_after(self.attempts, leg, self.schedule.once())
    }
}
