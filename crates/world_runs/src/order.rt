//! The order of a stepped run.
ghost use Rattle.std.specs.Prelude.{◌≡◌, ◌*◌, ◌<◌, ◌≤◌, All, length};
ghost use Rattle.tile_map.specs.Plane.{tiles_of};
ghost use Rattle.world_text.specs.Values.{world_value, order_value};
ghost use Rattle.world_runs.specs.Orders.{IsOrder, attempts_in, drawn_order, order_in};
ghost use Rattle.feast_base.specs.declared.limits.TheConstants.{MOST_ATTEMPTS, MOST_TILES};

use crate::turns::Turns;
use draw_stream::AttemptPlan;
use world_text::{Order, World};

/// How many attempts the tiles of a plan have together, at most 1,000,000.
fn attempts_of(plan: &AttemptPlan, tiles: u32) -> u32
    requires { tiles ≡ length plan.now.lists }
    ensures value { result ≡ attempts_in plan.now }
    ensures most { result ≤ MOST_ATTEMPTS }
{
    let mut sum = 0u32;
    for tile in 0..tiles {
        sum += plan.count(tile) as u32;
    }
    sum
}

/// The tiles that a seed draws for the stepped run of a plan: 16 for each attempt of all its tiles.
/// It takes no memory.
pub fn drawn_turns<'a>(seed: u64, plan: &AttemptPlan, tiles: u32) -> Turns<'a>
    requires some { 1 ≤ tiles }
    requires most { tiles ≤ MOST_TILES }
    requires lists { tiles ≡ length plan.now.lists }
    ensures value { result ≡ drawn_order seed tiles (16 * attempts_in plan.now) }
    ensures tiles { All (λ t. t < tiles) result }
{
    Turns::drawn(seed, tiles, 8 * attempts_of(plan, tiles))
}

/// The order of a world's stepped run, a tile for each step: the tiles that are written out, or 16
/// for each attempt of all tiles, drawn from a seed. It takes no memory.
pub fn order_of(world: &World) -> Turns<'_>
    requires tiles { (1 ≤ tiles_of (world_value world.now).plane) × (tiles_of (world_value world.now).plane ≤ MOST_TILES) }
    requires lists { length world.now.plan.lists ≡ tiles_of (world_value world.now).plane }
    requires order { IsOrder (world_value world.now).plane (order_value world.now.order) }
    ensures value { result ≡ order_in (world_value world.now) }
    ensures tiles { All (λ t. t < tiles_of (world_value world.now).plane) result }
{
    let tiles = world.map.tiles();
    match &world.order {
        Order::List(turns) => Turns::listed(turns.as_slice()),
        Order::Seed(seed) => drawn_turns(*seed, &world.plan, tiles),
    }
}
